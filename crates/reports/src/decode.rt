// The answer of a decoding: to bytes, to text or to lossy text.
ghost use Rattle.std.specs.Prelude.{◌≡◌};
ghost use Rattle.decoding.specs.Answers.{answer_of};
ghost use Rattle.reports.specs.Report.{answer_is};

use crate::report::Answer;
use decoding::DecodeError;

impl From<Result<usize, DecodeError>> for Answer {
    ghost from_gives = { λ decoded answer. answer_is answer ≡ answer_of decoded };

    /// A decoding's answer, with its number: bytes written, index (29: the offset), id.
    fn from(decoded: Result<usize, DecodeError>) -> Answer {
        match decoded {
            Ok(len) => Answer::whole(len),
            Err(DecodeError::ShortMemory) => Answer::bare(1),
            Err(DecodeError::Absent { len, index, id }) => Answer {
                number: 27,
                count: len as u64,
                place: index as u64,
                value: u64::from(id),
            },
            Err(DecodeError::Full { len, index }) => Answer {
                number: 28,
                count: len as u64,
                place: index as u64,
                value: 0,
            },
            Err(DecodeError::NotUtf8 { len, offset }) => Answer {
                number: 29,
                count: len as u64,
                place: offset as u64,
                value: 0,
            },
        }
    }
}
