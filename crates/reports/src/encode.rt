// The answer of a whole encoding.
ghost use Rattle.std.specs.Prelude.{◌≡◌};
ghost use Rattle.encoding.specs.Answers.{answer_of, looked_of};
ghost use Rattle.reports.specs.Report.{answer_is, looked_report};

use crate::report::Answer;
use encoding::EncodeError;
use tally::Tally;

impl From<Result<Tally, EncodeError>> for Answer {
    ghost from_gives = { λ encoded answer. answer_is answer ≡ answer_of encoded };

    /// An encoding's answer, with its number: count, offset, byte.
    fn from(encoded: Result<Tally, EncodeError>) -> Answer {
        match encoded {
            Ok(given) => Answer::whole(given.count),
            Err(EncodeError::ShortMemory) => Answer::bare(1),
            Err(
                EncodeError::NoToken {
                    given,
                    offset,
                    byte,
                },
            ) => Answer {
                number: 22,
                count: given.count as u64,
                place: offset as u64,
                value: u64::from(byte),
            },
            Err(EncodeError::Full { given, offset }) => Answer {
                number: 23,
                count: given.count as u64,
                place: offset as u64,
                value: 0,
            },
        }
    }
}

// The bytes looked at for the ids that stand.
fn looked(encoded: Result<Tally, EncodeError>) -> u64
    ensures { result ≡ looked_of encoded }
{
    match encoded {
        Ok(given) => given.looked,
        Err(EncodeError::ShortMemory) => 0,
        Err(EncodeError::NoToken { given, .. }) => given.looked,
        Err(EncodeError::Full { given, .. }) => given.looked,
    }
}

/// The number of an encoding's answer, 0 if none, with its values in the report: count, offset, byte, bytes looked at.
pub fn report_to(encoded: Result<Tally, EncodeError>, report: &mut [u64; 4]) -> u32
    ensures { (result ≡ (answer_of encoded).number) × (report.new ≡ looked_report (answer_of encoded) (looked_of encoded)) }
{
    Answer::from(encoded).report_with(looked(encoded), report)
}
