// The calls of the running encoder on a stream that is lent, each with its report.
ghost use Rattle.std.specs.Prelude.{◌≡◌};
ghost use Rattle.spec.specs.Stream as spec;
ghost use Rattle.memory.specs.Lent.{cells_of};
ghost use Rattle.stream_record.specs.Answers.{answer_of, looked_of, record_of};
ghost use Rattle.reports.specs.Report.{answer_is, looked_report};
ghost use Rattle.reports.specs.Leaves.{Leaves};

use crate::report::Answer;
use memory::Memory;
use stream_record::{Called, Stream, StreamError};
use tally::Tally;

impl From<Result<Tally, StreamError>> for Answer {
    ghost from_gives = { λ called answer. answer_is answer ≡ answer_of called };

    /// A call's answer, with its number: count, offset, byte.
    fn from(called: Result<Tally, StreamError>) -> Answer {
        match called {
            Ok(given) => Answer::whole(given.count),
            Err(StreamError::ShortMemory) => Answer::bare(1),
            Err(StreamError::Ended) => Answer::bare(26),
            Err(StreamError::TooMany) => Answer::bare(25),
            Err(StreamError::OutputShort) => Answer::bare(24),
            Err(
                StreamError::Stopped {
                    given,
                    offset,
                    byte,
                },
            ) => Answer {
                number: 22,
                count: given.count as u64,
                place: u64::from(offset),
                value: u64::from(byte),
            },
        }
    }
}

// The bytes looked at for the ids that were handed out.
fn looked(called: Result<Tally, StreamError>) -> u64
    ensures { result ≡ looked_of called }
{
    match called {
        Ok(given) => given.looked,
        Err(StreamError::Stopped { given, .. }) => given.looked,
        Err(_) => 0,
    }
}

// The number of a call's answer, with its values in the report; the stream is as the call leaves it.
fn reported(called: Called, stream: &mut Stream, report: &mut [u64; 4]) -> u32
    ensures { (result ≡ (answer_of called.answer).number)
        × (report.new ≡ looked_report (answer_of called.answer) (looked_of called.answer)) × (stream.new ≡ called.stream) }
{
    *stream = called.stream;
    Answer::from(called.answer).report_with(looked(called.answer), report)
}

/// An add to a stream that is lent, with its report.
pub fn add(
    memory: Memory,
    stream: &mut Stream,
    piece: &[u8],
    out: &mut [u32],
    report: &mut [u64; 4],
) -> u32
    ensures { Leaves (spec.call_on (cells_of memory.entry) (record_of stream.old) (spec.add piece.now out.old))
        result report.new stream.new out.old out.new }
{
    let called = stream::add(memory, *stream, piece, out);
    reported(called, stream, report)
}

/// An end of a stream that is lent, with its report.
pub fn end(memory: Memory, stream: &mut Stream, out: &mut [u32], report: &mut [u64; 4]) -> u32
    ensures { Leaves (spec.call_on (cells_of memory.entry) (record_of stream.old) (spec.end out.old))
        result report.new stream.new out.old out.new }
{
    let called = stream::end(memory, *stream, out);
    reported(called, stream, report)
}
