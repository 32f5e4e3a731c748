// The record of a stream between two calls: a fresh one, what a call leaves of it, and the refusals of a call, each by a definition of
// `spec`, whatever the record holds.
#![tactic(auto)]

ghost use Rattle.std.specs.Prelude.{◌≡◌, List, ℕ, ◌≤◌, length};
ghost use Rattle.spec.specs.Memory.{padded};
ghost use Rattle.spec.specs.Stream as spec;
ghost use Rattle.stream_record.specs.Answers.{record_of, refusal_of, refused_looked};

use tally::{NO_IDS, Tally};

// Phases of a stream; any other number counts as ended.
// Kept: the C interface; a program lends the record with any number in it.
pub const OPEN: u8 = 0;

pub const STOPPED: u8 = 1;

pub const ENDED: u8 = 2;

/// A stream between two calls: the bytes taken in all, those from the first undecided position on, and where it stopped.
// Kept: C programs lay this out: the held bytes are an array beside their number, and where it stopped stands beside the phase.
#[repr(C)]
#[derive(Clone, Copy)]
pub struct Stream {
    pub total: u32,
    pub stop_offset: u32,
    pub held: [u8; 254],
    pub held_len: u8,
    pub stop_byte: u8,
    pub phase: u8,
}

const FRESH: Stream = Stream {
    total: 0,
    stop_offset: 0,
    held: [0; 254],
    held_len: 0,
    stop_byte: 0,
    phase: OPEN,
};

/// Why a call hands out no ids, or why it stops the stream: numbers 1, 26, 25, 24 and 22 (new or repeated).
#[derive(Clone, Copy, Debug, PartialEq, Eq)]
pub enum StreamError {
    ShortMemory,
    Ended,
    TooMany,
    OutputShort,
    Stopped { given: Tally, offset: u32, byte: u8 },
}

/// A call's answer, which says how many ids it handed out and the bytes looked at for them, and the record that it leaves.
#[derive(Clone, Copy)]
pub struct Called {
    pub stream: Stream,
    pub answer: Result<Tally, StreamError>,
}

/// A new stream.
pub fn fresh() -> Stream
    ensures { record_of result ≡ spec.fresh }
{
    FRESH
}

/// Numbers 26, 22, 25 and 24, for a piece and an output of these lengths.
#[tactic(auto, using(std::proofs::lemmas::Bool::Decides::nat_tests), unfolding(spec::specs::Stream::call_refusal))]
pub fn refused_by(stream: Stream, piece: usize, out: usize) -> Result<(), StreamError>
    ensures refusal { (bytes cells : List ℕ) → length bytes ≡ piece → length cells ≡ out
        → refusal_of result ≡ spec.call_refusal (record_of stream) (spec.add bytes cells) }
    ensures looked { refused_looked result ≡ 0 }
{
    let held = usize::from(stream.held_len);
    let total = stream.total as usize;
    if ENDED <= stream.phase || 254 < held || total < held {
        return Err(StreamError::Ended);
    }
    if stream.phase == STOPPED {
        return Err(StreamError::Stopped {
            given: NO_IDS,
            offset: stream.stop_offset,
            byte: stream.stop_byte,
        });
    }
    if 4294967295 - total < piece {
        return Err(StreamError::TooMany);
    }
    if out < held + piece {
        return Err(StreamError::OutputShort);
    }
    Ok(())
}

// The held bytes of a record, with zeros past them.
fn hold(rest: &[u8]) -> [u8; 254]
    requires { length rest.now ≤ 254 }
    ensures { result ≡ padded rest.now 254 }
{
    let mut held = [0; 254];
    held[..rest.len()].copy_from_slice(rest);
    held
}

/// A call that leaves the stream open, with these bytes held.
pub fn opened(total: u32, rest: &[u8], given: Tally) -> Called
    requires { length rest.now ≤ 254 }
    ensures { (result.answer ≡ Ok given) × (record_of result.stream ≡ spec.holding 0 total rest.now) }
{
    let stream = Stream {
        total,
        held: hold(rest),
        held_len: rest.len() as u8,
        ..FRESH
    };
    Called {
        stream,
        answer: Ok(given),
    }
}

/// A call that stops the stream: held bytes are dropped.
pub fn stopped(total: u32, offset: u32, byte: u8, given: Tally) -> Called
    ensures { (result.answer ≡ Err (StreamError.Stopped given offset byte))
        × (record_of result.stream ≡ spec.stopped_at total offset byte) }
{
    let stream = Stream {
        total,
        stop_offset: offset,
        stop_byte: byte,
        phase: STOPPED,
        ..FRESH
    };
    Called {
        stream,
        answer: Err(StreamError::Stopped {
            given,
            offset,
            byte,
        }),
    }
}
