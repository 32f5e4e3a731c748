// The running encoder: a stream takes a transmission piece by piece and hands out each id as soon as no later byte can change it.
// Each public contract is an equation with a definition of `spec`, whatever memory and record hold.
#![tactic(auto)]

ghost use Rattle.std.specs.Prelude.{◌≡◌, List, [], ◌++◌, ℕ, ◌+◌, ◌-◌, ◌*◌, ◌≤◌, length, take};
ghost use Rattle.spec.specs.Stream as spec;
ghost use Rattle.memory.specs.Lent.{cells_of};
ghost use Rattle.stream_record.specs.Answers.{record_of, refusal_of, refused_looked, Answered};
ghost use Rattle.stream.specs.Handing.{reached, refusal, Hands};

use encoding::EncodeError;
use memory::Memory;
use runs::Ran;
use stream_record::{Called, Stream, StreamError, opened, stopped};
use tally::Tally;

// A call that ends the stream.
fn closed(total: u32, given: Tally) -> Called
    ensures { (result.answer ≡ Ok given) × (record_of result.stream ≡ spec.holding 2 total []) }
{
    let stream = Stream {
        total,
        phase: stream_record::ENDED,
        ..stream_record::fresh()
    };
    Called {
        stream,
        answer: Ok(given),
    }
}

// The held bytes and as many of the piece as a token that starts in them can reach, as one run.
fn join<'a>(held: &[u8], piece: &[u8], window: &'a mut [u8; 508]) -> &'a [u8]
    requires { length held.now ≤ 254 }
    ensures { result.now ≡ held.now ++ take reached piece.now }
{
    let n = held.len();
    let more = piece.len().min(254);
    window[..n].copy_from_slice(held);
    window[n..n + more].copy_from_slice(&piece[..more]);
    &window[..n + more]
}

// The rest of an add, over the bytes of its piece that are left, after the ids `before`; the first of these bytes stands at `start`.
fn take_rest(memory: Memory, start: u32, rest: &[u8], out: &mut [u32], before: Tally) -> Called
    requires { (256 ≤ length memory.single.now) × (65536 ≤ length memory.roots.now)
        × (start + length rest.now ≤ 4294967295) × (length rest.now ≤ length out.old)
        × (before.count ≤ 508) × (before.looked ≤ 255 * before.count) }
    ensures { (ids : List ℕ) → length ids ≡ before.count
        → Hands (cells_of memory.entry) (start + length rest.now) ids before.looked rest.now
        (spec.run_on (cells_of memory.entry) start 0 rest.now) out.old out.new result }
{
    let all = start + rest.len() as u32;
    match runs::run(memory, rest, rest.len(), out) {
        Ran::Through { at, given } => opened(all, &rest[at..], before.with(given)),
        Ran::Waiting { at, given } => opened(all, &rest[at..], before.with(given)),
        Ran::Stuck { at, given } => {
            stopped(all, start + at as u32, rest[at], before.with(given))
        }
    }
}

// An add that goes through: first what starts in the held bytes, then the piece alone.
fn take_piece(memory: Memory, total: u32, held: &[u8], piece: &[u8], out: &mut [u32]) -> Called
    requires { (length held.now ≤ 254) × (length held.now ≤ total)
        × (256 ≤ length memory.single.now) × (65536 ≤ length memory.roots.now)
        × (total + length piece.now ≤ 4294967295) × (length held.now + length piece.now ≤ length out.old) }
    ensures { Hands (cells_of memory.entry) (total + length piece.now) [] 0 (held.now ++ piece.now)
        (spec.run_on (cells_of memory.entry) (total - length held.now) 0 (held.now ++ piece.now)) out.old out.new result }
{
    let n = held.len();
    let all = total + piece.len() as u32;
    let start = total - n as u32;
    let mut window = [0; 508];
    let joined = join(held, piece, &mut window);
    match runs::run(memory, joined, n, out) {
        Ran::Through { at, given } => {
            let over = at - n;
            take_rest(
                memory,
                total + over as u32,
                &piece[over..],
                &mut out[given.count..],
                given,
            )
        }
        Ran::Waiting { at, given } => opened(all, &joined[at..], given),
        Ran::Stuck { at, given } => stopped(all, start + at as u32, joined[at], given),
    }
}

// Whether a call goes through with a piece and an output of these lengths: number 1, then the refusals of the record.
fn ready(memory: Memory, stream: Stream, piece: usize, out: usize) -> Result<(), StreamError>
    ensures refusal { (bytes cells : List ℕ) → length bytes ≡ piece → length cells ≡ out
        → refusal_of result ≡ refusal (cells_of memory.entry) (record_of stream) (spec.add bytes cells) }
    ensures looked { refused_looked result ≡ 0 }
{
    if memory.too_short() {
        return Err(StreamError::ShortMemory);
    }
    stream_record::refused_by(stream, piece, out)
}

/// The next piece: every id that it decides is handed out, and the bytes from the first undecided position on are held.
pub fn add(memory: Memory, stream: Stream, piece: &[u8], out: &mut [u32]) -> Called
    ensures { Answered (spec.call_on (cells_of memory.entry) (record_of stream) (spec.add piece.now out.old)) result out.old out.new }
{
    if let Err(refusal) = ready(memory, stream, piece.len(), out.len()) {
        return Called {
            stream,
            answer: Err(refusal),
        };
    }
    let held = &stream.held[..usize::from(stream.held_len)];
    take_piece(memory, stream.total, held, piece, out)
}

/// The end of the stream: the held bytes are encoded as they stand.
pub fn end(memory: Memory, stream: Stream, out: &mut [u32]) -> Called
    ensures { Answered (spec.call_on (cells_of memory.entry) (record_of stream) (spec.end out.old)) result out.old out.new }
{
    if let Err(refusal) = ready(memory, stream, 0, out.len()) {
        return Called {
            stream,
            answer: Err(refusal),
        };
    }
    let total = stream.total;
    let start = total - u32::from(stream.held_len);
    let held = &stream.held[..usize::from(stream.held_len)];
    match encoding::encode_sequential_bytes(memory, held, out) {
        Ok(given) => closed(total, given),
        Err(
            EncodeError::NoToken {
                given,
                offset,
                byte,
            },
        ) => stopped(total, start + offset as u32, byte, given),
        // Neither of these comes: the memory is long enough, and the output has a cell for every byte.
        Err(EncodeError::ShortMemory) => unreachable!(),
        Err(EncodeError::Full { .. }) => unreachable!(),
    }
}
