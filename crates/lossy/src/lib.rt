// Lossy decoding. The bytes of the ids are put where the text ends, and the text is made of them from its start on: it is at least as
// long as they are, so that it overtakes no byte before it is read. Nothing is written of a text that is not known to fit. No memory is
// lent for the joined bytes, so a text that may not fit is first read token by token, with the bytes of a character that one token begins
// and another ends held between.
#![tactic(auto)]

ghost use Rattle.std.specs.Prelude.{◌≡◌, ◌+◌, ◌*◌, ◌≤◌, T, length, drop};
ghost use Rattle.spec.specs.Lists.{each, over};
ghost use Rattle.spec.specs.Utf8.{lossy};
ghost use Rattle.spec.specs.Decode.{lookup, decode_lossy_on};
ghost use Rattle.memory.specs.Lent.{cells_of};
ghost use Rattle.reader.specs.HeldBytes.{held_of};
ghost use Rattle.decoding.specs.Answers.{Answered};
ghost use Rattle.lossy.specs.Lossy.{Presence, AllPresent, Summed, Part, AsTheyAre, Grows, SizeIs, Written};

use decoding::DecodeError;
use memory::Memory;
use reader::Held;
use std::ops::Range;
use utf8::Step;

// That every id has bytes, with their number in all, or the first that has none.
fn all_present(memory: Memory<'_>, ids: &[u32]) -> Result<usize, DecodeError>
    ensures { Presence (cells_of memory.entry) ids.now result }
{
    let mut total: usize = 0;
    for (index, &id) in ids.iter().enumerate() {
        let token = decoding::lookup(memory, id).ok_or(DecodeError::Absent { len: 0, index, id })?;
        total = total.saturating_add(token.len());
    }
    Ok(total)
}

// ---- the size of a text that may not fit, token by token

// The token of an id that is known to have one.
fn token_of<'a>(memory: Memory<'a>, id: u32) -> &'a [u8]
    requires { 1 ≤ length (lookup (cells_of memory) id) }
    ensures { result.now ≡ lookup (cells_of memory.entry) id }
{
    let decoding::Part { start, len } = decoding::part_of(memory.offsets, id);
    &memory.blob[start..start + len]
}

// What is held after some bytes, and the length of the text that they have given.
#[derive(Clone, Copy)]
struct Progress {
    held: Held,
    len: usize,
}

// Whether a token's bytes stand in the text as they are: nothing is held, and they are UTF-8.
fn stands(token: &[u8], held: Held) -> bool
    ensures { T result → AsTheyAre (held_of held) token.now }
{
    match held {
        Held::Nothing => utf8::first_bad(token).is_none(),
        _ => false,
    }
}

// The bytes of a token, read one by one; none if the text is then longer than room.
fn read_bytes(token: &[u8], from: Progress, room: usize) -> Option<Progress>
    requires { from.len ≤ room }
    ensures { Grows (held_of from.held) token.now from.len room result }
{
    let mut at = from;
    for &b in token {
        let pushed = at.held.push(b);
        if pushed.len > room - at.len {
            return None;
        }
        at = Progress {
            held: pushed.held,
            len: at.len + pushed.len,
        };
    }
    Some(at)
}

// The bytes of a token, read.
fn read_token(token: &[u8], from: Progress, room: usize) -> Option<Progress>
    requires { from.len ≤ room }
    ensures { Grows (held_of from.held) token.now from.len room result }
{
    if !stands(token, from.held) {
        return read_bytes(token, from, room);
    }
    if token.len() > room - from.len {
        return None;
    }
    Some(Progress {
        len: from.len + token.len(),
        ..from
    })
}

// The size of the lossy text of ids that all have bytes; none if it is longer than room.
fn read_text(memory: Memory<'_>, ids: &[u32], room: usize) -> Option<usize>
    requires { AllPresent (cells_of memory) ids.now }
    ensures { SizeIs (lossy (each (lookup (cells_of memory.entry)) ids.now)) room result }
{
    let mut at = Progress {
        held: Held::Nothing,
        len: 0,
    };
    for &id in ids {
        at = read_token(token_of(memory, id), at, room)?;
    }
    let last = at.held.finish();
    if last.len > room - at.len {
        return None;
    }
    Some(at.len + last.len)
}

// ---- the text of bytes

// Where the first ill-formed part stands; none if the bytes are UTF-8.
#[tactic(auto, using(crate::proofs::LossyText::lossy_same))]
fn first_broken(s: &[u8]) -> Option<Range<usize>>
    ensures { Part s.now result }
{
    let at = utf8::first_bad(s)?;
    match utf8::first_step(&s[at..]) {
        Step::Char(len) | Step::Bad(len) | Step::Cut(len) => Some(at..at + len),
    }
}

// The size of the lossy text of bytes.
#[tactic(auto, using(crate::proofs::LossyText::size_turns))]
fn text_len(s: &[u8]) -> usize
    requires { 3 * length s.now ≤ 0xffffffffffffffff }
    ensures { result ≡ length (lossy s.now) }
{
    let mut len = 0;
    let mut rest = s;
    while let Some(part) = first_broken(rest) {
        len += part.start + 3;
        rest = &rest[part.end..];
    }
    len + rest.len()
}

// The bytes behind `from`, whose text is as long as out, become that text.
fn spread(out: &mut [u8], from: usize)
    requires { (from ≤ length out.old) × (length (lossy (drop from out.old)) ≡ length out.old) }
    ensures { out.new ≡ lossy (drop from out.old) }
{
    // Kept: bytes and text lie in one run, each at a place of its own that grows; two slices of it would overlap.
    let mut read = from;
    let mut write = 0;
    while let Some(part) = first_broken(&out[read..]) {
        out.copy_within(read..read + part.start, write);
        write += part.start;
        out[write..write + 3].copy_from_slice(&[0xef, 0xbf, 0xbd]);
        write += 3;
        read += part.end;
    }
}

// ---- the text of ids
// Kept: three functions ask that all ids of a memory have bytes; a struct of both would be made once and taken apart in each.

// The lossy text of ids whose bytes, `total` in all, become three times as many at most, and that is room for.
fn write_sure(memory: Memory<'_>, ids: &[u32], total: usize, out: &mut [u8]) -> usize
    requires { AllPresent (cells_of memory) ids.now × (total ≡ length (each (lookup (cells_of memory)) ids.now))
        × (3 * total ≤ length out.old) }
    ensures { Written (lossy (each (lookup (cells_of memory.entry)) ids.now)) out.old out.new result }
{
    decoding::write_tokens(memory, ids, &mut out[..total]);
    let Some(_) = utf8::first_bad(&out[..total]) else {
        return total;
    };
    let len = text_len(&out[..total]);
    let from = len - total;
    out.copy_within(..total, from);
    spread(&mut out[..len], from);
    len
}

// The lossy text of ids whose size is known to fit.
#[tactic(auto, using(crate::proofs::LossyText::end_turns))]
fn write_text(memory: Memory<'_>, ids: &[u32], total: usize, out: &mut [u8])
    requires { AllPresent (cells_of memory) ids.now × (total ≡ length (each (lookup (cells_of memory)) ids.now))
        × (length (lossy (each (lookup (cells_of memory)) ids.now)) ≡ length out.old) }
    ensures { out.new ≡ lossy (each (lookup (cells_of memory.entry)) ids.now) }
{
    let from = out.len() - total;
    decoding::write_tokens(memory, ids, &mut out[from..]);
    spread(out, from);
}

/// Lossy text, and its length. Every id is looked up and the text measured before anything is written, unless it is sure to fit.
pub fn decode_lossy(memory: Memory<'_>, ids: &[u32], out: &mut [u8]) -> Result<usize, DecodeError>
    ensures { Answered (decode_lossy_on (cells_of memory.entry) (length out.old) ids.now)
        result out.old out.new }
{
    if memory.too_short() {
        return Err(DecodeError::ShortMemory);
    }
    let total = all_present(memory, ids)?;
    // Kept: two ways, since a text that is first read token by token takes up to three times as long (6.9 and 2.1 ns a byte of prose).
    if total <= out.len() / 3 {
        return Ok(write_sure(memory, ids, total, out));
    }
    let len = read_text(memory, ids, out.len()).ok_or(DecodeError::Full {
        len: 0,
        index: ids.len(),
    })?;
    write_text(memory, ids, total, &mut out[..len]);
    Ok(len)
}
