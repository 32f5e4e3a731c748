// Decoding ids on any vocabulary memory: the lookup of a token, decoding to bytes and to text.
#![tactic(auto)]

ghost use Rattle.std.specs.Prelude.{◌≡◌, ◌+◌, ◌-◌, ◌<◌, ◌≤◌, length, get_or, option_map};
ghost use Rattle.spec.specs.Lists.{each};
ghost use Rattle.spec.specs.Decode.{lookup as lookup_of, decode_on, decode_text_on};
ghost use Rattle.memory.specs.Lent.{cells_of};
ghost use Rattle.decoding.specs.Answers.{answer_of, taken_of, Answered};
ghost use Rattle.decoding.specs.Measured.{if_any, Joined, Measured};

use memory::Memory;

/// The token of an id: "Bytes from offset id to offset id + 1." An id of 65,536 or more has none, nor has a pair that is empty, out of
/// order, past the blob or longer than 255, nor one that does not stand in the offsets.
pub fn lookup<'a>(memory: Memory<'a>, id: u32) -> Option<&'a [u8]>
    ensures { option_map (λ t. t.now) result ≡ if_any (lookup_of (cells_of memory.entry) id) }
{
    let i = id as usize;
    if i >= 65536 {
        return None;
    }
    let start = *memory.offsets.get(i)? as usize;
    let end = *memory.offsets.get(i + 1)? as usize;
    let token = memory.blob.get(start..end)?;
    // Kept: two tests, since with one match on the length the decoding of short tokens takes a third longer.
    if token.len() == 0 {
        return None;
    }
    if token.len() > 255 {
        return None;
    }
    Some(token)
}

/// Why a decoding ends before its ids do, each case with the bytes that stand from the output's start; or that they are no text.
#[derive(Clone, Copy, Debug, PartialEq, Eq)]
pub enum DecodeError {
    /// Number 1.
    ShortMemory,
    /// Number 27.
    Absent { len: usize, index: usize, id: u32 },
    /// Number 28.
    Full { len: usize, index: usize },
    /// Number 29.
    NotUtf8 { len: usize, offset: usize },
}

// The answer of decoding ids into room cells, with nothing written: at each id 27 before 28.
fn measure(memory: Memory<'_>, ids: &[u32], room: usize) -> Result<usize, DecodeError>
    ensures { Measured (cells_of memory.entry) room ids.now result }
{
    let mut len = 0;
    for (index, &id) in ids.iter().enumerate() {
        let Some(token) = lookup(memory, id) else {
            return Err(DecodeError::Absent { len, index, id });
        };
        if token.len() > room - len {
            return Err(DecodeError::Full { len, index });
        }
        len += token.len();
    }
    Ok(len)
}

/// Where a token's bytes stand in the blob.
// Kept: `write_tokens` hands start and length to `copy_token`; a Range would be taken apart there, and its length computed again.
#[derive(Clone, Copy, Debug, PartialEq, Eq)]
pub struct Part {
    pub start: usize,
    pub len: usize,
}

/// Where the token of an id stands that is known to have one, without the lookup's tests.
pub fn part_of(offsets: &[u32], id: u32) -> Part
    requires { (id + 1 < length offsets.now) × (get_or offsets.now id 0 ≤ get_or offsets.now (id + 1) 0) }
    ensures { (result.start ≡ get_or offsets.now id 0)
        × (result.len ≡ get_or offsets.now (id + 1) 0 - get_or offsets.now id 0) }
{
    let i = id as usize;
    let start = offsets[i] as usize;
    let end = offsets[i + 1] as usize;
    Part {
        start,
        len: end - start,
    }
}

/// Writes the bytes of ids that all have some into an output of just their length.
pub fn write_tokens(memory: Memory<'_>, ids: &[u32], out: &mut [u8])
    requires { Joined (cells_of memory) ids.now (length ids.now) (length out.old) }
    ensures { out.new ≡ each (lookup_of (cells_of memory.entry)) ids.now }
{
    // Kept: without `at` each turn ends in `room = &mut mem::take(&mut room)[len..]`, which is no plainer.
    let mut at = 0;
    for &id in ids {
        let Part { start, len } = part_of(memory.offsets, id);
        copies::copy_token(&memory.blob[start..], len, &mut out[at..]);
        at += len;
    }
}

// How many of n ids an answer has decoded: all, or those before its index.
fn taken(answer: Result<usize, DecodeError>, n: usize) -> usize
    ensures { result ≡ taken_of answer n }
{
    match answer {
        Ok(_) | Err(DecodeError::NotUtf8 { .. }) => n,
        Err(DecodeError::ShortMemory) => 0,
        Err(DecodeError::Absent { index, .. } | DecodeError::Full { index, .. }) => index,
    }
}

// How many bytes stand from the output's start.
fn written(answer: Result<usize, DecodeError>) -> usize
    ensures { result ≡ (answer_of answer).count }
{
    match answer {
        Err(DecodeError::ShortMemory) => 0,
        Ok(len)
        | Err(
            DecodeError::Absent { len, .. }
            | DecodeError::Full { len, .. }
            | DecodeError::NotUtf8 { len, .. },
        ) => len,
    }
}

/// The bytes of the ids, one token after another, and how many there are. A first pass finds the answer, a second writes.
pub fn decode_bytes(memory: Memory<'_>, ids: &[u32], out: &mut [u8]) -> Result<usize, DecodeError>
    ensures { Answered (decode_on (cells_of memory.entry) (length out.old) ids.now)
        result out.old out.new }
{
    if memory.too_short() {
        return Err(DecodeError::ShortMemory);
    }
    let answer = measure(memory, ids, out.len());
    let count = taken(answer, ids.len());
    let total = written(answer);
    write_tokens(memory, &ids[..count], &mut out[..total]);
    answer
}

/// The same, and then that the bytes are UTF-8: 29 has the first bad offset, and the bytes stand.
pub fn decode_utf8(memory: Memory<'_>, ids: &[u32], out: &mut [u8]) -> Result<usize, DecodeError>
    ensures { Answered (decode_text_on (cells_of memory.entry) (length out.old) ids.now)
        result out.old out.new }
{
    let len = decode_bytes(memory, ids, out)?;
    match utf8::first_bad(&out[..len]) {
        None => Ok(len),
        Some(offset) => Err(DecodeError::NotUtf8 { len, offset }),
    }
}
