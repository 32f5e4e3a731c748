// For programs that run cases of standard input: its first bytes, bytes in hexadecimal and the ids that they spell, and how answers are
// written.
#![tactic(auto)]

ghost use Rattle.std.specs.Prelude.{◌≤◌, length, IfOk};

use std::io;
use std::io::Read;

// Standard input up to its end, or what of it fills the bytes; how many there were. What comes behind these is not read.
// Kept: a loop, since what std reads to the end of goes into a Vec, which can run out of memory.
pub fn read_full<R: Input>(rt: &R, input: &mut [u8]) -> io::Result<usize>
    ensures { IfOk result (λ n. n ≤ length input.new) }
{
    let mut reader = rt.reader();
    let mut at = 0;
    while at < input.len() {
        let n = reader.read(&mut input[at..])?;
        if n == 0 {
            return Ok(at);
        }
        at += n;
    }
    Ok(at)
}

// Bytes in hexadecimal, in brackets.
pub fn write_bytes(rt: &impl Print, bytes: &[u8]) -> io::Result<()> {
    print!(rt; "[")?;
    for byte in bytes {
        print!(rt; "{byte:02x}")?;
    }
    print!(rt; "]")
}

// Ids, with a space before each.
pub fn write_ids(rt: &impl Print, ids: &[u32]) -> io::Result<()> {
    for id in ids {
        print!(rt; " {id}")?;
    }
    Ok(())
}

// Kept: unhex and read_ids are lent their cells, and can't run out of memory, which a Vec made here could.

// The byte that two hexadecimal digits spell, none if they do not.
fn byte_of(high: u8, low: u8) -> Option<u8> {
    let high = numbers::hex_digit(high)?;
    let low = numbers::hex_digit(low)?;
    Some((high * 16 + low) as u8)
}

// The bytes that `text` spells in hexadecimal go to `out`, as far as they fit, 0 for two bytes that spell none; how many.
pub fn unhex(text: &[u8], out: &mut [u8]) -> usize
    ensures { result ≤ length out.old }
{
    for (cell, pair) in out.iter_mut().zip(text.chunks_exact(2)) {
        *cell = byte_of(pair[0], pair[1]).unwrap_or(0);
    }
    out.len().min(text.len() / 2)
}

// The ids that bytes spell, three to an id; how many.
pub fn read_ids(bytes: &[u8], ids: &mut [u32]) -> usize
    ensures { result ≤ length ids.old }
{
    for (id, part) in ids.iter_mut().zip(bytes.chunks_exact(3)) {
        *id = u32::from_be_bytes([0, part[0], part[1], part[2]]);
    }
    ids.len().min(bytes.len() / 3)
}
