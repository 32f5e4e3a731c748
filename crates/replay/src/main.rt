// Runs the cases of standard input, one to a line, through the calls that a Rust or C program links, and writes what each answers: the
// number and the report, then what was made. A case is a letter for what is asked, a space, and bytes in hexadecimal:
//   L  load: 1 for partial and 2 for each edition above the first, node room (2 bytes, the high one first), blob room (2), blocks of the
//      table, blocks of the marks, the text
//   E  encode: room for ids, the input
//   D, U, Y  decode to bytes, to text, to lossy text: room for bytes, ids of three bytes
// Before all these stands a byte: 0, or 1, 2, 3 for memory with one cell too few of `single`, offsets, roots; a case without any byte has
// that of the last case with one. After a load a sum over offsets, blob, roots and table is written, and at the end how many cases gave
// each number.
// `cases.rs` makes the cases, and the answers by the Rust crate that this is a port of, where it has them, and else by the documents.
#![tactic(auto)]

mod lent;
mod load;

use cases::{read_full, read_ids, unhex, write_bytes, write_ids};
use lent::{Part, shortened};
use line::Lines;
use memory::{Memory, MemoryMut};
use std::io;

// The refusal's number, and the report.
// Kept: what the linked calls answer, a number and a report, is printed and counted as it is.
fn write_report(rt: &impl Print, number: u32, report: &[u64]) -> io::Result<()> {
    print!(rt; "{number}")?;
    for value in report {
        print!(rt; " {value}")?;
    }
    Ok(())
}

// The first byte, 0 if there is none, and the rest.
fn first_of(bytes: &[u8]) -> (u8, &[u8]) {
    match bytes {
        [first, rest @ ..] => (*first, rest),
        [] => (0, bytes),
    }
}

// Kept: arrays of ids and of bytes, with their counts beside them, here and below, since an array can't run out of memory.
fn encode_case(rt: &impl Print, case: &[u8], memory: Memory) -> io::Result<u32> {
    let (room, src) = first_of(case);
    let mut ids = [0; 256];
    let ids = &mut ids[..usize::from(room)];
    let mut report = [0; 4];
    let number = rwkv_tokenizer::rwkv_encode(memory, src, ids, &mut report);
    write_report(rt, number, &report)?;
    let count = ids.len().min(report[0] as usize);
    write_ids(rt, &ids[..count])?;
    Ok(number)
}

fn decode_case<F: FnOnce(Memory<'_>, &[u32], &mut [u8], &mut [u64; 3]) -> u32>(
    rt: &impl Print,
    case: &[u8],
    memory: Memory,
    decode: F,
) -> io::Result<u32>
    requires { F.IsAlwaysCallable decode }
{
    let (room, spelled) = first_of(case);
    let mut ids = [0; 256];
    let count = read_ids(spelled, &mut ids);
    let mut out = [0; 256];
    let out = &mut out[..usize::from(room)];
    let mut report = [0; 3];
    let number = decode(memory, &ids[..count], out, &mut report);
    write_report(rt, number, &report)?;
    print!(rt; " ")?;
    let made = out.len().min(report[0] as usize);
    write_bytes(rt, &out[..made])?;
    Ok(number)
}

// A case of any kind, in memory that lacks one cell of the part that is short.
// Kept: the letter of a case is read here and nowhere else; an enum of the kinds would be matched once to be made and once more.
fn answer(
    rt: &impl Print,
    kind: u8,
    case: &[u8],
    memory: &mut MemoryMut,
    short: Option<Part>,
) -> io::Result<u32> {
    if kind == b'L' {
        return load::load_case(rt, case, memory, short);
    }
    let memory = shortened(memory.as_memory(), short);
    match kind {
        b'E' => encode_case(rt, case, memory),
        // Kept: tried without closures, and the check found no contract of a function that stands in a private module.
        b'D' => decode_case(rt, case, memory, |memory, ids, out, report| {
            rwkv_tokenizer::rwkv_decode(memory, ids, out, report)
        }),
        b'U' => decode_case(rt, case, memory, |memory, ids, out, report| {
            rwkv_tokenizer::rwkv_decode_utf8(memory, ids, out, report)
        }),
        _ => decode_case(rt, case, memory, |memory, ids, out, report| {
            rwkv_tokenizer::rwkv_decode_lossy(memory, ids, out, report)
        }),
    }
}

// One line: its answer, on a line. The bytes that it spells go to `bytes`.
fn one_case(
    rt: &impl Print,
    case: &[u8],
    bytes: &mut [u8; 8192],
    memory: &mut MemoryMut,
) -> io::Result<u32> {
    let [kind, _, digits @ ..] = case else {
        return Ok(0);
    };
    let count = unhex(digits, bytes);
    let short = Part::of(bytes[0]);
    let (_, rest) = first_of(&bytes[..count]);
    let number = answer(rt, *kind, rest, memory, short)?;
    println!(rt)?;
    Ok(number)
}

// One more case with this number.
fn count(number: u32, counts: &mut [u64]) {
    if let Some(cases) = counts.get_mut(number as usize) {
        *cases = cases.saturating_add(1);
    }
}

// How many cases of a text gave each number.
fn all_cases(
    rt: &impl Print,
    input: &[u8],
    bytes: &mut [u8; 8192],
    memory: &mut MemoryMut,
) -> io::Result<[u64; 35]> {
    let mut counts = [0; 35];
    for case in Lines::new(input) {
        let number = one_case(rt, case, bytes, memory)?;
        count(number, &mut counts);
    }
    Ok(counts)
}

// How many cases gave each number, a line for each.
fn write_counts(rt: &impl Print, counts: &[u64]) -> io::Result<()> {
    for (number, count) in counts.iter().enumerate() {
        println!(rt; "number {number}: {count} cases")?;
    }
    Ok(())
}

// The cases of standard input, of which as much is read as fits into `input`.
// Kept: arrays, the input with its count, since an array can't run out of memory.
fn run<R: Input + Print>(rt: &R, input: &mut [u8]) -> io::Result<()> {
    let length = read_full(rt, input)?;
    // The bytes of a case. They stay until a later case writes its own over them, so that a case without any byte still finds the first
    // byte of the last one with any here, and has the same part of the memory short.
    let mut bytes = [0; 8192];
    let mut memory = MemoryMut {
        single: &mut [0; 256],
        offsets: &mut [0; 65537],
        blob: &mut [0; 4096],
        roots: &mut [0; 65536],
        table: &mut [0; 4096],
    };
    let counts = all_cases(rt, &input[..length], &mut bytes, &mut memory)?;
    write_counts(rt, &counts)
}

fn main(rt: HostRuntime) -> io::Result<()> {
    let mut input = [0; 1048576];
    run(&rt, &mut input)
}
