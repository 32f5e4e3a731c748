// Runs the leaves of loading and the decodings on the cases of standard input, one to a line, and writes each with its answer. A case is
// a letter for what is asked, a space, and bytes in hexadecimal: L a literal of edition 1, M one of edition 2, F the fields of a vocabulary
// line, T the lines of a text, I an id, N a length, H a byte as a hexadecimal digit, U the beginning of a byte string that is UTF-8, S the
// same for a beginning and each last byte; B an edition and a text, for what a load refuses before any line; D, X and Y ids to decode to
// bytes, text and lossy text. `cases.py` makes the cases and, by Python's own means, the answers.
#![tactic(auto)]

use cases::{read_full, unhex, write_bytes};
use lent::Cells;
use line::{Fields, Lines};
use refusals::{LoadError, Refusal};
use std::io;
use texts::Refused;

mod decode;
mod lent;
mod runs;
mod texts;

// What a literal of an edition stands for, which has no more bytes than the literal; a case has at most 64.
fn literal_case(rt: &impl Print, text: &[u8], edition: u32) -> io::Result<()> {
    // Kept: an array and how much of it counts, since an array cannot run out of memory.
    let mut bytes = [0; 64];
    match literal::parse_python_literal_into(text, edition, &mut bytes) {
        Some(length) => write_bytes(rt, &bytes[..length.min(64)]),
        None => rt.print(Refused(LoadError::from(Refusal::BadLiteral))),
    }
}

// A number, or the refusal of one that is bad.
fn number_case(rt: &impl Print, number: Result<u64, Refusal>) -> io::Result<()> {
    match number {
        Ok(v) => rt.print(v),
        Err(refusal) => rt.print(Refused(LoadError::from(refusal))),
    }
}

// The value of a byte as a hexadecimal digit, if it is one.
fn digit_case(rt: &impl Print, text: &[u8]) -> io::Result<()> {
    let Some(byte) = text.first() else {
        return Ok(());
    };
    match numbers::hex_digit(*byte) {
        Some(v) => print!(rt; "{v}"),
        None => print!(rt; "none"),
    }
}

// The three fields of a line, or its refusal.
fn fields_case(rt: &impl Print, text: &[u8]) -> io::Result<()> {
    match line::split_fields(text) {
        Ok(
            Fields {
                id,
                literal,
                length,
            },
        ) => {
            write_bytes(rt, id)?;
            write_bytes(rt, literal)?;
            write_bytes(rt, length)
        }
        Err(refusal) => rt.print(Refused(LoadError::from(refusal))),
    }
}

// The answer of a case of any kind.
// Kept: the letter of a case is read here and nowhere else; an enum of the kinds would be matched once to be made and once more.
fn answer(rt: &impl Print, cells: &mut Cells, kind: u8, bytes: &[u8]) -> io::Result<()> {
    match kind {
        b'L' => literal_case(rt, bytes, 1),
        b'M' => literal_case(rt, bytes, 2),
        b'F' => fields_case(rt, bytes),
        b'T' => Lines::new(bytes).try_for_each(|line| write_bytes(rt, line)),
        b'I' => number_case(rt, line::read_id(bytes).map(u64::from)),
        b'N' => number_case(rt, line::read_length(bytes)),
        b'H' => digit_case(rt, bytes),
        b'U' => rt.print(runs::good(bytes)),
        b'S' => runs::runs_case(rt, bytes),
        b'B' => texts::text_case(rt, cells, bytes),
        b'D' => decode::decode_case(rt, cells, bytes, decoding::decode_bytes),
        b'X' => decode::decode_case(rt, cells, bytes, decoding::decode_utf8),
        b'Y' => decode::decode_case(rt, cells, bytes, lossy::decode_lossy),
        _ => print!(rt; "?"),
    }
}

fn one_case(rt: &impl Print, cells: &mut Cells, case: &[u8]) -> io::Result<()> {
    let [kind, _, digits @ ..] = case else {
        return Ok(());
    };
    // Kept: an array and how much of it counts, since an array cannot run out of memory.
    let mut bytes = [0; 64];
    let count = unhex(digits, &mut bytes);
    rt.write_all(case)?;
    print!(rt; ": ")?;
    answer(rt, cells, *kind, &bytes[..count])?;
    println!(rt)
}

// Roots, all 0.
// Kept: an array, since an array cannot run out of memory; nothing is written into it, so that it need not lie on the stack.
static ROOTS: [u64; 65536] = [0; 65536];

fn main(rt: HostRuntime) -> io::Result<()> {
    // Kept: arrays and how much of the input counts, since an array cannot run out of memory.
    let single = [-1; 256];
    let mut cells = Cells {
        single: &single,
        offsets: &mut [0; 65537],
        blob: &mut [0; 256],
        roots: &ROOTS,
    };
    let mut input = [0; 65536];
    let count = read_full(&rt, &mut input)?;
    Lines::new(&input[..count]).try_for_each(|case| one_case(&rt, &mut cells, case))
}
