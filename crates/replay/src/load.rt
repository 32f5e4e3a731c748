// Loads, each into as much of the memory as its case says.
ghost use Rattle.std.specs.Prelude.{◌≤◌, length};
ghost use Rattle.spec.specs.Load.{table_room, vocabulary, load_on};
ghost use Rattle.memory.specs.Lent.{cells_in};
ghost use Rattle.reports.specs.Report.{LoadReported};

use crate::lent::{Part, less_one};
use crate::write_report;
use memory::{Memory, MemoryMut};
use nodes::{Node, Work};
use std::io;

// What a case asks for: a text of an edition, partial or full, and room for nodes, bytes of the blob, words of the table, words of each of
// the marks.
#[derive(Clone, Copy)]
struct Asked<'a> {
    edition: u32,
    partial: bool,
    nodes: usize,
    blob: usize,
    table: usize,
    marks: usize,
    text: &'a [u8],
    ghost within: { (nodes ≤ 4096) × (marks ≤ 64) },
}

// A case, with zeros for what it lacks.
fn asked_by(case: &[u8]) -> Asked<'_> {
    let (head, text) = case.split_at(case.len().min(7));
    let mut header = [0; 7];
    header[..head.len()].copy_from_slice(head);
    let [
        mode,
        nodes_high,
        nodes_low,
        blob_high,
        blob_low,
        table,
        marks,
    ] = header;
    Asked {
        edition: 1 + u32::from(mode) / 2,
        partial: mode % 2 == 1,
        nodes: usize::from(u16::from_be_bytes([nodes_high, nodes_low])).min(4096),
        blob: usize::from(u16::from_be_bytes([blob_high, blob_low])),
        table: 256 * usize::from(table),
        marks: 4 * usize::from(marks).min(16),
        text,
    }
}

// The load that is asked for, into this memory.
// Kept: arrays of the largest counts, since an array can't run out of memory.
fn load(asked: Asked, memory: &mut MemoryMut, report: &mut [u64; 6]) -> u32
    ensures { LoadReported (load_on (vocabulary asked.entry.edition) asked.entry.partial asked.entry.nodes
        (table_room (length memory.old.table.now) asked.entry.marks asked.entry.marks)
        (cells_in memory.old) asked.entry.text.now) result report.new (cells_in memory.new) }
{
    let mut nodes = [Node::leaf(0); 4096];
    let mut used = [0; 64];
    let mut used_bases = [0; 64];
    let mut work = Work {
        nodes: &mut nodes[..asked.nodes],
        used: &mut used[..asked.marks],
        used_bases: &mut used_bases[..asked.marks],
    };
    rwkv_tokenizer::rwkv_load(
        asked.text,
        asked.edition,
        asked.partial,
        memory,
        &mut work,
        report,
    )
}

// The sum with one number more.
fn mixed(sum: u64, x: u64) -> u64 {
    (((sum << 5) | (sum >> 59)) ^ x).wrapping_add(sum)
}

// A sum over offsets, blob, roots and table that depends on every cell and its place.
// Kept: a fold for each part, since one over a chain of all four tests at each cell which part it is in, and takes longer.
fn sum_of(memory: Memory) -> u64 {
    let sum = memory
        .offsets
        .iter()
        .fold(1, |sum, x| mixed(sum, u64::from(*x)));
    let sum = memory
        .blob
        .iter()
        .fold(sum, |sum, x| mixed(sum, u64::from(*x)));
    let sum = memory.roots.iter().fold(sum, |sum, x| mixed(sum, *x));
    memory.table.iter().fold(sum, |sum, x| mixed(sum, *x))
}

// A load into as much of the blob and the table as the case asks for, less one cell of the part that is short, and a sum over the whole of
// what it was given.
// Kept: the three counts stand here and in `shortened`; tried once for all cases, in a function that returns the slices and in one that
// passes them on to `answer`, and the borrow check covers neither.
pub fn load_case(
    rt: &impl Print,
    case: &[u8],
    memory: &mut MemoryMut,
    short: Option<Part>,
) -> io::Result<u32> {
    let asked = asked_by(case);
    let single = less_one(memory.single.len(), short == Some(Part::Single));
    let offsets = less_one(memory.offsets.len(), short == Some(Part::Offsets));
    let roots = less_one(memory.roots.len(), short == Some(Part::Roots));
    let blob = asked.blob.min(memory.blob.len());
    let table = asked.table.min(memory.table.len());
    let mut lent = MemoryMut {
        single: &mut memory.single[..single],
        offsets: &mut memory.offsets[..offsets],
        blob: &mut memory.blob[..blob],
        roots: &mut memory.roots[..roots],
        table: &mut memory.table[..table],
    };
    let mut report = [0; 6];
    let number = load(asked, &mut lent, &mut report);
    write_report(rt, number, &report)?;
    let sum = sum_of(lent.as_memory());
    print!(rt; " {sum:016x}")?;
    Ok(number)
}
