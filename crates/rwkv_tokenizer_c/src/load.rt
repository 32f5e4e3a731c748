// Loading a vocabulary.
ghost use Rattle.std.specs.Prelude.{length};
ghost use Rattle.spec.specs.Memory.{memory};
ghost use Rattle.spec.specs.Load.{table_room, vocabulary, start_of, load_on};
ghost use Rattle.answers.specs.Answers.{WorkKept};
ghost use Rattle.reports.specs.Report.{LoadReported};

use memory::MemoryMut;
use nodes::{Node, Work};

// A vocabulary text of edition 1 or 2 into the memory, in partial or full mode; any other edition is refused with 34. The report: the kind
// of the refusal's place (0 none, 1 line, 2 offset, 3 byte) and the place, or the counts of tokens, nodes, blob bytes and table words. The
// offset, of number 2, is that of the text's first bad byte. What `nodes` and the runs of marks hold afterwards is anything, but after 34,
// 1 and 2 what they held.
#[unsafe(no_mangle)]
pub extern "C" fn rwkv_load(
    text: &[u8],
    edition: u32,
    partial: bool,
    single: &mut [i32],
    offsets: &mut [u32],
    blob: &mut [u8],
    roots: &mut [u64],
    table: &mut [u64],
    nodes: &mut [Node],
    used: &mut [u64],
    used_bases: &mut [u64],
    report: &mut [u64; 6],
) -> u32
    ensures loads { LoadReported (load_on (vocabulary edition) partial (length nodes.old)
        (table_room (length table.old) (length used.old) (length used_bases.old))
        (memory single.old offsets.old blob.old roots.old table.old)
        text.now) result report.new
        (memory single.new offsets.new blob.new roots.new table.new) }
    ensures work { WorkKept (start_of (vocabulary edition) partial
        (memory single.old offsets.old blob.old roots.old table.old)
        text.now)
        nodes.old used.old used_bases.old
        nodes.new used.new used_bases.new }
{
    let mut memory = MemoryMut {
        single,
        offsets,
        blob,
        roots,
        table,
    };
    let mut work = Work {
        nodes,
        used,
        used_bases,
    };
    rwkv_tokenizer::rwkv_load(text, edition, partial, &mut memory, &mut work, report)
}
