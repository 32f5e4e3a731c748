// Loading a vocabulary.
ghost use Rattle.std.specs.Prelude.{length};
ghost use Rattle.spec.specs.Load.{table_room, vocabulary, start_of, load_on};
ghost use Rattle.memory.specs.Lent.{cells_in, SameSlices};
ghost use Rattle.nodes.specs.Work.{SameWork};
ghost use Rattle.answers.specs.Answers.{WorkKept};
ghost use Rattle.reports.specs.Report.{LoadReported};

use memory::MemoryMut;
use nodes::Work;

/// A vocabulary text of edition 1 or 2 into the memory, in partial or full mode; any other edition is refused with 34. The report: the kind
/// of the refusal's place (0 none, 1 line, 2 offset, 3 byte) and the place, or the counts of tokens, nodes, blob bytes and table words. The
/// offset, of number 2, is that of the text's first bad byte. What the work memory holds afterwards is anything, but after 34, 1 and 2 what
/// it held.
pub fn rwkv_load(
    text: &[u8],
    edition: u32,
    partial: bool,
    memory: &mut MemoryMut,
    work: &mut Work,
    report: &mut [u64; 6],
) -> u32
    ensures loads { LoadReported (load_on (vocabulary edition) partial (length work.old.nodes.now)
        (table_room (length memory.old.table.now) (length work.old.used.now) (length work.old.used_bases.now))
        (cells_in memory.old) text.now) result report.new (cells_in memory.new) }
    ensures work { WorkKept (start_of (vocabulary edition) partial (cells_in memory.old) text.now)
        work.old.nodes.now work.old.used.now work.old.used_bases.now
        work.new.nodes.now work.new.used.now work.new.used_bases.now }
    ensures same { SameSlices memory.old memory.new }
    ensures same_work { SameWork work.old work.new }
{
    let how = source::text_of(edition, partial);
    let load = vocabulary::from_source(text, how, memory, work);
    reports::load::report_to(load, report)
}
