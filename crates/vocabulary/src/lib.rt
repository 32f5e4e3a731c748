// A source of records into the vocabulary memory; a vocabulary text of edition 1 as by the Rust's `from_vocab_str`. The memory is lent, and
// a load fills or empties it; so is work memory, whose contents before and after are anything.
//
// A load takes any slices. What is refused before any record is refused before anything is written.
#![tactic(auto)]

pub mod records;

ghost use Rattle.std.specs.Prelude.{◌≡◌, true, false, ◌≤◌, length, take, Some};
ghost use Rattle.spec.specs.Load.{table_room, vocabulary, load, start_of, settled, load_on};
ghost use Rattle.laws.specs.Reads.{LongEnough};
ghost use Rattle.memory.specs.Lent.{cells_in, SameSlices};
ghost use Rattle.nodes.specs.Work.{SameWork};
ghost use Rattle.tokens.specs.Built.{KeptIn, room_for};
ghost use Rattle.source.specs.SourceAnswers.{form_of};
ghost use Rattle.answers.specs.Answers.{loaded, WorkKept};
ghost use Rattle.answers.specs.LoadParts.{BuiltAs};

use answers::Counts;
use memory::MemoryMut;
use nodes::Work;
use refusals::LoadError;
use source::{How, Plan};

// The build of a source's records in memory that is long enough. If it is refused, the memory holds what it came to.
fn build_records(
    source: &[u8],
    plan: Plan,
    memory: &mut MemoryMut,
    work: &mut Work,
) -> Result<Counts, LoadError>
    requires { LongEnough (cells_in memory.old) × (plan.end ≤ length source.now) }
    ensures built { BuiltAs (form_of (Some plan.edition)) plan.partial (room_for work.old.nodes.now memory.old.blob.now
        (table_room (length memory.old.table.now) (length work.old.used.now) (length work.old.used_bases.now)))
        (take plan.end source.now) result (cells_in memory.old) (cells_in memory.new) }
    ensures kept { KeptIn memory.old memory.new }
    ensures same { SameSlices memory.old memory.new }
    ensures same_work { SameWork work.old work.new }
{
    let begun = tokens::begin(memory);
    let body = &source[..plan.end];
    let st = records::take_records(body, Some(plan.edition), memory, &mut *work.nodes, begun)?;
    let words = builder::finish(plan.partial, memory, work, st)?;
    Ok(Counts::of(st, words))
}

// A load of a source's records into memory that is long enough. "After 3 to 21 the vocabulary memory is emptied".
fn load_records(
    source: &[u8],
    plan: Plan,
    memory: &mut MemoryMut,
    work: &mut Work,
) -> Result<Counts, LoadError>
    requires { LongEnough (cells_in memory.old) × (plan.end ≤ length source.now) }
    ensures loads { loaded result (cells_in memory.new)
        ≡ settled (cells_in memory.old) (load (form_of (Some plan.edition)) plan.partial (room_for work.old.nodes.now memory.old.blob.now
        (table_room (length memory.old.table.now) (length work.old.used.now) (length work.old.used_bases.now)))
        (take plan.end source.now)) }
    ensures same { SameSlices memory.old memory.new }
    ensures same_work { SameWork work.old work.new }
{
    // Kept: a match, by which the proof has both cases; `is_err` and then the value would be as long.
    match build_records(source, plan, memory, work) {
        Ok(counts) => Ok(counts),
        Err(error) => {
            memory.empty();
            Err(error)
        }
    }
}

/// A load of any bytes. One thing is loose: the work memory may hold anything afterwards, but where the load is refused before any record
/// it holds what it held. `load_on` gives all else. For a text this is the Rust's `from_vocab_str_mode`.
// Kept: memory and work are two: a caller keeps the one and drops the other after the load, so one struct of both is taken apart again.
pub fn from_source(
    source: &[u8],
    how: How,
    memory: &mut MemoryMut,
    work: &mut Work,
) -> Result<Counts, LoadError>
    ensures loads { loaded result (cells_in memory.new)
        ≡ load_on (form_of how.form) how.partial (length work.old.nodes.now)
        (table_room (length memory.old.table.now) (length work.old.used.now) (length work.old.used_bases.now))
        (cells_in memory.old) source.now }
    ensures work { WorkKept (start_of (form_of how.form) how.partial (cells_in memory.old) source.now)
        work.old.nodes.now work.old.used.now work.old.used_bases.now
        work.new.nodes.now work.new.used.now work.new.used_bases.now }
    ensures same { SameSlices memory.old memory.new }
    ensures same_work { SameWork work.old work.new }
{
    let plan = source::start_of(source, how, memory.as_memory())?;
    load_records(source, plan, memory, work)
}

/// A load of a text of edition 1 in full mode: every byte must have a one-byte token.
// Kept: the Rust's two entries under their names; each is one call of `from_source`.
pub fn from_vocab_str(
    text: &[u8],
    memory: &mut MemoryMut,
    work: &mut Work,
) -> Result<Counts, LoadError>
    ensures loads { loaded result (cells_in memory.new)
        ≡ load_on (vocabulary 1) false (length work.old.nodes.now)
        (table_room (length memory.old.table.now) (length work.old.used.now) (length work.old.used_bases.now))
        (cells_in memory.old) text.now }
    ensures work { WorkKept (start_of (vocabulary 1) false (cells_in memory.old) text.now)
        work.old.nodes.now work.old.used.now work.old.used_bases.now
        work.new.nodes.now work.new.used.now work.new.used_bases.now }
    ensures same { SameSlices memory.old memory.new }
    ensures same_work { SameWork work.old work.new }
{
    from_source(text, source::text_of(1, false), memory, work)
}

/// A load of a text of edition 1 in partial mode, which asks for no byte.
pub fn from_vocab_str_partial(
    text: &[u8],
    memory: &mut MemoryMut,
    work: &mut Work,
) -> Result<Counts, LoadError>
    ensures loads { loaded result (cells_in memory.new)
        ≡ load_on (vocabulary 1) true (length work.old.nodes.now)
        (table_room (length memory.old.table.now) (length work.old.used.now) (length work.old.used_bases.now))
        (cells_in memory.old) text.now }
    ensures work { WorkKept (start_of (vocabulary 1) true (cells_in memory.old) text.now)
        work.old.nodes.now work.old.used.now work.old.used_bases.now
        work.new.nodes.now work.new.used.now work.new.used_bases.now }
    ensures same { SameSlices memory.old memory.new }
    ensures same_work { SameWork work.old work.new }
{
    from_source(text, source::text_of(1, true), memory, work)
}
