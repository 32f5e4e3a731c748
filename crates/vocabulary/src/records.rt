// The records of a source, taken one by one: each states a token, and the builder takes it.
ghost use Rattle.std.specs.Prelude.{◌≡◌, Bool, List, [], ℕ, ◌≤◌, length};
ghost use Rattle.spec.specs.Token.{Token};
ghost use Rattle.laws.specs.Reads.{LongEnough};
ghost use Rattle.memory.specs.Lent.{cells_in, SameSlices};
ghost use Rattle.tokens.specs.Built.{BuiltIn, KeptIn, Small, room_for};
ghost use Rattle.source.specs.SourceAnswers.{form_of};
ghost use Rattle.answers.specs.LoadParts.{TakenAs, RecordsAs};

use line::Lines;
use memory::MemoryMut;
use nodes::Node;
use refusals::{LoadError, Place, Refusal};
use source::{Edition, read};
use tokens::Build;

// The token of one record more, or 3 to 18. The cells are work memory.
fn take_record(
    part: &[u8],
    form: Option<Edition>,
    memory: &mut MemoryMut,
    nodes: &mut [Node],
    build: Build,
    cells: &mut [u8; 255],
) -> Result<Build, Refusal>
    requires { LongEnough (cells_in memory.old) × Small build }
    ensures stands { (ts : List Token) → BuiltIn ts memory.old nodes.old build
        → TakenAs (form_of form) (room_for nodes.old memory.old.blob.now) ts part.now result
        memory.new.single.now memory.new.offsets.now memory.new.blob.now memory.new.roots.now nodes.new }
    ensures kept { KeptIn memory.old memory.new }
    ensures table { memory.new.table.now ≡ memory.old.table.now }
    ensures same { SameSlices memory.old memory.new }
{
    let token = read::read_record(part, form, build.previous, cells)?;
    builder::push(memory, nodes, build, token)
}

/// The tokens of a source's records, from a build without tokens; or the refusal of one of them, with its line.
// Kept: an `Option`, since an edition that there is not may be asked for here; an `Edition` would ask more of callers.
pub fn take_records(
    body: &[u8],
    form: Option<Edition>,
    memory: &mut MemoryMut,
    nodes: &mut [Node],
    build: Build,
) -> Result<Build, LoadError>
    requires { LongEnough (cells_in memory.old) × BuiltIn [] memory.old nodes.old build }
    ensures stands { (partial : Bool) (table : ℕ)
        → RecordsAs (form_of form) partial (room_for nodes.old memory.old.blob.now table) body.now result
        memory.new.single.now memory.new.offsets.now memory.new.blob.now memory.new.roots.now nodes.new }
    ensures kept { KeptIn memory.old memory.new }
    ensures table { memory.new.table.now ≡ memory.old.table.now }
    ensures same { SameSlices memory.old memory.new }
{
    let mut cells = [0u8; 255];
    let mut st = build;
    for (n, line) in Lines::new(body).enumerate() {
        // Kept: tried with `map_err(..)?`, and the proof did not close.
        match take_record(line, form, memory, nodes, st, &mut cells) {
            Ok(more) => st = more,
            Err(refusal) => {
                let place = Some(Place::Line(n + 1));
                return Err(LoadError { refusal, place });
            }
        }
    }
    Ok(st)
}
