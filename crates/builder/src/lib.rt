// The builder: tokens into the vocabulary memory, one after another.
#![tactic(auto)]

ghost use Rattle.std.specs.Prelude.{◌≡◌, List, ℕ, ◌≤◌, ◌<◌, length};
ghost use Rattle.spec.specs.Token.{Token};
ghost use Rattle.spec.specs.Load.{Room, table_room};
ghost use Rattle.laws.specs.Reads.{LongEnough};
ghost use Rattle.entry.specs.TokenOf.{token_of};
ghost use Rattle.memory.specs.Lent.{cells_in, SameSlices};
ghost use Rattle.nodes.specs.Run.{room};
ghost use Rattle.nodes.specs.Work.{SameWork};
ghost use Rattle.nodes.specs.Stands.{RootsKept};
ghost use Rattle.tokens.specs.Built.{Built, BuiltIn, EnteredAs, KeptIn, Small, room_for, PushedIn};
ghost use Rattle.ending.specs.EndOfBuild.{FinishedAs};

use entry::Entry;
use memory::MemoryMut;
use nodes::{Node, Work};
use refusals::{LoadError, Refusal};
use tokens::Build;

// A token's bytes among the nodes: how many there are then, or 16 or 17. One byte makes no node; the roots alone may change.
fn enter(
    memory: &mut MemoryMut,
    nodes: &mut [Node],
    st: Build,
    token: Entry,
) -> Result<u32, Refusal>
    requires { LongEnough (cells_in memory.old) × (1 ≤ st.made) }
    ensures stands { EnteredAs memory.old.single.now memory.old.roots.now nodes.old st (token_of token.entry) result
        memory.new.roots.now nodes.new }
    ensures kept { RootsKept memory.old.roots.now memory.new.roots.now }
    ensures rest { (memory.new.single.now ≡ memory.old.single.now) × (memory.new.offsets.now ≡ memory.old.offsets.now)
        × (memory.new.blob.now ≡ memory.old.blob.now) × (memory.new.table.now ≡ memory.old.table.now) }
    ensures same { SameSlices memory.old memory.new }
{
    let most = tokens::capacity(nodes.len());
    if tokens::is_full(most, st.made) {
        return Err(Refusal::NodesFull);
    }
    if token.bytes.len() == 1 {
        return tokens::enter_one(memory.as_memory().single, st.made, token.bytes);
    }
    trie::insert(
        &mut *memory.roots,
        nodes,
        most,
        st.made,
        token.bytes,
        token.id,
    )
}

/// One more token, with an id above the last; or 16, 17 or 18. The table stays as it is.
pub fn push(
    memory: &mut MemoryMut,
    nodes: &mut [Node],
    st: Build,
    token: Entry,
) -> Result<Build, Refusal>
    requires { LongEnough (cells_in memory.old) × (st.previous < token.id) × Small st }
    ensures stands { (table : ℕ) (ts : List Token) → BuiltIn ts memory.old nodes.old st
        → PushedIn (room_for nodes.old memory.old.blob.now table) ts (token_of token.entry) result memory.new nodes.new }
    ensures kept { KeptIn memory.old memory.new }
    ensures table { memory.new.table.now ≡ memory.old.table.now }
    ensures same { SameSlices memory.old memory.new }
{
    let entered = enter(memory, nodes, st, token);
    tokens::push_entered(memory, st, token, entered)
}

/// The end of a build: the offsets behind the last id, the roots and the table. The work memory may hold anything then.
pub fn finish(
    partial: bool,
    memory: &mut MemoryMut,
    work: &mut Work,
    st: Build,
) -> Result<u32, LoadError>
    requires { LongEnough (cells_in memory.old) × (1 ≤ st.made) × (0 < st.tokens → st.made ≤ room work.old.nodes.now) }
    ensures stands { (blob : List ℕ) (most : Room) (ts : List Token)
        → most.table ≡ table_room (length memory.old.table.now) (length work.old.used.now) (length work.old.used_bases.now)
        → Built ts memory.old.single.now memory.old.offsets.now blob memory.old.roots.now work.old.nodes.now st
        → FinishedAs partial most ts result memory.old.offsets.now memory.old.roots.now memory.old.table.now
        memory.new.offsets.now memory.new.roots.now memory.new.table.now }
    ensures kept { KeptIn memory.old memory.new }
    ensures rest { (memory.new.single.now ≡ memory.old.single.now) × (memory.new.blob.now ≡ memory.old.blob.now) }
    ensures same { SameSlices memory.old memory.new }
    ensures same_work { SameWork work.old work.new }
{
    ending::stop_of(partial, memory.as_memory().single, st)?;
    tokens::set_offsets(&mut *memory.offsets, st.previous, 65536, st.used);
    let packed = packing::pack(work, st.made, &mut *memory.roots, &mut *memory.table);
    ending::finished_of(packed)
}
