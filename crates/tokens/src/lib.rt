// The parts of a build that are lent no nodes: a build without tokens, and one token into `single`, the offsets and the blob.
#![tactic(auto)]

ghost use Rattle.std.specs.Prelude.{◌≡◌, not, List, [], ◌∷◌, ◌++◌, ℕ, ◌+◌, ◌≤◌, ◌<◌, min, ℤ, T, length, get_or, nat_lt};
ghost use Rattle.std.proofs.lemmas.List.Edits.{sets};
ghost use Rattle.spec.specs.Token.{Token};
ghost use Rattle.spec.specs.Memory.{emptied};
ghost use Rattle.spec.specs.Trie.{node_count};
ghost use Rattle.spec.specs.Check.{refuse};
ghost use Rattle.spec.specs.Load.{admit, last_id};
ghost use Rattle.laws.specs.Reads.{LongEnough};
ghost use Rattle.loading.specs.Accepted.{Reads};
ghost use Rattle.entry.specs.TokenOf.{token_of};
ghost use Rattle.memory.specs.Lent.{cells_in, SameSlices};
ghost use Rattle.nodes.specs.Run.{Nodes, room};
ghost use Rattle.nodes.specs.Stands.{Grown};
ghost use Rattle.tokens.specs.Built.{Built, BuiltIn, KeptIn, Counts, Small, room_for, PushedAs, is_taken, set_single, set_offsets};
ghost use Rattle.tokens.specs.Built.{one_entered};

use entry::Entry;
use memory::MemoryMut;
use refusals::Refusal;

/// A build under way: the last id, and how many tokens, nodes (node 0 counted) and blob bytes there are.
// Kept: that its numbers are small follows only from the tokens, which no field holds: of a token more, a ghost field could not be shown.
#[derive(Clone, Copy)]
pub struct Build {
    pub previous: u16,
    pub tokens: u32,
    pub made: u32,
    pub used: u32,
}

impl Build {
    // The build with a token of this many bytes more, with which so many nodes are made.
    fn counted(self, id: u16, made: u32, len: usize) -> Build
        requires { Small self × (len ≤ 255) }
        ensures { (ts : List Token) (t : Token) → Counts ts self → t.id ≡ id → length t.bytes ≡ len
            → made ≡ node_count (ts ++ (t ∷ [])) → Counts (ts ++ (t ∷ [])) result }
    {
        Build {
            previous: id,
            tokens: self.tokens + 1,
            made,
            used: self.used + len as u32,
        }
    }
}

/// The memory emptied, and a build without tokens.
pub fn begin(memory: &mut MemoryMut) -> Build
    requires { LongEnough (cells_in memory.old) }
    ensures emptied { cells_in memory.new ≡ emptied (cells_in memory.old) }
    ensures stands { (nodes : Nodes) → BuiltIn [] memory.new nodes result }
    ensures same { SameSlices memory.old memory.new }
{
    memory.empty();
    Build {
        previous: 0,
        tokens: 0,
        made: 1,
        used: 0,
    }
}

// ---- a token more

/// Whether a cell of `single` holds an id.
pub fn taken(x: i32) -> bool
    ensures { result ≡ is_taken x }
{
    0 <= x
}

/// How many nodes a run of this many records holds: as many as 32 bits count, and no vocabulary has more.
pub fn capacity(nodes: usize) -> u32
    ensures { result ≡ min nodes 4294967295 }
{
    u32::try_from(nodes).unwrap_or(u32::MAX)
}

// A token of one byte has its id in `single`.
fn set_single(single: &mut [i32], id: u16, bytes: &[u8])
    requires { 256 ≤ length single.old }
    ensures { single.new ≡ set_single single.old id bytes.now }
{
    if bytes.len() == 1 {
        single[usize::from(bytes[0])] = i32::from(id);
    }
}

/// The offsets behind the previous id, up to this one: absent ids repeat the total. At the end this one is 65536: "the last is the
/// total".
pub fn set_offsets(offsets: &mut [u32], previous: u16, id: u32, total: u32)
    requires { (65537 ≤ length offsets.old) × (previous < id) × (id ≤ 65536) }
    ensures { offsets.new ≡ set_offsets offsets.old previous id total }
{
    offsets[usize::from(previous) + 1..id as usize + 1].fill(total);
}

/// A token of one byte makes no node: seen before, or as many nodes as before.
pub fn enter_one(single: &[i32], made: u32, bytes: &[u8]) -> Result<u32, Refusal>
    requires { (256 ≤ length single.now) × (1 ≤ length bytes.now) }
    ensures { result ≡ one_entered single.now made (get_or bytes.now 0 0) }
{
    if taken(single[usize::from(bytes[0])]) {
        return Err(Refusal::SeenBefore);
    }
    Ok(made)
}

/// Whether more nodes are in use than there is room for: there is none even for node 0, and every token is refused with 17. Where just
/// as many are, a token that makes no node still has its place.
pub fn is_full(most: u32, made: u32) -> bool
    ensures full { T result → (table : ℕ) (ts : List Token) (t : Token) (s : List ℤ) (os bl rs : List ℕ) (ns : Nodes) (st : Build)
        → Built ts s os bl rs ns st → most ≡ min (room ns) 4294967295 → made ≡ st.made → admit (room_for ns bl table) ts t ≡ refuse 17 }
    ensures goes { T (not result) → made ≤ most }
    ensures same { result ≡ nat_lt most made }
{
    most < made
}

// The token's own cells.
// Kept: that the id is above the last one relates a build and a token; no type of either says it. Single slices, for short goals.
fn write(single: &mut [i32], offsets: &mut [u32], blob: &mut [u8], st: Build, token: Entry)
    requires { (256 ≤ length single.old) × (65537 ≤ length offsets.old) × (st.previous < token.id)
        × (st.used + length token.bytes.now ≤ length blob.old) }
    ensures single { single.new ≡ set_single single.old token.entry.id token.entry.bytes.now }
    ensures offsets { offsets.new ≡ set_offsets offsets.old st.previous token.entry.id st.used }
    ensures blob { blob.new ≡ sets blob.old st.used token.entry.bytes.now }
{
    set_single(single, token.id, token.bytes);
    set_offsets(offsets, st.previous, u32::from(token.id), st.used);
    let from = st.used as usize;
    blob[from..from + token.bytes.len()].copy_from_slice(token.bytes);
}

/// One more token, whose bytes are among the nodes already, or 16, 17 or 18. Roots and table stay as they are.
pub fn push_entered(
    memory: &mut MemoryMut,
    st: Build,
    token: Entry,
    entered: Result<u32, Refusal>,
) -> Result<Build, Refusal>
    requires { (256 ≤ length memory.old.single.now) × (65537 ≤ length memory.old.offsets.now) × (st.previous < token.id) × Small st }
    ensures stands { (table : ℕ) (ts : List Token) (rs rs' : List ℕ) (ns ns' : Nodes)
        → Built ts memory.old.single.now memory.old.offsets.now memory.old.blob.now rs ns st
        → (Reads (last_id ts) (token_of token.entry)
        → Grown ts (token_of token.entry) (room ns) entered rs' ns') → length ns' ≡ length ns
        → PushedAs (room_for ns memory.old.blob.now table) ts (token_of token.entry) result
        memory.new.single.now memory.new.offsets.now memory.new.blob.now rs' ns' }
    ensures kept { KeptIn memory.old memory.new }
    ensures rest { (memory.new.roots.now ≡ memory.old.roots.now) × (memory.new.table.now ≡ memory.old.table.now) }
    ensures same { SameSlices memory.old memory.new }
{
    let made = entered?;
    if memory.blob.len() < st.used as usize + token.bytes.len() {
        return Err(Refusal::BlobFull);
    }
    write(
        &mut *memory.single,
        &mut *memory.offsets,
        &mut *memory.blob,
        st,
        token,
    );
    Ok(st.counted(token.id, made, token.bytes.len()))
}
