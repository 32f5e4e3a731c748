// Vocabulary memory, lent as five slices: to be read, or to be filled by a load. Whether it is too short, which is number 1; the memory
// emptied; and the place of a root. Two of the slices, blob and table, may have any length.
#![tactic(auto)]

ghost use Rattle.std.specs.Prelude.{◌≡◌, false, ◌+◌, ◌*◌, ◌<◌, ◌≤◌, length};
ghost use Rattle.spec.specs.Memory.{memory, too_short, emptied};
ghost use Rattle.laws.specs.Reads.{LongEnough};
ghost use Rattle.memory.specs.Lent.{cells_of, cells_in, SameSlices};

/// Vocabulary memory lent for reading.
#[derive(Clone, Copy)]
pub struct Memory<'a> {
    pub single: &'a [i32],
    pub offsets: &'a [u32],
    pub blob: &'a [u8],
    pub roots: &'a [u64],
    pub table: &'a [u64],
}

impl<'a> Memory<'a> {
    /// The memory of these five slices.
    pub fn new(
        single: &'a [i32],
        offsets: &'a [u32],
        blob: &'a [u8],
        roots: &'a [u64],
        table: &'a [u64],
    ) -> Memory<'a>
        ensures { cells_of result ≡ memory single.now offsets.now blob.now roots.now table.now }
    {
        Memory {
            single,
            offsets,
            blob,
            roots,
            table,
        }
    }

    /// "`single`, offsets or roots too short", whatever blob and table are.
    #[tactic(auto, using(std::proofs::lemmas::Bool::Decides::nat_tests), unfolding(spec::specs::Memory::too_short))]
    pub fn too_short(self) -> bool
        ensures { result ≡ too_short (cells_of self.entry) }
    {
        self.single.len() < 256 || self.offsets.len() < 65537 || self.roots.len() < 65536
    }
}

/// Vocabulary memory lent for a load.
// Kept: a type for long enough memory has these slices and methods twice; tried round a MemoryMut, what a load leaves did not prove.
#[derive(Drop)]
pub struct MemoryMut<'a> {
    pub single: &'a mut [i32],
    pub offsets: &'a mut [u32],
    pub blob: &'a mut [u8],
    pub roots: &'a mut [u64],
    pub table: &'a mut [u64],
}

impl MemoryMut<'_> {
    /// The same memory for reading.
    pub fn as_memory(&self) -> Memory<'_>
        ensures { cells_of result ≡ cells_in self.now }
    {
        Memory::new(
            &*self.single,
            &*self.offsets,
            &*self.blob,
            &*self.roots,
            &*self.table,
        )
    }

    /// "After 3 to 21 the vocabulary memory is emptied: `single` all −1, the rest 0."
    pub fn empty(&mut self)
        requires { LongEnough (cells_in self.old) }
        ensures emptied { cells_in self.new ≡ emptied (cells_in self.old) }
        ensures same { SameSlices self.old self.new }
    {
        empty_cells(
            &mut *self.single,
            &mut *self.offsets,
            &mut *self.blob,
            &mut *self.roots,
            &mut *self.table,
        );
    }
}

// The same of the five slices. "Cells .. past these lengths are never touched".
// Kept: tried in `empty` itself, where the proof of three fills of parts behind one `&mut` didn't close.
fn empty_cells(
    single: &mut [i32],
    offsets: &mut [u32],
    blob: &mut [u8],
    roots: &mut [u64],
    table: &mut [u64],
)
    requires { (256 ≤ length single.old) × (65537 ≤ length offsets.old) × (65536 ≤ length roots.old) }
    ensures { memory single.new offsets.new blob.new roots.new table.new
        ≡ emptied (memory single.old offsets.old blob.old roots.old table.old) }
{
    single[..256].fill(-1);
    offsets[..65537].fill(0);
    blob.fill(0);
    roots[..65536].fill(0);
    table.fill(0);
}

/// The index of the root of two bytes.
pub fn root_index(first: u8, second: u8) -> usize
    ensures { (result ≡ first * 256 + second) × (result < 65536) }
{
    usize::from(first) * 256 + usize::from(second)
}
