// Marks of slots and bases, 64 to a word: how a word of them moves, how one is set, and the word at which a search begins.
ghost use Rattle.std.specs.Prelude.{◌≡◌, not, ◌||◌, List, ◌∷◌, ℕ, ◌+◌, ◌*◌, ◌/◌, ◌^◌, ◌<◌, ◌≤◌, eqb, length};
ghost use Rattle.std.specs.Int.Bits.{bit_xor};
ghost use Rattle.spec.specs.Layout.{Put, choose, put};
ghost use Rattle.laws.specs.Nodes.{ByteLabels};
ghost use Rattle.laws.specs.Perm.{bit, maybe};
ghost use Rattle.laws.specs.MarkLaws.{marked, mark};
ghost use Rattle.slots.specs.Marks.{MovedWord, mark_all, open_on};
ghost use Rattle.slots.specs.Going.{CursorsOk};

// ---- the permutation

// Where d has the bit s, neighbouring groups of s bits change places.
#[tactic(auto, using(crate::proofs::Bitwise::maybe_stages))]
fn swap_if(word: u64, mask: u64, s: u64, d: usize) -> u64
    requires { (0 < s) × (s < 64) × (mask * 2 ^ s < 2 ^ 64) }
    ensures { result ≡ maybe mask s d word }
{
    if (d as u64 / s) % 2 == 1 {
        (word & mask) << s | (word >> s) & mask
    } else {
        word
    }
}

// Bit i of the result is bit i XOR d of the word, d from 0 to 63.
pub fn xor_perm(word: u64, d: usize) -> u64
    ensures { d < 64 → (i : ℕ) → i < 64 → bit result i ≡ bit word (bit_xor i d) }
{
    let a = swap_if(word, 0x5555555555555555, 1, d);
    let b = swap_if(a, 0x3333333333333333, 2, d);
    let c = swap_if(b, 0x0f0f0f0f0f0f0f0f, 4, d);
    let e = swap_if(c, 0x00ff00ff00ff00ff, 8, d);
    let f = swap_if(e, 0x0000ffff0000ffff, 16, d);
    swap_if(f, 0x00000000ffffffff, 32, d)
}

// ---- candidates

// The marks of word i with each slot moved by d: bit j is the mark of slot (64 i + j) XOR d.
#[tactic(auto, using(crate::proofs::Find::moved_word))]
pub(crate) fn moved(marks: &[u64], i: usize, d: usize) -> u64
    requires { bit_xor i (d / 64) < length marks.now }
    ensures { MovedWord marks.now i d result }
{
    xor_perm(marks[i ^ (d / 64)], d % 64)
}

// ---- marks

// Slot s is marked, and no other.
#[tactic(auto, using(crate::proofs::Find::mark_stored))]
pub(crate) fn mark_slot(marks: &mut [u64], s: usize)
    requires { s / 64 < length marks.old }
    ensures means { (t : ℕ) → marked marks.new t ≡ (marked marks.old t || eqb t s) }
    ensures same { marks.new ≡ mark marks.old s }
{
    marks[s / 64] |= 1 << (s % 64);
}

// Marks the slots of a node's children.
#[tactic(auto, using(crate::proofs::Find::mark_turns))]
pub(crate) fn mark_all(marks: &mut [u64], base: usize, labels: &[u8])
    requires { base / 256 * 4 + 4 ≤ length marks.old }
    ensures { marks.new ≡ mark_all base marks.old labels.now }
{
    for &label in labels {
        mark_slot(marks, base ^ usize::from(label));
    }
}

// ---- where a search begins

// The first word from from on that is not full; how many words there are if none is.
// Kept: the answer is where the next search begins, so that an Option would become it at once.
pub fn open_from(used: &[u64], from: usize) -> usize
    requires { from ≤ length used.now }
    ensures { result ≡ open_on used.now from (length used.now) }
{
    let rest = &used[from..];
    let open = rest.iter().position(|&word| word != u64::MAX);
    from + open.unwrap_or(rest.len())
}

// A node was placed at base. If it has one label, its label's cursor is the word of its slot.
pub(crate) fn remember(cursors: &mut [u32], first: u8, others: &[u8], base: usize)
    requires { (256 ≤ length cursors.old) × (base < 2 ^ 32) }
    ensures { (L : List ℕ → List ℕ) (xs : List Put) (p : List ℕ) → first ∷ others.now ≡ L p → ByteLabels L
        → base ≡ choose L xs (L p) → CursorsOk L xs cursors.old → CursorsOk L (put L xs p) cursors.new }
{
    let label = usize::from(first);
    if others.is_empty() {
        cursors[label] = ((base ^ label) / 64) as u32;
    }
}
