// The longest match at a place of the input and the bytes looked at for it, given the bytes from there on, on any vocabulary memory. Each
// public contract is an equation with a definition of `spec`; a private function is lent only the parts of the memory that it reads.
#![tactic(auto)]

ghost use Rattle.std.specs.Prelude.{◌≡◌, List, [], ◌∷◌, ℕ, ◌+◌, ◌≤◌, ◌<◌, ℤ, pos, length, drop, get_or};
ghost use Rattle.spec.specs.Memory.{memory};
ghost use Rattle.spec.specs.Match.{id_in, base_in, no_walk, onto, enter, walk_on, one, match_on, undecided_on};
ghost use Rattle.spec.specs.LookedOn.{read_from, looked_on};
ghost use Rattle.memory.specs.Lent.{cells_of};
ghost use Rattle.matching.specs.Answers.{walk_of, trail_of, longest, match_of, child};

use memory::Memory;

/// A token found: its id and its length.
#[derive(Clone, Copy, Debug, PartialEq, Eq)]
pub struct Match {
    pub id: u32,
    pub len: usize,
}

/// What matching gives at a place: the longest token there, if there is one, and how many bytes were looked at for it.
#[derive(Clone, Copy, Debug, PartialEq, Eq)]
pub struct Matched {
    pub longest: Option<Match>,
    pub looked: usize,
}

/// What a walk found: the last token passed, the bytes it used and the base it ended with.
#[derive(Clone, Copy, Debug, PartialEq, Eq)]
pub struct Walk {
    pub longest: Option<Match>,
    pub used: usize,
    pub base: u64,
}

// The same walk while it goes, by its words: the last one with an id, and the last. Its length counts only where there is an id.
// Kept: tried as a Walk with its Option<Match>, with which the encoding of random bytes takes a quarter longer, that of prose a tenth.
#[derive(Clone, Copy)]
struct Trail {
    best: u64,
    len: usize,
    used: usize,
    word: u64,
}

// A walk's trail, and how many bytes it read: the last may have led nowhere.
#[derive(Clone, Copy)]
struct Reach {
    trail: Trail,
    read: usize,
}

// Nothing found, nothing used.
const NOTHING: Trail = Trail {
    best: 0,
    len: 0,
    used: 0,
    word: 0,
};

impl Trail {
    // The walk after a word, by one more byte: every later terminal is a longer match.
    fn onto(self, word: u64) -> Trail
        requires { self.used < 255 }
        ensures { trail_of result ≡ onto (trail_of self) word (self.used + 1) }
    {
        let used = self.used + 1;
        if id_in(word) == 0 {
            return Trail { used, word, ..self };
        }
        Trail {
            best: word,
            len: used,
            used,
            word,
        }
    }

    // The last token passed.
    fn longest(self) -> Option<Match>
        ensures { result ≡ longest (trail_of self) }
    {
        let id = id_in(self.best);
        if id == 0 {
            return None;
        }
        Some(Match { id, len: self.len })
    }
}

// The id in bits 8 to 23 of a word.
#[tactic(auto, unfolding(spec::specs::Match::id_in))]
fn id_in(word: u64) -> u32
    ensures { result ≡ id_in word }
{
    ((word >> 8) % 65536) as u32
}

// The word that the byte leads to from a word. Bits 32 to 63 are the base.
#[tactic(auto, unfolding(crate::specs::Answers::child, spec::specs::Match::base_in, spec::specs::Match::goes))]
fn child_of(table: &[u64], word: u64, byte: u8) -> Option<u64>
    ensures { result ≡ child table.now (base_in word) byte }
{
    let label = u64::from(byte);
    let next = *table.get(((word >> 32) ^ label) as usize)?;
    if next == 0 || next % 256 != label {
        return None;
    }
    Some(next)
}

// The walk from a root word over the bytes after the first two.
fn enter(table: &[u64], root: u64, rest: &[u8]) -> Reach
    requires { length rest.now ≤ 253 }
    ensures trail { trail_of result.trail ≡ enter table.now root rest.now }
    ensures read { result.read ≡ 2 + read_from table.now root rest.now }
{
    if root == 0 {
        return Reach {
            trail: NOTHING,
            read: 2,
        };
    }
    let mut trail = Trail {
        best: root,
        len: 2,
        used: 2,
        word: root,
    };
    if id_in(root) != 0 && root >> 32 == 0 {
        return Reach { trail, read: 2 };
    }
    for &byte in rest {
        let Some(word) = child_of(table, trail.word, byte) else {
            return Reach {
                trail,
                read: trail.used + 1,
            };
        };
        trail = trail.onto(word);
        if word >> 32 == 0 {
            return Reach {
                trail,
                read: trail.used,
            };
        }
    }
    Reach {
        trail,
        read: trail.used,
    }
}

// The walk over the bytes that are left, at most 255 of them.
// Kept: lent two parts, and not the memory as walk_at is, with which an encoding takes some hundredths more instructions.
fn reach_over(roots: &[u64], table: &[u64], rest: &[u8]) -> Reach
    requires { 65536 ≤ length roots.now }
    ensures trail { (single : List ℤ) (offsets blob : List ℕ) →
        trail_of result.trail ≡ walk_on (memory single offsets blob roots.now table.now) rest.now }
    ensures read { (single : List ℤ) (offsets blob : List ℕ) →
        result.read ≡ looked_on (memory single offsets blob roots.now table.now) rest.now }
{
    let [first, second, more @ ..] = rest else {
        return Reach {
            trail: NOTHING,
            read: rest.len(),
        };
    };
    let root = roots[memory::root_index(*first, *second)];
    enter(table, root, &more[..more.len().min(253)])
}

/// The walk over the bytes that are left, at most 255 of them.
pub fn walk_at(memory: Memory, rest: &[u8]) -> Walk
    requires { 65536 ≤ length memory.roots.now }
    ensures { result ≡ walk_of (walk_on (cells_of memory.entry) rest.now) }
{
    let trail = reach_over(memory.roots, memory.table, rest).trail;
    Walk {
        longest: trail.longest(),
        used: trail.used,
        base: trail.word >> 32,
    }
}

// The match of one byte: its entry in `single`, of which a negative one is none.
fn one_byte(single: &[i32], byte: u8) -> Option<Match>
    requires { 256 ≤ length single.now }
    ensures { match_of result ≡ one (get_or single.now byte (pos 0)) }
{
    let id = u32::try_from(single[usize::from(byte)]).ok()?;
    Some(Match { id, len: 1 })
}

/// The longest token that the bytes left begin with, and the bytes looked at, also where there is none.
// Kept: walk_at and row_open read no `single`, so that one type of long memory would ask more; so too in `runs` and `stream`.
pub fn match_at(memory: Memory, rest: &[u8]) -> Matched
    requires { (1 ≤ length rest.now) × (256 ≤ length memory.single.now) × (65536 ≤ length memory.roots.now) }
    ensures longest { match_of result.longest ≡ match_on (cells_of memory.entry) rest.now }
    ensures looked { result.looked ≡ looked_on (cells_of memory.entry) rest.now }
{
    let reach = reach_over(memory.roots, memory.table, rest);
    let looked = reach.read;
    let Some(found) = reach.trail.longest() else {
        let longest = one_byte(memory.single, rest[0]);
        return Matched { longest, looked };
    };
    Matched {
        longest: Some(found),
        looked,
    }
}

/// Whether the byte alone is undecided: its row of roots has a word that is not 0.
pub fn row_open(memory: Memory, first: u8) -> bool
    requires { 65536 ≤ length memory.roots.now }
    ensures { result ≡ undecided_on (cells_of memory.entry) (first ∷ []) }
{
    let row = usize::from(first) * 256;
    memory.roots[row..row + 256].iter().any(|&word| word != 0)
}
