// What is known of the nodes placed so far.
ghost use Rattle.std.specs.Prelude.{◌≡◌, ◌∷◌, ◌*◌, ◌%◌, ◌^◌, ◌<◌, ◌≤◌, length};

use crate::search;

/// A bit for each slot that is taken and for each base that is used, and for each label the word where the last node of that label alone
/// was placed. The words are whole blocks of four, one at least, as many for slots as for bases, and every slot is a number of 32 bits.
#[derive(Drop)]
pub struct Marks<'a> {
    pub used: &'a mut [u64],
    pub bases: &'a mut [u64],
    pub cursors: &'a mut [u32],
    pub ghost blocks: { length used.now % 4 ≡ 0 },
    pub ghost some: { 4 ≤ length used.now },
    pub ghost as_many: { length bases.now ≡ length used.now },
    pub ghost small: { length used.now * 64 < 2 ^ 32 },
    pub ghost each_label: { 256 ≤ length cursors.now },
}

impl Marks<'_> {
    ghost use Rattle.std.specs.Prelude.{List, ℕ, ◌<◌, IfSome};
    ghost use Rattle.spec.specs.Layout.{Put};
    ghost use Rattle.slots.specs.Marks.{BadWord, FirstFree, start_on};
    ghost use Rattle.slots.specs.Going.{Going, PlacedOr};
    ghost use Rattle.slots.specs.Lent.{SameMarks};

    // Kept: first and others: of the slice of both, each of these functions would split it, with a branch for none that never comes.
    // Bit j says that slot 64 i + j is refused for a node of these labels: a child's slot is taken, or its base is used.
    fn bad_word(&self, i: usize, first: u8, others: &[u8]) -> u64
        requires { i < length self.now.used.now }
        ensures { BadWord self.now.used.now self.now.bases.now (first ∷ others.now) i result }
    {
        let mut bad = self.used[i];
        for &label in others {
            if bad == u64::MAX {
                return bad;
            }
            bad |= search::moved(&*self.used, i, usize::from(first ^ label));
        }
        bad | search::moved(&*self.bases, i, usize::from(first))
    }

    // The smallest slot from word from on that is not refused.
    fn find_slot(&self, from: usize, first: u8, others: &[u8]) -> Option<usize>
        requires { from ≤ length self.now.used.now }
        ensures { FirstFree self.now.used.now self.now.bases.now (first ∷ others.now) from (length self.now.used.now) result }
    {
        // Kept: two runs are read at `i`, here and in `bad_word`, so that the number is wanted.
        for i in from..self.used.len() {
            let free = !self.bad_word(i, first, others);
            if free != 0 {
                return Some(i * 64 + free.trailing_zeros() as usize);
            }
        }
        None
    }

    // The word at which the search for a node of these labels begins. Words below from are full; for a node of one label the words below
    // its label's cursor have been searched, and what was refused stays refused.
    #[tactic(auto, unfolding(crate::specs::Marks::start_on))]
    fn start_of(&self, first: u8, others: &[u8], from: usize) -> usize
        ensures { result ≡ start_on self.now.cursors.now (first ∷ others.now) from (length self.now.used.now) }
    {
        if !others.is_empty() {
            return from;
        }
        let cursor = self.cursors[usize::from(first)] as usize;
        if from < cursor && cursor <= self.used.len() {
            return cursor;
        }
        from
    }

    /// Places a node with these labels at the smallest slot of all, where that lies within the words: its base, or no slot. Words below
    /// `from` are full. A node without labels needs no base.
    // Kept: that `from` is within: a Front kept in `Marks` would have this shown again at each store; here a new one is handed on.
    #[tactic(auto, unfolding(crate::specs::Marks::start_on))]
    pub fn place(&mut self, labels: &[u8], from: usize) -> Option<usize>
        requires { from ≤ length self.old.used.now }
        ensures stands { (L : List ℕ → List ℕ) (xs : List Put) (p : List ℕ) (high : ℕ) → labels.now ≡ L p → 1 ≤ length labels.now
            → Going L xs self.old.used.now self.old.bases.now self.old.cursors.now from high (length self.old.used.now)
            → PlacedOr L xs p (length self.old.used.now) self.new.used.now self.new.bases.now self.new.cursors.now result }
        ensures small { IfSome result (λ b. b < length self.old.used.now * 64) }
        ensures same { SameMarks self.old self.new }
    {
        let Some((&first, others)) = labels.split_first() else {
            return Some(0);
        };
        let start = self.start_of(first, others, from);
        let slot = self.find_slot(start, first, others)?;
        let base = slot ^ usize::from(first);
        search::mark_slot(&mut *self.bases, base);
        search::mark_all(&mut *self.used, base, labels);
        search::remember(&mut *self.cursors, first, others, base);
        Some(base)
    }
}
