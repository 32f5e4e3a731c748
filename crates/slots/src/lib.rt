// The slots of the nodes: each node with labels gets the smallest slot at which no child's slot is taken and no base is used twice. What is
// placed so far is known by the marks alone: no function here is lent the nodes.
#![tactic(auto)]

ghost use Rattle.std.specs.Prelude.{◌≡◌, ◌*◌, ◌≤◌, min, length};
ghost use Rattle.spec.specs.Load.{table_room};
ghost use Rattle.slots.specs.Going.{passed_on};

pub mod marks;
pub mod search;

/// How far the placing is: the first word of marks that is not full, and the highest block used.
#[derive(Clone, Copy)]
pub struct Front {
    pub from: usize,
    pub high: usize,
}

/// How far the placing is after a node, if it got this base.
// Kept: an Option, as `Marks::place` answers it; a usize would be a narrower type and ask more of callers.
pub fn passed(used: &[u64], at: Front, base: Option<usize>) -> Option<Front>
    requires { at.from ≤ length used.now }
    ensures { result ≡ passed_on used.now at (length used.now) base }
{
    let base = base?;
    Some(Front {
        from: search::open_from(used, at.from),
        high: at.high.max(base / 256),
    })
}

/// How many words of marks are searched, 64 slots in each: those of the table capacity. No layout needs more blocks than 2^24 - 1.
#[tactic(auto, unfolding(spec::specs::Load::table_room))]
pub fn words_of_marks(table: usize, used: usize, bases: usize) -> usize
    ensures { result * 64 ≡ min (table_room table used bases) (256 * 16777215) }
{
    let blocks = (table / 256).min(used / 4).min(bases / 4);
    4 * blocks.min(16777215)
}
