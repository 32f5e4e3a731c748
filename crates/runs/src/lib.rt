// A run over a stretch of a stream's bytes: every id that later bytes cannot change, as far as the memory decides. Each contract is an
// equation with a definition of `spec`, whatever memory holds.
#![tactic(auto)]

ghost use Rattle.std.specs.Prelude.{◌≡◌, ◌+◌, ◌-◌, ◌≤◌, ◌<◌, length, drop};
ghost use Rattle.spec.specs.Match.{undecided_on};
ghost use Rattle.memory.specs.Lent.{cells_of};
ghost use Rattle.runs.specs.Running.{RunsTo};

use memory::Memory;
use tally::{NO_IDS, Tally};

// Whether later bytes may lengthen the token that the bytes left begin with.
fn undecided_at(memory: Memory, rest: &[u8]) -> bool
    requires { (1 ≤ length rest.now) × (65536 ≤ length memory.roots.now) }
    ensures { result ≡ undecided_on (cells_of memory.entry) rest.now }
{
    if 255 <= rest.len() {
        return false;
    }
    if rest.len() == 1 {
        return matching::row_open(memory, rest[0]);
    }
    let walk = matching::walk_at(memory, rest);
    if walk.used != rest.len() {
        return false;
    }
    walk.base != 0
}

/// How a run over a stretch ends: past it, at a place where it waits, or at one where no token matches; and the ids written.
// Kept: `take_piece` does another thing at each of the three ends; a kind beside `at` and `given` would be matched the same.
#[derive(Clone, Copy, Debug, PartialEq, Eq)]
pub enum Ran {
    Through { at: usize, given: Tally },
    Waiting { at: usize, given: Tally },
    Stuck { at: usize, given: Tally },
}

/// The ids of the places before `stop`, written from the output's start. Bytes from `stop` on are only looked at.
pub fn run(memory: Memory, src: &[u8], stop: usize, out: &mut [u32]) -> Ran
    requires { (stop ≤ length src.now) × (256 ≤ length memory.single.now) × (65536 ≤ length memory.roots.now)
        × (length src.now ≤ length out.old) × (length src.now ≤ 4294967295) }
    ensures { RunsTo (cells_of memory.entry) src.now stop out.old out.new result }
{
    let behind = src.len() - stop;
    let mut rest = src;
    let mut given = NO_IDS;
    while rest.len() > behind {
        if undecided_at(memory, rest) {
            let at = src.len() - rest.len();
            return Ran::Waiting { at, given };
        }
        let matched = matching::match_at(memory, rest);
        let Some(found) = matched.longest else {
            let at = src.len() - rest.len();
            return Ran::Stuck { at, given };
        };
        out[given.count] = found.id;
        given = given.with_one(matched.looked);
        rest = &rest[found.len..];
    }
    let at = src.len() - rest.len();
    Ran::Through { at, given }
}
