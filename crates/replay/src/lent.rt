// How much of the memory a case has.
ghost use Rattle.std.specs.Prelude.{◌≤◌};

use memory::Memory;

// A part of the memory that number 1 is about.
#[derive(Clone, Copy, Debug, PartialEq, Eq)]
pub enum Part {
    Single,
    Offsets,
    Roots,
}

impl Part {
    // The part that a case's byte states, if it states one.
    pub fn of(byte: u8) -> Option<Part> {
        match byte {
            1 => Some(Part::Single),
            2 => Some(Part::Offsets),
            3 => Some(Part::Roots),
            _ => None,
        }
    }
}

// How many of so many cells a case has: one less if they are short.
pub fn less_one(count: usize, short: bool) -> usize
    ensures { result ≤ count }
{
    count.saturating_sub(usize::from(short))
}

// The memory, less one cell of the part that is short.
pub fn shortened(memory: Memory<'_>, short: Option<Part>) -> Memory<'_> {
    let single = less_one(memory.single.len(), short == Some(Part::Single));
    let offsets = less_one(memory.offsets.len(), short == Some(Part::Offsets));
    let roots = less_one(memory.roots.len(), short == Some(Part::Roots));
    Memory {
        single: &memory.single[..single],
        offsets: &memory.offsets[..offsets],
        roots: &memory.roots[..roots],
        ..memory
    }
}
