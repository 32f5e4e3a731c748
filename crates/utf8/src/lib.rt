// UTF-8 by RFC 3629: what a byte string begins with, and its first ill-formed place. Every public function takes any input, and
// its contract is an equation with a definition of `spec`.
#![tactic(auto)]

ghost use Rattle.std.specs.Prelude.{◌≡◌, option_map, drop};
ghost use Rattle.spec.specs.Utf8.{◌to◌, within, after, step_of, first_bad};
ghost use Rattle.utf8.specs.Means.{lead_means, step_means};

/// What the first byte of a character says: so many bytes must follow, the first of them from `low` to `high` and the others from 80
/// to BF.
#[derive(Clone, Copy, Debug, PartialEq, Eq)]
pub struct Lead {
    pub more: usize,
    pub low: u8,
    pub high: u8,
}

impl Lead {
    /// Whether the first byte that must follow may be `b`.
    pub fn allows(self, b: u8) -> bool
        ensures { result ≡ within (self.low to self.high) b }
    {
        (self.low..=self.high).contains(&b)
    }

    /// What must follow once the first of these bytes has.
    #[tactic(auto, using(crate::proofs::StepTurns::ranges_behind))]
    pub fn behind(self) -> Lead
        ensures { lead_means result ≡ drop 1 (lead_means self) }
    {
        Lead {
            more: self.more.saturating_sub(1),
            low: 0x80,
            high: 0xbf,
        }
    }
}

/// The rule of the grammar that begins with `b`; none if no character begins with it.
#[tactic(auto, unfolding(spec::specs::Utf8::after, spec::specs::Utf8::rule_for, spec::specs::Utf8::grammar))]
pub fn lead_of(b: u8) -> Option<Lead>
    ensures { option_map lead_means result ≡ after b }
{
    let (more, low, high) = match b {
        0x00..=0x7f => (0, 0, 0),
        0xc2..=0xdf => (1, 0x80, 0xbf),
        0xe0 => (2, 0xa0, 0xbf),
        0xe1..=0xec => (2, 0x80, 0xbf),
        0xed => (2, 0x80, 0x9f),
        0xee..=0xef => (2, 0x80, 0xbf),
        0xf0 => (3, 0x90, 0xbf),
        0xf1..=0xf3 => (3, 0x80, 0xbf),
        0xf4 => (3, 0x80, 0x8f),
        _ => return None,
    };
    Some(Lead { more, low, high })
}

/// What a byte string begins with: a character, a maximal ill-formed part, or the beginning of a character that the end cuts off, each
/// with its number of bytes.
// Kept: `step_of` tells the three apart; a Result<usize, usize> would no more say of a bad part whether the end cuts it off.
#[derive(Clone, Copy, Debug, PartialEq, Eq)]
pub enum Step {
    Char(usize),
    Bad(usize),
    Cut(usize),
}

/// The first step of a byte string; with no byte it is cut off after none.
// Inlined, since `first_bad` takes it for each character past ASCII.
#[tactic(auto, using(crate::proofs::StepTurns::step_turns))]
#[inline]
pub fn first_step(rest: &[u8]) -> Step
    ensures { step_means result ≡ step_of rest.now }
{
    let Some((&first, others)) = rest.split_first() else {
        return Step::Cut(0);
    };
    let Some(lead) = lead_of(first) else {
        return Step::Bad(1);
    };
    let mut left = lead;
    // Kept: `get(n)` tells a missing byte where it is met; over `others.iter()` that would be one more test behind the loop.
    for n in 0..lead.more {
        let Some(&b) = others.get(n) else {
            return Step::Cut(n + 1);
        };
        if !left.allows(b) {
            return Step::Bad(n + 1);
        }
        left = left.behind();
    }
    Step::Char(lead.more + 1)
}

/// The first bad offset of a byte string; none if it is UTF-8.
#[tactic(auto, using(crate::proofs::StepTurns::bad_turns))]
pub fn first_bad(s: &[u8]) -> Option<usize>
    ensures { result ≡ first_bad s.now }
{
    // Kept: over the rest as a slice it takes up to twice as long; by std's from_utf8 its definition had to be proved RFC 3629's too.
    let mut i = 0;
    while i < s.len() {
        if s[i] < 0x80 {
            i += 1;
        } else {
            let Step::Char(n) = first_step(&s[i..]) else {
                return Some(i);
            };
            i += n;
        }
    }
    None
}
