// A reader of lossy text that takes one byte at a time. Every public function takes any input, and its contract is an equation with a
// definition of specs/; that what goes out is the lossy text is `lossy-run` in proofs/ReaderLaws.antt.
#![tactic(auto)]

ghost use Rattle.std.specs.Prelude.{◌≡◌, [], ◌∷◌, ◌++◌, ◌≤◌, length};
ghost use Rattle.spec.specs.Utf8.{replacement};
ghost use Rattle.reader.specs.Reader.{start, broken, taken, wants, push_of, finish_of};
ghost use Rattle.reader.specs.HeldBytes.{want_means, held_of, held_as, bringing, pushed_as};

use utf8::Lead;

/// The bytes of a character that has begun.
#[derive(Clone, Copy, Debug, PartialEq, Eq)]
pub enum Held {
    Nothing,
    One(u8),
    Two(u8, u8),
    Three(u8, u8, u8),
}

/// What a byte brings: `len` bytes to write out, zeros after, and what is held from then on.
// Kept: no heap, and a caller lends no room: the bytes, six at most, come by value, with how many there are.
#[derive(Clone, Copy, Debug, PartialEq, Eq)]
pub struct Pushed {
    pub bytes: [u8; 6],
    pub len: usize,
    pub held: Held,
}

// Nothing goes out.
fn quiet(held: Held) -> Pushed
    ensures { result ≡ bringing [] held }
{
    Pushed {
        bytes: [0; 6],
        len: 0,
        held,
    }
}

// U+FFFD goes out.
fn replaced(held: Held) -> Pushed
    ensures { result ≡ bringing replacement held }
{
    Pushed {
        bytes: [0xef, 0xbf, 0xbd, 0, 0, 0],
        len: 3,
        held,
    }
}

// `b` where nothing is held.
#[tactic(auto, unfolding(crate::specs::Reader::start))]
fn alone(b: u8) -> Pushed
    ensures { result ≡ pushed_as (start b) }
{
    let Some(lead) = utf8::lead_of(b) else {
        return replaced(Held::Nothing);
    };
    if lead.more == 0 {
        Held::Nothing.complete(b)
    } else {
        quiet(Held::One(b))
    }
}

// `b` after held bytes that it breaks off: U+FFFD, then what `b` alone brings.
#[tactic(auto, unfolding(crate::specs::Reader::start))]
fn breaking(b: u8) -> Pushed
    ensures { result ≡ pushed_as (broken (start b)) }
{
    let Pushed {
        bytes: [first, second, third, ..],
        len,
        held,
    } = alone(b);
    Pushed {
        bytes: [0xef, 0xbf, 0xbd, first, second, third],
        len: 3 + len,
        held,
    }
}

impl Held {
    // What must follow the held bytes.
    #[tactic(auto, unfolding(crate::specs::Reader::wants))]
    fn wanted(self) -> Option<Lead>
        ensures { want_means result ≡ wants (held_of self) }
    {
        match self {
            Held::Nothing => None,
            Held::One(a) => utf8::lead_of(a),
            Held::Two(a, _) => Some(utf8::lead_of(a)?.behind()),
            Held::Three(a, _, _) => Some(utf8::lead_of(a)?.behind().behind()),
        }
    }

    // The held bytes and `b` are a character: they go out.
    fn complete(self, b: u8) -> Pushed
        ensures { result ≡ pushed_as (taken [] (held_of self ++ b ∷ [])) }
    {
        let (bytes, len) = match self {
            Held::Nothing => ([b, 0, 0, 0, 0, 0], 1),
            Held::One(first) => ([first, b, 0, 0, 0, 0], 2),
            Held::Two(first, second) => ([first, second, b, 0, 0, 0], 3),
            Held::Three(first, second, third) => ([first, second, third, b, 0, 0], 4),
        };
        Pushed {
            bytes,
            len,
            held: Held::Nothing,
        }
    }

    // The held bytes and `b` begin a character: they are held.
    fn with(self, b: u8) -> Held
        requires { length (held_of self) ≤ 2 }
        ensures { result ≡ held_as (held_of self ++ b ∷ []) }
    {
        match self {
            Held::Nothing => Held::One(b),
            Held::One(first) => Held::Two(first, b),
            Held::Two(first, second) | Held::Three(first, second, _) => {
                Held::Three(first, second, b)
            }
        }
    }

    /// `b` after the held bytes: what goes out, and what is held.
    #[tactic(auto, using(crate::proofs::ReaderTurns::push_turns), unfolding(crate::specs::Reader::push_of))]
    pub fn push(self, b: u8) -> Pushed
        ensures { result ≡ pushed_as (push_of (held_of self) b) }
    {
        let Some(lead) = self.wanted() else {
            return alone(b);
        };
        if lead.more == 0 {
            return alone(b);
        }
        if !lead.allows(b) {
            return breaking(b);
        }
        if lead.more == 1 {
            self.complete(b)
        } else {
            quiet(self.with(b))
        }
    }

    /// The end after the held bytes.
    pub fn finish(self) -> Pushed
        ensures { result ≡ pushed_as (finish_of (held_of self)) }
    {
        match self {
            Held::Nothing => quiet(Held::Nothing),
            Held::One(_) | Held::Two(_, _) | Held::Three(_, _, _) => replaced(Held::Nothing),
        }
    }
}
