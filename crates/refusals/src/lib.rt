// The documents' refusals of a load, each with its number and, where it carries one, its place.
#![tactic(auto)]

ghost use Rattle.std.specs.Prelude.{◌≡◌};
ghost use Rattle.refusals.specs.Numbers.{number};
ghost use Rattle.refusals.specs.Places.{NoPlace};

/// Why a load is refused. "Each refusal has its number": the table of document 01, and 34 of document 02.
#[derive(Clone, Copy, Debug, PartialEq, Eq)]
pub enum Refusal {
    ShortMemory = 1,
    NotUtf8 = 2,
    BlankLine = 3,
    NoSpace = 4,
    MisplacedSpace = 5,
    BadId = 6,
    IdTooGreat = 7,
    IdZero = 8,
    IdRepeated = 9,
    IdDescends = 10,
    BadLength = 11,
    BadLiteral = 12,
    EmptyToken = 13,
    OtherLength = 14,
    LongToken = 15,
    SeenBefore = 16,
    NodesFull = 17,
    BlobFull = 18,
    NoTokens = 19,
    ByteMissing = 20,
    TableFull = 21,
    NoEdition = 34,
}

impl Refusal {
    /// The documents' number.
    pub fn number(self) -> u8
        ensures { result ≡ number self }
    {
        self as u8
    }
}

/// Where a load was refused: a line of its text, counted from 1, an offset in it, or a byte without a one-byte token.
#[derive(Clone, Copy, Debug, PartialEq, Eq)]
pub enum Place {
    Line(usize),
    Offset(usize),
    Byte(u8),
}

/// Why a load is refused, and where, if its number carries a place.
#[derive(Clone, Copy, Debug, PartialEq, Eq)]
pub struct LoadError {
    pub refusal: Refusal,
    pub place: Option<Place>,
}

impl From<Refusal> for LoadError {
    ghost from_gives = { NoPlace };

    /// A refusal that carries no place.
    fn from(refusal: Refusal) -> LoadError {
        LoadError {
            refusal,
            place: None,
        }
    }
}
