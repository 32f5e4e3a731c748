// What stands at a place inside the quotes of a Python literal: a byte as it is, or an escape. A contract says by a definition of `spec`
// that the answer is what the documents say; none is a fault of the literal. Any bytes may be given.
#![tactic(auto)]

ghost use Rattle.std.specs.Prelude.{◌≡◌, ◌≤◌, option_map};
ghost use Rattle.spec.specs.Literal.{byte_escape, point_escape, escape, octal_escape, escape2, escapes_of, piece_at};
ghost use Rattle.escapes.specs.Answers.{piece_of};

/// What stands at a place inside the quotes: a byte or the UTF-8 of a code point, and how many bytes behind the first belong to it.
// Kept: each escape makes one value of both; a struct of content and `more` would be two values in every arm.
#[derive(Clone, Copy)]
pub enum Piece {
    Byte(u8, usize),
    Point(u32, usize),
}

impl Piece {
    /// How many bytes behind the first belong to it.
    pub fn more(self) -> usize
        ensures { result ≡ (piece_of self).more }
    {
        match self {
            Piece::Byte(_, more) | Piece::Point(_, more) => more,
        }
    }
}

// The escape `x` with the bytes behind that letter: two digits, a byte in a `b` literal, else a code point.
#[tactic(auto, unfolding(spec::specs::Literal::byte_escape, spec::specs::Options::bind))]
fn byte_escape(digits: &[u8], in_bytes: bool) -> Option<Piece>
    ensures { option_map piece_of result ≡ byte_escape in_bytes digits.now }
{
    let v = numbers::hex_run(digits, 2)?;
    Some(if in_bytes {
        Piece::Byte(v as u8, 3)
    } else {
        Piece::Point(v as u32, 3)
    })
}

// A code point in `count` hexadecimal digits, the bytes behind the letter: "never in `b`, never a surrogate (D800 to DFFF)", and none
// "above 10FFFF hex".
#[tactic(auto, unfolding(spec::specs::Literal::point_escape, spec::specs::Options::bind))]
fn point_escape(digits: &[u8], count: usize, in_bytes: bool) -> Option<Piece>
    requires { count ≤ 8 }
    ensures { option_map piece_of result ≡ point_escape count in_bytes digits.now }
{
    if in_bytes {
        return None;
    }
    let v = numbers::hex_run(digits, count)?;
    match v {
        0xd800..=0xdfff => None,
        0..=0x10ffff => Some(Piece::Point(v as u32, 1 + count)),
        _ => None,
    }
}

// The escape that a backslash makes with the bytes behind it, in edition 1.
#[tactic(auto, unfolding(spec::specs::Literal::escape, spec::specs::Literal::letters, spec::specs::Literal::look_up))]
fn escape(rest: &[u8], in_bytes: bool) -> Option<Piece>
    ensures { option_map piece_of result ≡ escape in_bytes rest.now }
{
    let (&letter, behind) = rest.split_first()?;
    match letter {
        b'n' => Some(Piece::Byte(b'\n', 1)),
        b't' => Some(Piece::Byte(b'\t', 1)),
        b'r' => Some(Piece::Byte(b'\r', 1)),
        b'\\' | b'\'' | b'"' => Some(Piece::Byte(letter, 1)),
        b'0' => Some(Piece::Byte(0, 1)),
        b'x' => byte_escape(behind, in_bytes),
        b'u' => point_escape(behind, 4, in_bytes),
        _ => None,
    }
}

// "one to three octal digits", which `digits` begins with: "a code point in a string and a byte in `b`", and bad "above 377 octal in `b`".
#[tactic(auto, unfolding(spec::specs::Literal::octal_escape))]
fn octal_escape(digits: &[u8], in_bytes: bool) -> Option<Piece>
    ensures { option_map piece_of result ≡ octal_escape in_bytes digits.now }
{
    let numbers::Octal { value, count } = numbers::octal_run(digits, 3);
    if !in_bytes {
        return Some(Piece::Point(value, count));
    }
    let b = u8::try_from(value).ok()?;
    Some(Piece::Byte(b, count))
}

// The escape that a backslash makes with the bytes behind it, in edition 2, which "adds `\a` 7, `\b` 8, `\f` 12, `\v` 11, one to three
// octal digits .. and `\U` with eight hexadecimal digits" to edition 1.
#[tactic(auto, unfolding(spec::specs::Literal::escape2, spec::specs::Literal::more_letters, spec::specs::Literal::look_up))]
fn escape_2(rest: &[u8], in_bytes: bool) -> Option<Piece>
    ensures { option_map piece_of result ≡ escape2 in_bytes rest.now }
{
    let (&letter, behind) = rest.split_first()?;
    match letter {
        b'a' => Some(Piece::Byte(7, 1)),
        b'b' => Some(Piece::Byte(8, 1)),
        b'f' => Some(Piece::Byte(12, 1)),
        b'v' => Some(Piece::Byte(11, 1)),
        b'0'..=b'7' => octal_escape(rest, in_bytes),
        b'U' => point_escape(behind, 8, in_bytes),
        _ => escape(rest, in_bytes),
    }
}

// The escape of an edition: "files of edition 1 read as ever".
// Kept: parse_python_literal_into takes any number for the edition; a type of two editions would ask more of its callers.
// Kept: `in_bytes` goes on without the edition to five functions, so that a struct of both would be taken apart at once.
#[tactic(auto, unfolding(spec::specs::Literal::escapes_of))]
fn escape_of(rest: &[u8], in_bytes: bool, edition: u32) -> Option<Piece>
    ensures { option_map piece_of result ≡ escapes_of edition in_bytes rest.now }
{
    if edition == 2 {
        escape_2(rest, in_bytes)
    } else {
        escape(rest, in_bytes)
    }
}

/// What stands at the byte `b` with the bytes behind it, inside quotes of the byte `quote`.
pub fn piece_at(b: u8, behind: &[u8], quote: u8, in_bytes: bool, edition: u32) -> Option<Piece>
    ensures { option_map piece_of result ≡ piece_at (escapes_of edition) in_bytes quote b behind.now }
{
    if b == b'\\' {
        return escape_of(behind, in_bytes, edition);
    }
    if b == quote || in_bytes && !b.is_ascii() {
        return None;
    }
    Some(Piece::Byte(b, 0))
}
