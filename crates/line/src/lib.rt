// The lines of a text and the fields of a line, with refusals 3 to 6 and 11. The id, the literal and the length are parts of the line;
// whoever reads a line takes them one by one, since refusals 7 to 10 stand between them.
#![tactic(auto)]

ghost use Rattle.std.specs.Prelude.{◌≡◌, ◌==◌, position, IfOk};
ghost use Rattle.std.specs.Iterator.{YieldsFirstBy, item_count};
ghost use Rattle.spec.specs.Check.{pass, given};
ghost use Rattle.spec.specs.Digits.{digits};
ghost use Rattle.spec.specs.Line.{less_cr, lines, first_space, last_space, fields};
ghost use Rattle.refusals.specs.Numbers.{checked};
ghost use Rattle.line.specs.Answers.{lines_left, fields_of, NoneEmpty};

use refusals::Refusal;

// The line without its last byte, if that is a CR.
#[tactic(auto, using(crate::proofs::LineTurns::cr_cases))]
fn less_cr(line: &[u8]) -> &[u8]
    ensures { result.now ≡ less_cr line.now }
{
    match line {
        [less @ .., b'\r'] => less,
        _ => line,
    }
}

// The place of the first `byte`.
fn find(bytes: &[u8], byte: u8) -> Option<usize>
    ensures { result ≡ position (λ b. b == byte) bytes.now }
{
    bytes.iter().position(|&b| b == byte)
}

/// The lines of a text, each without its LF and the CR before that.
#[derive(Clone, Copy)]
pub struct Lines<'a> {
    rest: &'a [u8],
}

impl<'a> Lines<'a> {
    pub fn new(text: &'a [u8]) -> Lines<'a>
        ensures { lines_left result ≡ lines text.now }
    {
        Lines { rest: text }
    }
}

impl<'a> Iterator for Lines<'a> {
    type Item = &'a [u8];

    ghost next_gives = { YieldsFirstBy (λ line. line.now) lines_left };

    ghost remaining = { item_count lines_left };

    #[tactic(auto, using(crate::proofs::LineTurns::turns))]
    fn next(&mut self) -> Option<&'a [u8]> {
        if self.rest.is_empty() {
            return None;
        }
        match find(self.rest, b'\n') {
            Some(lf) => {
                let line = less_cr(less_cr(&self.rest[..lf]));
                self.rest = &self.rest[lf + 1..];
                Some(line)
            }
            None => {
                let line = less_cr(self.rest);
                self.rest = &[];
                Some(line)
            }
        }
    }
}

/// The place of the first space of `line`.
pub fn first_space(line: &[u8]) -> Option<usize>
    ensures { result ≡ first_space line.now }
{
    find(line, b' ')
}

/// The place of the last space of `line`.
pub fn last_space(line: &[u8]) -> Option<usize>
    ensures { result ≡ last_space line.now }
{
    line.iter().rposition(|&b| b == b' ')
}

/// The fields of a line: the id before its first space, the length after its last, the literal between them.
#[derive(Clone, Copy)]
pub struct Fields<'a> {
    pub id: &'a [u8],
    pub literal: &'a [u8],
    pub length: &'a [u8],
}

/// The fields of `line`, or refusal 3, 4 or 5.
#[tactic(auto, using(crate::proofs::Cut::ends), unfolding(spec::specs::Line::fields, spec::specs::Check::given, spec::specs::Check::need))]
pub fn split_fields(line: &[u8]) -> Result<Fields<'_>, Refusal>
    ensures means { checked fields_of result ≡ fields line.now }
    ensures filled { IfOk result NoneEmpty }
{
    if characters::is_blank(line) {
        return Err(Refusal::BlankLine);
    }
    let first = first_space(line).ok_or(Refusal::NoSpace)?;
    let last = last_space(line).ok_or(Refusal::NoSpace)?;
    if first == 0 || last <= first + 1 || line.len() <= last + 1 {
        return Err(Refusal::MisplacedSpace);
    }
    Ok(Fields {
        id: &line[..first],
        literal: &line[first + 1..last],
        length: &line[last + 1..],
    })
}

/// The id that the bytes before a line's first space state, or refusal 6.
// Kept: with read_length: limit, refusal and width differ, so that one function of both would be `digits` with its own arguments.
#[tactic(auto, using(laws::specs::LiteralLaws::digits_le), unfolding(spec::specs::Check::given))]
pub fn read_id(part: &[u8]) -> Result<u32, Refusal>
    ensures { checked (λ v. v) result ≡ given 6 (digits 4294967295 part.now) pass }
{
    let v = numbers::digits(part, 4294967295).ok_or(Refusal::BadId)?;
    Ok(v as u32)
}

/// The length that the bytes after a line's last space declare, or refusal 11.
#[tactic(auto, unfolding(spec::specs::Check::given))]
pub fn read_length(part: &[u8]) -> Result<u64, Refusal>
    ensures { checked (λ v. v) result ≡ given 11 (digits 18446744073709551615 part.now) pass }
{
    numbers::digits(part, u64::MAX).ok_or(Refusal::BadLength)
}
