// One record of a source. Of a vocabulary text that is a line: refusals 3 to 15 in their order, then the id and the bytes.
ghost use Rattle.std.specs.Prelude.{◌≡◌, ◌≤◌, length};
ghost use Rattle.spec.specs.Check.{given};
ghost use Rattle.spec.specs.Literal.{literal};
ghost use Rattle.spec.specs.Load.{length_rule, read_token, read_fields, read_line, reading};
ghost use Rattle.refusals.specs.Numbers.{checked};
ghost use Rattle.line.specs.Answers.{fields_of};
ghost use Rattle.entry.specs.TokenOf.{token_of};
ghost use Rattle.source.specs.SourceAnswers.{form_of};

use crate::{Edition, rules};
use entry::Entry;
use line::Fields;
use refusals::Refusal;

// 12 to 15: the bytes of a literal go into the cells.
#[tactic(auto, unfolding(spec::specs::Check::given))]
fn read_bytes<'a>(
    part: &[u8],
    edition: u32,
    wanted: u64,
    id: u16,
    cells: &'a mut [u8],
) -> Result<Entry<'a>, Refusal>
    requires { 255 ≤ length cells.old }
    ensures { checked token_of result
        ≡ given 12 (literal edition part.now) (λ bytes. length_rule wanted (record { id = id; bytes = bytes })) }
{
    let len = literal::parse_python_literal_into(part, edition, cells).ok_or(Refusal::BadLiteral)?;
    rules::length_refusal(wanted, len)?;
    Ok(Entry {
        id,
        bytes: &cells[..len],
    })
}

// 11 to 15.
#[tactic(auto, unfolding(spec::specs::Load::read_token, spec::specs::Check::given))]
fn read_token<'a>(
    fields: Fields,
    edition: u32,
    id: u16,
    cells: &'a mut [u8],
) -> Result<Entry<'a>, Refusal>
    requires { 255 ≤ length cells.old }
    ensures { checked token_of result ≡ read_token edition (fields_of fields.entry) id }
{
    let wanted = line::read_length(fields.length)?;
    read_bytes(fields.literal, edition, wanted, id, cells)
}

// 6 to 15.
#[tactic(auto, unfolding(spec::specs::Load::read_fields, spec::specs::Check::given, spec::specs::Check::need))]
fn read_fields<'a>(
    fields: Fields,
    edition: u32,
    previous: u16,
    cells: &'a mut [u8],
) -> Result<Entry<'a>, Refusal>
    requires { 255 ≤ length cells.old }
    ensures { checked token_of result ≡ read_fields edition previous (fields_of fields.entry) }
{
    let wide = line::read_id(fields.id)?;
    let id = u16::try_from(wide).map_err(|_| Refusal::IdTooGreat)?;
    rules::id_refusal(previous, id)?;
    read_token(fields, edition, id, cells)
}

// 3 to 15: what a line of a text of this edition states, after a token of id `previous`.
#[tactic(auto, unfolding(spec::specs::Load::read_line, spec::specs::Check::and_then))]
fn read_line<'a>(
    line: &[u8],
    edition: u32,
    previous: u16,
    cells: &'a mut [u8],
) -> Result<Entry<'a>, Refusal>
    requires { 255 ≤ length cells.old }
    ensures { checked token_of result ≡ read_line edition previous line.now }
{
    let fields = line::split_fields(line)?;
    read_fields(fields, edition, previous, cells)
}

/// The token that a part of a source of this form states, one record, after a token of id `previous`. Its bytes stand in the cells lent.
// Kept: any cells may be lent that are long enough, and an edition that there is not; an array of 255 and an `Edition` would ask more.
#[tactic(auto, unfolding(spec::specs::Load::reading))]
pub fn read_record<'a>(
    part: &[u8],
    form: Option<Edition>,
    previous: u16,
    cells: &'a mut [u8],
) -> Result<Entry<'a>, Refusal>
    requires { 255 ≤ length cells.old }
    ensures { checked token_of result ≡ reading (form_of form) previous part.now }
{
    let edition = form.map_or(0, Edition::number);
    read_line(part, edition, previous, cells)
}
