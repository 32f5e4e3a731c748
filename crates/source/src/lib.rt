// What a load is given, a source of some form and lent memory: the refusals that are told before any record is read; and the reading of
// one record.
#![tactic(auto)]

pub mod read;
pub mod rules;

ghost use Rattle.std.specs.Prelude.{◌≡◌, ◌≤◌, length, Some, IfOk};
ghost use Rattle.spec.specs.Load.{vocabulary, start_of};
ghost use Rattle.memory.specs.Lent.{cells_of};
ghost use Rattle.source.specs.SourceAnswers.{edition_told, number_of, form_of, known, start_is};

use memory::Memory;
use refusals::{LoadError, Place, Refusal};

/// An edition of a vocabulary text.
#[derive(Clone, Copy, Debug, PartialEq, Eq)]
pub enum Edition {
    First = 1,
    Second = 2,
}

impl Edition {
    /// The number that the loader is told.
    pub fn number(self) -> u32
        ensures { result ≡ number_of self }
    {
        self as u32
    }
}

impl TryFrom<u32> for Edition {
    type Error = Refusal;

    ghost try_from_gives = { λ n r. r ≡ edition_told n };

    /// The edition of this number: "any edition but 1 and 2 with 34".
    fn try_from(number: u32) -> Result<Edition, Refusal> {
        match number {
            1 => Ok(Edition::First),
            2 => Ok(Edition::Second),
            _ => Err(Refusal::NoEdition),
        }
    }
}

/// What a load is asked to do. `form` says how its source is written: as a text of this edition; None is an edition that there is not, and
/// the load is refused. `partial` lets bytes lack a one-byte token.
#[derive(Clone, Copy, Debug, PartialEq, Eq)]
pub struct How {
    pub form: Option<Edition>,
    pub partial: bool,
}

/// A load that may begin: the edition of its text, the mode that was asked for, and how many bytes at the front of the source are its
/// records.
#[derive(Clone, Copy, Debug, PartialEq, Eq)]
pub struct Plan {
    pub edition: Edition,
    pub partial: bool,
    pub end: usize,
}

/// A vocabulary text of this edition is asked for.
pub fn text_of(edition: u32, partial: bool) -> How
    ensures { (form_of result.form ≡ vocabulary (known edition)) × (result.partial ≡ partial) }
{
    How {
        form: Edition::try_from(edition).ok(),
        partial,
    }
}

/// The start of a load: all that is refused before any record is read, in its order. Nothing is written.
#[tactic(auto, unfolding(spec::specs::Load::start_of))]
pub fn start_of(source: &[u8], how: How, memory: Memory) -> Result<Plan, LoadError>
    ensures means { start_is source.now result
        ≡ start_of (form_of how.form) how.partial (cells_of memory.entry) source.now }
    ensures plan { IfOk result (λ p. (how.form ≡ Some p.edition) × (p.end ≤ length source.now)) }
{
    let edition = how.form.ok_or(Refusal::NoEdition)?;
    if memory.too_short() {
        return Err(LoadError::from(Refusal::ShortMemory));
    }
    if let Some(at) = utf8::first_bad(source) {
        return Err(LoadError {
            refusal: Refusal::NotUtf8,
            place: Some(Place::Offset(at)),
        });
    }
    Ok(Plan {
        edition,
        partial: how.partial,
        end: source.len(),
    })
}
