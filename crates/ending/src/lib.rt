// The end of a build: what it lacks, 19 to 21. No function here is lent the nodes.
#![tactic(auto)]

ghost use Rattle.std.specs.Prelude.{◌≡◌, not, List, ℕ, ◌≤◌, length, None, Err};
ghost use Rattle.std.specs.List.{position};
ghost use Rattle.std.specs.Result.{IfErr, OnOk};
ghost use Rattle.spec.specs.Token.{Token};
ghost use Rattle.spec.specs.Load.{Room, missing, demanded};
ghost use Rattle.nodes.specs.Run.{Nodes};
ghost use Rattle.tokens.specs.Built.{Built, is_taken};
ghost use Rattle.ending.specs.EndOfBuild.{SingleOf, FinishedAs, finished_of};

use refusals::{LoadError, Place, Refusal};
use tokens::Build;

// The place of the first cell that holds no id.
fn first_free(cells: &[i32]) -> Option<usize>
    ensures { result ≡ position (λ x. not (is_taken x)) cells.now }
{
    cells.iter().position(|&x| !tokens::taken(x))
}

// The lowest byte without a one-byte token.
fn missing_byte(single: &[i32]) -> Option<u8>
    requires { 256 ≤ length single.now }
    ensures { (ts : List Token) → SingleOf ts single.now → result ≡ missing ts 256 0 }
{
    let b = first_free(&single[..256])?;
    Some(b as u8)
}

// The byte that full mode lacks; partial mode asks for none.
fn demanded_byte(partial: bool, single: &[i32]) -> Option<u8>
    requires { 256 ≤ length single.now }
    ensures { (ts : List Token) → SingleOf ts single.now → result ≡ demanded partial (missing ts 256 0) }
{
    if partial { None } else { missing_byte(single) }
}

/// What a build lacks before it is packed: 19, or 20 with the lowest byte that is wanting.
// Kept: a caller may lend more cells, here, in `tokens` and in `trie`; arrays of 256, 65,537 and 65,536 would ask more of it.
pub fn stop_of(partial: bool, single: &[i32], st: Build) -> Result<(), LoadError>
    requires { 256 ≤ length single.now }
    ensures stops { (most : Room) (ts : List Token) (os bl rs : List ℕ) (ns : Nodes) (tb os' rs' tb' : List ℕ)
        → Built ts single.now os bl rs ns st → IfErr result (λ e. FinishedAs partial most ts (Err e) os rs tb os' rs' tb') }
    ensures goes { OnOk result ((st.tokens ≡ 0 → ⊥)
        × ((ts : List Token) → SingleOf ts single.now → demanded partial (missing ts 256 0) ≡ None)) }
{
    if st.tokens == 0 {
        return Err(LoadError::from(Refusal::NoTokens));
    }
    match demanded_byte(partial, single) {
        Some(b) => Err(LoadError {
            refusal: Refusal::ByteMissing,
            place: Some(Place::Byte(b)),
        }),
        None => Ok(()),
    }
}

/// The end of a build, by what its packing answers: the table's words, or 21.
// Kept: 21 is decided here with 19 and 20, where an edit of it checks a small crate; `builder` only hands on.
pub fn finished_of(packed: Option<u32>) -> Result<u32, LoadError>
    ensures { result ≡ finished_of packed }
{
    packed.ok_or(LoadError::from(Refusal::TableFull))
}
