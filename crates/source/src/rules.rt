// The rules of one token that need nothing but numbers: each refuses by the first that fails.
ghost use Rattle.std.specs.Prelude.{◌≡◌, ◌≤◌, length, OnOk};
ghost use Rattle.spec.specs.Check.{Check, pass};
ghost use Rattle.spec.specs.Token.{Token};
ghost use Rattle.spec.specs.Load.{id_rule, length_rule};
ghost use Rattle.source.specs.SourceAnswers.{unless};

use refusals::Refusal;

/// 8 to 10, of an id and the one before it, 0 if it is the first.
#[tactic(auto, unfolding(spec::specs::Load::id_rule, spec::specs::Check::need))]
pub fn id_refusal(previous: u16, id: u16) -> Result<(), Refusal>
    ensures { (rest : Check Token) → id_rule previous id rest ≡ unless result rest }
{
    if id == 0 {
        return Err(Refusal::IdZero);
    }
    if id == previous {
        return Err(Refusal::IdRepeated);
    }
    if id < previous {
        return Err(Refusal::IdDescends);
    }
    Ok(())
}

/// 13 to 15, of a token's length and the one declared.
#[tactic(auto, unfolding(spec::specs::Load::length_rule, spec::specs::Check::need))]
pub fn length_refusal(wanted: u64, len: usize) -> Result<(), Refusal>
    ensures rule { (t : Token) → length t.bytes ≡ len → length_rule wanted t ≡ unless result (pass t) }
    ensures short { OnOk result ((1 ≤ len) × (len ≤ 255)) }
{
    if len == 0 {
        return Err(Refusal::EmptyToken);
    }
    if len as u64 != wanted {
        return Err(Refusal::OtherLength);
    }
    if len > 255 {
        return Err(Refusal::LongToken);
    }
    Ok(())
}
