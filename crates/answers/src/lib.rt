// What an accepted load answers: its counts. What a load's answer means, and what the parts of a load leave, stands in specs/.
#![tactic(auto)]

ghost use Rattle.std.specs.Prelude.{◌≡◌, List};
ghost use Rattle.spec.specs.Token.{Token};
ghost use Rattle.spec.specs.Layout.{table_words};
ghost use Rattle.spec.specs.Load.{counts_of};
ghost use Rattle.tokens.specs.Built as built;
ghost use Rattle.answers.specs.Answers.{count_of};

use tokens::Build;

/// How many tokens, nodes (node 0 counted), blob bytes and table words an accepted load has.
#[derive(Clone, Copy, Debug, PartialEq, Eq)]
pub struct Counts {
    pub tokens: u32,
    pub nodes: u32,
    pub blob: u32,
    pub table: u32,
}

impl Counts {
    /// The counts of a build whose table has so many words.
    #[tactic(auto, unfolding(spec::specs::Load::counts_of))]
    pub fn of(st: Build, words: u32) -> Counts
        ensures means { (ts : List Token) → built.Counts ts st → words ≡ table_words ts → count_of result ≡ counts_of ts }
        ensures same { result ≡ record { tokens = st.tokens; nodes = st.made; blob = st.used; table = words } }
    {
        Counts {
            tokens: st.tokens,
            nodes: st.made,
            blob: st.used,
            table: words,
        }
    }
}
