// Lemmas for walks by hand: see specs/. No code stands here.
#![tactic(auto)]
