// The demands as theorems over the definitions: see specs/. No code stands here.
#![tactic(auto)]
