// The mathematics of the scan and of its running form: see specs/. No code stands here.
#![tactic(auto)]
