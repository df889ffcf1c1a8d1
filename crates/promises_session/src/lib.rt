// No code: what was promised of a session (CR 12), as theorems over the crates below.
#![tactic(auto)]
