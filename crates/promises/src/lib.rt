// No code: demand 1, what was promised of captures, and the marked examples, as theorems over the
// crates below. Beside it stand `promises_frames` (demand 2), `promises_ledger` (demand 3),
// `promises_streams` (a capture while it arrives, CR 1), and a crate each for other requests.
#![tactic(auto)]
