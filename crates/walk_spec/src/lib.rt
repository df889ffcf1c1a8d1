// No code: the walk over a closed capture as mathematics: what its readings offer to the ledger,
// their records, counts and table, and that it is document 01's walk.
#![tactic(auto)]
