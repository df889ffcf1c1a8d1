// No code: the walk over a capture as mathematics, over any reading, any ledger and any record.
#![tactic(auto)]
