// No code: a stream as a host keeps it, in words and bytes; what a call of it returns and leaves;
// and CR 1 for every row of such calls.
#![tactic(auto)]
