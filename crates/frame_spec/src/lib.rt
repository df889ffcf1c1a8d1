// No code: one BINARY frame as mathematics: what reading, writing and searching answer, and when;
// both round trips; the five laws.
#![tactic(auto)]
