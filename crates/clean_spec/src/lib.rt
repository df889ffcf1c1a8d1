// No code: a capture, scrubbed, as mathematics: its accepted frames in order, each scrubbed, and
// where a capture differs from that.
#![tactic(auto)]
