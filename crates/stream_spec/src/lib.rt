// A stream between two calls, and its opening. The definitions of its calls stand in specs/, and CR
// 1's theorems over them in proofs/; the crate `stream` makes the calls.
#![tactic(auto)]

ghost use Rattle.std.specs.Prelude.{◌≡◌};
ghost use Rattle.stream_spec.specs.State.{opened};

use ledger::Ledger;
use terms::{ChannelNumber, Refusal};

// How many frames and refused readings there were so far, and the ledger after them.
#[derive(Clone, Copy)]
pub struct Tally {
    pub frames: u64,
    pub refused: u64,
    pub ledger: Ledger,
}

// What stands between two calls. The fields are open, so that a host can keep it and hand it in
// again; a broken one is refused by 13.
#[derive(Clone, Copy)]
pub struct Stream {
    // Of the first kept byte; of the next byte to come, where none is kept.
    pub place: u64,
    // The search is under way: a place that does not read is passed over.
    pub seeking: bool,
    pub closed: bool,
    // The first len bytes of kept wait for more; those after them are 0.
    pub len: usize,
    pub kept: [u8; 8191],
    pub tally: Tally,
}

// What a call gave, or why it was refused; and the stream after it, the very one that was passed in
// beside a refusal.
#[derive(Clone, Copy)]
pub struct Fed<T> {
    pub answer: Result<T, Refusal>,
    pub stream: Stream,
}

impl Stream {
    // Before the first call: no byte came, and the ledger of channel 100 is just opened.
    pub fn opened() -> Stream
        ensures { result ≡ opened }
    {
        Stream {
            place: 0,
            seeking: false,
            closed: false,
            len: 0,
            kept: [0; 8191],
            tally: Tally {
                frames: 0,
                refused: 0,
                ledger: Ledger::opened(ChannelNumber::new(100)).next,
            },
        }
    }
}
