// A ledger as nine numbers, for C and Rust: channel, floor, top, the map's four words, the pending
// request's first and last number, 0 and 0 where nothing is pending. They are the host's to keep
// and not to read: the calls return all there is to know.
#![tactic(auto)]

ghost use Rattle.std.specs.Prelude.{◌≡◌, [], ◌∷◌, min};
ghost use Rattle.terms.specs.Counters.{channel_of};
ghost use Rattle.octets.specs.Papers.{written_paper};
ghost use Rattle.host_words.specs.Words.{first_asked, last_asked, words_of, pending_in, ledger_in};
ghost use Rattle.host_words.specs.Told.{Tells};
ghost use Rattle.host_words.specs.Calls.{kept_by};

use ledger::{Ledger, Range};
use terms::{ChannelNumber, Refusal, TickNumber};
use tick_map::Map;

// A channel above two bytes is none, and stands for one that breaks the state rules.
fn channel_in(word: u64) -> ChannelNumber
    ensures { result ≡ channel_of (min word 65535) }
{
    ChannelNumber::new(u16::try_from(word).unwrap_or(u16::MAX))
}

// No request starts at 0; from 0 to another number is one that breaks the state rules.
#[tactic(auto, unfolding(crate::specs::Words::pending_in))]
fn pending_in(first: u64, last: u64) -> Option<Range>
    ensures { result ≡ pending_in first last }
{
    if first == 0 && last == 0 {
        return None;
    }
    Some(Range {
        first: TickNumber::new(first),
        last: TickNumber::new(last),
    })
}

// The ledger that nine words stand for, sound or not.
#[tactic(auto, unfolding(crate::specs::Words::ledger_in))]
pub fn ledger_in(state: &[u64; 9]) -> Ledger
    ensures { result ≡ ledger_in state.now }
{
    Ledger {
        channel: channel_in(state[0]),
        floor: TickNumber::new(state[1]),
        top: TickNumber::new(state[2]),
        map: Map {
            words: [state[3], state[4], state[5], state[6]],
        },
        pending: pending_in(state[7], state[8]),
    }
}

// The first number of a pending request; 0 where nothing is pending.
pub fn first_asked(pending: Option<Range>) -> u64
    ensures { result ≡ first_asked pending }
{
    match pending {
        None => 0,
        Some(range) => range.first.value(),
    }
}

// The last number of a pending request; 0 where nothing is pending.
pub fn last_asked(pending: Option<Range>) -> u64
    ensures { result ≡ last_asked pending }
{
    match pending {
        None => 0,
        Some(range) => range.last.value(),
    }
}

// The words of a ledger.
#[tactic(auto, unfolding(crate::specs::Words::words_of))]
pub fn state_of(ledger: Ledger) -> [u64; 9]
    ensures { result ≡ words_of ledger }
{
    let words = ledger.map.words;
    [
        u64::from(ledger.channel.value()),
        ledger.floor.value(),
        ledger.top.value(),
        words[0],
        words[1],
        words[2],
        words[3],
        first_asked(ledger.pending),
        last_asked(ledger.pending),
    ]
}

// WHAT AN ANSWER COMES TO, for the crates that C and Rust call

// Keeps the ledger that stands beside an answer: 0 and 12 store it, any other refusal leaves the
// words as they were.
#[tactic(auto, unfolding(crate::specs::Calls::kept_by))]
pub fn keep(state: &mut [u64; 9], answer: u32, next: Ledger)
    ensures { state.new ≡ kept_by answer next state.old }
{
    if answer == 0 || answer == 12 {
        *state = state_of(next);
    }
}

// What a call that writes returns: its number; the result is how many bytes.
pub fn told_bytes(written: Result<usize, Refusal>, told: &mut u64) -> u32
    ensures { Tells (written_paper written) (told.old ∷ []) result (told.new ∷ []) }
{
    match written {
        Ok(n) => {
            *told = n as u64;
            0
        }
        Err(why) => u32::from(why),
    }
}
