// What C and Rust may call on a ledger: code and results as in `host_frames`. A ledger is nine
// numbers, those of the crate `host_words`. A refusal writes nothing; only 12 changes a ledger, and
// only its top.
#![tactic(auto)]

ghost use Rattle.std.specs.Prelude.{◌≡◌, [], ◌∷◌};
ghost use Rattle.ledger_spec.specs.Calls.{Tick, Announce, Request, Reply, Ask, Between, Renew, open_number};
ghost use Rattle.host_words.specs.Told.{Tells};
ghost use Rattle.host_words.specs.Calls.{call_told, words_after};
ghost use Rattle.host_ledger.specs.Words.{open_words, ledger_told, row_of, reply_told};

use ledger::{Ledger, Settled};
use terms::{ChannelNumber, TickNumber};

// A fresh ledger for a channel; or 10, and the words stay as they were.
pub fn rk_ledger_open(channel: u16, state: &mut [u64; 9]) -> u32
    ensures { (result ≡ open_number channel) × (state.new ≡ open_words channel state.old) }
{
    let opened = Ledger::opened(ChannelNumber::new(channel));
    let answer = terms::number_of(opened.answer);
    host_words::keep(state, answer, opened.next);
    answer
}

// Offers a tick. Results: the first number that the floor has newly passed and how many, perhaps
// none. 12 raises the top.
pub fn rk_ledger_tick(state: &mut [u64; 9], channel: u16, number: u64, told: &mut [u64; 2]) -> u32
    ensures { Tells (call_told state.old (Tick channel number)) told.old result told.new
        × (state.new ≡ words_after state.old (Tick channel number)) }
{
    let ticked = host_words::ledger_in(state).tick(
        ChannelNumber::new(channel),
        TickNumber::new(number),
    );
    match ticked.answer {
        Ok(passed) => {
            host_words::keep(state, 0, ticked.next);
            *told = [passed.first.value(), passed.count];
            0
        }
        Err(why) => {
            let answer = u32::from(why);
            host_words::keep(state, answer, ticked.next);
            answer
        }
    }
}

// Announces the channel's last number.
pub fn rk_ledger_announce(state: &mut [u64; 9], channel: u16, last: u64) -> u32
    ensures { (result ≡ (call_told state.old (Announce channel last)).number)
        × (state.new ≡ words_after state.old (Announce channel last)) }
{
    let noted = host_words::ledger_in(state).announce(
        ChannelNumber::new(channel),
        TickNumber::new(last),
    );
    let answer = terms::number_of(noted.answer);
    host_words::keep(state, answer, noted.next);
    answer
}

// Asks for a resend request. Results: its first and last number, pending from now on.
pub fn rk_ledger_request(state: &mut [u64; 9], channel: u16, told: &mut [u64; 2]) -> u32
    ensures { Tells (call_told state.old (Request channel)) told.old result told.new
        × (state.new ≡ words_after state.old (Request channel)) }
{
    let asked = host_words::ledger_in(state).request(ChannelNumber::new(channel));
    host_words::keep(state, terms::number_of(asked.answer), asked.next);
    match asked.answer {
        Ok(range) => {
            *told = [range.first.value(), range.last.value()];
            0
        }
        Err(why) => u32::from(why),
    }
}

// A reply's two sets as nine words: the number that both count from, and four words of each.
pub fn settled_row(settled: Settled) -> [u64; 9]
    ensures { result ≡ row_of settled.first.0 settled.given_up settled.passed }
{
    let g = settled.given_up.words;
    let p = settled.passed.words;
    [
        settled.first.value(),
        g[0],
        g[1],
        g[2],
        g[3],
        p[0],
        p[1],
        p[2],
        p[3],
    ]
}

// The exchange's reply to the pending request, which is cleared. Results: the floor + 1 as it was,
// the numbers given up, and the received ones that the floor has newly passed, for delivery; both
// sets are empty but on status 4.
pub fn rk_ledger_reply(
    state: &mut [u64; 9],
    channel: u16,
    first: u64,
    status: u8,
    told: &mut [u64; 9],
) -> u32
    ensures { Tells (reply_told state.old (Reply channel first status)) told.old result told.new
        × (state.new ≡ words_after state.old (Reply channel first status)) }
{
    let replied = host_words::ledger_in(state).reply(
        ChannelNumber::new(channel),
        TickNumber::new(first),
        status,
    );
    host_words::keep(state, terms::number_of(replied.answer), replied.next);
    match replied.answer {
        Ok(settled) => {
            *told = settled_row(settled);
            0
        }
        Err(why) => u32::from(why),
    }
}

// A new session of the line begins: the pending request is cleared, and all else is kept.
pub fn rk_ledger_renew(state: &mut [u64; 9]) -> u32
    ensures { (result ≡ (call_told state.old Renew).number)
        × (state.new ≡ words_after state.old Renew) }
{
    let noted = host_words::ledger_in(state).renewed();
    let answer = terms::number_of(noted.answer);
    host_words::keep(state, answer, noted.next);
    answer
}

// What a ledger holds. Results: channel, floor, top, how many numbers are missing and how many are
// held, and the pending request's first and last number, 0 and 0 where nothing is pending.
pub fn rk_ledger_told(state: &[u64; 9], told: &mut [u64; 7]) -> u32
    ensures { Tells (ledger_told state.now) told.old result told.new }
{
    let ledger = host_words::ledger_in(state);
    match ledger.missing().answer {
        Ok(missing) => {
            *told = [
                u64::from(ledger.channel.value()),
                ledger.floor.value(),
                ledger.top.value(),
                missing,
                ledger.held().answer.unwrap_or(0),
                host_words::first_asked(ledger.pending),
                host_words::last_asked(ledger.pending),
            ];
            0
        }
        Err(why) => u32::from(why),
    }
}

// How many numbers from a to b, both counted, are missing. Told: the count.
pub fn rk_ledger_missing(state: &[u64; 9], channel: u16, a: u64, b: u64, told: &mut u64) -> u32
    ensures { Tells (call_told state.now (Ask (Between channel a b))) (told.old ∷ []) result (told.new ∷ []) }
{
    let counted = host_words::ledger_in(state).missing_between(
        ChannelNumber::new(channel),
        TickNumber::new(a),
        TickNumber::new(b),
    );
    match counted.answer {
        Ok(count) => {
            *told = count;
            0
        }
        Err(why) => u32::from(why),
    }
}
