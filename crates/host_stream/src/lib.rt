// A stream for C and Rust: bytes that arrive in cuts, to records, counts and ledger; or, by the
// calls that clean, to scrubbed frames. Between two calls the host keeps it as six numbers, the
// nine words of its ledger, and the bytes that wait. Each call returns a code, 0 where all is well.
// A refusal writes nothing.
#![tactic(auto)]

ghost use Rattle.std.specs.Prelude.{ℕ, ◌≡◌, List, length};
ghost use Rattle.octets.specs.Octets.{Bytes};
ghost use Rattle.stream_spec.specs.State.{opened};
ghost use Rattle.stream_spec.specs.Calls.{Feed, Close, leaves};
ghost use Rattle.terms.specs.Verdicts.{verdict_number};
ghost use Rattle.stream.specs.Standing.{whole};
ghost use Rattle.host_words.specs.Told.{Tells};
ghost use Rattle.host_stream_spec.specs.Lent.{waiting_in, lent, lent_of, stream_in};
ghost use Rattle.host_stream_spec.specs.Calls.{AnsweredBy, row_by, fed_numbers, kept_beside, call_told, lent_after};
ghost use Rattle.stream_clean_spec.specs.Calls as Clean;
ghost use Rattle.host_stream_spec.specs.Washes.{wash_numbers, wash_told, wash_after};

use stream::{Answered, Standing};
use stream_clean_spec::Sums;
use stream_spec::{Stream, Tally};
use terms::Refusal;

// THE STREAM, AS SIX NUMBERS: the place of the first byte that waits, or of the next to come; 1
// where the search is under way; 1 where the stream is closed; how many bytes wait; how many frames
// and refused readings there were.

// How many bytes wait. A flag above 1 is none, and stands for more of them than the state
// rules let wait.
#[tactic(auto, unfolding(host_stream_spec::specs::Lent::waiting_in))]
fn waiting_in(seeking: u64, closed: u64, waiting: u64) -> usize
    ensures { result ≡ waiting_in seeking closed waiting }
{
    if (seeking <= 1) & (closed <= 1) {
        waiting as usize
    } else {
        8192
    }
}

// How the stream stands that they stand for, sound or not.
#[tactic(auto, unfolding(host_stream_spec::specs::Lent::stream_in))]
fn standing_in(state: &[u64; 6], ledger: &[u64; 9]) -> Standing
    ensures { (kept : List ℕ) → whole result kept ≡ stream_in (lent state.now ledger.now kept) }
{
    let [place, seeking, closed, waiting, frames, refused] = *state;
    Standing {
        place,
        seeking: seeking == 1,
        closed: closed == 1,
        len: waiting_in(seeking, closed, waiting),
        tally: Tally {
            frames,
            refused,
            ledger: host_words::ledger_in(ledger),
        },
    }
}

// Keeps how a stream stands as its words.
fn keep(state: &mut [u64; 6], ledger: &mut [u64; 9], next: Standing)
    ensures { (kept : List ℕ) → lent state.new ledger.new kept ≡ lent_of (whole next kept) }
{
    *state = [
        next.place,
        u64::from(next.seeking),
        u64::from(next.closed),
        next.len as u64,
        next.tally.frames,
        next.tally.refused,
    ];
    *ledger = host_words::state_of(next.tally.ledger);
}

// What a call returns: its number; beside 0 the row is told, and the words of the stream after the
// call are kept.
fn settle<const N: usize>(
    state: &mut [u64; 6],
    ledger: &mut [u64; 9],
    told: &mut [u64; N],
    row: Result<[u64; N], Refusal>,
    next: Standing,
) -> u32
    ensures { AnsweredBy row.entry told.old result told.new
        × ((kept : List ℕ) → lent state.new ledger.new kept ≡ kept_beside (verdict_number row.entry) (whole next kept) (lent state.old ledger.old kept)) }
{
    match row {
        Ok(numbers) => {
            *told = numbers;
            keep(state, ledger, next);
            0
        }
        Err(why) => u32::from(why),
    }
}

// The results of a call that gives records.
fn fed_row(done: Answered<usize>) -> Result<[u64; 5], Refusal>
    ensures { (kept : List ℕ) → result ≡ row_by (fed_numbers (whole done.next kept)) done.answer }
{
    let next = done.next;
    Ok([
        done.answer? as u64,
        next.tally.frames,
        next.tally.refused,
        next.place,
        next.len as u64,
    ])
}

// The results of a call that cleans.
fn washed_row(done: Answered<Sums>) -> Result<[u64; 6], Refusal>
    ensures { (kept : List ℕ) → result ≡ row_by (wash_numbers (whole done.next kept)) done.answer }
{
    let sums = done.answer?;
    Ok([
        sums.bytes as u64,
        sums.frames as u64,
        sums.found as u64,
        sums.unjudged as u64,
        done.next.place,
        done.next.len as u64,
    ])
}

// A stream before its first call; its ledger is that of channel 100. Always 0.
pub fn rk_stream_open(state: &mut [u64; 6], ledger: &mut [u64; 9], kept: &mut [u8; 8191]) -> u32
    ensures { (result ≡ 0) × (lent state.new ledger.new kept.new ≡ lent_of opened) }
{
    let fresh = Stream::opened();
    let standing = Standing {
        place: fresh.place,
        seeking: fresh.seeking,
        closed: fresh.closed,
        len: fresh.len,
        tally: fresh.tally,
    };
    let none_waits = fresh.kept;
    *kept = none_waits;
    keep(state, ledger, standing);
    0
}

// One more cut, perhaps of no bytes: a record of 64 bytes for each reading that it decides.
// Results: how many records; frames and refused readings so far; the place of the first byte that
// waits, or of the next to come; how many bytes wait. Refusals 13, 19, 29, 8.
pub fn rk_stream_feed(
    state: &mut [u64; 6],
    ledger: &mut [u64; 9],
    kept: &mut [u8; 8191],
    cut: &[u8],
    records: &mut [u8],
    told: &mut [u64; 5],
) -> u32
    ensures { (Tells (call_told (lent state.old ledger.old kept.old) (Feed cut.now) (length records.old)) told.old result told.new
        × ((lent state.new ledger.new kept.new ≡ lent_after (lent state.old ledger.old kept.old) (Feed cut.now) (length records.old))
        × (records.new ≡ leaves (stream_in (lent state.old ledger.old kept.old)) (Feed cut.now) records.old)))
        × Bytes cut.now }
{
    let done = stream::feed(standing_in(state, ledger), kept, cut, records);
    settle(state, ledger, told, fed_row(done), done.next)
}

// No more bytes come: what remains is walked as the end of a closed capture is. Results as for a
// cut. Refusals 13, 19, 8.
pub fn rk_stream_close(
    state: &mut [u64; 6],
    ledger: &mut [u64; 9],
    kept: &mut [u8; 8191],
    records: &mut [u8],
    told: &mut [u64; 5],
) -> u32
    ensures { Tells (call_told (lent state.old ledger.old kept.old) Close (length records.old)) told.old result told.new
        × ((lent state.new ledger.new kept.new ≡ lent_after (lent state.old ledger.old kept.old) Close (length records.old))
        × (records.new ≡ leaves (stream_in (lent state.old ledger.old kept.old)) Close records.old)) }
{
    let done = stream::close(standing_in(state, ledger), kept, records);
    settle(state, ledger, told, fed_row(done), done.next)
}

// One more cut, perhaps of no bytes: writes the accepted frames that it decides at the front of
// out, each scrubbed, one after the other. Results, of this call alone: how many bytes it wrote,
// how many frames they are, how many of these the search found after damage, how many are M101
// frames, whose bodies are passed on unjudged; then the place of the first byte that waits, or of
// the next to come, and how many bytes wait. Counts and ledger stay as they are. Refusals 13, 19,
// 29, 8.
pub fn rk_stream_clean(
    state: &mut [u64; 6],
    ledger: &mut [u64; 9],
    kept: &mut [u8; 8191],
    cut: &[u8],
    out: &mut [u8],
    told: &mut [u64; 6],
) -> u32
    ensures { (Tells (wash_told (lent state.old ledger.old kept.old) (Feed cut.now) (length out.old)) told.old result told.new
        × ((lent state.new ledger.new kept.new ≡ wash_after (lent state.old ledger.old kept.old) (Feed cut.now) (length out.old))
        × (out.new ≡ Clean.leaves (stream_in (lent state.old ledger.old kept.old)) (Feed cut.now) out.old)))
        × Bytes cut.now }
{
    let done = stream_clean::clean_cut(standing_in(state, ledger), kept, cut, out);
    settle(state, ledger, told, washed_row(done), done.next)
}

// No more bytes come: what remains is cleaned as the end of a closed capture is. Results as for a
// cut. Refusals 13, 19, 8.
pub fn rk_stream_clean_close(
    state: &mut [u64; 6],
    ledger: &mut [u64; 9],
    kept: &mut [u8; 8191],
    out: &mut [u8],
    told: &mut [u64; 6],
) -> u32
    ensures { Tells (wash_told (lent state.old ledger.old kept.old) Close (length out.old)) told.old result told.new
        × ((lent state.new ledger.new kept.new ≡ wash_after (lent state.old ledger.old kept.old) Close (length out.old))
        × (out.new ≡ Clean.leaves (stream_in (lent state.old ledger.old kept.old)) Close out.old)) }
{
    let done = stream_clean::clean_end(standing_in(state, ledger), kept, out);
    settle(state, ledger, told, washed_row(done), done.next)
}
