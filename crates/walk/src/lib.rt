// A closed capture to records, counts and ledger. Document 01, "Fault records and the listing".
#![tactic(auto)]

ghost use Rattle.std.specs.Prelude.{◌≡◌, ◌+◌, ◌*◌, ◌/◌, leb, length};
ghost use Rattle.ledger.specs.State.{ledger_of};
ghost use Rattle.ledger_spec.specs.Calls.{fresh};
ghost use Rattle.walk_spec.specs.Walk.{walk_of, fits_in, walk_answer, walk_book, walk_leaves};
ghost use Rattle.walk_spec.specs.Tables.{written_from};
ghost use Rattle.walk.specs.Papers.{walk_paper};
ghost use Rattle.walk.specs.Passes.{carried_of, passed_of};

use ledger::Ledger;
use terms::{ChannelNumber, Refusal, TickNumber};
use tick_map::Map;

// How many records there are, how many readings were frames and how many were refused.
#[derive(Clone, Copy, Debug, PartialEq, Eq)]
pub struct Counts {
    pub records: usize,
    pub frames: usize,
    pub refused: usize,
}

// What the walk returns: its counts, or 8 where the buffer can't take all records; and the ledger
// after the last, beside 8 the one just opened.
#[derive(Clone, Copy)]
pub struct Walked {
    pub answer: Result<Counts, Refusal>,
    pub ledger: Ledger,
}

// What one pass over a capture comes to.
#[derive(Clone, Copy)]
struct Passed {
    records: usize,
    frames: usize,
    ledger: Ledger,
}

// The walk's ledger, of channel 100 and with nothing pending: no reading asks for a resend.
fn carried(floor: TickNumber, top: TickNumber, map: Map) -> Ledger
    ensures { result ≡ carried_of floor top map }
{
    Ledger {
        channel: ChannelNumber::new(100),
        floor,
        top,
        map,
        pending: None,
    }
}

// The walk's ledger as it is opened.
fn opened() -> Ledger
    ensures { result ≡ ledger_of (fresh 100) }
{
    Ledger::opened(ChannelNumber::new(100)).next
}

// The walk from a ledger just opened. Its loop carries what of the ledger may change. It counts
// every record, and writes those that have room.
fn pass(capture: &[u8], out: &mut [u8]) -> Passed
    ensures { (result ≡ passed_of capture.now) × (out.new ≡ written_from 0 (walk_of capture.now).records out.old) }
{
    let start = opened();
    let mut p: usize = 0;
    let mut records: usize = 0;
    let mut frames: usize = 0;
    let mut floor = start.floor;
    let mut top = start.top;
    let mut map = start.map;
    while p < capture.len() {
        let seen = reading::see(capture, p);
        let after = walk_step::offer(carried(floor, top, map), seen);
        let answer = terms::number_of(after.answer);
        walk_step::note(
            out,
            records,
            walk_step::made(p as u64, seen, answer, after.next),
        );
        p = walk_step::onward(capture, p, seen.size);
        records += 1;
        frames += usize::from(seen.answer.is_ok());
        floor = after.next.floor;
        top = after.next.top;
        map = after.next.map;
    }
    Passed {
        records,
        frames,
        ledger: carried(floor, top, map),
    }
}

// Whether so much room takes all records of a capture. Where it may not, for a record of each 29
// bytes and two more, they are counted in a pass that writes nothing.
fn takes_all(capture: &[u8], room: usize) -> bool
    ensures { result ≡ fits_in capture.now room }
{
    if 2 * (capture.len() / 29) + 2 <= room / 64 {
        return true;
    }
    pass(capture, &mut [0]).records <= room / 64
}

// The records of a closed capture, one for each reading, with their counts and the ledger of
// channel 100 after the last; or 8, and nothing is written.
pub fn walk(capture: &[u8], records: &mut [u8]) -> Walked
    ensures { (walk_paper result ≡ walk_answer capture.now (length records.old))
        × ((result.ledger ≡ ledger_of (walk_book capture.now (length records.old)))
        × (records.new ≡ walk_leaves capture.now records.old)) }
{
    if !takes_all(capture, records.len()) {
        return Walked {
            answer: Err(Refusal::Room),
            ledger: opened(),
        };
    }
    let done = pass(capture, records);
    Walked {
        answer: Ok(Counts {
            records: done.records,
            frames: done.frames,
            refused: done.records - done.frames,
        }),
        ledger: done.ledger,
    }
}
