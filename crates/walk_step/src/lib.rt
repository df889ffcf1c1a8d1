// One step of the walk: a reading offered to the ledger and recorded, and where the next one is.
// Document 01, "Fault records and the listing".
#![tactic(auto)]

ghost use Rattle.std.specs.Prelude.{◌≡◌, length, get_or};
ghost use Rattle.terms.specs.Verdicts.{verdict_number};
ghost use Rattle.ledger.specs.State.{book_of, ledger_of};
ghost use Rattle.frame_spec.specs.Search.{search_of};
ghost use Rattle.walk_spec.specs.Offers.{offer_of};
ghost use Rattle.walk_spec.specs.Onward.{onward_of};
ghost use Rattle.walk_spec.specs.Walk.{made_of};
ghost use Rattle.walk_spec.specs.Tables.{noted_at};

use ledger::{Called, Ledger};
use reading::Seen;
use record::Record;
use rules::Kind;

// The ledger after a reading was offered to it, and the record's answer: an M201 is offered as a
// tick, a P001 as an announcement. Any other reading changes nothing and keeps its own answer: a
// refused one, and a P002, which the walk never offers.
pub fn offer(ledger: Ledger, seen: Seen) -> Called<()>
    ensures { (verdict_number result.answer ≡ (offer_of (book_of ledger) seen).number) × (result.next ≡ ledger_of (offer_of (book_of ledger) seen).book) }
{
    if let Err(why) = seen.answer {
        return Called {
            next: ledger,
            answer: Err(why),
        };
    }
    match Kind::from(seen.msg_type) {
        Kind::P001 => ledger.announce(seen.channel, seen.tick),
        Kind::M201 => {
            let ticked = ledger.tick(seen.channel, seen.tick);
            Called {
                next: ticked.next,
                answer: ticked.answer.map(|_| ()),
            }
        }
        _ => Called {
            next: ledger,
            answer: Ok(()),
        },
    }
}

// The record of a reading: what was seen, the answer's number, and the ledger's floor and top
// after the offer. Any number is told as it is.
pub fn made(place: u64, seen: Seen, answer: u32, after: Ledger) -> Record
    ensures { result ≡ made_of place seen answer after.floor after.top }
{
    Record {
        place,
        msg_type: seen.msg_type,
        answer,
        seq: seen.seq,
        tick: seen.tick,
        channel: seen.channel,
        body_len: seen.body_len,
        floor: after.floor,
        top: after.top,
    }
}

// Writes record k into the table of records, where it has room.
pub fn note(out: &mut [u8], k: usize, r: Record)
    ensures { out.new ≡ noted_at k r out.old }
{
    if k < out.len() / 64 {
        let _ = record::put(out, 64 * k, r);
    }
}

// Where the search from a place on finds a frame, or the end.
fn sought(capture: &[u8], from: usize) -> usize
    ensures { result ≡ get_or (search_of capture.now from).values 0 (length capture.now) }
{
    match frame::search(capture, from) {
        Ok(Some(place)) => place,
        _ => capture.len(),
    }
}

// The place of the next reading, after the one at p, whose frame has size bytes, none where it was
// refused: past the frame, or where the search from the next byte on finds one. The end where it
// finds none, or a frame is said to be longer than what is there. A refused frame's BodyLength is
// never stepped by.
pub fn onward(capture: &[u8], p: usize, size: usize) -> usize
    ensures { result ≡ onward_of capture.now p size }
{
    if capture.len() <= p {
        return capture.len();
    }
    if size == 0 {
        return sought(capture, p + 1);
    }
    p + size.min(capture.len() - p)
}
