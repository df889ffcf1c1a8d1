// What C and Rust may call on frames. Each function returns a code, a number of document 01 or 0;
// results go to an out-parameter: a fixed row of numbers, in C a struct of 64-bit numbers
// (host/include/rietknoest.h). A refusal writes nothing there, nor into a buffer.
#![tactic(auto, using(crate::specs::Frames::row_tells))]

ghost use Rattle.std.specs.Prelude.{◌≡◌, [], ◌∷◌, ◌++◌, length, drop};
ghost use Rattle.frame_spec.specs.Write.{message, write_of, left_of};
ghost use Rattle.private.specs.Scrub.{scrub_answer, scrubbed};
ghost use Rattle.private.specs.Parts.{span_answer};
ghost use Rattle.entries.specs.Papers.{entry_paper};
ghost use Rattle.host_words.specs.Told.{Tells};
ghost use Rattle.host_frames.specs.Frames.{RowOf, AnsweredBy, read_told, search_told, tail_told, broken_told, entries_told, entry_numbers, entry_told, letters};

use entries::Entry;
use octets::Number;
use rules::Kind;
use tails::Content;
use terms::{Refusal, SessionNumber};

// What a call returns: the number of its answer; the row is told beside 0 alone.
fn tell<const N: usize>(row: Result<[u64; N], Refusal>, told: &mut [u64; N]) -> u32
    ensures { AnsweredBy row.entry told.old result told.new }
{
    match row {
        Err(why) => u32::from(why),
        Ok(numbers) => {
            *told = numbers;
            0
        }
    }
}

fn read_row(bytes: &[u8], place: usize) -> Result<[u64; 9], Refusal>
    ensures { RowOf (read_told (drop place bytes.now)) result }
{
    let header = frame::read_at(bytes, place)?;
    let start = place + 24;
    let end = start + header.body_len;
    let view = frame_view::view_of(Kind::from(header.msg_type), &bytes[start..end]);
    Ok([
        header.msg_type as u64,
        header.sending_time,
        header.seq.value(),
        header.body_len as u64,
        view.channel.value() as u64,
        view.tick.value(),
        view.first.value(),
        view.last.value(),
        view.status as u64,
    ])
}

// Reads the frame at a place. Results: MsgType, SendingTime, MsgSeqNum, BodyLength, and what the
// view has of the body: channel, tick number, a resend's first and last number, and its status; 0
// where the type has none.
pub fn rk_read(bytes: &[u8], place: usize, told: &mut [u64; 9]) -> u32
    ensures { Tells (read_told (drop place bytes.now)) told.old result told.new }
{
    tell(read_row(bytes, place), told)
}

// Writes a frame at the front of out. Result: how many bytes.
pub fn rk_write(
    msg_type: u32,
    sending_time: u64,
    seq: u64,
    body: &[u8],
    out: &mut [u8],
    told: &mut u64,
) -> u32
    ensures { Tells (write_of (message msg_type sending_time seq body.now) (length out.old)) (told.old ∷ []) result (told.new ∷ [])
        × (out.new ≡ left_of (message msg_type sending_time seq body.now) out.old) }
{
    let written = frame::write(msg_type, sending_time, SessionNumber::new(seq), body, out);
    host_words::told_bytes(written, told)
}

fn search_row(bytes: &[u8], from: usize) -> Result<[u64; 2], Refusal>
    ensures { RowOf (search_told bytes.now from) result }
{
    match frame::search(bytes, from)? {
        Some(place) => Ok([1, place as u64]),
        None => Ok([0, 0]),
    }
}

// Finds the lowest place from `from` on at which a frame reads. Results: 1 and the place, or 0 and
// 0 where there is none.
pub fn rk_search(bytes: &[u8], from: usize, told: &mut [u64; 2]) -> u32
    ensures { Tells (search_told bytes.now from) told.old result told.new }
{
    tell(search_row(bytes, from), told)
}

// Scrubs the frame at the front of a buffer where it stands. Result: how many bytes it has.
pub fn rk_scrub(frame: &mut [u8], told: &mut u64) -> u32
    ensures { Tells (scrub_answer frame.old) (told.old ∷ []) result (told.new ∷ [])
        × (frame.new ≡ scrubbed frame.old) }
{
    let scrubbed = scrub::scrub(frame);
    host_words::told_bytes(scrubbed, told)
}

fn private_row(msg_type: u32, body: &[u8], i: usize) -> Result<[u64; 3], Refusal>
    ensures { RowOf (span_answer msg_type body.now i) result }
{
    let span = private::private_span(msg_type, body, i)?;
    Ok([span.place as u64, span.len as u64, span.fill as u64])
}

// Private span number i of a body of that type, counted from 0. Results: where it starts in the
// body, how many bytes it has, and the byte that replaces each; from the last on, an empty one. Or
// 2, 3 or 4 where no frame of that type has a body of this length.
pub fn rk_private(msg_type: u32, body: &[u8], i: usize, told: &mut [u64; 3]) -> u32
    ensures { Tells (span_answer msg_type body.now i) told.old result told.new }
{
    tell(private_row(msg_type, body, i), told)
}

fn letters(content: Content) -> u64
    ensures { result ≡ letters content }
{
    match content {
        Content::Letters => 1,
        Content::Number => 0,
    }
}

fn tail_row(body: &[u8], i: usize) -> Result<[u64; 4], Refusal>
    ensures { RowOf (tail_told body.now i) result }
{
    rules::measure(Kind::M201, body.len())?;
    let layout = rules::layout_of(octets::letters_at(body, 11), u8::at(body, 28));
    if !rules::suits_tail(layout, body.len()) {
        return Err(Refusal::Field);
    }
    let field = tails::tail_field(layout, body.len(), i);
    Ok([
        field.place as u64,
        field.len as u64,
        letters(field.content),
        field.is_private as u64,
    ])
}

// Field number i of the extension of an M201 body, counted from 0; or 3, 4 or 6 where no M201 has
// such a body, by its length. Results: where it starts in the body and how many bytes it has, 1 for
// letters and 0 for a number, 1 for private and 0 else; from the last on, an empty one.
pub fn rk_tail_field(body: &[u8], i: usize, told: &mut [u64; 4]) -> u32
    ensures { Tells (tail_told body.now i) told.old result told.new }
{
    tell(tail_row(body, i), told)
}

fn broken_row(msg_type: u32, body: &[u8]) -> Result<[u64; 5], Refusal>
    ensures { RowOf (broken_told msg_type body.now) result }
{
    let kind = Kind::from(msg_type);
    rules::measure(kind, body.len())?;
    match broken::broken_field(kind, body) {
        Some(field) => Ok([
            1,
            field.place as u64,
            field.len as u64,
            field.index,
            field.entry as u64,
        ]),
        None => Ok([0; 5]),
    }
}

// Which field of a body of that type breaks a rule of number 6: the lowest, in the order of
// document 01's widths. Results: 1, where the field starts in the body, how many bytes it has, its
// number in that order, counted from 0, and for a field of an M102 entry the number of the entry,
// counted from 1, else 0; or five times 0 where every rule holds. An M201's extension is number 9;
// the fields of an entry are numbers 13 to 16.
pub fn rk_broken_field(msg_type: u32, body: &[u8], told: &mut [u64; 5]) -> u32
    ensures { Tells (broken_told msg_type body.now) told.old result told.new }
{
    tell(broken_row(msg_type, body), told)
}

// Whether an M102 body may be walked. Result: the place of its first entry.
pub fn rk_entries(body: &[u8], told: &mut u64) -> u32
    ensures { Tells (entries_told body.now) (told.old ∷ []) result (told.new ∷ []) }
{
    match entries::open_at(body) {
        Err(why) => u32::from(why),
        Ok(()) => {
            *told = 73;
            0
        }
    }
}

// An entry as results, with the place after it.
fn entry_told(entry: Entry, behind: u64) -> [u64; 6]
    ensures { result ≡ entry_numbers (entry_paper entry).values ++ (behind ∷ []) }
{
    match entry {
        Entry::Short { kind, price } => [1, kind as u64, price, 0, 0, behind],
        Entry::Long {
            kind,
            price,
            size,
            position,
        } => [0, kind as u64, price, size, position as u64, behind],
    }
}

fn entry_row(body: &[u8], place: usize) -> Result<[u64; 6], Refusal>
    ensures { RowOf (entry_told body.now place) result }
{
    let found = entries::step_from(body, place)?;
    Ok(entry_told(found.entry, found.behind as u64))
}

// The entry of a body at a place. Results: 1 for an entry of MD001, which has neither size nor
// position, else 0; type, price, size, position, and the place after it.
pub fn rk_entry(body: &[u8], place: usize, told: &mut [u64; 6]) -> u32
    ensures { Tells (entry_told body.now place) told.old result told.new }
{
    tell(entry_row(body, place), told)
}
