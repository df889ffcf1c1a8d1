// The text of the listing: a record's line, and the last line.
// Every function takes all input. A single line is made aside first, and lines are written where
// there is room for all: without room nothing is written and the answer is 8.
#![tactic(auto)]

ghost use Rattle.std.specs.Prelude.{◌≡◌, ◌+◌, ◌≤◌, ◌*◌, length, leb};
ghost use Rattle.octets.specs.Papers.{written_paper, room_for, laid_if_room};
ghost use Rattle.digits.specs.Digits.{width_of};
ghost use Rattle.record.specs.Stored.{Stored};
ghost use Rattle.listing_text.specs.Columns.{Room};
ghost use Rattle.listing_text.specs.Text.{column, type_shown, type_column, first_columns, last_columns, line_of, named, summary_of};
ghost use Rattle.listing_text.specs.Whole.{lines_in, listing_of};

use record::Record;
use terms::{Refusal, TickNumber};

// What the listing says of a whole capture.
#[derive(Clone, Copy)]
pub struct Summary {
    pub frames: u64,
    pub refused: u64,
    pub floor: TickNumber,
    pub top: TickNumber,
    pub missing: u64,
}

// The type of a refused reading: four spaces.
const BLANK: u32 = 0x20202020;

// What stands for it in a line.
const DASHES: u32 = 0x2D2D2D2D;

// Writes a number and the byte after it over d from at on, and returns the place after both.
fn store_column(d: &mut [u8], at: usize, v: u64, behind: u8) -> usize
    requires { Room at (column v behind) d.old }
    ensures { Stored at (column v behind) d.old d.new result }
{
    let end = at + digits::put_decimal(d, at, v).unwrap();
    d[end] = behind;
    end + 1
}

// What a line shows of a type.
fn shown(t: u32) -> u32
    ensures { result ≡ type_shown t }
{
    if t == BLANK { DASHES } else { t }
}

// Writes a type and a space over d from at on, and returns the place after them.
fn store_type(d: &mut [u8], at: usize, t: u32) -> usize
    requires { Room at (type_column t) d.old }
    ensures { Stored at (type_column t) d.old d.new result }
{
    d[at..at + 4].copy_from_slice(&shown(t).to_be_bytes());
    d[at + 4] = b' ';
    at + 5
}

// Writes the first four columns over d from at on, and returns the place after them.
#[tactic(auto, using(crate::specs::Columns::room_first, crate::specs::Columns::room_behind, record::specs::Stored::stored_both), unfolding(crate::specs::Text::first_columns))]
fn store_columns(d: &mut [u8], at: usize, r: Record) -> usize
    requires { Room at (first_columns r) d.old }
    ensures { Stored at (first_columns r) d.old d.new result }
{
    let a = store_column(d, at, r.place, b' ');
    let b = store_type(d, a, r.msg_type);
    let c = store_column(d, b, r.answer as u64, b' ');
    store_column(d, c, r.seq.value(), b' ')
}

// Writes the other four.
#[tactic(auto, using(crate::specs::Columns::room_first, crate::specs::Columns::room_behind, record::specs::Stored::stored_both), unfolding(crate::specs::Text::last_columns))]
fn store_last(d: &mut [u8], at: usize, r: Record) -> usize
    requires { Room at (last_columns r) d.old }
    ensures { Stored at (last_columns r) d.old d.new result }
{
    let a = store_column(d, at, r.channel.value() as u64, b' ');
    let b = store_column(d, a, r.tick.value(), b' ');
    let c = store_column(d, b, r.floor.value(), b' ');
    store_column(d, c, r.top.value(), b'\n')
}

// Writes a record's line over d from at on, and returns the place after it.
#[tactic(auto, using(crate::specs::Columns::room_first, crate::specs::Columns::room_behind, record::specs::Stored::stored_both), unfolding(crate::specs::Text::line_of))]
fn store_line(d: &mut [u8], at: usize, r: Record) -> usize
    requires { Room at (line_of r) d.old }
    ensures { Stored at (line_of r) d.old d.new result }
{
    let a = store_columns(d, at, r);
    store_last(d, a, r)
}

// Writes the record's line, with its newline, over out from at on, and returns how many
// bytes it has.
pub fn put_line(out: &mut [u8], at: usize, r: Record) -> Result<usize, Refusal>
    ensures { (written_paper result ≡ room_for at (length (line_of r)) (length out.old)) × (out.new ≡ laid_if_room at (line_of r) out.old) }
{
    // no line has more
    let mut d: [u8; 127] = [0; 127];
    let n = store_line(&mut d, 0, r);
    octets::lay(out, at, &d[..n])
}

// Writes a word, its number and the byte after it over d from at on, and returns the
// place after them.
fn store_named(d: &mut [u8], at: usize, word: &[u8], v: u64, behind: u8) -> usize
    requires { Room at (named word.now v behind) d.old }
    ensures { Stored at (named word.now v behind) d.old d.new result }
{
    d[at..at + word.len()].copy_from_slice(word);
    store_column(d, at + word.len(), v, behind)
}

// Writes the last line of the listing over d from at on, and returns the place after it.
#[tactic(auto, using(crate::specs::Columns::room_first, crate::specs::Columns::room_behind, record::specs::Stored::stored_both), unfolding(crate::specs::Text::summary_of))]
fn store_summary(d: &mut [u8], at: usize, s: Summary) -> usize
    requires { Room at (summary_of s) d.old }
    ensures { Stored at (summary_of s) d.old d.new result }
{
    let a = store_named(d, at, b"frames ", s.frames, b' ');
    let b = store_named(d, a, b"refused ", s.refused, b' ');
    let c = store_named(d, b, b"floor ", s.floor.value(), b' ');
    let e = store_named(d, c, b"top ", s.top.value(), b' ');
    store_named(d, e, b"missing ", s.missing, b'\n')
}

// Writes the listing's last line, with its newline, over out from at on, and returns how many
// bytes it has.
pub fn put_summary(out: &mut [u8], at: usize, s: Summary) -> Result<usize, Refusal>
    ensures { (written_paper result ≡ room_for at (length (summary_of s)) (length out.old)) × (out.new ≡ laid_if_room at (summary_of s) out.old) }
{
    // no last line has more
    let mut d: [u8; 138] = [0; 138];
    let n = store_summary(&mut d, 0, s);
    octets::lay(out, at, &d[..n])
}

// How many bytes a number takes with the byte after it.
#[tactic(auto, using(crate::specs::Columns::few_digits))]
fn column_len(v: u64) -> usize
    ensures { (result ≡ width_of v + 1) × (result ≤ 21) }
{
    digits::width(v) + 1
}

// How many bytes a record's line has.
#[tactic(auto, using(crate::specs::Lengths::line_length))]
fn line_len(r: Record) -> usize
    ensures { result ≡ length (line_of r) }
{
    let a = column_len(r.place) + column_len(r.answer as u64) + column_len(r.seq.value());
    let b = column_len(r.channel.value() as u64) + column_len(r.tick.value());
    let c = column_len(r.floor.value()) + column_len(r.top.value());
    5 + a + b + c
}

// How many bytes the last line has: 33 are those of its words.
#[tactic(auto, using(crate::specs::Lengths::summary_length))]
fn last_len(s: Summary) -> usize
    ensures { result ≡ length (summary_of s) }
{
    let a = column_len(s.frames) + column_len(s.refused);
    let b = column_len(s.floor.value()) + column_len(s.top.value());
    33 + a + b + column_len(s.missing)
}

// Whether so much room takes so many lines, however long they are, and `end` bytes more.
fn roomy(room: usize, lines: usize, end: usize) -> bool
    ensures { result ≡ leb (127 * lines + end) room }
{
    room.checked_sub(end)
        .is_some_and(|left| lines <= left / 127)
}

// Whether so much room takes all lines and `end` bytes more: they are counted only where that is
// not plain. left is the room after the lines passed.
fn takes(room: usize, records: &[u8], end: usize) -> bool
    ensures { result ≡ leb (length (lines_in records.now) + end) room }
{
    if roomy(room, records.len() / 64, end) {
        return true;
    }
    let mut left = room;
    for k in 0..records.len() / 64 {
        let n = line_len(record::record_at(records, 64 * k));
        if left < n {
            return false;
        }
        left -= n;
    }
    end <= left
}

// Writes all lines over the front of out, and returns the place after them.
fn store_lines(out: &mut [u8], records: &[u8]) -> usize
    requires { length (lines_in records.now) ≤ length out.old }
    ensures { Stored 0 (lines_in records.now) out.old out.new result }
{
    let mut at: usize = 0;
    for k in 0..records.len() / 64 {
        at = store_line(out, at, record::record_at(records, 64 * k));
    }
    at
}

// Writes the lines of all whole records of `records` (64 bytes each; what is left over at its end
// is passed over) over the front of out, and returns how many bytes that took. 8, and nothing is
// written, where out is shorter.
pub fn put_lines(out: &mut [u8], records: &[u8]) -> Result<usize, Refusal>
    ensures { (written_paper result ≡ room_for 0 (length (lines_in records.now)) (length out.old))
        × (out.new ≡ laid_if_room 0 (lines_in records.now) out.old) }
{
    if !takes(out.len(), records, 0) {
        return Err(Refusal::Room);
    }
    Ok(store_lines(out, records))
}

// Writes these lines and then the last line over the front of out, and returns how many bytes that
// took. 8, and nothing is written, where out is shorter.
pub fn put_listing(out: &mut [u8], records: &[u8], s: Summary) -> Result<usize, Refusal>
    ensures { (written_paper result ≡ room_for 0 (length (listing_of records.now s)) (length out.old))
        × (out.new ≡ laid_if_room 0 (listing_of records.now s) out.old) }
{
    if !takes(out.len(), records, last_len(s)) {
        return Err(Refusal::Room);
    }
    let at = store_lines(out, records);
    Ok(store_summary(out, at, s))
}
