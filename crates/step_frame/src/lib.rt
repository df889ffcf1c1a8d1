// One STEP frame: its fields, reading, writing.
#![tactic(auto)]

ghost use Rattle.std.specs.Prelude.{◌≡◌, ◌==◌, not, ◌&&◌, ◌+◌, ◌^◌, ◌≤◌, ◌<◌, length, drop, position};
ghost use Rattle.step_spec.specs.Pieces.{pieces};
ghost use Rattle.step_spec.specs.Fields.{field_at, complete, unreal_in, judge_of};
ghost use Rattle.step_spec.specs.Seen.{seen_in};
ghost use Rattle.step_spec.specs.Pass.{fine_of};
ghost use Rattle.step_tags.specs.Masks.{is_set};
ghost use Rattle.step_spec.specs.Frame.{front, digit_run, trailer_of, type_tag, kind_check, window, length_check, body_start, body_length, long_check, type_check, head_of, sum_check, step_read_of};
ghost use Rattle.step_frame.specs.Papers.{field_paper, FitSays, step_number, check_number, read_paper, HeadSays, Sized, step_written_paper};
ghost use Rattle.step_spec.specs.Written.{plain_of, frame_of, step_write_of, step_left_of};
ghost use Rattle.octets.specs.Octets.{laid};
ghost use Rattle.digits.specs.Digits.{width_of};
ghost use Rattle.terms.specs.Checks.{or_else};
ghost use Rattle.std.specs.List.{take_while};
ghost use Rattle.std.specs.Char.{is_ascii_digit};

// No frame is longer.
const LONGEST: usize = 8192;

// The byte that ends a field.
const SOH: u8 = 1;

// Why a frame or a message is refused. The numbers are those of document 02.
#[derive(Clone, Copy, Debug, PartialEq, Eq)]
pub enum StepRefusal {
    More,
    Long,
    Sum,
    Time,
    Room,
    Begin,
    Length,
    MsgType,
    Fields,
}

// The number of a refusal.
impl From<StepRefusal> for u32 {
    ghost from_gives = { λ why n. n ≡ step_number why };

    fn from(why: StepRefusal) -> u32 {
        match why {
            StepRefusal::More => 1,
            StepRefusal::Long => 3,
            StepRefusal::Sum => 5,
            StepRefusal::Time => 7,
            StepRefusal::Room => 8,
            StepRefusal::Begin => 23,
            StepRefusal::Length => 24,
            StepRefusal::MsgType => 25,
            StepRefusal::Fields => 26,
        }
    }
}

// A frame whose first checks passed: where its body starts, and how long it is.
#[derive(Clone, Copy, Debug, PartialEq, Eq)]
struct Head {
    start: usize,
    len: usize,
}

// What reading finds: the type, the place of the fields after the frame's start and their length,
// and the length of the frame. A refusal carries nothing of the bytes.
#[derive(Clone, Copy, Debug, PartialEq, Eq)]
pub struct StepFrame {
    pub kind: u8,
    pub place: usize,
    pub len: usize,
    pub total: usize,
}

// A field of a message: its tag, the place and the length of its value, and the place after it.
#[derive(Clone, Copy, Debug, PartialEq, Eq)]
pub struct Field {
    pub tag: u64,
    pub value: usize,
    pub len: usize,
    pub next: usize,
}

// A field as the pass sees it: its row, and the place after it.
#[derive(Clone, Copy, Debug, PartialEq, Eq)]
struct Fit {
    row: u32,
    next: usize,
}

// The place of the first byte b of s.
fn first(s: &[u8], b: u8) -> Option<usize>
    ensures { result ≡ position (λ x. x == b) s.now }
{
    s.iter().position(|&x| x == b)
}

// The field at a place of the fields of a message, if one stands there. A tag ends at the first
// `=`; a place at or beyond the end has none.
pub fn field_at(fields: &[u8], place: usize) -> Option<Field>
    ensures { field_paper result ≡ field_at place fields.now }
{
    let text = fields.get(place..)?;
    let end = first(text, SOH)?;
    let mark = first(&text[..end], b'=')?;
    let tag = digits::decimal_at(text, 0, mark)?;
    Some(Field {
        tag,
        value: place + mark + 1,
        len: end - mark - 1,
        next: place + end + 1,
    })
}

// The row of the field at a place and the place after it, if a field stands there and its value is
// good.
fn fit_at(fields: &[u8], at: usize) -> Option<Fit>
    ensures { FitSays result at (drop at fields.now) }
{
    let field = field_at(fields, at)?;
    let end = field.value + field.len;
    let row = step_tags::fit(field.tag, &fields[field.value..end])?;
    Some(Fit {
        row,
        next: field.next,
    })
}

// Whether a row is one of a type's rows, and not seen yet.
fn may_stand(rows: u32, seen: u32, row: u32) -> bool
    requires { row < 27 }
    ensures { result ≡ (is_set rows row && not (is_set seen row)) }
{
    ((rows >> row) % 2 == 1) & !((seen >> row) % 2 == 1)
}

fn with_row(seen: u32, row: u32) -> u32
    requires { (row < 27) × (seen + 2 ^ row < 2 ^ 27) }
    ensures { result ≡ seen + 2 ^ row }
{
    seen + (1u32 << row)
}

// Whether every row that a type needs is seen.
fn is_complete(kind: u8, seen: u32) -> bool
    ensures { result ≡ complete kind (seen_in 27 seen) }
{
    let need = step_tags::needed_by(kind);
    seen & need == need
}

// The checks 7 and 26 in one pass: whether the fields are those of a type, each good, none twice
// and none missing.
fn is_fine(kind: u8, fields: &[u8]) -> bool
    ensures { result ≡ fine_of kind fields.now }
{
    let rows = step_tags::rows_of(kind);
    let mut seen: u32 = 0;
    let mut i: usize = 0;
    while i < fields.len() {
        let Some(fit) = fit_at(fields, i) else {
            return false;
        };
        if !may_stand(rows, seen, fit.row) {
            return false;
        }
        seen = with_row(seen, fit.row);
        i = fit.next;
    }
    is_complete(kind, seen)
}

// Check 7: whether the first piece that begins `52=` has the form of a time and is none.
fn is_unreal(fields: &[u8]) -> bool
    ensures { result ≡ unreal_in (pieces fields.now) }
{
    let field = fields
        .split(|&b| b == SOH)
        .find(|piece| piece.starts_with(b"52="));
    match field {
        Some(field) => step_tags::unreal(&field[3..]),
        None => false,
    }
}

// All that is said of the fields of a message: 7, then 26. Where all is well one pass is enough;
// else it asks which of the two.
fn judge(kind: u8, fields: &[u8]) -> Result<(), StepRefusal>
    ensures { check_number result ≡ judge_of kind fields.now }
{
    if is_fine(kind, fields) {
        return Ok(());
    }
    if is_unreal(fields) {
        return Err(StepRefusal::Time);
    }
    Err(StepRefusal::Fields)
}

// Whether the bytes from a place on begin with a literal; 1 where they end before a byte differs.
fn expects(bytes: &[u8], at: usize, literal: &[u8], why: StepRefusal) -> Result<(), StepRefusal>
    requires { at ≤ length bytes.now }
    ensures { check_number result ≡ front (step_number why) literal.now (drop at bytes.now) }
{
    let text = &bytes[at..];
    if text.starts_with(literal) {
        Ok(())
    } else if literal.starts_with(text) {
        Err(StepRefusal::More)
    } else {
        Err(why)
    }
}

// How many digits stand in front.
fn digit_run(s: &[u8]) -> usize
    ensures { result ≡ length (take_while is_ascii_digit s.now) }
{
    s.iter().take_while(|b| b.is_ascii_digit()).count()
}

// `35=`, one of the seven types, SOH.
fn type_at(bytes: &[u8], at: usize) -> Result<(), StepRefusal>
    requires { at ≤ length bytes.now }
    ensures { check_number result ≡ or_else (front 25 type_tag (drop at bytes.now)) (kind_check (drop (at + 3) bytes.now)) }
{
    expects(bytes, at, b"35=", StepRefusal::MsgType)?;
    let place = at + 3;
    if place == bytes.len() {
        return Err(StepRefusal::More);
    }
    if !step_tags::is_type(bytes[place]) {
        return Err(StepRefusal::MsgType);
    }
    expects(bytes, place + 1, b"\x01", StepRefusal::MsgType)
}

// The checks 3 and 25 of a frame at a place whose body starts `start` bytes after it and
// has len bytes.
fn measured(bytes: &[u8], at: usize, start: usize, len: u64) -> Result<Head, StepRefusal>
    requires { (at + start ≤ length bytes.now) × (start ≤ 23) × (start ≡ body_start (drop at bytes.now)) × (len ≡ body_length (drop at bytes.now)) }
    ensures { HeadSays result (or_else (long_check (drop at bytes.now)) (type_check (drop at bytes.now))) (drop at bytes.now) }
{
    if (LONGEST as u64) < len {
        return Err(StepRefusal::Long);
    }
    let n = len as usize;
    if LONGEST < start + n + 7 {
        return Err(StepRefusal::Long);
    }
    if n < 5 {
        return Err(StepRefusal::MsgType);
    }
    type_at(bytes, at + start)?;
    Ok(Head { start, len: n })
}

// The checks from the digits of the length field on. Ten bytes decide it.
fn length_at(bytes: &[u8], at: usize) -> Result<Head, StepRefusal>
    requires { at + 13 ≤ length bytes.now }
    ensures { HeadSays result (or_else (length_check (window (drop at bytes.now))) (or_else (long_check (drop at bytes.now)) (type_check (drop at bytes.now)))) (drop at bytes.now) }
{
    let rest = &bytes[at + 13..];
    let window = &rest[..rest.len().min(10)];
    let k = digit_run(window);
    if (9 < k) | ((1 < k) & window.starts_with(b"0")) {
        return Err(StepRefusal::Length);
    }
    if k == window.len() {
        return Err(StepRefusal::More);
    }
    if window[k] != SOH {
        return Err(StepRefusal::Length);
    }
    let n = digits::decimal_at(window, 0, k).ok_or(StepRefusal::Length)?;
    measured(bytes, at, 14 + k, n)
}

// The checks 23, 24, 3 and 25 of the frame at a place.
fn head_at(bytes: &[u8], at: usize) -> Result<Head, StepRefusal>
    requires { at ≤ length bytes.now }
    ensures { HeadSays result (head_of (drop at bytes.now)) (drop at bytes.now) }
{
    expects(bytes, at, b"8=FIXT.1.1\x01", StepRefusal::Begin)?;
    expects(bytes, at + 11, b"9=", StepRefusal::Length)?;
    length_at(bytes, at)
}

// The trailer that says a sum: `10=`, three digits, SOH.
fn trailer(sum: u8) -> [u8; 7]
    ensures { result ≡ trailer_of sum }
{
    let mut text = [b'1', b'0', b'=', b'0', b'0', b'0', SOH];
    let _ = digits::put_digits(&mut text, 3, 3, sum as u64);
    text
}

// Check 5 of the frame at a place whose body ends `end` bytes after it.
fn sum_at(bytes: &[u8], at: usize, end: usize) -> Result<(), StepRefusal>
    requires { (at ≤ length bytes.now) × (1 ≤ end) }
    ensures { check_number result ≡ sum_check end (drop at bytes.now) }
{
    if bytes.len() - at < end {
        return Err(StepRefusal::More);
    }
    if bytes[at + end - 1] != SOH {
        return Err(StepRefusal::Sum);
    }
    let trailer = trailer(octets::sum(bytes, at, end));
    expects(bytes, at + end, &trailer, StepRefusal::Sum)
}

// The checks 7 and 26 of the frame at a place, whose sum is right.
fn accept_at(bytes: &[u8], at: usize, head: Head) -> Result<StepFrame, StepRefusal>
    requires { (at ≤ length bytes.now) × Sized head (drop at bytes.now) × (head_of (drop at bytes.now) ≡ 0) × (sum_check (head.start + head.len) (drop at bytes.now) ≡ 0) }
    ensures { read_paper result ≡ step_read_of (drop at bytes.now) }
{
    let first = at + head.start + 5;
    let behind = at + head.start + head.len;
    let kind = bytes[at + head.start + 3];
    judge(kind, &bytes[first..behind])?;
    Ok(StepFrame {
        kind,
        place: head.start + 5,
        len: head.len - 5,
        total: head.start + head.len + 7,
    })
}

// The frame at a place of bytes. A place beyond the end reads as no bytes: 1.
pub fn read_at(bytes: &[u8], at: usize) -> Result<StepFrame, StepRefusal>
    ensures { read_paper result ≡ step_read_of (drop at bytes.now) }
{
    if bytes.len() < at {
        return Err(StepRefusal::More);
    }
    let head = head_at(bytes, at)?;
    sum_at(bytes, at, head.start + head.len)?;
    accept_at(bytes, at, head)
}

// What writing a message into so much room returns: 3, 25, 7, 26, 8.
fn may_write(kind: u8, fields: &[u8], room: usize) -> Result<usize, StepRefusal>
    ensures { step_written_paper result ≡ step_write_of kind fields.now room }
{
    let n = fields.len();
    if LONGEST < n {
        return Err(StepRefusal::Long);
    }
    let total = 26 + digits::width(n as u64 + 5) + n;
    if LONGEST < total {
        return Err(StepRefusal::Long);
    }
    if !step_tags::is_type(kind) {
        return Err(StepRefusal::MsgType);
    }
    judge(kind, fields)?;
    if room < total {
        return Err(StepRefusal::Room);
    }
    Ok(total)
}

// Writes all of a frame before its trailer, and returns its length.
fn store_plain(kind: u8, fields: &[u8], out: &mut [u8]) -> usize
    requires { (length (frame_of kind fields.now) ≤ 8192) × (length (frame_of kind fields.now) ≤ length out.old) }
    ensures { (result ≡ length (plain_of kind fields.now)) × (out.new ≡ laid 0 (plain_of kind fields.now) out.old) }
{
    let n = fields.len() + 5;
    let behind = 13 + digits::width(n as u64);
    let _ = octets::lay(out, 0, b"8=FIXT.1.1\x019=");
    let _ = digits::put_decimal(out, 13, n as u64);
    let head = [SOH, b'3', b'5', b'=', kind, SOH];
    let _ = octets::lay(out, behind, &head);
    let _ = octets::lay(out, behind + 6, fields);
    behind + 1 + n
}

// Writes the frame of a message that may be written.
fn store(kind: u8, fields: &[u8], out: &mut [u8])
    requires { (length (frame_of kind fields.now) ≤ 8192) × (length (frame_of kind fields.now) ≤ length out.old) }
    ensures { out.new ≡ laid 0 (frame_of kind fields.now) out.old }
{
    let end = store_plain(kind, fields, out);
    let trailer = trailer(octets::sum(out, 0, end));
    let _ = octets::lay(out, end, &trailer);
}

// Writes a message as a frame at the front of a lent buffer, and returns the frame's length. A
// refusal leaves every byte.
pub fn write(kind: u8, fields: &[u8], out: &mut [u8]) -> Result<usize, StepRefusal>
    ensures { (step_written_paper result ≡ step_write_of kind fields.now (length out.old)) × (out.new ≡ step_left_of kind fields.now out.old) }
{
    let n = may_write(kind, fields, out.len())?;
    store(kind, fields, out);
    Ok(n)
}
