// A STEP frame with its private values painted over: the bytes that the host may keep.
#![tactic(auto)]

ghost use Rattle.std.specs.Prelude.{◌≡◌, true, ◌+◌, ◌-◌, ◌≤◌, length, take, drop, replicate};
ghost use Rattle.terms.specs.Paper.{pick};
ghost use Rattle.octets.specs.Octets.{laid, sum8};
ghost use Rattle.digits.specs.Digits.{decimal_of, digits_at, number};
ghost use Rattle.step_spec.specs.Pieces.{pieces, closed};
ghost use Rattle.step_frame.specs.Papers.{step_written_paper};
ghost use Rattle.step_scrub.specs.Moved.{sum_moved};
ghost use Rattle.step_scrub.specs.Scrubbed.{is_private, painted, all_fields, step_scrub_of, step_scrub_left};

use step_frame::{Field, StepRefusal};

// Whether the value of a tag is private.
fn is_private(tag: u64) -> bool
    ensures { result ≡ is_private tag }
{
    matches!(tag, 49 | 56 | 553 | 554 | 58)
}

// Paints the value of a field with spaces, if its tag is private, and gives the sum after it: each
// byte painted over is taken off, and a space added.
fn paint_value(buf: &mut [u8], field: Field, sum: u8) -> u8
    requires { field.value + field.len ≤ length buf.old }
    ensures { (buf.new ≡ pick (is_private field.tag) (laid field.value (replicate field.len 32) buf.old) buf.old) × (result ≡ sum_moved sum buf.old buf.new) }
{
    if !is_private(field.tag) {
        return sum;
    }
    let after = octets::sum_after(sum, buf, field.value, field.len, b' ');
    let end = field.value + field.len;
    octets::fill(&mut buf[field.value..end], b' ');
    after
}

// Paints the private values among fields, and gives the sum after it.
fn paint_fields(buf: &mut [u8], sum: u8) -> u8
    requires { (closed buf.old ≡ true) × (all_fields (pieces buf.old) ≡ true) }
    ensures { (buf.new ≡ painted buf.old) × (result ≡ sum_moved sum buf.old buf.new) }
{
    let mut v = sum;
    let mut i = 0;
    while let Some(field) = step_frame::field_at(buf, i) {
        v = paint_value(buf, field, v);
        i = field.next;
    }
    v
}

// Paints the fields of a frame as a part of it.
fn paint_part(buf: &mut [u8], a: usize, e: usize, sum: u8) -> u8
    requires { (a ≤ e) × (e ≤ length buf.old) × (closed (take (e - a) (drop a buf.old)) ≡ true) × (all_fields (pieces (take (e - a) (drop a buf.old))) ≡ true) }
    ensures { (buf.new ≡ laid a (painted (take (e - a) (drop a buf.old))) buf.old) × (result ≡ sum_moved sum (take (e - a) (drop a buf.old)) (painted (take (e - a) (drop a buf.old)))) }
{
    paint_fields(&mut buf[a..e], sum)
}

// The sum that the trailer after n bytes says; reading compared it with the sum of them.
fn old_sum(buf: &[u8], n: usize) -> u8
    requires { (n + 7 ≤ length buf.now) × (digits_at (n + 3) 3 buf.now ≡ number (sum8 (take n buf.now))) }
    ensures { result ≡ sum8 (take n buf.now) }
{
    digits::digits_at(buf, n + 3, 3).unwrap_or(0) as u8
}

// Stores a sum in the three digits of the trailer after n bytes.
fn store_sum(buf: &mut [u8], n: usize, sum: u8)
    requires { n + 7 ≤ length buf.old }
    ensures { buf.new ≡ laid (n + 3) (decimal_of 3 sum) buf.old }
{
    let _ = digits::put_digits(buf, n + 3, 3, sum as u64);
}

// Paints the private values of the frame at the front of a lent buffer, and returns the frame's
// length. A refusal leaves every byte.
pub fn scrub(buf: &mut [u8]) -> Result<usize, StepRefusal>
    ensures { (step_written_paper result ≡ step_scrub_of buf.old) × (buf.new ≡ step_scrub_left buf.old) }
{
    let frame = step_frame::read_at(buf, 0)?;
    let end = frame.place + frame.len;
    let old = old_sum(buf, end);
    let new = paint_part(buf, frame.place, end, old);
    store_sum(buf, end, new);
    Ok(frame.total)
}
