// A frame whose bytes lie in two parts, one behind the other: its reading. At most 512 bytes are
// laid together; what a longer frame has behind them is summed and judged where it stands.
#![tactic(auto)]

ghost use Rattle.std.specs.Prelude.{◌≡◌, ◌+◌, ◌*◌, ◌≤◌, ◌++◌, length, take, drop, eqb};
ghost use Rattle.terms.specs.Verdicts.{verdict_number};
ghost use Rattle.octets.specs.Octets.{be, sum8};
ghost use Rattle.rules.specs.Fields.{entry_ok, entries_ok, m102_ok, fields_ok};
ghost use Rattle.rules.specs.Sizes.{Wide};
ghost use Rattle.frame_spec.specs.Frame.{body_length, body};
ghost use Rattle.reading.specs.Seen.{seen_of, seen_number};
ghost use Rattle.reading_parts.specs.Parts.{wanted_by, Gathers, Long, Tells};

use octets::Number;
use reading::Seen;
use rules::Kind;
use terms::{Refusal, SessionNumber};

// Lays at the front of out as many bytes of both parts as it takes, and returns how many.
fn gather(first: &[u8], second: &[u8], out: &mut [u8]) -> usize
    ensures { Gathers (length out.old) (first.now ++ second.now) out.new result }
{
    let a = first.len().min(out.len());
    let b = second.len().min(out.len() - a);
    let _ = octets::lay(out, 0, &first[..a]);
    let _ = octets::lay(out, a, &second[..b]);
    a + b
}

// The same of the bytes from a place on.
fn gather_from(first: &[u8], second: &[u8], at: usize, out: &mut [u8]) -> usize
    ensures { Gathers (length out.old) (drop at (first.now ++ second.now)) out.new result }
{
    let a = first.len().min(at);
    let b = second.len().min(at - a);
    gather(&first[a..], &second[b..], out)
}

// How many bytes the frame wants that a part begins: 24, and with its header all of it.
fn wanted_by(begun: &[u8]) -> usize
    ensures { result ≡ wanted_by begun.now }
{
    if begun.len() < 24 {
        return 24;
    }
    28 + u32::at(begun, 20) as usize
}

// The sum of the first n bytes of both parts, in one byte that rolls over.
fn sum_of(first: &[u8], second: &[u8], n: usize) -> u8
    ensures { result ≡ sum8 (take n (first.now ++ second.now)) }
{
    let rest = n.saturating_sub(first.len());
    octets::sum(first, 0, n).wrapping_add(octets::sum(second, 0, rest))
}

// The number in the four bytes from a place on.
fn stored_at(first: &[u8], second: &[u8], at: usize) -> u32
    requires { at + 4 ≤ length (first.now ++ second.now) }
    ensures { result ≡ be 4 at (first.now ++ second.now) }
{
    let mut four: [u8; 4] = [0; 4];
    gather_from(first, second, at, &mut four);
    u32::at(&four, 0)
}

// Whether the entry of w bytes at a place keeps its widths. It is lent where it stands, unless it
// lies across both parts.
fn entry_at(first: &[u8], second: &[u8], at: usize, w: usize) -> bool
    requires { Wide w × (at + w ≤ length (first.now ++ second.now)) }
    ensures { result ≡ entry_ok w at (first.now ++ second.now) }
{
    if first.len() <= at {
        let a = at - first.len();
        let e = a + w;
        return rules::entry_ok(&second[a..e], w);
    }
    if w <= first.len() - at {
        let e = at + w;
        return rules::entry_ok(&first[at..e], w);
    }
    let mut across: [u8; 19] = [0; 19];
    gather_from(first, second, at, &mut across);
    rules::entry_ok(&across, w)
}

// The n entries of w bytes each that fill a body of so many bytes behind its fixed part. It stops
// at the first that is not right.
fn entries_ok(first: &[u8], second: &[u8], len: usize, n: usize, w: usize) -> bool
    requires { Wide w × ((len ≡ 73 + n * w) × ((len ≤ 8164) × (24 + len ≤ length (first.now ++ second.now)))) }
    ensures { result ≡ entries_ok n w (take len (drop 24 (first.now ++ second.now))) }
{
    for i in 0..n {
        if !entry_at(first, second, 97 + i * w, w) {
            return false;
        }
    }
    true
}

// Whether the body of a long M102 keeps its rules.
fn m102_ok(front: &[u8], first: &[u8], second: &[u8], len: usize) -> bool
    requires { Long front.now (first.now ++ second.now) × (len ≡ body_length (first.now ++ second.now)) }
    ensures { result ≡ m102_ok (body (first.now ++ second.now)) }
{
    let n = u16::at(front, 95) as usize;
    let w = rules::entry_size(octets::letters_at(front, 34));
    if len != 73 + n * w {
        return false;
    }
    if !rules::m102_fixed_ok(&front[24..]) {
        return false;
    }
    entries_ok(first, second, len, n, w)
}

// Whether the body of a long frame keeps the field rules of its type. But for M102 they look at its
// first 45 bytes, and at its length only up to 184: the front tells all of it.
fn fields_ok(kind: Kind, front: &[u8], first: &[u8], second: &[u8], len: usize) -> bool
    requires { Long front.now (first.now ++ second.now) × (len ≡ body_length (first.now ++ second.now)) }
    ensures { result ≡ fields_ok kind (body (first.now ++ second.now)) }
{
    match kind {
        Kind::M102 => m102_ok(front, first, second, len),
        _ => rules::fields_ok(kind, &front[24..]),
    }
}

// The reading of a frame of more than 512 bytes that is there as a whole.
fn see_long(front: &[u8], first: &[u8], second: &[u8]) -> Seen
    requires { Long front.now (first.now ++ second.now) }
    ensures { result ≡ seen_of (first.now ++ second.now) }
{
    let body_len = u32::at(front, 20);
    let n = body_len as usize;
    let end = 24 + n;
    if stored_at(first, second, end) != sum_of(first, second, end) as u32 {
        return reading::blank(Refusal::Sum);
    }
    if !calendar::is_real(u64::at(front, 4)) {
        return reading::blank(Refusal::Time);
    }
    let msg_type = u32::at(front, 0);
    let kind = Kind::from(msg_type);
    if !fields_ok(kind, front, first, second, n) {
        return reading::blank(Refusal::Field);
    }
    let view = frame_view::view_of(kind, &front[24..]);
    Seen {
        answer: Ok(()),
        msg_type,
        seq: SessionNumber::new(u64::at(front, 12)),
        channel: view.channel,
        tick: view.tick,
        status: view.status,
        body_len,
        size: 28 + n,
    }
}

// Whether bytes are missing.
fn waits(answer: Result<(), Refusal>) -> bool
    ensures { result ≡ eqb (verdict_number answer) 1 }
{
    answer == Err(Refusal::More)
}

// Whether the answer for the first bytes of both parts is that for them all: it is, unless bytes
// are missing for it and they are all there. What they want is looked up only where bytes are
// missing: a search passes over most places before that.
fn is_told(answer: Result<(), Refusal>, begun: &[u8], first: &[u8], second: &[u8]) -> bool
    requires { (begun.now ≡ take (length begun.now) (first.now ++ second.now)) × (verdict_number answer ≡ seen_number (seen_of begun.now)) }
    ensures { Tells result begun.now (first.now ++ second.now) }
{
    if !waits(answer) {
        return true;
    }
    if second.len() < wanted_by(begun).saturating_sub(first.len()) {
        return true;
    }
    false
}

// The reading of both parts, of which at most 512 bytes are laid together.
fn see_wide(first: &[u8], second: &[u8]) -> Seen
    ensures { result ≡ seen_of (first.now ++ second.now) }
{
    let mut front: [u8; 512] = [0; 512];
    let m = gather(first, second, &mut front);
    let seen = reading::see(&front[..m], 0);
    if is_told(seen.answer, &front[..m], first, second) {
        return seen;
    }
    see_long(&front[..m], first, second)
}

// The reading of both parts where the header may lie across them: it is laid together and looked at
// before more is. A search passes over most places by their header.
fn see_across(first: &[u8], second: &[u8]) -> Seen
    ensures { result ≡ seen_of (first.now ++ second.now) }
{
    let mut head: [u8; 24] = [0; 24];
    let m = gather(first, second, &mut head);
    let seen = reading::see(&head[..m], 0);
    if is_told(seen.answer, &head[..m], first, second) {
        return seen;
    }
    see_wide(first, second)
}

// The reading at the front of two parts, one behind the other. Where the first tells, or where its
// header tells that bytes are missing yet, nothing is copied.
pub fn see(first: &[u8], second: &[u8]) -> Seen
    ensures { result ≡ seen_of (first.now ++ second.now) }
{
    if first.len() < 24 {
        return see_across(first, second);
    }
    let seen = reading::see(first, 0);
    if is_told(seen.answer, first, first, second) {
        return seen;
    }
    see_wide(first, second)
}
