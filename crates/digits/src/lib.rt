// Decimal text in ASCII: a number written over lent bytes as its digits, and read back from them.
// Every function takes all input. Without room nothing is written and the answer is 8; text past
// the end is no number.
#![tactic(auto)]

ghost use Rattle.std.specs.Prelude.{◌≡◌, ◌+◌, ◌≤◌, leb, length, take, drop};
ghost use Rattle.octets.specs.Octets.{laid};
ghost use Rattle.octets.specs.Papers.{written_paper, room_for, laid_if_room};
ghost use Rattle.digits.specs.Digits.{decimal_of, shown_of, width_of, is_digit, said_if_digits, readable, digits_at, decimal_at, decimal_paper};

use octets::Number;
use terms::Refusal;

// Stores the n lowest decimal digits of v from at on.
fn store_digits(d: &mut [u8], at: usize, n: usize, v: u64)
    requires { at + n ≤ length d.old }
    ensures { d.new ≡ laid at (decimal_of n v) d.old }
{
    let mut x = v;
    for k in (0..n).rev() {
        d[at + k] = (x % 10) as u8 + b'0';
        x /= 10;
    }
}

// Writes the n lowest decimal digits of v over d from at on, with zeros in front where v has fewer.
pub fn put_digits(d: &mut [u8], at: usize, n: usize, v: u64) -> Result<usize, Refusal>
    ensures { (written_paper result ≡ room_for at n (length d.old)) × (d.new ≡ laid_if_room at (decimal_of n v) d.old) }
{
    if !octets::has_room(d.len(), at, n) {
        return Err(Refusal::Room);
    }
    store_digits(d, at, n, v);
    Ok(n)
}

// How many digits v has; 0 has one.
pub fn width(v: u64) -> usize
    ensures { result ≡ width_of v }
{
    v.max(1).ilog10() as usize + 1
}

// Writes v over d from at on as all its digits, with no needless zero in front, and returns how
// many they are.
pub fn put_decimal(d: &mut [u8], at: usize, v: u64) -> Result<usize, Refusal>
    ensures { (written_paper result ≡ room_for at (width_of v) (length d.old)) × (d.new ≡ laid_if_room at (shown_of v) d.old) }
{
    // of a constant number of digits the compiler makes no loop
    match v {
        0..=9 => put_digits(d, at, 1, v),
        10..=99 => put_digits(d, at, 2, v),
        100..=999 => put_digits(d, at, 3, v),
        1000..=9999 => put_digits(d, at, 4, v),
        _ => put_digits(d, at, width(v), v),
    }
}

// Whether a byte is an ASCII digit. `is_ascii_digit` takes two tests where this takes one.
fn digit(b: u8) -> bool
    ensures { result ≡ is_digit b }
{
    matches!(b, b'0'..=b'9')
}

// The number that the n bytes of s from at on say, if all of them are digits. Nineteen digits
// stay below 2^64.
fn said(s: &[u8], at: usize, n: usize) -> Option<u64>
    requires { (at + n ≤ length s.now) × (n ≤ 19) }
    ensures { decimal_paper result ≡ said_if_digits (take n (drop at s.now)) }
{
    let mut v: u64 = 0;
    for b in &s[at..at + n] {
        if !digit(*b) {
            return None;
        }
        v = v * 10 + u64::from(*b - b'0');
    }
    Some(v)
}

// The number that the n bytes of s from at on say: one to nineteen digits, all within s. Else there
// is no number.
pub fn digits_at(s: &[u8], at: usize, n: usize) -> Option<u64>
    ensures { decimal_paper result ≡ digits_at at n s.now }
{
    if !((1 <= n) & (n <= 19) & octets::has_room(s.len(), at, n)) {
        return None;
    }
    said(s, at, n)
}

// The same, where the first digit is no needless zero: 0 stands alone or not in front.
pub fn decimal_at(s: &[u8], at: usize, n: usize) -> Option<u64>
    ensures { decimal_paper result ≡ decimal_at at n s.now }
{
    if (n != 1) & (u8::at(s, at) == b'0') {
        return None;
    }
    digits_at(s, at, n)
}
