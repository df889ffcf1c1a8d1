// Bytes in lent slices: numbers high byte first, bytes written over bytes, a part filled, and the
// one-byte sum. Every function takes all input. Past the end reads 0; without room nothing is
// written and the answer is 8.
#![tactic(auto)]

ghost use Rattle.std.specs.Prelude.{ℕ, ◌≡◌, ◌+◌, ◌-◌, ◌*◌, ◌/◌, ◌%◌, ◌^◌, ◌<◌, ◌≤◌, [], ◌∷◌, IfSome, length, take, drop, replicate, nat_le, slice_index};
ghost use Rattle.octets.specs.Octets.{be, bytes_of, laid, sum8, sum_after};
ghost use Rattle.octets.specs.Papers.{written_paper, room_for, laid_if_room};

use terms::Refusal;

// Whether a buffer of len bytes has n bytes from at on.
pub fn has_room(len: usize, at: usize, n: usize) -> bool
    ensures { result ≡ nat_le (at + n) len }
{
    if len < n {
        return false;
    }
    at <= len - n
}

// The n bytes of s from at on, or as many of them as there are.
fn part(s: &[u8], at: usize, n: usize) -> &[u8]
    ensures { result.now ≡ take n (drop at s.now) }
{
    let rest = &s[at.min(s.len())..];
    &rest[..n.min(rest.len())]
}

// The N bytes of s from at on, where all of them are there.
fn whole_at<const N: usize>(s: &[u8], at: usize) -> Option<[u8; N]>
    ensures { IfSome result (λ bytes. be N 0 bytes ≡ be N at s.now) }
{
    if !has_room(s.len(), at, N) {
        return None;
    }
    let mut bytes = [0; N];
    bytes.copy_from_slice(&s[at..at + N]);
    Some(bytes)
}

// The byte of s at a place, and 0 past the end.
fn byte(s: &[u8], at: usize) -> u8
    ensures { result ≡ slice_index s.now at }
{
    if at < s.len() { s[at] } else { 0 }
}

// The number in the n bytes of s from at on, where bytes past the end are 0.
fn number_at(s: &[u8], at: usize, n: usize) -> u64
    requires { n ≤ 8 }
    ensures { (result ≡ be n at s.now) × (result < 256 ^ n) }
{
    let there = part(s, at, n);
    let mut v: u64 = 0;
    for i in 0..n {
        v = v * 256 + u64::from(byte(there, i));
    }
    v
}

// A number that stands in bytes, high byte first.
pub trait Number {
    ghost width: { ℕ };

    ghost value: { Self → ℕ };

    // The number in the bytes of s from a place on; bytes past the end count as 0.
    fn at(s: &[u8], at: usize) -> Self
        ensures { value result ≡ be width at s.now };
}

impl Number for u8 {
    ghost width = { 1 };

    ghost value = { λ n. n };

    fn at(s: &[u8], at: usize) -> u8
        ensures { result ≡ be 1 at s.now }
    {
        byte(s, at)
    }
}

impl Number for u16 {
    ghost width = { 2 };

    ghost value = { λ n. n };

    fn at(s: &[u8], at: usize) -> u16
        ensures { result ≡ be 2 at s.now }
    {
        match whole_at(s, at) {
            Some(bytes) => u16::from_be_bytes(bytes),
            None => number_at(s, at, 2) as u16,
        }
    }
}

impl Number for u32 {
    ghost width = { 4 };

    ghost value = { λ n. n };

    fn at(s: &[u8], at: usize) -> u32
        ensures { result ≡ be 4 at s.now }
    {
        match whole_at(s, at) {
            Some(bytes) => u32::from_be_bytes(bytes),
            None => number_at(s, at, 4) as u32,
        }
    }
}

impl Number for u64 {
    ghost width = { 8 };

    ghost value = { λ n. n };

    fn at(s: &[u8], at: usize) -> u64
        ensures { result ≡ be 8 at s.now }
    {
        match whole_at(s, at) {
            Some(bytes) => u64::from_be_bytes(bytes),
            None => number_at(s, at, 8),
        }
    }
}

// The letters of an MDStreamID, five bytes, as one number; bytes past the end count as 0.
pub fn letters_at(s: &[u8], at: usize) -> u64
    ensures { result ≡ be 5 at s.now }
{
    match whole_at::<5>(s, at) {
        Some(b) => u64::from_be_bytes([0, 0, 0, b[0], b[1], b[2], b[3], b[4]]),
        None => number_at(s, at, 5),
    }
}

// Writes the n lowest bytes of v over d from at on, high byte first.
pub fn put(d: &mut [u8], at: usize, n: usize, v: u64) -> Result<usize, Refusal>
    ensures { (written_paper result ≡ room_for at n (length d.old)) × (d.new ≡ laid_if_room at (bytes_of n v) d.old) }
{
    if !has_room(d.len(), at, n) {
        return Err(Refusal::Room);
    }
    let zeros = n.saturating_sub(8);
    d[at..at + zeros].fill(0);
    d[at + zeros..at + n].copy_from_slice(&v.to_be_bytes()[8 - (n - zeros)..]);
    Ok(n)
}

// Stores all of src from at on. Byte by byte: of an array made aside the compiler then stores the
// parts at once, and not the whole of it first.
fn copy(d: &mut [u8], at: usize, src: &[u8])
    requires { at + length src.now ≤ length d.old }
    ensures { d.new ≡ laid at src.now d.old }
{
    for i in 0..src.len() {
        d[at + i] = src[i];
    }
}

// Writes all of src over d from at on.
pub fn lay(d: &mut [u8], at: usize, src: &[u8]) -> Result<usize, Refusal>
    ensures { (written_paper result ≡ room_for at (length src.now) (length d.old)) × (d.new ≡ laid_if_room at src.now d.old) }
{
    if !has_room(d.len(), at, src.len()) {
        return Err(Refusal::Room);
    }
    copy(d, at, src);
    Ok(src.len())
}

// Fills a part with one byte.
pub fn fill(part: &mut [u8], b: u8)
    ensures { part.new ≡ replicate (length part.old) b }
{
    part.fill(b);
}

// The sum of the n bytes of s from at on, in one byte that rolls over; bytes past the end
// add nothing.
#[tactic(auto, using(crate::specs::Sums::sum8_more), unfolding(crate::specs::Octets::sum8, crate::specs::Octets::sum_of))]
pub fn sum(s: &[u8], at: usize, n: usize) -> u8
    ensures { result ≡ sum8 (take n (drop at s.now)) }
{
    let mut v: u8 = 0;
    for b in part(s, at, n) {
        v = v.wrapping_add(*b);
    }
    v
}

// The sum v after each of the n bytes of s from at on became b: that byte taken off, b added. Bytes
// past the end count for nothing. Only those bytes are loaded, so that a sum that is known need not
// be made again.
pub fn sum_after(v: u8, s: &[u8], at: usize, n: usize, b: u8) -> u8
    ensures { result ≡ sum_after v (take n (drop at s.now)) b }
{
    let count = (part(s, at, n).len() % 256) as u8;
    v.wrapping_sub(sum(s, at, n))
        .wrapping_add(b.wrapping_mul(count))
}
