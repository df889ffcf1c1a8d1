// A whole capture, scrubbed: its accepted frames in order, stray bytes left out; and whether a
// capture is clean already.
#![tactic(auto)]

ghost use Rattle.std.specs.Prelude.{◌≡◌, ◌≤◌, length, take, drop};
ghost use Rattle.octets.specs.Octets.{laid};
ghost use Rattle.octets.specs.Papers.{laid_if_room};
ghost use Rattle.private.specs.Scrub.{scrubbed};
ghost use Rattle.reading.specs.Seen.{seen_of};
ghost use Rattle.clean_spec.specs.Clean.{clean_of, differ_of, fits_in, clean_answer, clean_leaves, check_of};
ghost use Rattle.clean.specs.Papers.{clean_paper, check_paper, places_of};
ghost use Rattle.clean_spec.specs.Kept.{kept_of};
ghost use Rattle.clean.specs.Passes.{cleaned_of};

use terms::Refusal;

// What cleaning wrote: how many bytes, how many frames they are, and how many of these the search
// found after damage. Such a frame may lie inside a damaged one, in bytes that were private there.
#[derive(Clone, Copy)]
pub struct Cleaned {
    pub bytes: usize,
    pub frames: usize,
    pub after_damage: usize,
}

// Reads the frame at p of the capture and writes it over out from n on, scrubbed, where it has
// room. What has none, or is refused, is read once more: how many bytes it has, or why it is
// refused, is known all the same.
fn keep(capture: &[u8], p: usize, out: &mut [u8], n: usize) -> Result<usize, Refusal>
    ensures { (result ≡ kept_of (seen_of (drop p capture.now)))
        × (out.new ≡ laid_if_room n (scrubbed (take (seen_of (drop p capture.now)).size (drop p capture.now))) out.old) }
{
    match scrub::scrub_into(capture, p, out, n) {
        Ok(size) => Ok(size),
        Err(_) => {
            let seen = reading::see(capture, p);
            seen.answer.and(Ok(seen.size))
        }
    }
}

// The walk over a capture. It counts the bytes of every accepted frame, and writes those
// that have room.
fn pass(capture: &[u8], out: &mut [u8]) -> Cleaned
    ensures { (result ≡ cleaned_of capture.now)
        × (length (clean_of capture.now) ≤ length out.old → out.new ≡ laid 0 (clean_of capture.now) out.old) }
{
    let mut p: usize = 0;
    let mut bytes: usize = 0;
    let mut frames: usize = 0;
    let mut after_damage: usize = 0;
    let mut damaged = false;
    while p < capture.len() {
        let kept = keep(capture, p, out, bytes);
        let size = kept.unwrap_or(0);
        p = walk_step::onward(capture, p, size);
        let accepted = kept.is_ok();
        bytes += size;
        frames += usize::from(accepted);
        after_damage += usize::from(damaged & accepted);
        damaged = !accepted;
    }
    Cleaned {
        bytes,
        frames,
        after_damage,
    }
}

// Whether so much room takes the cleaned capture. It is never longer than the capture; where that
// is too long, its bytes are counted in a pass that writes nothing.
fn takes_all(capture: &[u8], room: usize) -> bool
    ensures { result ≡ fits_in capture.now room }
{
    if capture.len() <= room {
        return true;
    }
    let mut none: [u8; 1] = [0; 1];
    let counted = pass(capture, &mut none);
    counted.bytes <= room
}

// Writes the accepted frames of a capture, each scrubbed, one after the other at the front of out;
// or returns 8, and nothing is written.
pub fn clean(capture: &[u8], out: &mut [u8]) -> Result<Cleaned, Refusal>
    ensures { (clean_paper result ≡ clean_answer capture.now (length out.old))
        × (out.new ≡ clean_leaves capture.now out.old) }
{
    if !takes_all(capture, out.len()) {
        return Err(Refusal::Room);
    }
    Ok(pass(capture, out))
}

// The first place where two parts of one length differ. Equal ones, which are the most, are
// compared many bytes at a time.
fn first_difference(a: &[u8], b: &[u8]) -> Option<usize>
    requires { length a.now ≡ length b.now }
    ensures { places_of result ≡ differ_of 0 a.now b.now }
{
    if a == b {
        return None;
    }
    a.iter().zip(b).position(|(x, y)| *x != *y)
}

// The first place where a capture differs from what cleaning it gives, byte for byte and in length;
// none where it is clean. The cleaned capture is made one frame at a time and compared with what
// stands at its place.
pub fn is_clean(capture: &[u8]) -> Option<usize>
    ensures { check_paper result ≡ check_of capture.now }
{
    let mut one: [u8; 8192] = [0; 8192];
    let mut at: usize = 0;
    let mut n: usize = 0;
    while at < capture.len() {
        let size = keep(capture, at, &mut one, 0).unwrap_or(0);
        if let Some(i) = first_difference(&capture[n..n + size], &one[..size]) {
            return Some(n + i);
        }
        at = walk_step::onward(capture, at, size);
        n += size;
    }
    if n < capture.len() { Some(n) } else { None }
}
