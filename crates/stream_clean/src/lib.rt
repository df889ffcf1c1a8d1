// A capture scrubbed while it arrives: bytes come in cuts of any size, and each call writes the
// accepted frames that it decides, scrubbed. What all calls write is what `clean` writes of the
// whole, however the bytes are cut. Between two calls stands a stream (CR 1); its counts and its
// ledger stay as they are. The bytes that wait are read where they stand, in a lent store, with the
// cut behind them: no call makes a copy of either. Behind them an accepted frame is read once, and
// a refused place twice.
#![tactic(auto)]

ghost use Rattle.std.specs.Prelude.{◌≡◌, ◌++◌, ℕ, ◌+◌, ◌-◌, ◌≤◌, ◌<◌, ◌^◌, true, leb, length, take, drop};
ghost use Rattle.octets.specs.Octets.{laid};
ghost use Rattle.octets.specs.Papers.{laid_if_room};
ghost use Rattle.private.specs.Scrub.{scrubbed};
ghost use Rattle.terms.specs.Verdicts.{verdict_number};
ghost use Rattle.clean_spec.specs.Kept.{size_of};
ghost use Rattle.stream_spec.specs.Calls.{Feed, Close, may_take};
ghost use Rattle.stream.specs.Standing.{whole, fed_of, Ready};
ghost use Rattle.stream_clean_spec.specs.Wash.{unjudged_by, plus};
ghost use Rattle.stream_clean_spec.specs.Runs.{one_by, RanIs};
ghost use Rattle.stream_clean_spec.specs.Calls.{washed_for, answer_for, next_for, leaves_for, answer_to, next_of, leaves, washed_paper};
ghost use Rattle.stream_clean.specs.Taken.{taken_of, TakenIs};

use octets::Number;
use reading::Seen;
use stream::{Answered, Standing};
use stream_clean_spec::Sums;
use terms::Refusal;

// What became of a reading: how many bytes its frame has, or why it was refused; and 1 where no
// rule judges its body.
#[derive(Clone, Copy)]
struct Taken {
    answer: Result<usize, Refusal>,
    unjudged: usize,
}

// How far a run got: the place where it stopped, and what it had written by then.
#[derive(Clone, Copy)]
struct Ran {
    at: usize,
    seeking: bool,
    sums: Sums,
}

// 1 for the type M101, whose body no rule judges, else 0.
#[tactic(auto, unfolding(stream_clean_spec::specs::Wash::unjudged_by))]
fn unjudged(word: u32) -> usize
    ensures { result ≡ unjudged_by word }
{
    usize::from(word == 0x4D313031)
}

// What became of what is seen.
impl From<Seen> for Taken {
    ghost from_gives = { λ seen taken. taken ≡ taken_of seen };

    fn from(seen: Seen) -> Taken {
        Taken {
            answer: seen.answer.and(Ok(seen.size)),
            unjudged: unjudged(seen.msg_type),
        }
    }
}

// Reads the frame at p of w and writes it over out from n on, scrubbed, where it has room. What has
// none, or is refused, is read once more: its answer and its size are known all the same.
fn take_here(w: &[u8], p: usize, out: &mut [u8], n: usize) -> Taken
    ensures { TakenIs (drop p w.now) n out.old out.new result }
{
    match scrub::scrub_into(w, p, out, n) {
        Ok(size) => Taken {
            answer: Ok(size),
            unjudged: unjudged(u32::at(w, p)),
        },
        Err(_) => Taken::from(reading::see(w, p)),
    }
}

// Scrubs the frame that lies from a up to e: that part of the lent buffer is passed on.
fn scrub_part(out: &mut [u8], a: usize, e: usize)
    requires { (a ≤ e) × (e ≤ length out.old) }
    ensures { out.new ≡ laid a (scrubbed (take (e - a) (drop a out.old))) out.old }
{
    let _ = scrub::scrub(&mut out[a..e]);
}

// Lays a and b, one behind the other, over out from n on, and scrubs them there.
fn lay_both(a: &[u8], b: &[u8], out: &mut [u8], n: usize)
    requires { n + (length a.now + length b.now) ≤ length out.old }
    ensures { out.new ≡ laid n (scrubbed (a.now ++ b.now)) out.old }
{
    let from = n + a.len();
    let end = from + b.len();
    let _ = octets::lay(out, n, a);
    let _ = octets::lay(out, from, b);
    scrub_part(out, n, end);
}

// Writes the first size bytes of a and b behind it over out from n on, scrubbed, where they
// have room.
fn lay_across(a: &[u8], b: &[u8], size: usize, out: &mut [u8], n: usize)
    requires { size ≤ length a.now + length b.now }
    ensures { out.new ≡ laid_if_room n (scrubbed (take size (a.now ++ b.now))) out.old }
{
    if size == 0 {
        return;
    }
    if !octets::has_room(out.len(), n, size) {
        return;
    }
    if size <= a.len() {
        lay_both(&a[..size], &b[..0], out, n);
        return;
    }
    lay_both(a, &b[..size - a.len()], out, n);
}

// Reads the frame at the front of a and b behind it, and writes it over out from n on, scrubbed,
// where it has room.
fn take_across(a: &[u8], b: &[u8], out: &mut [u8], n: usize) -> Taken
    ensures { TakenIs (a.now ++ b.now) n out.old out.new result }
{
    let seen = reading_parts::see(a, b);
    lay_across(a, b, seen.size, out, n);
    Taken::from(seen)
}

// The frame at p of a and b behind it, read and written as `take_here` does.
fn take_in(a: &[u8], b: &[u8], p: usize, out: &mut [u8], n: usize) -> Taken
    ensures { TakenIs (drop p (a.now ++ b.now)) n out.old out.new result }
{
    if p < a.len() {
        return take_across(&a[p..], b, out, n);
    }
    take_here(b, p - a.len(), out, n)
}

// One reading more: a frame that was read while the search was under way was found after damage.
fn added(sums: Sums, seeking: bool, taken: Taken) -> Sums
    requires { (sums.bytes + size_of taken.answer < 2 ^ 64) × ((sums.frames < 2 ^ 64 - 1) × ((sums.found < 2 ^ 64 - 1) × (sums.unjudged + taken.unjudged < 2 ^ 64))) }
    ensures { result ≡ plus sums (one_by seeking (verdict_number taken.answer) (size_of taken.answer) taken.unjudged) }
{
    let accepted = taken.answer.is_ok();
    Sums {
        bytes: sums.bytes + taken.answer.unwrap_or(0),
        frames: sums.frames + usize::from(accepted),
        found: sums.found + usize::from(seeking & accepted),
        unjudged: sums.unjudged + taken.unjudged,
    }
}

// The walk over a and b behind it as far as no place waits; its frames are written, scrubbed, at
// the front of out, as far as they have room.
fn wash(a: &[u8], b: &[u8], seek: bool, closing: bool, out: &mut [u8]) -> Ran
    requires { length a.now + length b.now < 2 ^ 64 }
    ensures { (base : ℕ) → RanIs (a.now ++ b.now) base seek closing out.old out.new result.at result.seeking result.sums }
{
    let end = a.len() + b.len();
    let mut p: usize = 0;
    let mut seeking = seek;
    let mut sums = Sums {
        bytes: 0,
        frames: 0,
        found: 0,
        unjudged: 0,
    };
    while p < end {
        let taken = take_in(a, b, p, out, sums.bytes);
        if stream::waits(closing, taken.answer) {
            break;
        }
        if stream::passes(seeking, taken.answer) {
            p += 1;
            continue;
        }
        sums = added(sums, seeking, taken);
        p += taken.answer.unwrap_or(1);
        seeking = taken.answer.is_err();
    }
    Ran {
        at: p,
        seeking,
        sums,
    }
}

// Whether so much room takes the frames of a call. They are never longer than the bytes that wait
// and the cut; where those are too long, they are counted in a pass that keeps nothing.
fn takes_all(st: Standing, kept: &[u8; 8191], cut: &[u8], closing: bool, room: usize) -> bool
    requires { Ready st kept.now (length cut.now) }
    ensures { result ≡ leb (length (washed_for (whole st kept.now) closing cut.now)) room }
{
    if st.len + cut.len() <= room {
        return true;
    }
    let mut none: [u8; 1] = [0; 1];
    let counted = wash(&kept[..st.len], cut, st.seeking, closing, &mut none);
    counted.sums.bytes <= room
}

// A call whose frames fit. What the run leaves is kept at the front of the store.
fn drawn(
    st: Standing,
    kept: &mut [u8; 8191],
    cut: &[u8],
    closing: bool,
    out: &mut [u8],
) -> Answered<Sums>
    requires { (may_take (whole st kept.old) (length cut.now) ≡ 0) × (leb (length (washed_for (whole st kept.old) closing cut.now)) (length out.old) ≡ true) }
    ensures { (washed_paper (fed_of result kept.new) ≡ answer_for (whole st kept.old) closing cut.now (length out.old))
        × (((fed_of result kept.new).stream ≡ next_for (whole st kept.old) closing cut.now (length out.old))
        × (out.new ≡ leaves_for (whole st kept.old) closing cut.now out.old)) }
{
    let n = st.len;
    let ran = wash(&kept[..n], cut, st.seeking, closing, out);
    stream::keep_rest(kept, n, ran.at, cut);
    Answered {
        answer: Ok(ran.sums),
        next: Standing {
            place: st.place + ran.at as u64,
            seeking: ran.seeking,
            closed: closing,
            len: n + cut.len() - ran.at,
            tally: st.tally,
        },
    }
}

// One call: 13, 19, 29, 8, or its frames. Whether they fit is known before the first is written, so
// a refusal writes nothing.
fn call(
    st: Standing,
    kept: &mut [u8; 8191],
    cut: &[u8],
    closing: bool,
    out: &mut [u8],
) -> Answered<Sums>
    ensures { (washed_paper (fed_of result kept.new) ≡ answer_for (whole st kept.old) closing cut.now (length out.old))
        × (((fed_of result kept.new).stream ≡ next_for (whole st kept.old) closing cut.now (length out.old))
        × (out.new ≡ leaves_for (whole st kept.old) closing cut.now out.old)) }
{
    if let Err(why) = stream::may_take(st, kept, cut.len()) {
        return Answered {
            answer: Err(why),
            next: st,
        };
    }
    if !takes_all(st, kept, cut, closing, out.len()) {
        return Answered {
            answer: Err(Refusal::Room),
            next: st,
        };
    }
    drawn(st, kept, cut, closing, out)
}

// One more cut, perhaps of no bytes: writes the accepted frames that it decides at the front of
// out, each scrubbed, and counts them. Refusals 13, 19, 29, 8.
pub fn clean_cut(st: Standing, kept: &mut [u8; 8191], cut: &[u8], out: &mut [u8]) -> Answered<Sums>
    ensures { (washed_paper (fed_of result kept.new) ≡ answer_to (whole st kept.old) (Feed cut.now) (length out.old))
        × (((fed_of result kept.new).stream ≡ next_of (whole st kept.old) (Feed cut.now) (length out.old))
        × (out.new ≡ leaves (whole st kept.old) (Feed cut.now) out.old)) }
{
    call(st, kept, cut, false, out)
}

// No more bytes come: what remains is walked as the end of a closed capture is. Refusals 13, 19, 8.
pub fn clean_end(st: Standing, kept: &mut [u8; 8191], out: &mut [u8]) -> Answered<Sums>
    ensures { (washed_paper (fed_of result kept.new) ≡ answer_to (whole st kept.old) Close (length out.old))
        × (((fed_of result kept.new).stream ≡ next_of (whole st kept.old) Close (length out.old))
        × (out.new ≡ leaves (whole st kept.old) Close out.old)) }
{
    let none: [u8; 1] = [0; 1];
    call(st, kept, &none[..0], true, out)
}
