// Bytes that arrive in cuts of any size, to records, counts and ledger. CR 1: what is given equals
// the closed walk's, however the bytes are cut.
#![tactic(auto)]

ghost use Rattle.std.specs.Prelude.{◌≡◌, ◌++◌, ◌+◌, ◌-◌, ◌*◌, ◌/◌, ◌≤◌, ◌<◌, ◌^◌, leb, length, take, drop};
ghost use Rattle.octets.specs.Octets.{laid, Bytes};
ghost use Rattle.walk_spec.specs.Tables.{written_from};
ghost use Rattle.stream_spec.specs.Tally.{tally_with, tally_right, ledger_right};
ghost use Rattle.reading.specs.Seen.{seen_of};
ghost use Rattle.stream_spec.specs.State.{last_place, all_zero, sound_of};
ghost use Rattle.stream_spec.specs.Run.{waits_at, passed_over, stride_of, accounted_of, RanIs};
ghost use Rattle.stream_spec.specs.Calls.{Feed, Close, may_take, given_of, answer_for, next_for, leaves_for, answer_to, next_of, leaves, fed_paper};
ghost use Rattle.terms.specs.Verdicts.{verdict_number};
ghost use Rattle.stream.specs.Standing.{whole, fed_of, stands_behind, blank_to, has_rest, rest_of, RanOver, Ready};
ghost use Rattle.stream.specs.Pushed.{PushedIs};

use ledger::Ledger;
use reading::Seen;
use stream_spec::Tally;
use terms::Refusal;

// What stands between two calls but for the bytes that wait: those stand at the front of a store of
// 8,191 bytes, which is lent to each call. The fields are those of a stream.
#[derive(Clone, Copy)]
pub struct Standing {
    pub place: u64,
    pub seeking: bool,
    pub closed: bool,
    pub len: usize,
    pub tally: Tally,
}

// What a call gave, or why it was refused; and how the stream stands after it.
#[derive(Clone, Copy)]
pub struct Answered<T> {
    pub answer: Result<T, Refusal>,
    pub next: Standing,
}

// How far a run over bytes got: the place among them where it stopped, and what it had made by
// then.
#[derive(Clone, Copy)]
struct Ran {
    at: usize,
    seeking: bool,
    count: usize,
    tally: Tally,
}

// Whether a place with this answer waits for more. At the closing call none does.
#[tactic(auto, unfolding(stream_spec::specs::Run::waits_at))]
pub fn waits<T: Drop>(closing: bool, answer: Result<T, Refusal>) -> bool
    ensures { result ≡ waits_at closing (verdict_number answer) }
{
    !closing & matches!(answer, Err(Refusal::More))
}

// Whether the search passes over a place with this answer.
#[tactic(auto, unfolding(stream_spec::specs::Run::passed_over))]
pub fn passes<T: Drop>(seeking: bool, answer: Result<T, Refusal>) -> bool
    ensures { result ≡ passed_over seeking (verdict_number answer) }
{
    seeking & answer.is_err()
}

// From a place that was read to the next one to look at.
fn stride(seen: Seen) -> usize
    ensures { result ≡ stride_of seen }
{
    match seen.answer {
        Ok(()) => seen.size,
        Err(_) => 1,
    }
}

// One reading more, and the ledger after it.
fn counted(tally: Tally, answer: Result<(), Refusal>, after: Ledger) -> Tally
    requires { tally.frames + tally.refused < 2 ^ 64 - 1 }
    ensures { result ≡ tally_with tally (verdict_number answer) after }
{
    Tally {
        frames: tally.frames + u64::from(answer.is_ok()),
        refused: tally.refused + u64::from(answer.is_err()),
        ledger: after,
    }
}

// What is read at a place of the bytes of a and, behind them, of b.
fn see_at(a: &[u8], b: &[u8], p: usize) -> Seen
    ensures { result ≡ seen_of (drop p (a.now ++ b.now)) }
{
    if p < a.len() {
        return reading_parts::see(&a[p..], b);
    }
    reading::see(b, p - a.len())
}

// The walk over a and, behind it, b, as far as no place waits. The first byte stands at the place
// base.
fn run(
    a: &[u8],
    b: &[u8],
    base: u64,
    seek: bool,
    closing: bool,
    start: Tally,
    out: &mut [u8],
) -> Ran
    requires { (base + length (a.now ++ b.now) < 2 ^ 64) × (start.frames + start.refused ≤ base) }
    ensures { (RanIs (a.now ++ b.now) base seek closing start 0 result.at result.seeking result.count result.tally) × (out.new ≡ written_from 0 (accounted_of base seek closing start (a.now ++ b.now)).records out.old) }
{
    let end = a.len() + b.len();
    let mut p: usize = 0;
    let mut seeking = seek;
    let mut count: usize = 0;
    let mut tally = start;
    while p < end {
        let seen = see_at(a, b, p);
        if waits(closing, seen.answer) {
            break;
        }
        if passes(seeking, seen.answer) {
            p += 1;
            continue;
        }
        let after = walk_step::offer(tally.ledger, seen);
        let answer = terms::number_of(after.answer);
        walk_step::note(
            out,
            count,
            walk_step::made(base + p as u64, seen, answer, after.next),
        );
        p += stride(seen);
        seeking = seen.answer.is_err();
        count += 1;
        tally = counted(tally, seen.answer, after.next);
    }
    Ran {
        at: p,
        seeking,
        count,
        tally,
    }
}

// How a stream stands behind a run over n bytes.
fn behind(st: Standing, ran: Ran, n: usize, closing: bool) -> Standing
    requires { (ran.at ≤ n) × (st.place + n < 2 ^ 64) }
    ensures { result ≡ stands_behind st ran n closing }
{
    Standing {
        place: st.place + ran.at as u64,
        seeking: ran.seeking,
        closed: closing,
        len: n - ran.at,
        tally: ran.tally,
    }
}

// The m bytes from a on are stored at the front. Byte by byte, as `octets::lay` stores what it is
// given: std's copies of parts call the C library's memmove, a name that the library needs nowhere.
fn down(w: &mut [u8], a: usize, m: usize)
    requires { a + m ≤ length w.old }
    ensures { w.new ≡ laid 0 (take m (drop a w.old)) w.old }
{
    for i in 0..m {
        w[i] = w[a + i];
    }
}

// The bytes from a to e move to the front, and those behind them, up to e, become 0.
fn shift(kept: &mut [u8], a: usize, e: usize)
    requires { (a ≤ e) × (e ≤ length kept.old) }
    ensures { kept.new ≡ laid 0 (drop a (take e kept.old)) (blank_to e kept.old) }
{
    if 0 < a {
        down(kept, a, e - a);
        kept[e - a..e].fill(0);
    }
}

// These bytes stand at the front, in place of the first n; behind them, up to n, all become 0.
fn keep(kept: &mut [u8], n: usize, rest: &[u8])
    requires { (n ≤ length kept.old) × (length rest.now ≤ length kept.old) }
    ensures { kept.new ≡ laid 0 rest.now (blank_to n kept.old) }
{
    kept[..n].fill(0);
    let _ = octets::lay(kept, 0, rest);
}

// Whether a store of so much room has n bytes, and takes of them and m more those from a place on.
#[tactic(auto, unfolding(crate::specs::Standing::has_rest))]
fn has_rest(room: usize, n: usize, at: usize, m: usize) -> bool
    ensures { result ≡ has_rest room n at m }
{
    let end = n as u128 + m as u128;
    n <= room && at as u128 <= end && end <= at as u128 + room as u128
}

// What waits behind a run is kept: of the first n bytes of a store and the cut behind them those
// from a place on, at its front, with zeros behind them up to n. Nothing changes where the store
// has no n bytes, does not take those, or the place is behind the cut.
pub fn keep_rest(kept: &mut [u8], n: usize, at: usize, cut: &[u8])
    ensures { kept.new ≡ rest_of n at cut.now kept.old }
{
    if !has_rest(kept.len(), n, at, cut.len()) {
        return;
    }
    if at <= n {
        shift(kept, at, n);
        let _ = octets::lay(kept, n - at, cut);
        return;
    }
    keep(kept, n, &cut[at - n..]);
}

// A run over the bytes that wait and, behind them, a cut: each where it stands.
fn over(st: Standing, kept: &[u8; 8191], cut: &[u8], closing: bool, out: &mut [u8]) -> Ran
    requires { Ready st kept.now (length cut.now) }
    ensures { RanOver st kept.now closing cut.now result × (out.new ≡ written_from 0 (given_of (whole st kept.now) closing cut.now) out.old) }
{
    run(
        &kept[..st.len],
        cut,
        st.place,
        st.seeking,
        closing,
        st.tally,
        out,
    )
}

// A cut, or at the closing call none: the run, and what waits behind it is kept.
fn drawn(
    st: Standing,
    kept: &mut [u8; 8191],
    cut: &[u8],
    closing: bool,
    out: &mut [u8],
) -> Answered<usize>
    requires { Ready st kept.old (length cut.now) }
    ensures { PushedIs (whole st kept.old) closing cut.now out.old out.new (fed_of result kept.new) }
{
    let ran = over(st, kept, cut, closing, out);
    keep_rest(kept, st.len, ran.at, cut);
    Answered {
        answer: Ok(ran.count),
        next: behind(st, ran, st.len + cut.len(), closing),
    }
}

// Whether the places of n and then m bytes from place on stay in 64 bits.
fn fits(place: u64, n: usize, m: usize) -> bool
    ensures { result ≡ leb (place + (n + m)) last_place }
{
    place as u128 + n as u128 + m as u128 <= 18446744073709551615
}

// Whether all bytes are 0. All of them in one: the compiler takes 16 at a time.
fn blank(s: &[u8]) -> bool
    ensures { result ≡ all_zero s.now }
{
    let mut all: u8 = 0;
    for b in s {
        all = all | *b;
    }
    all == 0
}

// Whether the ledger is sound and of channel 100.
fn ledger_right(ledger: Ledger) -> bool
    ensures { result ≡ ledger_right ledger }
{
    ledger.channel.value() == 100 && ledger.held().answer.is_ok()
}

// Whether the tally keeps the state rules, where bytes came up to the place.
fn tally_right(tally: Tally, place: u64) -> bool
    ensures { result ≡ tally_right tally place }
{
    tally.frames as u128 + tally.refused as u128 <= place as u128 && ledger_right(tally.ledger)
}

// Whether the state rules hold.
fn sound(st: Standing, kept: &[u8; 8191]) -> bool
    ensures { result ≡ sound_of (whole st kept.now) }
{
    let n = st.len;
    if n > 8191 {
        return false;
    }
    if !blank(&kept[n..]) {
        return false;
    }
    if !tally_right(st.tally, st.place) {
        return false;
    }
    if !fits(st.place, n, 0) {
        return false;
    }
    if n == 0 {
        return true;
    }
    !st.closed && waits(false, reading::see(&kept[..n], 0).answer)
}

// What goes before the room of a call that brings so many bytes: 13, 19, 29, or nothing.
pub fn may_take(st: Standing, kept: &[u8; 8191], more: usize) -> Result<(), Refusal>
    ensures { verdict_number result ≡ may_take (whole st kept.now) more }
{
    if !sound(st, kept) {
        return Err(Refusal::State);
    }
    if st.closed {
        return Err(Refusal::Closed);
    }
    if !fits(st.place, st.len, more) {
        return Err(Refusal::Places);
    }
    Ok(())
}

// Whether so much room takes a record for each reading that so many bytes may have.
fn roomy(kept: usize, more: usize, room: usize) -> bool
    requires { kept + more < 2 ^ 64 }
    ensures { result ≡ leb (2 * ((kept + more) / 29) + 2) (room / 64) }
{
    2 * ((kept + more) / 29) + 2 <= room / 64
}

// Whether so much room takes the records of a call. Where it may not, they are counted in a run
// that writes nothing.
fn takes_all(st: Standing, kept: &[u8; 8191], cut: &[u8], closing: bool, room: usize) -> bool
    requires { Ready st kept.now (length cut.now) }
    ensures { result ≡ leb (length (given_of (whole st kept.now) closing cut.now)) (room / 64) }
{
    if roomy(st.len, cut.len(), room) {
        return true;
    }
    let mut none: [u8; 1] = [0; 1];
    let ran = over(st, kept, cut, closing, &mut none);
    ran.count <= room / 64
}

// One call: 13, 19, 29, 8, or its records. Whether they fit is known before the first is written,
// so a refusal writes nothing.
fn call(
    st: Standing,
    kept: &mut [u8; 8191],
    cut: &[u8],
    closing: bool,
    records: &mut [u8],
) -> Answered<usize>
    ensures { (fed_paper (fed_of result kept.new) ≡ answer_for (whole st kept.old) closing cut.now (length records.old))
        × (((fed_of result kept.new).stream ≡ next_for (whole st kept.old) closing cut.now (length records.old))
        × (records.new ≡ leaves_for (whole st kept.old) closing cut.now records.old)) }
{
    if let Err(why) = may_take(st, kept, cut.len()) {
        return Answered {
            answer: Err(why),
            next: st,
        };
    }
    if !takes_all(st, kept, cut, closing, records.len()) {
        return Answered {
            answer: Err(Refusal::Room),
            next: st,
        };
    }
    drawn(st, kept, cut, closing, records)
}

// One more cut, perhaps of no bytes: the records that it decides. Refusals 13, 19, 29, 8.
pub fn feed(st: Standing, kept: &mut [u8; 8191], cut: &[u8], records: &mut [u8]) -> Answered<usize>
    ensures { ((fed_paper (fed_of result kept.new) ≡ answer_to (whole st kept.old) (Feed cut.now) (length records.old))
        × (((fed_of result kept.new).stream ≡ next_of (whole st kept.old) (Feed cut.now) (length records.old))
        × (records.new ≡ leaves (whole st kept.old) (Feed cut.now) records.old)))
        × Bytes cut.now }
{
    call(st, kept, cut, false, records)
}

// No more bytes come: what remains is walked as the end of a closed capture is. Refusals 13, 19, 8.
pub fn close(st: Standing, kept: &mut [u8; 8191], records: &mut [u8]) -> Answered<usize>
    ensures { (fed_paper (fed_of result kept.new) ≡ answer_to (whole st kept.old) Close (length records.old))
        × (((fed_of result kept.new).stream ≡ next_of (whole st kept.old) Close (length records.old))
        × (records.new ≡ leaves (whole st kept.old) Close records.old)) }
{
    let none: [u8; 1] = [0; 1];
    call(st, kept, &none[..0], true, records)
}
