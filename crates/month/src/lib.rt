// The month in whole numbers: a page of sums over up to 500 captures, for up to 32 channels named
// at the start. Document 02, request 11. Every call takes the page, sound or not, and gives back
// the next one beside its answer.
#![tactic(auto)]

ghost use Rattle.std.specs.Prelude.{◌≡◌, true, false, ◌&&◌, [], ◌∷◌, ◌+◌, ◌≤◌, ◌<◌, eqb, get_or, set, take, length, Some, None, IfOk, IfSome, MatchOption, unwrap_or, position};
ghost use Rattle.std.specs.List.{list_all};
ghost use Rattle.terms.specs.Paper.{pick};
ghost use Rattle.terms.specs.Verdicts.{verdict_number};
ghost use Rattle.ledger_spec.specs.Words.{one};
ghost use Rattle.walk_spec.specs.CallLaws.{is_tick};
ghost use Rattle.month_spec.specs.Figures.{is_resend, reads_in};
ghost use Rattle.month_spec.specs.Page.{places, place_in, channels_right, sums_right, sound_of, figures_in_all, tabled, all_below};
ghost use Rattle.month_spec.specs.Calls.{naming_number, answer_to, next_of, start_number, start_page};
ghost use Rattle.month.specs.Naming.{Naming, Hints, Hinted};
ghost use Rattle.month.specs.State.{page_in, month_of, empty_with, refused_with, added_paper, sum_in, sum_fits_in};
ghost use Rattle.month.specs.Rows.{row_after, Turned, Roomy, Kept, row_numbers, row_figures};

use ledger::Ledger;
use reading::Seen;
use rules::Kind;
use terms::{ChannelNumber, Refusal};

// The fields are open, so that a host can hand in any state; a broken one is refused by 13.
#[derive(Clone, Copy)]
pub struct Month {
    // At 32 places: the channels named at the start, then 0.
    pub channels: [u16; 32],
    pub named: usize,
    // How many captures were taken.
    pub taken: usize,
    // Six for each place: received, repeated, far, missing, asked, unavailable.
    pub sums: [u64; 192],
}

// What starting answers; and beside it the page, or beside 10, 22 or 21 one with no channel.
#[derive(Clone, Copy)]
pub struct Started {
    pub answer: Result<(), Refusal>,
    pub page: Month,
}

// What adding a capture answers: its figures, or 13, 27 or 28; and beside it the page with them, or
// the very page that was passed in.
#[derive(Clone, Copy)]
pub struct Added {
    pub answer: Result<[u64; 192], Refusal>,
    pub page: Month,
}

// The channels that a page names, in their order: each of at most four digits, and none twice.
#[derive(Clone, Copy)]
struct Named {
    channels: [u16; 32],
    count: usize,
    ghost naming: { Naming channels count },
}

// What one pass over a capture keeps of a channel.
#[derive(Clone, Copy)]
struct Row {
    ledger: Ledger,
    received: u64,
    repeated: u64,
    far: u64,
    asked: u64,
    unavailable: u64,
}

// ---- the page's rules

// Whether the named channels keep the rules, and the other places are 0.
fn channels_right(channels: [u16; 32], named: usize) -> bool
    requires { named ≤ 32 }
    ensures { result ≡ channels_right channels named }
{
    for i in 0..32 {
        let channel = channels[i];
        if named <= i {
            if channel != 0 {
                return false;
            }
        } else if channel > 9999 || channels[..i].contains(&channel) {
            return false;
        }
    }
    true
}

// The first place of a channel among some.
fn first_of(channels: &[u16], channel: u16) -> Option<usize>
    ensures { result ≡ position (λ c. eqb c channel) channels.now }
{
    channels.iter().position(|c| *c == channel)
}

fn all_zero(sums: &[u64]) -> bool
    ensures { result ≡ list_all (λ sum. eqb sum 0) sums.now }
{
    sums.iter().all(|sum| *sum == 0)
}

// Whether the sums of unnamed places are 0.
fn sums_right(sums: [u64; 192], named: usize) -> bool
    requires { named ≤ 32 }
    ensures { result ≡ sums_right sums named }
{
    all_zero(&sums[6 * named..])
}

// A page just started with these channels.
fn empty(names: Named) -> Month
    ensures { result ≡ empty_with names.channels names.count }
{
    let channels = names.channels;
    Month {
        channels,
        named: names.count,
        taken: 0,
        sums: [0; 192],
    }
}

// ---- the channels

impl Named {
    // None.
    fn none() -> Named
        ensures { (result.channels ≡ tabled (λ i. 0) places) × (result.count ≡ 0) }
    {
        Named {
            channels: [0; 32],
            count: 0,
        }
    }

    // One more. 10, 22, 21.
    fn with(self, channel: u16) -> Result<Named, Refusal>
        ensures number { verdict_number result ≡ naming_number (take self.count self.channels) channel }
        ensures names { IfOk result (λ n. (n.channels ≡ set self.channels self.count channel) × (n.count ≡ self.count + 1)) }
    {
        if channel > 9999 {
            return Err(Refusal::Range);
        }
        if self.channels[..self.count].contains(&channel) {
            return Err(Refusal::Open);
        }
        if self.count == 32 {
            return Err(Refusal::Full);
        }
        let mut channels = self.channels;
        channels[self.count] = channel;
        Ok(Named {
            channels,
            count: self.count + 1,
        })
    }

    // These, judged one by one in their order: the first one refused answers.
    fn of(channels: &[u16]) -> Result<Named, Refusal>
        ensures number { verdict_number result ≡ start_number channels.now }
        ensures names { IfOk result (λ n. (n.channels ≡ tabled (λ i. get_or channels.now i 0) places) × (n.count ≡ length channels.now)) }
    {
        let mut names = Named::none();
        for channel in channels {
            names = names.with(*channel)?;
        }
        Ok(names)
    }

    // The place of this channel, by a hint: no place is hinted at where no named channel has its
    // low byte; else it is mostly there.
    fn place_of(&self, hint: usize, channel: u16) -> Option<usize>
        requires { Hinted self.now.channels self.now.count channel hint }
        ensures place { unwrap_or result self.now.count ≡ place_in self.now.channels self.now.count channel }
        ensures inside { IfSome result (λ i. i < self.now.count) }
    {
        if self.count <= hint {
            return None;
        }
        if self.channels[hint] == channel {
            return Some(hint);
        }
        first_of(&self.channels[..self.count], channel)
    }

    // For each low byte a place where a channel with it is named, or 32 where none is. A search
    // through 32 names at each frame would end at another place each time, which no processor
    // foresees.
    fn hints(&self) -> [u8; 256]
        ensures { Hints self.now.channels self.now.count self.now.count result }
    {
        let mut places: [u8; 256] = [32; 256];
        for j in 0..self.count {
            places[(self.channels[j] % 256) as usize] = j as u8;
        }
        places
    }

    // Writes a fresh row at each named place.
    fn fresh_rows(&self, rows: &mut [Row; 32])
        ensures { Kept self.now.channels self.now.count [] rows.new }
    {
        for j in 0..self.count {
            rows[j] = Row::fresh(self.channels[j]);
        }
    }
}

// ---- one row

fn is_tick(kind: Kind) -> bool
    ensures { result ≡ is_tick kind }
{
    kind == Kind::M201
}

fn is_resend(kind: Kind) -> bool
    ensures { result ≡ is_resend kind }
{
    kind == Kind::P002
}

// 1 for a frame of the kind that is counted, with the number that is counted.
fn counted(counts: bool, number: u32, wanted: u32) -> u64
    ensures { (result ≡ one (counts && eqb number wanted)) × (result ≤ 1) }
{
    u64::from(counts && number == wanted)
}

impl Row {
    // A row of a channel that nothing was read of yet.
    fn fresh(channel: u16) -> Row
        requires { channel ≤ 9999 }
        ensures { result ≡ row_after channel [] }
    {
        Row {
            ledger: Ledger::opened(ChannelNumber::new(channel)).next,
            received: 0,
            repeated: 0,
            far: 0,
            asked: 0,
            unavailable: 0,
        }
    }

    // The row after one more frame of its channel.
    fn turned(self, seen: Seen) -> Row
        requires { Roomy self }
        ensures { Turned self seen result }
    {
        let after = walk_step::offer(self.ledger, seen);
        let number = terms::number_of(after.answer);
        let status = seen.status as u32;
        let kind = Kind::from(seen.msg_type);
        let tick = is_tick(kind);
        let resend = is_resend(kind);
        Row {
            ledger: after.next,
            received: self.received + counted(tick, number, 0),
            repeated: self.repeated + counted(tick, number, 11),
            far: self.far + counted(tick, number, 12),
            asked: self.asked + counted(resend, status, 0),
            unavailable: self.unavailable + counted(resend, status, 4),
        }
    }

    // Its six figures, as they stand on the page.
    fn figures(&self) -> [u64; 6]
        ensures { result ≡ row_numbers self.now }
    {
        [
            self.received,
            self.repeated,
            self.far,
            self.ledger.missing().answer.unwrap_or(0),
            self.asked,
            self.unavailable,
        ]
    }
}

// ---- one pass over a capture

// Writes the rows after all frames of a capture: each frame is read once, and turns the row of its
// channel alone. The rows are lent, as they take 4 KB of stack each time that they are copied.
fn pass(capture: &[u8], names: &Named, rows: &mut [Row; 32])
    ensures { Kept names.now.channels names.now.count (reads_in capture.now) rows.new }
{
    names.fresh_rows(rows);
    let places = names.hints();
    let mut p: usize = 0;
    while p < capture.len() {
        let seen = reading::see(capture, p);
        p = walk_step::onward(capture, p, seen.size);
        if seen.answer.is_err() {
            continue;
        }
        let channel = seen.channel.value();
        let hint = places[(channel % 256) as usize] as usize;
        let Some(i) = names.place_of(hint, channel) else {
            continue;
        };
        rows[i] = rows[i].turned(seen);
    }
}

// The figures of all rows, six for each; those of unnamed places are 0.
fn figures_of(rows: &[Row; 32], named: usize) -> [u64; 192]
    requires { named ≤ 32 }
    ensures { result ≡ row_figures rows.now named }
{
    let mut told: [u64; 192] = [0; 192];
    for j in 0..named {
        let six = rows[j].figures();
        for i in 0..6 {
            told[6 * j + i] = six[i];
        }
    }
    told
}

// Each sum with its figure added, where each fits 64 bits.
fn summed(sums: [u64; 192], figures: [u64; 192]) -> Option<[u64; 192]>
    ensures { result ≡ pick (all_below (sum_fits_in sums figures) figures_in_all) (Some (tabled (sum_in sums figures) figures_in_all)) None }
{
    let mut next: [u64; 192] = [0; 192];
    for k in 0..192 {
        next[k] = sums[k].checked_add(figures[k])?;
    }
    Some(next)
}

// ---- the page's calls

impl Month {
    // A page with these channels, judged one by one in their order: 10, 22, 21 as when a table's
    // channel is opened. The first one refused answers, and beside it stands a page with
    // no channel.
    pub fn started(channels: &[u16]) -> Started
        ensures { (verdict_number result.answer ≡ start_number channels.now) × (result.page ≡ month_of (start_page channels.now)) }
    {
        match Named::of(channels) {
            Ok(names) => Started {
                answer: Ok(()),
                page: empty(names),
            },
            Err(why) => Started {
                answer: Err(why),
                page: empty(Named::none()),
            },
        }
    }

    // Whether the page keeps its rules.
    fn sound(self) -> bool
        ensures { result ≡ sound_of (page_in self) }
    {
        if self.named > 32 || self.taken > 500 {
            return false;
        }
        channels_right(self.channels, self.named) && sums_right(self.sums, self.named)
    }

    // The channels of a page that does.
    fn names(self) -> Option<Named>
        ensures { MatchOption result (sound_of (page_in self) ≡ false) (λ n. (sound_of (page_in self) ≡ true) × ((n.channels ≡ self.channels) × (n.count ≡ self.named))) }
    {
        if !self.sound() {
            return None;
        }
        let channels = self.channels;
        Some(Named {
            channels,
            count: self.named,
        })
    }

    // The very page.
    fn refused(self, why: Refusal) -> Added
        ensures { result ≡ refused_with self why }
    {
        Added {
            answer: Err(why),
            page: self,
        }
    }

    // The page with one more capture: its accepted frames' figures for each named channel, added to
    // the sums. The bytes may be any. 13, 27, 28.
    pub fn added(self, capture: &[u8]) -> Added
        ensures { (added_paper result ≡ answer_to (page_in self) capture.now) × (result.page ≡ month_of (next_of (page_in self) capture.now)) }
    {
        let Some(names) = self.names() else {
            return self.refused(Refusal::State);
        };
        if self.taken >= 500 {
            return self.refused(Refusal::Captures);
        }
        let mut rows: [Row; 32] = [Row::fresh(0); 32];
        pass(capture, &names, &mut rows);
        let figures = figures_of(&rows, self.named);
        let Some(sums) = summed(self.sums, figures) else {
            return self.refused(Refusal::Sums);
        };
        let channels = self.channels;
        let page = Month {
            channels,
            named: self.named,
            taken: self.taken + 1,
            sums,
        };
        Added {
            answer: Ok(figures),
            page,
        }
    }
}
