// Thirty-two channels in one table: an index, the channel of each row, and a row of nine words for
// each place. A call looks at the index and at one row, and gives both back. Row 32 is blank and
// never used: a call that is about no place turns to it.
#![tactic(auto)]

ghost use Rattle.std.specs.Prelude.{◌≡◌, true, [], ◌∷◌, ◌≤◌, ◌<◌, ◌^◌, min};
ghost use Rattle.terms.specs.Paper.{answer, refusal};
ghost use Rattle.terms.specs.Refusals.{number_of};
ghost use Rattle.terms.specs.Verdicts.{verdict_number};
ghost use Rattle.ledger_spec.specs.State.{sound_of};
ghost use Rattle.ledger_spec.specs.Calls.{Tick, Announce, Reply, Ask, Between, Renew};
ghost use Rattle.ledger.specs.Papers.{tick_paper, paper_of, count_paper, reply_paper, laid_reply, request_paper};
ghost use Rattle.ledger.specs.State.{book_of};
ghost use Rattle.host_words.specs.Words.{ledger_in, book_in};
ghost use Rattle.host_words.specs.Told.{retold};
ghost use Rattle.host_ledger.specs.Words.{settled_row};
ghost use Rattle.channels_spec.specs.Table.{holds, misses};
ghost use Rattle.channels_spec.specs.Calls.{told_of};
ghost use Rattle.channels.specs.Index.{with_bit, place_from, free_in, steps_in, turn_in, open_at, index_sound};
ghost use Rattle.channels.specs.Turn.{asked_or_turn, opening_turn, turned_at, turned_of};
ghost use Rattle.channels.specs.Told.{padded, told_as, named_paper, index_at};
ghost use Rattle.channels.specs.Answered.{row_in, row_fits, kept_of, refused_of, stored_of, left_of, plain, said_of, none_there, status_in, opened_at, closed_at, taken_of, opened_of, closed_of, last_at, moved_of, requested_of, telling_of, served_of, answered_of};
ghost use Rattle.channels.specs.Serves.{empty_channels};

use ledger::{Ledger, Passed, Range, Settled};
use terms::{ChannelNumber, Refusal, TickNumber};

// A bit of `used` for each open place, and of `lacking` for each open place with something missing;
// the place whose request is pending, or 32; the place last asked, 31 at first. The fields are
// open, so that a host can hand in any state; a broken one is refused by 13.
#[repr(C)]
#[derive(Clone, Copy)]
pub struct Index {
    pub used: u64,
    pub lacking: u64,
    pub asked: u64,
    pub last: u64,
}

// The channel of each row: the first word of the row, so that a search stays within one array.
#[repr(C)]
#[derive(Clone, Copy)]
pub struct Names {
    pub channels: [u64; 33],
}

// A ledger as its nine words.
#[repr(C)]
#[derive(Clone, Copy)]
pub struct Row {
    pub words: [u64; 9],
}

// The table that a host lends: 32 places, and row 32.
#[repr(C)]
#[derive(Clone, Copy)]
pub struct Channels {
    pub names: Names,
    pub index: Index,
    pub rows: [Row; 33],
}

// 0 opens, 1 closes, 2 is a tick, 3 an announcement, 4 a request, 5 a reply (its first number, and
// its status second), 6 counts what is missing from a number to a second one, 7 begins a new
// session of the line; any other code only tells. 4 and 7 name no channel.
#[repr(C)]
#[derive(Clone, Copy)]
pub struct ChannelCall {
    pub code: u64,
    pub channel: u64,
    pub number: u64,
    pub second: u64,
}

// What a call is answered: the number, and the values that its paper has beside it, then zeros.
#[repr(C)]
#[derive(Clone, Copy)]
pub struct ChannelTold {
    pub answer: u64,
    pub values: [u64; 9],
}

// The row that a call is about, or 32; the channel beside it; and whether no second open place has
// the channel that the call names.
#[derive(Clone, Copy)]
pub struct Turn {
    pub at: usize,
    pub name: u64,
    pub once: bool,
}

// What a call leaves of the index, of the row that it is about and of the channel beside that, and
// what it tells.
#[derive(Clone, Copy)]
pub struct Answered {
    pub index: Index,
    pub name: u64,
    pub row: Row,
    pub told: ChannelTold,
}

// A place that a call is about: its row, the index, and the turn to it.
#[derive(Clone, Copy)]
struct Place {
    row: Row,
    index: Index,
    turn: Turn,
    ghost within: { turn.at < 32 },
}

fn with_bit(w: u64, i: u64, on: bool) -> u64
    requires { i < 64 }
    ensures { result ≡ with_bit on w i }
{
    let bit = 1 << i;
    if on { w | bit } else { w & !bit }
}

// Whether a place is open.
fn open_at(used: u64, i: u64) -> bool
    ensures { result ≡ open_at used i }
{
    i < 32 && used >> i & 1 == 1
}

// The first open place of a channel at or behind `from`, or 32. Where no higher place is open, the
// search ends.
#[tactic(auto, unfolding(crate::specs::Index::place_from))]
fn place_from(channels: &[u64; 33], used: u64, channel: u64, from: usize) -> usize
    requires { from ≤ 33 }
    ensures { (result ≡ place_from channels.now used channel from) × (result ≤ 32) }
{
    for at in from..32 {
        if used >> at as u64 == 0 {
            return 32;
        }
        if (channels[at] == channel) & (used >> at as u64 & 1 == 1) {
            return at;
        }
    }
    32
}

// At most 32 of a number of places.
fn at_most_32(n: u64) -> usize
    ensures { (result ≡ min n 32) × (result ≤ 32) }
{
    n.min(32) as usize
}

// The lowest free place, or 32: the lowest digit that is not set.
#[tactic(auto, using(crate::proofs::Turns::free_is))]
fn free_place(used: u64) -> usize
    ensures { (result ≡ free_in used) × (result ≤ 32) }
{
    at_most_32(u64::from((!used).trailing_zeros()))
}

// How many places with nothing missing lie behind the place last asked, counted round, or 32: the
// digits twice over, and those up to the place last asked shifted out.
#[tactic(auto, using(crate::proofs::Turns::steps_is))]
fn steps(lacking: u64, last: u64) -> usize
    requires { (lacking < 2 ^ 32) × (last < 32) }
    ensures { (result ≡ steps_in lacking last) × (result ≤ 32) }
{
    let twice = lacking * 4294967296 + lacking;
    at_most_32(u64::from((twice >> last + 1).trailing_zeros()))
}

impl ChannelTold {
    // An answer of 0 with up to three values.
    fn done(a: u64, b: u64, c: u64) -> ChannelTold
        ensures { result ≡ told_as (answer 0 (a ∷ b ∷ c ∷ [])) }
    {
        ChannelTold {
            answer: 0,
            values: [a, b, c, 0, 0, 0, 0, 0, 0],
        }
    }

    fn refused(why: Refusal) -> ChannelTold
        ensures { result ≡ told_as (refusal (number_of why)) }
    {
        ChannelTold {
            answer: u64::from(u32::from(why)),
            values: [0; 9],
        }
    }

    fn tick(answer: Result<Passed, Refusal>) -> ChannelTold
        ensures { result ≡ told_as (tick_paper answer) }
    {
        match answer {
            Ok(passed) => ChannelTold::done(passed.first.value(), passed.count, 0),
            Err(why) => ChannelTold::refused(why),
        }
    }

    fn plain(answer: Result<(), Refusal>) -> ChannelTold
        ensures { result ≡ told_as (paper_of answer) }
    {
        match answer {
            Ok(()) => ChannelTold::done(0, 0, 0),
            Err(why) => ChannelTold::refused(why),
        }
    }

    fn count(answer: Result<u64, Refusal>) -> ChannelTold
        ensures { result ≡ told_as (count_paper answer) }
    {
        match answer {
            Ok(count) => ChannelTold::done(count, 0, 0),
            Err(why) => ChannelTold::refused(why),
        }
    }

    // A reply's two sets.
    fn reply(answer: Result<Settled, Refusal>) -> ChannelTold
        requires { answer ≡ laid_reply answer }
        ensures { result ≡ told_as (retold settled_row (reply_paper answer)) }
    {
        match answer {
            Ok(settled) => ChannelTold {
                answer: 0,
                values: host_ledger::settled_row(settled),
            },
            Err(why) => ChannelTold::refused(why),
        }
    }

    // A granted request names its channel first.
    fn request(channel: ChannelNumber, answer: Result<Range, Refusal>) -> ChannelTold
        ensures { result ≡ told_as (named_paper channel.0 (request_paper answer)) }
    {
        match answer {
            Ok(range) => ChannelTold::done(
                u64::from(channel.value()),
                range.first.value(),
                range.last.value(),
            ),
            Err(why) => ChannelTold::refused(why),
        }
    }
}

#[tactic(auto, unfolding(ledger::specs::State::book_of))]
fn lacks(ledger: Ledger) -> bool
    ensures { result ≡ misses (holds (book_of ledger)) }
{
    ledger.top != ledger.floor
}

// A status above a byte is none.
fn status_in(second: u64) -> u8
    ensures { result ≡ status_in second }
{
    u8::try_from(second).unwrap_or(u8::MAX)
}

// What a call is answered that finds no place: a request 15, a new session 0, any other 18.
fn none_there(code: u64) -> Result<(), Refusal>
    ensures { verdict_number result ≡ none_there code }
{
    match code {
        4 => Err(Refusal::Whole),
        7 => Ok(()),
        _ => Err(Refusal::Channel),
    }
}

// A turn to a row.
fn turned(channels: &[u64; 33], at: usize, once: bool) -> Turn
    requires { at ≤ 32 }
    ensures { result ≡ turned_at channels.now at once }
{
    Turn {
        at,
        name: channels[at],
        once,
    }
}

impl Index {
    // Bits within bits, and places in range.
    #[tactic(auto, unfolding(crate::specs::Index::index_sound))]
    fn sound(self) -> bool
        ensures { result ≡ index_sound self }
    {
        let within = (self.used < 4294967296)
            & ((self.lacking | self.used) == self.used)
            & (self.last < 32);
        within & ((self.asked == 32) | open_at(self.used, self.asked))
    }

    // The place whose turn it is, or 32.
    #[tactic(auto, unfolding(crate::specs::Index::turn_in))]
    fn turn(self) -> usize
        ensures { (result ≡ turn_in self) × (result ≤ 32) }
    {
        if self.lacking >= 4294967296 || self.last >= 32 {
            return 32;
        }
        let k = steps(self.lacking, self.last);
        if k >= 32 {
            return 32;
        }
        (self.last as usize + 1 + k) % 32
    }

    // A request is about the place whose request is pending, which answers 14, or else about the
    // place whose turn it is.
    #[tactic(auto, unfolding(crate::specs::Turn::asked_or_turn))]
    fn asked_or_turn(self) -> usize
        ensures { (result ≡ asked_or_turn self) × (result ≤ 32) }
    {
        if self.asked < 32 {
            return self.asked as usize;
        }
        self.turn()
    }

    // An opening is about its channel's place, if it is open, or else about the lowest free one.
    fn opening(self, own: usize) -> usize
        requires { own ≤ 32 }
        ensures { (result ≡ opening_turn self own) × (result ≤ 32) }
    {
        if own >= 32 {
            return free_place(self.used);
        }
        own
    }

    // The row that a call is about, or 32: a request's and a new session's by the index, any other
    // call's by the channel that it names. The names are lent: a copy of them costs more than a
    // request.
    #[tactic(auto, using(crate::proofs::Turns::place_first), unfolding(crate::specs::Turn::turn_of, crate::specs::Turn::once_of))]
    pub fn turn_to(self, names: &[u64; 33], call: ChannelCall) -> Turn
        ensures { (result ≡ turned_of self names.now call) × (result.at ≤ 32) }
    {
        if call.code == 4 {
            return turned(names, self.asked_or_turn(), true);
        }
        if call.code == 7 {
            return turned(names, at_most_32(self.asked), true);
        }
        let own = place_from(names, self.used, call.channel, 0);
        let second = place_from(names, self.used, call.channel, own + 1);
        let once = second >= 32;
        if call.code == 0 {
            return turned(names, self.opening(own), once);
        }
        turned(names, own, once)
    }

    // The index after the ledger at a place has come to `next`.
    #[tactic(auto, using(crate::proofs::Seam::asks_is), unfolding(crate::specs::Told::index_at, ledger::specs::State::book_of))]
    fn kept(mut self, at: usize, next: Ledger) -> Index
        requires { at < 32 }
        ensures { result ≡ index_at self at (book_of next) }
    {
        self.lacking = with_bit(self.lacking, at as u64, lacks(next));
        if next.pending.is_some() {
            self.asked = at as u64;
        } else if self.asked == at as u64 {
            self.asked = 32;
        }
        self
    }

    fn opened_at(mut self, at: usize) -> Index
        requires { at < 32 }
        ensures { result ≡ opened_at self at }
    {
        self.used = with_bit(self.used, at as u64, true);
        self
    }

    // Its own pending request is cleared; another's stays.
    #[tactic(auto, unfolding(crate::specs::Answered::closed_at))]
    fn closed_at(mut self, at: usize) -> Index
        requires { at < 32 }
        ensures { result ≡ closed_at self at }
    {
        self.used = with_bit(self.used, at as u64, false);
        self.lacking = with_bit(self.lacking, at as u64, false);
        if self.asked == at as u64 {
            self.asked = 32;
        }
        self
    }

    // A request answered 0 moves the place last asked.
    fn asked_at(mut self, at: usize, answer: u64) -> Index
        ensures { result ≡ last_at self at answer }
    {
        if answer == 0 {
            self.last = at as u64;
        }
        self
    }
}

impl Answered {
    fn moved(mut self, at: usize) -> Answered
        ensures { result ≡ moved_of self at }
    {
        self.index = self.index.asked_at(at, self.told.answer);
        self
    }
}

impl Place {
    fn ledger(self) -> Ledger
        ensures { result ≡ ledger_in self.row.words }
    {
        host_words::ledger_in(&self.row.words)
    }

    // Whether row and index agree on the place: a ledger of the channel beside it, its bit right,
    // its request pending exactly where `asked` says.
    #[tactic(auto, using(crate::proofs::Seam::asks_is), unfolding(crate::specs::Answered::row_fits, ledger::specs::State::book_of))]
    fn fits(self) -> bool
        ensures { result ≡ row_fits (book_in self.row.words) self.index self.turn }
    {
        let ledger = self.ledger();
        let at = self.turn.at as u64;
        let own = self.turn.name == u64::from(ledger.channel.value());
        let lacking = (self.index.lacking >> at & 1 == 1) == lacks(ledger);
        let waiting = ledger.pending.is_some() == (self.index.asked == at);
        own & lacking & waiting
    }

    // Whether the ledger keeps its own rules.
    #[tactic(auto, using(crate::proofs::Seam::sound_is))]
    fn sound(self) -> bool
        ensures { result ≡ sound_of (book_in self.row.words) }
    {
        self.ledger().missing().answer.is_ok()
    }

    // Index, name and row stay as they were.
    fn kept(self, told: ChannelTold) -> Answered
        ensures { result ≡ kept_of self.row self.index self.turn told }
    {
        self.row.kept(self.index, self.turn, told)
    }

    fn refused(self, why: Refusal) -> Answered
        ensures { result ≡ refused_of self.row self.index self.turn (number_of why) }
    {
        self.kept(ChannelTold::refused(why))
    }

    // The ledger that stands beside an answer, stored.
    fn stored(self, next: Ledger, told: ChannelTold) -> Answered
        ensures { result ≡ stored_of self.index self.turn next told }
    {
        Answered {
            index: self.index.kept(self.turn.at, next),
            name: self.turn.name,
            row: Row::of(next),
            told,
        }
    }

    // What the ledger's call leaves: 0 and 12 store the ledger that stands beside the answer, any
    // other refusal leaves all as it was.
    #[tactic(auto, unfolding(crate::specs::Answered::left_of))]
    fn left(self, next: Ledger, told: ChannelTold) -> Answered
        ensures { result ≡ left_of self.row self.index self.turn next told }
    {
        if told.answer == 0 || told.answer == 12 {
            return self.stored(next, told);
        }
        self.kept(told)
    }

    #[tactic(auto, unfolding(ledger::specs::State::book_of))]
    fn ticked(self, number: u64) -> Answered
        ensures { result ≡ said_of plain self.row self.index self.turn (Tick (book_in self.row.words).channel number) }
    {
        let ledger = self.ledger();
        let called = ledger.tick(ledger.channel, TickNumber::new(number));
        self.left(called.next, ChannelTold::tick(called.answer))
    }

    #[tactic(auto, unfolding(ledger::specs::State::book_of))]
    fn announced(self, number: u64) -> Answered
        ensures { result ≡ said_of plain self.row self.index self.turn (Announce (book_in self.row.words).channel number) }
    {
        let ledger = self.ledger();
        let called = ledger.announce(ledger.channel, TickNumber::new(number));
        self.left(called.next, ChannelTold::plain(called.answer))
    }

    // Beside 0 two sets: what is given up, and what is handed out.
    #[tactic(auto, unfolding(ledger::specs::State::book_of))]
    fn replied(self, first: u64, status: u64) -> Answered
        ensures { result ≡ said_of (retold settled_row) self.row self.index self.turn (Reply (book_in self.row.words).channel first (status_in status)) }
    {
        let ledger = self.ledger();
        let called = ledger.reply(ledger.channel, TickNumber::new(first), status_in(status));
        self.left(called.next, ChannelTold::reply(called.answer))
    }

    // How many numbers from a to b are missing.
    #[tactic(auto, unfolding(ledger::specs::State::book_of))]
    fn between(self, a: u64, b: u64) -> Answered
        ensures { result ≡ said_of plain self.row self.index self.turn (Ask (Between (book_in self.row.words).channel a b)) }
    {
        let ledger = self.ledger();
        let called = ledger.missing_between(ledger.channel, TickNumber::new(a), TickNumber::new(b));
        self.left(called.next, ChannelTold::count(called.answer))
    }

    // A new session: what is pending no longer is.
    fn renewed(self) -> Answered
        ensures { result ≡ said_of plain self.row self.index self.turn Renew }
    {
        let called = self.ledger().renewed();
        self.left(called.next, ChannelTold::plain(called.answer))
    }

    // Granted, the place was asked last. 14, 15.
    #[tactic(auto, unfolding(ledger::specs::State::book_of))]
    fn requested(self) -> Answered
        ensures { result ≡ requested_of self.row self.index self.turn }
    {
        let ledger = self.ledger();
        let called = ledger.request(ledger.channel);
        let left = self.left(
            called.next,
            ChannelTold::request(ledger.channel, called.answer),
        );
        left.moved(self.turn.at)
    }

    // An opening of a channel that is open. 13, 10, 22.
    #[tactic(auto, unfolding(crate::specs::Answered::taken_of))]
    fn taken(self, channel: u64) -> Answered
        ensures { result ≡ taken_of self.row self.index self.turn channel }
    {
        if !(self.fits() & self.sound()) {
            return self.refused(Refusal::State);
        }
        if 9999 < channel {
            return self.refused(Refusal::Range);
        }
        self.refused(Refusal::Open)
    }

    // The place is free, its row blank.
    #[tactic(auto, unfolding(crate::specs::Answered::closed_of))]
    fn closed(self) -> Answered
        ensures { result ≡ closed_of self.row self.index self.turn }
    {
        if !self.sound() {
            return self.refused(Refusal::State);
        }
        Answered {
            index: self.index.closed_at(self.turn.at),
            name: 0,
            row: Row { words: [0; 9] },
            told: ChannelTold::done(0, 0, 0),
        }
    }

    // Floor, top, how many numbers are missing and held, the pending request's first and last
    // number, or 0 and 0. 13.
    #[tactic(auto, unfolding(crate::specs::Answered::telling_of))]
    fn telling(self) -> Answered
        ensures { result ≡ telling_of self.row self.index self.turn }
    {
        let ledger = self.ledger();
        match ledger.missing().answer {
            Ok(missing) => self.kept(ChannelTold {
                answer: 0,
                values: [
                    ledger.floor.value(),
                    ledger.top.value(),
                    missing,
                    ledger.held().answer.unwrap_or(0),
                    host_words::first_asked(ledger.pending),
                    host_words::last_asked(ledger.pending),
                    0,
                    0,
                    0,
                ],
            }),
            Err(why) => self.refused(why),
        }
    }

    // A call on the ledger of an open channel.
    #[tactic(auto, unfolding(crate::specs::Answered::served_of))]
    fn served(self, call: ChannelCall) -> Answered
        ensures { result ≡ served_of self.row self.index self.turn call }
    {
        match call.code {
            1 => self.closed(),
            2 => self.ticked(call.number),
            3 => self.announced(call.number),
            4 => self.requested(),
            5 => self.replied(call.number, call.second),
            6 => self.between(call.number, call.second),
            7 => self.renewed(),
            _ => self.telling(),
        }
    }
}

impl Row {
    fn of(ledger: Ledger) -> Row
        ensures { result ≡ row_in ledger }
    {
        Row {
            words: host_words::state_of(ledger),
        }
    }

    // Index, name and row stay as they were.
    fn kept(self, index: Index, turn: Turn, told: ChannelTold) -> Answered
        ensures { result ≡ kept_of self index turn told }
    {
        Answered {
            index,
            name: turn.name,
            row: self,
            told,
        }
    }

    // A refusal leaves all as it was.
    fn refused(self, index: Index, turn: Turn, why: Refusal) -> Answered
        ensures { result ≡ refused_of self index turn (number_of why) }
    {
        self.kept(index, turn, ChannelTold::refused(why))
    }

    // The lowest free place takes a fresh ledger. 13, 10, 22, 21.
    #[tactic(auto, using(crate::proofs::Seam::opens_fresh), unfolding(crate::specs::Answered::opened_of))]
    fn opened(self, index: Index, turn: Turn, channel: u64) -> Answered
        ensures { result ≡ opened_of self index turn channel }
    {
        if open_at(index.used, turn.at as u64) {
            let place = Place {
                row: self,
                index,
                turn,
            };
            return place.taken(channel);
        }
        if 9999 < channel {
            return self.refused(index, turn, Refusal::Range);
        }
        if turn.at >= 32 {
            return self.refused(index, turn, Refusal::Full);
        }
        Answered {
            index: index.opened_at(turn.at),
            name: channel,
            row: Row::of(Ledger::opened(ChannelNumber::new(channel as u16)).next),
            told: ChannelTold::done(0, 0, 0),
        }
    }

    // What a call answers that is about this row, at this place; 32 is no place. 13; 10, 22, 21 of
    // an opening; 15 of a request, 18 of any other call but a new session; then the ledger's own.
    #[tactic(auto, unfolding(crate::specs::Answered::answered_of))]
    pub fn answered(self, index: Index, turn: Turn, call: ChannelCall) -> Answered
        ensures { result ≡ answered_of self index turn call }
    {
        if !(index.sound() & turn.once) {
            return self.refused(index, turn, Refusal::State);
        }
        if call.code == 0 {
            return self.opened(index, turn, call.channel);
        }
        if turn.at >= 32 {
            return self.kept(index, turn, ChannelTold::plain(none_there(call.code)));
        }
        let place = Place {
            row: self,
            index,
            turn,
        };
        if !place.fits() {
            return place.refused(Refusal::State);
        }
        place.served(call)
    }
}

impl Channels {
    // No channel is open.
    pub fn none() -> Channels
        ensures { result ≡ empty_channels }
    {
        Channels {
            names: Names { channels: [0; 33] },
            index: Index {
                used: 0,
                lacking: 0,
                asked: 32,
                last: 31,
            },
            rows: [Row { words: [0; 9] }; 33],
        }
    }
}
