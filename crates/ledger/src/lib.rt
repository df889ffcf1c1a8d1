// The gap ledger of one tick channel: which numbers were received, which are handed out, and what
// to ask for. Every call takes the ledger, sound or not, and gives back the next one
// beside its answer.
#![tactic(auto)]

ghost use Rattle.std.specs.Prelude.{◌≡◌, Err, true, false, ◌&&◌, not, [], ◌∷◌, ◌+◌, ◌-◌, ◌%◌, ◌≤◌, ◌<◌, min, max, eqb};
ghost use Rattle.terms.specs.Paper.{answer};
ghost use Rattle.terms.specs.Verdicts.{verdict_number};
ghost use Rattle.tick_map.specs.Bits.{is_set, bits_in};
ghost use Rattle.tick_map.specs.Ring.{rotated};
ghost use Rattle.ledger_spec.specs.State.{range, largest, range_rules, map_rules, sound_of};
ghost use Rattle.ledger.specs.State.{asked_of, book_of, ledger_of, topped, next_in};
ghost use Rattle.ledger_spec.specs.Calls.{Tick, Announce, Request, Reply, Ask, Missing, Held, Between, Renew, tick_number, reply_status, starts_at, checked_of, number_to, passes, taken, last_of, reach, gave_up, handed, replied, waiting, asked, between_count, answer_to, open_number, open_of, fresh};
ghost use Rattle.ledger.specs.Papers.{tick_paper, request_paper, reply_paper, laid_reply, paper_of, count_paper};

use terms::{ChannelNumber, Refusal, TickNumber};
use tick_map::Map;

// From one number to another, both counted.
#[derive(Clone, Copy, Debug, PartialEq, Eq)]
pub struct Range {
    pub first: TickNumber,
    pub last: TickNumber,
}

// The fields are open, so that a host can hand in any state; a broken one is refused by 13.
#[derive(Clone, Copy)]
pub struct Ledger {
    pub channel: ChannelNumber,
    // All numbers up to it are received or given up.
    pub floor: TickNumber,
    // The largest number announced, or offered and not refused by 18 or 10.
    pub top: TickNumber,
    // A number's place is its remainder by 256: of the numbers above the floor, for the
    // 256 next ones.
    pub map: Map,
    // The request that is pending: from its grant until a reply answered 0, or a new session.
    pub pending: Option<Range>,
}

// What every call gives back: the next ledger, and the call's own answer.
#[derive(Clone, Copy)]
pub struct Called<T> {
    pub next: Ledger,
    pub answer: Result<T, Refusal>,
}

// The floor has newly passed `count` numbers from `first` on, perhaps none.
#[derive(Clone, Copy, Debug, PartialEq, Eq)]
pub struct Passed {
    pub first: TickNumber,
    pub count: u64,
}

// What a reply settles: two sets, each a map whose places are read as the ledger's are, a number's
// place is its remainder by 256. They hold numbers from `first`, the floor + 1 as it was before the
// call, to 255 after it.
#[derive(Clone, Copy)]
pub struct Settled {
    pub first: TickNumber,
    // Given up: of the pending range, on status 4, those not received.
    pub given_up: Map,
    // Received and newly passed by the floor: for delivery.
    pub passed: Map,
}

// The largest number of 18 digits.
const LARGEST: u64 = 999_999_999_999_999_999;

// The largest channel of 4 digits.
const LAST_CHANNEL: u16 = 9_999;

fn reply_status(s: u8) -> bool
    ensures { result ≡ reply_status s }
{
    matches!(s, 1..=5 | 99)
}

// Whether the map, read round from `from`, keeps the state rules, where `known` numbers lie above
// the floor and not above the top. A map has 256 places: where so many are known, floor + 1 alone
// decides. Else an empty map keeps them, and any other where no place is held but those of the
// numbers after the first.
fn map_sound(map: Map, from: u64, known: u64) -> bool
    ensures { result ≡ map_rules (rotated from (bits_in map)) known }
{
    if 256 <= known {
        return !map.holds(from % 256);
    }
    map.empty() || (known != 0 && map.none_but(from % 256, known - 1))
}

// A number of 1 to 18 digits.
fn tick_number(n: u64) -> bool
    ensures { result ≡ tick_number n }
{
    (1 <= n) & (n <= LARGEST)
}

impl Range {
    // Whether the range keeps the state rules, where it is pending.
    #[tactic(auto, using(ledger_spec::proofs::Tests::short_is), unfolding(ledger_spec::specs::State::range_rules))]
    fn sound(self, floor: u64, top: u64) -> bool
        ensures { result ≡ range_rules (range self.first.0 self.last.0) floor top }
    {
        let first = self.first.value();
        let last = self.last.value();
        1 <= first && first - 1 <= floor && first <= last && last <= top && last - first < 200
    }
}

// Whether the pending request keeps the state rules.
#[tactic(auto, unfolding(ledger_spec::specs::State::range_rules))]
fn pending_sound(pending: Option<Range>, floor: u64, top: u64) -> bool
    ensures { result ≡ range_rules (asked_of pending) floor top }
{
    match pending {
        None => true,
        Some(range) => range.sound(floor, top),
    }
}

// Whether a request is pending that starts at n.
fn starts_at(pending: Option<Range>, n: u64) -> bool
    ensures { result ≡ starts_at (asked_of pending) n }
{
    match pending {
        None => false,
        Some(range) => range.first.value() == n,
    }
}

// How many numbers above the floor the pending range reaches: none where the floor has passed it.
fn reach_of(pending: Option<Range>, floor: u64) -> u64
    ensures { result ≡ last_of (asked_of pending) - floor }
{
    match pending {
        None => 0,
        Some(range) => range.last.value().saturating_sub(floor),
    }
}

// A ledger that keeps the state rules.
#[derive(Clone, Copy)]
struct Sound {
    ledger: Ledger,
    ghost rules: { sound_of (book_of ledger) ≡ true },
}

impl Sound {
    // A tick whose place is marked: the floor passes the run of held places above it, which are
    // then free for the numbers 256 above.
    fn passed_run(self, n: u64) -> Called<Passed>
        requires { (self.ledger.floor.0 < n) × (n ≤ self.ledger.floor.0 + 256) × (n ≤ largest) }
        ensures { (tick_paper result.answer ≡ answer 0 ((self.ledger.floor.0 + 1) ∷ passes (book_of self.ledger) n ∷ []))
            × (result.next ≡ ledger_of (taken (book_of self.ledger) n)) }
    {
        let floor = self.ledger.floor.value();
        let marked = self.ledger.map.with(n % 256);
        let count = marked.run_from(floor + 1);
        Called {
            next: Ledger {
                floor: TickNumber::new(floor + count),
                top: TickNumber::new(self.ledger.top.value().max(n)),
                map: marked.cleared(floor + 1, count),
                ..self.ledger
            },
            answer: Ok(Passed {
                first: TickNumber::new(floor + 1),
                count,
            }),
        }
    }

    // A tick above floor + 1: the floor stays below that number, which is not held.
    fn held_back(self, n: u64) -> Called<Passed>
        requires { (self.ledger.floor.0 + 1 < n) × (n ≤ self.ledger.floor.0 + 256) × (n ≤ largest) }
        ensures { (tick_paper result.answer ≡ answer 0 ((self.ledger.floor.0 + 1) ∷ passes (book_of self.ledger) n ∷ []))
            × (result.next ≡ ledger_of (taken (book_of self.ledger) n)) }
    {
        let first = TickNumber::new(self.ledger.floor.value() + 1);
        Called {
            next: Ledger {
                top: TickNumber::new(self.ledger.top.value().max(n)),
                map: self.ledger.map.with(n % 256),
                ..self.ledger
            },
            answer: Ok(Passed { first, count: 0 }),
        }
    }

    // The tick of floor + 1, where the number after it is not held: one is passed, and the map
    // stays.
    fn passed_one(self, n: u64) -> Called<Passed>
        requires { (n ≡ self.ledger.floor.0 + 1) × (n ≤ largest) × (is_set (bits_in self.ledger.map) ((n + 1) % 256) ≡ false) }
        ensures { (tick_paper result.answer ≡ answer 0 ((self.ledger.floor.0 + 1) ∷ passes (book_of self.ledger) n ∷ []))
            × (result.next ≡ ledger_of (taken (book_of self.ledger) n)) }
    {
        let first = TickNumber::new(n);
        Called {
            next: Ledger {
                floor: first,
                top: TickNumber::new(self.ledger.top.value().max(n)),
                ..self.ledger
            },
            answer: Ok(Passed { first, count: 1 }),
        }
    }

    // A tick that is taken. In order, and with nothing held behind it, no place need be looked for.
    fn taken(self, number: TickNumber) -> Called<Passed>
        requires { (self.ledger.floor.0 < number.0) × (number.0 ≤ self.ledger.floor.0 + 256) × (number.0 ≤ largest) }
        ensures { (tick_paper result.answer ≡ answer 0 ((self.ledger.floor.0 + 1) ∷ passes (book_of self.ledger) number.0 ∷ []))
            × (result.next ≡ ledger_of (taken (book_of self.ledger) number.0)) }
    {
        let n = number.value();
        if self.ledger.floor.value() + 1 < n {
            return self.held_back(n);
        }
        if self.ledger.map.holds((n + 1) % 256) {
            return self.passed_run(n);
        }
        self.passed_one(n)
    }

    // The range from floor + 1 on: it ends before the first held number, at the top, or after
    // 200 numbers.
    #[tactic(auto, using(crate::proofs::Seam::sound_low))]
    fn granted(self) -> Called<Range>
        ensures { (request_paper result.answer ≡ answer 0 ((self.ledger.floor.0 + 1) ∷ (self.ledger.floor.0 + asked (book_of self.ledger)) ∷ []))
            × (result.next ≡ ledger_of (waiting (book_of self.ledger) (range (self.ledger.floor.0 + 1) (self.ledger.floor.0 + asked (book_of self.ledger))))) }
    {
        let floor = self.ledger.floor.value();
        let known = self.ledger.top.value() - floor;
        let clear = self.ledger.map.first_from(floor + 1);
        let count = known.min(clear).min(200);
        let range = Range {
            first: TickNumber::new(floor + 1),
            last: TickNumber::new(floor + count),
        };
        Called {
            next: self.ledger.waiting(Some(range)),
            answer: Ok(range),
        }
    }

    // How many numbers from `from` to `to` lie above the floor and not above the top and are not
    // held. The map has places for floor + 1 to floor + 256 alone, and from the place of `low` on
    // they end before the count comes round.
    #[tactic(auto, using(crate::proofs::Seam::sound_low))]
    fn between(self, from: u64, to: u64) -> u64
        requires { from ≤ largest }
        ensures { result ≡ between_count (book_of self.ledger) from to }
    {
        let floor = self.ledger.floor.value();
        let low = from.max(floor + 1);
        let high = to.min(self.ledger.top.value());
        if high < low {
            return 0;
        }
        let width = high + 1 - low;
        let off = low - floor - 1;
        if 256 <= off {
            return width;
        }
        width - self.ledger.map.held_from(low, width.min(256 - off))
    }

    // The pending request is cleared, and the floor passes the w numbers above it and the run of
    // held ones after them: floor + 1 is not held, so that run ends before it comes round. Those of
    // the w not held are given up; the held ones passed are named apart.
    #[tactic(auto, using(crate::proofs::Seam::sound_low))]
    fn given_up(self, w: u64) -> Called<Settled>
        requires { (w ≤ 256) × (w ≤ self.ledger.top.0 - self.ledger.floor.0) }
        ensures { (reply_paper result.answer ≡ answer 0 ((self.ledger.floor.0 + 1) ∷ gave_up (book_of self.ledger) w ∷ handed (book_of self.ledger) w ∷ []))
            × (result.next ≡ ledger_of (replied (book_of self.ledger) w))
            × (result.answer ≡ laid_reply result.answer) }
    {
        let map = self.ledger.map;
        let floor = self.ledger.floor.value();
        let count = w + map.run_from(floor + 1 + w);
        Called {
            next: Ledger {
                floor: TickNumber::new(floor + count),
                map: map.cleared(floor + 1, count),
                pending: None,
                ..self.ledger
            },
            answer: Ok(Settled {
                first: TickNumber::new(floor + 1),
                given_up: map.lacking(floor + 1, w),
                passed: map.only(floor + 1, count),
            }),
        }
    }

    // The pending request is cleared, and the range reaches no number above the floor: floor + 1 is
    // not held, so that nothing is passed.
    #[tactic(auto, using(crate::proofs::Seam::sound_low, crate::proofs::Seam::empty_set, ledger_spec::proofs::Rules::rules_facts, ledger_spec::proofs::GivenUp::replied_0, ledger_spec::proofs::GivenUp::values_0))]
    fn settled(self) -> Called<Settled>
        ensures { (reply_paper result.answer ≡ answer 0 ((self.ledger.floor.0 + 1) ∷ gave_up (book_of self.ledger) 0 ∷ handed (book_of self.ledger) 0 ∷ []))
            × (result.next ≡ ledger_of (replied (book_of self.ledger) 0))
            × (result.answer ≡ laid_reply result.answer) }
    {
        Called {
            next: self.ledger.waiting(None),
            answer: Ok(Settled {
                first: TickNumber::new(self.ledger.floor.value() + 1),
                given_up: Map::new(),
                passed: Map::new(),
            }),
        }
    }

    // The pending request is cleared, and the floor goes on over the w numbers above it, perhaps
    // none.
    fn replied(self, w: u64) -> Called<Settled>
        requires { (w ≤ 256) × (w ≤ self.ledger.top.0 - self.ledger.floor.0) }
        ensures { (reply_paper result.answer ≡ answer 0 ((self.ledger.floor.0 + 1) ∷ gave_up (book_of self.ledger) w ∷ handed (book_of self.ledger) w ∷ []))
            × (result.next ≡ ledger_of (replied (book_of self.ledger) w))
            × (result.answer ≡ laid_reply result.answer) }
    {
        if w == 0 {
            return self.settled();
        }
        self.given_up(w)
    }
}

impl Ledger {
    // Whether the state rules hold.
    #[tactic(auto, unfolding(ledger_spec::specs::State::sound_of, crate::specs::State::book_of))]
    fn sound(self) -> bool
        ensures { result ≡ sound_of (book_of self) }
    {
        let floor = self.floor.value();
        let top = self.top.value();
        self.channel.value() <= LAST_CHANNEL
            && floor <= top
            && top <= LARGEST
            && map_sound(self.map, floor + 1, top - floor)
            && pending_sound(self.pending, floor, top)
    }

    // 13, then 18.
    #[tactic(auto, unfolding(ledger_spec::specs::Calls::checked_of, crate::specs::State::book_of))]
    fn checked(self, channel: ChannelNumber) -> Result<(), Refusal>
        ensures { verdict_number result ≡ checked_of (book_of self) (not (eqb channel.0 (book_of self).channel)) 0 }
    {
        if !self.sound() {
            return Err(Refusal::State);
        }
        if channel.value() != self.channel.value() {
            return Err(Refusal::Channel);
        }
        Ok(())
    }

    // A fresh ledger; for a channel above 9,999 one for channel 0, beside 10.
    #[tactic(auto, unfolding(ledger_spec::specs::Calls::open_of))]
    pub fn opened(channel: ChannelNumber) -> Called<()>
        ensures { (paper_of result.answer ≡ answer (open_number channel.0) [])
            × (result.next ≡ ledger_of (open_of channel.0)) }
    {
        if channel.value() > LAST_CHANNEL {
            return Called {
                next: Ledger::fresh(ChannelNumber::new(0)),
                answer: Err(Refusal::Range),
            };
        }
        Called {
            next: Ledger::fresh(channel),
            answer: Ok(()),
        }
    }

    // Nothing received, announced, held or pending.
    #[tactic(auto, using(crate::proofs::Seam::fresh_of))]
    fn fresh(channel: ChannelNumber) -> Ledger
        ensures { result ≡ ledger_of (fresh channel.0) }
    {
        Ledger {
            channel,
            floor: TickNumber::new(0),
            top: TickNumber::new(0),
            map: Map::new(),
            pending: None,
        }
    }

    // A refused call gives back the very ledger.
    fn refused<T>(self, why: Refusal) -> Called<T>
        ensures { result ≡ record { next = self; answer = Err why } }
    {
        Called {
            next: self,
            answer: Err(why),
        }
    }

    // The top raised to n, if it was lower.
    fn raised(mut self, n: TickNumber) -> Ledger
        ensures { result ≡ topped self (max self.top.0 n.0) }
    {
        self.top = TickNumber::new(self.top.value().max(n.value()));
        self
    }

    // The same ledger, with another request pending or none.
    #[tactic(auto, using(crate::proofs::Seam::waiting_of))]
    fn waiting(mut self, pending: Option<Range>) -> Ledger
        ensures { result ≡ ledger_of (waiting (book_of self) (asked_of pending)) }
    {
        self.pending = pending;
        self
    }

    // 13, 18, 10, 11, 12 of a tick. Beyond floor + 256 its place is another number's, and it is not
    // held.
    #[tactic(auto, using(crate::proofs::Seam::checked_bad), unfolding(ledger_spec::specs::Calls::number_to))]
    fn tick_verdict(self, channel: ChannelNumber, number: TickNumber) -> Result<(), Refusal>
        ensures { verdict_number result ≡ number_to (book_of self) (Tick channel.0 number.0) }
    {
        self.checked(channel)?;
        let n = number.value();
        let floor = self.floor.value(); // all up to it are received or given up
        if !tick_number(n) {
            return Err(Refusal::Range);
        }
        if n <= floor {
            return Err(Refusal::Repeat);
        }
        if 256 < n - floor {
            return Err(Refusal::Far);
        }
        if self.map.holds(n % 256) {
            return Err(Refusal::Repeat);
        }
        Ok(())
    }

    // Marks the tick received, and moves the floor up as far as no number is missing. Refusals 13,
    // 18, 10, 11, 12: only 12 raises the top, any other changes nothing.
    #[tactic(auto, using(crate::proofs::Seam::tick_taken))]
    pub fn tick(self, channel: ChannelNumber, number: TickNumber) -> Called<Passed>
        ensures { (tick_paper result.answer ≡ answer_to (book_of self) (Tick channel.0 number.0))
            × (result.next ≡ next_in self (Tick channel.0 number.0)) }
    {
        match self.tick_verdict(channel, number) {
            Ok(()) => Sound { ledger: self }.taken(number),
            Err(why) => Called {
                next: if why == Refusal::Far {
                    self.raised(number)
                } else {
                    self
                },
                answer: Err(why),
            },
        }
    }

    // 13, 18, 10 of an announcement.
    #[tactic(auto, using(crate::proofs::Seam::checked_bad, crate::proofs::Seam::checked_fine), unfolding(ledger_spec::specs::Calls::number_to, ledger_spec::specs::Calls::own_number))]
    fn announce_verdict(self, channel: ChannelNumber, last: TickNumber) -> Result<(), Refusal>
        ensures { verdict_number result ≡ number_to (book_of self) (Announce channel.0 last.0) }
    {
        self.checked(channel)?;
        if last.value() > LARGEST {
            return Err(Refusal::Range);
        }
        Ok(())
    }

    // Raises the top to the announced number, if that is larger. Refusals 13, 18, 10.
    pub fn announce(self, channel: ChannelNumber, last: TickNumber) -> Called<()>
        ensures { (paper_of result.answer ≡ answer_to (book_of self) (Announce channel.0 last.0))
            × (result.next ≡ next_in self (Announce channel.0 last.0)) }
    {
        match self.announce_verdict(channel, last) {
            Ok(()) => Called {
                next: self.raised(last),
                answer: Ok(()),
            },
            Err(why) => self.refused(why),
        }
    }

    // 13, 18, 14, 15 of a request.
    #[tactic(auto, using(crate::proofs::Seam::checked_bad, crate::proofs::Seam::checked_fine), unfolding(ledger_spec::specs::Calls::number_to, ledger_spec::specs::Calls::own_number, crate::specs::State::book_of))]
    fn request_verdict(self, channel: ChannelNumber) -> Result<(), Refusal>
        ensures { verdict_number result ≡ number_to (book_of self) (Request channel.0) }
    {
        self.checked(channel)?;
        if self.pending.is_some() {
            return Err(Refusal::Busy);
        }
        if self.top.value() == self.floor.value() {
            return Err(Refusal::Whole);
        }
        Ok(())
    }

    // The range to ask for, pending from now on. Refusals 13, 18, 14, 15.
    pub fn request(self, channel: ChannelNumber) -> Called<Range>
        ensures { (request_paper result.answer ≡ answer_to (book_of self) (Request channel.0))
            × (result.next ≡ next_in self (Request channel.0)) }
    {
        match self.request_verdict(channel) {
            Ok(()) => Sound { ledger: self }.granted(),
            Err(why) => self.refused(why),
        }
    }

    // 13, 18, 17, 16 of a reply.
    #[tactic(auto, using(crate::proofs::Seam::checked_bad, crate::proofs::Seam::checked_fine), unfolding(ledger_spec::specs::Calls::number_to, ledger_spec::specs::Calls::own_number, crate::specs::State::book_of))]
    fn reply_verdict(
        self,
        channel: ChannelNumber,
        first: TickNumber,
        status: u8,
    ) -> Result<(), Refusal>
        ensures { verdict_number result ≡ number_to (book_of self) (Reply channel.0 first.0 status) }
    {
        self.checked(channel)?;
        if !reply_status(status) {
            return Err(Refusal::Status);
        }
        if !starts_at(self.pending, first.value()) {
            return Err(Refusal::Unasked);
        }
        Ok(())
    }

    // On status 4, how far the pending range reaches above the floor.
    #[tactic(auto, unfolding(ledger_spec::specs::Calls::reach, crate::specs::State::book_of))]
    fn reach(self, status: u8) -> u64
        ensures { result ≡ reach (book_of self) status }
    {
        if status != 4 {
            return 0;
        }
        reach_of(self.pending, self.floor.value())
    }

    // The pending request is cleared; on status 4 what is missing of it is given up, and the floor
    // goes on. Refusals 13, 18, 17, 16.
    pub fn reply(self, channel: ChannelNumber, first: TickNumber, status: u8) -> Called<Settled>
        ensures { (reply_paper result.answer ≡ answer_to (book_of self) (Reply channel.0 first.0 status))
            × (result.next ≡ next_in self (Reply channel.0 first.0 status))
            × (result.answer ≡ laid_reply result.answer) }
    {
        match self.reply_verdict(channel, first, status) {
            Ok(()) => Sound { ledger: self }.replied(self.reach(status)),
            Err(why) => self.refused(why),
        }
    }

    // A new session of the line begins: the pending request is cleared, and all else is kept.
    // Refusal 13.
    #[tactic(auto, unfolding(ledger_spec::specs::Calls::answer_to, ledger_spec::specs::Calls::number_to, ledger_spec::specs::Calls::checked_of, ledger_spec::specs::Calls::own_number, ledger_spec::specs::Calls::values_of, ledger_spec::specs::Calls::done, crate::specs::State::next_by))]
    pub fn renewed(self) -> Called<()>
        ensures { (paper_of result.answer ≡ answer_to (book_of self) Renew)
            × (result.next ≡ next_in self Renew) }
    {
        if !self.sound() {
            return self.refused(Refusal::State);
        }
        Called {
            next: self.waiting(None),
            answer: Ok(()),
        }
    }

    // How many numbers up to the top are missing. Refusal 13.
    #[tactic(auto, unfolding(ledger_spec::specs::Calls::answer_to, ledger_spec::specs::Calls::number_to, ledger_spec::specs::Calls::checked_of, crate::specs::State::next_by))]
    pub fn missing(self) -> Called<u64>
        ensures { (count_paper result.answer ≡ answer_to (book_of self) (Ask Missing))
            × (result.next ≡ next_in self (Ask Missing)) }
    {
        if !self.sound() {
            return self.refused(Refusal::State);
        }
        let known = self.top.value() - self.floor.value();
        Called {
            next: self,
            answer: Ok(known - self.map.held()),
        }
    }

    // How many numbers above the floor are held. Refusal 13.
    #[tactic(auto, unfolding(ledger_spec::specs::Calls::answer_to, ledger_spec::specs::Calls::number_to, ledger_spec::specs::Calls::checked_of, crate::specs::State::next_by))]
    pub fn held(self) -> Called<u64>
        ensures { (count_paper result.answer ≡ answer_to (book_of self) (Ask Held))
            × (result.next ≡ next_in self (Ask Held)) }
    {
        if !self.sound() {
            return self.refused(Refusal::State);
        }
        Called {
            next: self,
            answer: Ok(self.map.held()),
        }
    }

    // 13, 18, then 10 of the span, whichever of its ends is wrong.
    #[tactic(auto, using(crate::proofs::Seam::checked_bad, crate::proofs::Seam::checked_fine), unfolding(ledger_spec::specs::Calls::number_to, ledger_spec::specs::Calls::own_number, crate::specs::State::book_of))]
    fn span_verdict(
        self,
        channel: ChannelNumber,
        a: TickNumber,
        b: TickNumber,
    ) -> Result<(), Refusal>
        ensures { verdict_number result ≡ number_to (book_of self) (Ask (Between channel.0 a.0 b.0)) }
    {
        self.checked(channel)?;
        if !(tick_number(a.value()) && tick_number(b.value())) {
            return Err(Refusal::Range);
        }
        Ok(())
    }

    // How many numbers from a to b, both counted, are missing; none are where b is below a. 13, 18,
    // 10.
    pub fn missing_between(
        self,
        channel: ChannelNumber,
        a: TickNumber,
        b: TickNumber,
    ) -> Called<u64>
        ensures { (count_paper result.answer ≡ answer_to (book_of self) (Ask (Between channel.0 a.0 b.0)))
            × (result.next ≡ next_in self (Ask (Between channel.0 a.0 b.0))) }
    {
        match self.span_verdict(channel, a, b) {
            Ok(()) => Called {
                next: self,
                answer: Ok(Sound { ledger: self }.between(a.value(), b.value())),
            },
            Err(why) => self.refused(why),
        }
    }
}
