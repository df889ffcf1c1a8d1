// The client's side of a line: what to send, when, and under which number. Every call takes the
// session, sound or not, and gives back the next one beside its answer.
#![tactic(auto)]

ghost use Rattle.std.specs.Prelude.{◌≡◌, ◌||◌, ◌+◌, ◌≤◌, max, is_some, eqb};
ghost use Rattle.terms.specs.Refusals.{number_of};
ghost use Rattle.terms.specs.Verdicts.{verdict_number};
ghost use Rattle.session_spec.specs.Table.{Ask, row_of, is_frame, seq_of, is_ours, agreed, sends};
ghost use Rattle.session_spec.specs.Calls.{one, sound_of, counters_right, listening, dead_at, due_at, cell_of, number_in, kind_in, state_in, misnumbered, gone, spent, last_number, refused, told, done, answer_to, next_of, opened};
ghost use Rattle.session_spec.specs.Faults.{fault_number, fault_numbered};
ghost use Rattle.session.specs.Papers.{state_of, kind_of, number_or_0, fault_of, event_of, cell_word, table_cell, Judged, line_of, said_of};
ghost use Rattle.session.specs.Taken.{is_other, takes, taken_line};
ghost use Rattle.session.specs.Arrivals.{by_kind, heart_bt_int, event_in, length_if};

use octets::Number;
use rules::Kind as Row;
use terms::{Refusal, SessionNumber};

#[derive(Clone, Copy, Debug, PartialEq, Eq)]
pub enum State {
    New,
    Waiting,
    Active,
    Leaving,
    Over,
}

// The type of a message that is to be sent.
#[derive(Clone, Copy, Debug, PartialEq, Eq)]
pub enum Kind {
    S001,
    S002,
    S003,
    P002,
}

// A message that is to be sent, and its MsgSeqNum.
#[derive(Clone, Copy, Debug, PartialEq, Eq)]
pub struct Message {
    pub kind: Kind,
    pub number: SessionNumber,
}

// Why reading refused a frame: its numbers 1 to 7, and no other.
#[derive(Clone, Copy, Debug, PartialEq, Eq)]
pub enum Fault {
    More,
    MsgType,
    Long,
    Length,
    Sum,
    Field,
    Time,
}

// What happens: the host begins, lets time pass, leaves, asks for a resend; or a frame has arrived.
#[derive(Clone, Copy, Debug, PartialEq, Eq)]
pub enum Event {
    Begin,
    Time,
    Leave,
    Ask,
    // A logon was read, with its HeartBtInt in seconds.
    Logon { number: SessionNumber, heart: u16 },
    Logout(SessionNumber),
    Other(SessionNumber),
    // A frame was refused by reading.
    Faulty(Fault),
}

// The fields are open, so that a host can hand in any state; a broken one is refused by 13.
#[derive(Clone, Copy, Debug, PartialEq, Eq)]
pub struct Session {
    pub state: State,
    // The MsgSeqNum of our next message, and of the next frame.
    pub sending: SessionNumber,
    pub expecting: SessionNumber,
    // The last time, when we last sent, when a frame was last taken, and the agreed interval; in
    // milliseconds.
    pub last: u64,
    pub sent: u64,
    pub heard: u64,
    pub interval: u64,
}

// What a call that is not refused comes to: what the host is to send, and whether the line was
// called dead.
#[derive(Clone, Copy, Debug, PartialEq, Eq)]
pub struct Outcome {
    pub message: Option<Message>,
    pub dead: bool,
}

// What a call comes to: the next session, and the answer.
#[derive(Clone, Copy, Debug, PartialEq, Eq)]
pub struct Turn {
    pub next: Session,
    pub answer: Result<Outcome, Refusal>,
}

// A frame that has arrived: the turn it makes, and its length, if one was read. A frame that the
// session refuses has its length too, so that a host can step behind it.
#[derive(Clone, Copy, Debug, PartialEq, Eq)]
pub struct Arrival {
    pub turn: Turn,
    pub length: Option<usize>,
}

// What a cell of the table of states says, if it is no refusal.
#[derive(Clone, Copy, Debug, PartialEq, Eq)]
enum Cell {
    Does(Option<Kind>, State),
    Beats,
    Watches,
    Dies,
}

// The refusal of that number.
impl From<Fault> for Refusal {
    ghost from_gives = { λ fault why. number_of why ≡ fault_number (fault_of fault) };

    fn from(fault: Fault) -> Refusal {
        match fault {
            Fault::More => Refusal::More,
            Fault::MsgType => Refusal::MsgType,
            Fault::Long => Refusal::Long,
            Fault::Length => Refusal::Length,
            Fault::Sum => Refusal::Sum,
            Fault::Field => Refusal::Field,
            Fault::Time => Refusal::Time,
        }
    }
}

// THE TABLE of docs/SESSION.md.
fn row(state: State, event: Event) -> Result<Cell, Refusal>
    ensures { table_cell result ≡ row_of (state_of state) (event_of event) }
{
    match state {
        State::New => match event {
            Event::Begin => Ok(Cell::Does(Some(Kind::S001), State::Waiting)),
            Event::Time => Ok(Cell::Does(None, State::New)),
            Event::Leave | Event::Ask | Event::Other(_) => Err(Refusal::Early),
            Event::Logon { .. } => Err(Refusal::Again),
            Event::Logout(_) => Ok(Cell::Does(None, State::Over)),
            Event::Faulty(why) => Err(Refusal::from(why)),
        },
        State::Waiting => match event {
            Event::Begin => Err(Refusal::Again),
            Event::Time => Ok(Cell::Does(None, State::Waiting)),
            Event::Leave | Event::Ask | Event::Other(_) => Err(Refusal::Early),
            Event::Logon { .. } => Ok(Cell::Does(None, State::Active)),
            Event::Logout(_) => Ok(Cell::Does(None, State::Over)),
            Event::Faulty(why) => Err(Refusal::from(why)),
        },
        State::Active => match event {
            Event::Begin | Event::Logon { .. } => Err(Refusal::Again),
            Event::Time => Ok(Cell::Beats),
            Event::Leave => Ok(Cell::Does(Some(Kind::S002), State::Leaving)),
            Event::Ask => Ok(Cell::Does(Some(Kind::P002), State::Active)),
            Event::Logout(_) => Ok(Cell::Does(Some(Kind::S002), State::Over)),
            Event::Other(_) => Ok(Cell::Does(None, State::Active)),
            Event::Faulty(why) => Err(Refusal::from(why)),
        },
        State::Leaving => match event {
            Event::Begin | Event::Logon { .. } => Err(Refusal::Again),
            Event::Time => Ok(Cell::Watches),
            Event::Leave | Event::Ask => Err(Refusal::Over),
            Event::Logout(_) => Ok(Cell::Does(None, State::Over)),
            Event::Other(_) => Ok(Cell::Does(None, State::Leaving)),
            Event::Faulty(why) => Err(Refusal::from(why)),
        },
        State::Over => match event {
            Event::Time => Ok(Cell::Does(None, State::Over)),
            Event::Faulty(why) => Err(Refusal::from(why)),
            _ => Err(Refusal::Over),
        },
    }
}

// Whether the counters are those of the state.
fn counters_right(state: State, out: u64, into: u64) -> bool
    ensures { result ≡ counters_right (state_of state) out into }
{
    match state {
        State::New => (out == 1) & (into == 1),
        State::Waiting => (out == 2) & (into == 1),
        State::Active => (2 <= out) & (2 <= into),
        State::Leaving => (3 <= out) & (2 <= into),
        State::Over => (1 <= out) & (1 <= into),
    }
}

fn is_listening(state: State) -> bool
    ensures { result ≡ listening (state_of state) }
{
    matches!(state, State::Active | State::Leaving)
}

// The MsgSeqNum of a frame that was read.
fn frame_number(event: Event) -> Option<SessionNumber>
    ensures { (is_some result ≡ is_frame (event_of event)) × (number_or_0 result ≡ seq_of (event_of event)) }
{
    match event {
        Event::Logon { number, .. } | Event::Logout(number) | Event::Other(number) => Some(number),
        _ => None,
    }
}

// Whether the host wants to send.
fn is_ours(event: Event) -> bool
    ensures { result ≡ is_ours (event_of event) }
{
    matches!(event, Event::Begin | Event::Leave | Event::Ask)
}

// Whether a frame was read that is neither a logon nor a logout.
fn is_other(event: Event) -> bool
    ensures { result ≡ is_other (event_of event) }
{
    matches!(event, Event::Other(_))
}

// The interval after the event was taken: a logon's HeartBtInt, in milliseconds.
fn interval_after(event: Event, was: u64) -> u64
    ensures { result ≡ agreed (event_of event) was }
{
    match event {
        Event::Logon { heart, .. } => u64::from(heart) * 1000,
        _ => was,
    }
}

impl Cell {
    // What is to be sent.
    fn kind(self) -> Option<Kind>
        ensures { kind_of result ≡ kind_in (cell_word self) }
    {
        match self {
            Cell::Does(kind, _) => kind,
            _ => None,
        }
    }

    fn state(self, was: State) -> State
        ensures { state_of result ≡ state_in (cell_word self) (state_of was) }
    {
        match self {
            Cell::Does(_, state) => state,
            Cell::Dies => State::Over,
            _ => was,
        }
    }
}

// What a call's cell would send.
fn kind_in(cell: Result<Cell, Refusal>) -> Option<Kind>
    ensures { kind_of result ≡ kind_in (table_cell cell) }
{
    match cell {
        Ok(cell) => cell.kind(),
        Err(_) => None,
    }
}

// Whether a call's cell is 30.
fn is_early(cell: Result<Cell, Refusal>) -> bool
    ensures { result ≡ eqb (number_in (table_cell cell)) 30 }
{
    matches!(cell, Err(Refusal::Early))
}

impl Session {
    // A new session: both counters 1.
    pub fn opened() -> Session
        ensures { line_of result ≡ opened }
    {
        Session {
            state: State::New,
            sending: SessionNumber::new(1),
            expecting: SessionNumber::new(1),
            last: 0,
            sent: 0,
            heard: 0,
            interval: 0,
        }
    }

    // Whether the state rules hold.
    fn sound(self) -> bool
        ensures { result ≡ sound_of (line_of self) }
    {
        (self.sent <= self.last)
            & (self.heard <= self.last)
            & counters_right(self.state, self.sending.value(), self.expecting.value())
    }

    // More than two intervals since the last frame taken; without the double, which may not fit.
    fn dead(self, clock: u64) -> bool
        ensures { result ≡ dead_at (line_of self) clock }
    {
        let passed = clock.saturating_sub(self.heard);
        is_listening(self.state) & (self.interval < passed.saturating_sub(self.interval))
    }

    // At least one interval since our last message.
    fn due(self, clock: u64) -> bool
        ensures { result ≡ due_at (line_of self) clock }
    {
        self.interval <= clock.saturating_sub(self.sent)
    }

    // The cell of a call, where dead is looked at before due.
    fn cell(self, clock: u64, event: Event) -> Result<Cell, Refusal>
        ensures { table_cell result ≡ cell_of (line_of self) clock (event_of event) }
    {
        match row(self.state, event)? {
            Cell::Beats if self.dead(clock) => Ok(Cell::Dies),
            Cell::Beats if self.due(clock) => Ok(Cell::Does(Some(Kind::S003), State::Active)),
            Cell::Beats => Ok(Cell::Does(None, State::Active)),
            Cell::Watches if self.dead(clock) => Ok(Cell::Dies),
            Cell::Watches => Ok(Cell::Does(None, State::Leaving)),
            cell => Ok(cell),
        }
    }

    fn misnumbered(self, event: Event) -> bool
        ensures { result ≡ misnumbered (line_of self) (event_of event) }
    {
        match frame_number(event) {
            Some(number) => number.value() != self.expecting.value(),
            None => false,
        }
    }

    // A call but time on a dead line, or one that would use a counter at its last number.
    fn ended(self, clock: u64, event: Event, kind: Option<Kind>) -> bool
        ensures { result ≡ gone (line_of self) clock (event_of event) || spent (line_of self) (event_of event) (kind_of kind) }
    {
        let frame = frame_number(event).is_some();
        let ours = is_ours(event);
        let gone = (frame | ours) & self.dead(clock);
        gone | (((ours | kind.is_some()) & (self.sending.value() == u64::MAX))
            | (frame & (self.expecting.value() == u64::MAX)))
    }

    // The cell of a call behind 30, 31, 32, 33, in this order. Reading's own number stands in the
    // cell, and is none of them.
    fn verdict(self, clock: u64, event: Event) -> Result<Cell, Refusal>
        ensures { Judged result (line_of self) clock (event_of event) }
    {
        let cell = self.cell(clock, event);
        if is_early(cell) {
            return cell;
        }
        if self.misnumbered(event) {
            return Err(Refusal::Sequence);
        }
        if self.ended(clock, event, kind_in(cell)) {
            return Err(Refusal::Over);
        }
        cell
    }

    // The session after a call that is answered 0. No counter stands at its last number.
    fn done(self, clock: u64, event: Event, cell: Cell) -> Session
        requires { (self.sending.0 + one (sends (kind_in (cell_word cell))) ≤ last_number) × (self.expecting.0 + one (is_frame (event_of event)) ≤ last_number) }
        ensures { line_of result ≡ done (line_of self) clock (event_of event) (cell_word cell) }
    {
        let sends = cell.kind().is_some();
        let frame = frame_number(event).is_some();
        Session {
            state: cell.state(self.state),
            sending: SessionNumber::new(self.sending.value() + u64::from(sends)),
            expecting: SessionNumber::new(self.expecting.value() + u64::from(frame)),
            last: clock,
            sent: if sends { clock } else { self.sent },
            heard: if frame { clock } else { self.heard },
            interval: interval_after(event, self.interval),
        }
    }

    // Nothing moves.
    fn refuse(self, why: Refusal) -> Turn
        ensures { (said_of result ≡ refused (number_of why)) × (result.next ≡ self) }
    {
        Turn {
            next: self,
            answer: Err(why),
        }
    }

    // What the cell says is sent, under our next number.
    fn moved(self, clock: u64, event: Event, cell: Cell) -> Turn
        requires { (self.sending.0 + one (sends (kind_in (cell_word cell))) ≤ last_number) × (self.expecting.0 + one (is_frame (event_of event)) ≤ last_number) }
        ensures { (said_of result ≡ told (line_of self) (cell_word cell)) × (line_of result.next ≡ done (line_of self) clock (event_of event) (cell_word cell)) }
    {
        let number = self.sending;
        let message = match cell.kind() {
            Some(kind) => Some(Message { kind, number }),
            None => None,
        };
        Turn {
            next: self.done(clock, event, cell),
            answer: Ok(Outcome {
                message,
                dead: matches!(cell, Cell::Dies),
            }),
        }
    }

    // Whether this is an ordinary frame, and the line takes it: nothing else happens then. Most
    // calls are such, and need no look at the table.
    fn takes(self, clock: u64, event: Event) -> bool
        ensures { result ≡ takes (line_of self) clock (event_of event) }
    {
        if !is_other(event) {
            return false;
        }
        is_listening(self.state) & (!self.misnumbered(event) & !self.ended(clock, event, None))
    }

    // The frame is taken.
    fn taken(self, clock: u64) -> Turn
        requires { self.expecting.0 + 1 ≤ last_number }
        ensures { (said_of result ≡ refused 0) × (line_of result.next ≡ taken_line (line_of self) clock) }
    {
        Turn {
            next: Session {
                expecting: SessionNumber::new(self.expecting.value() + 1),
                last: clock,
                heard: clock,
                ..self
            },
            answer: Ok(Outcome {
                message: None,
                dead: false,
            }),
        }
    }

    // One call: the table's cell, behind 13, reading's own refusal, 30, 31, 32 and 33.
    pub fn turn(self, now: u64, event: Event) -> Turn
        ensures { (said_of result ≡ answer_to (line_of self) now (event_of event)) × (line_of result.next ≡ next_of (line_of self) now (event_of event)) }
    {
        if !self.sound() {
            return self.refuse(Refusal::State);
        }
        let clock = self.last.max(now);
        if self.takes(clock, event) {
            return self.taken(clock);
        }
        match self.verdict(clock, event) {
            Ok(cell) => self.moved(clock, event, cell),
            Err(why) => self.refuse(why),
        }
    }

    // What sending would be answered now; nothing is sent, and nothing moves.
    pub fn may_send(self, now: u64) -> Result<(), Refusal>
        ensures { verdict_number result ≡ (answer_to (line_of self) now Ask).number }
    {
        self.turn(now, Event::Ask).answer.map(|_| ())
    }
}

// The fault of a refusal that reading gave.
fn fault_of(why: Refusal) -> Fault
    ensures { fault_of result ≡ fault_numbered (number_of why) }
{
    match why {
        Refusal::More => Fault::More,
        Refusal::MsgType => Fault::MsgType,
        Refusal::Long => Fault::Long,
        Refusal::Length => Fault::Length,
        Refusal::Sum => Fault::Sum,
        Refusal::Field => Fault::Field,
        _ => Fault::Time,
    }
}

// The event of a frame by its row of the table of types. HeartBtInt is at 64 of a logon's body.
fn by_kind(kind: Row, number: SessionNumber, bytes: &[u8]) -> Event
    ensures { event_of result ≡ by_kind kind number.0 (heart_bt_int bytes.now) }
{
    match kind {
        Row::S001 => Event::Logon {
            number,
            heart: u16::at(bytes, 24 + 64),
        },
        Row::S002 => Event::Logout(number),
        _ => Event::Other(number),
    }
}

// What the bytes at the front are to a session, and how many of them a frame takes, if one was
// read.
#[derive(Clone, Copy, Debug, PartialEq, Eq)]
pub struct Told {
    pub event: Event,
    pub length: Option<usize>,
}

// Reads the frame at the front, for a host that keeps its session elsewhere: it need not be at hand
// while the bytes are read.
pub fn told_by(bytes: &[u8]) -> Told
    ensures { (event_of result.event ≡ event_in bytes.now) × (result.length ≡ length_if bytes.now) }
{
    match frame::read_at(bytes, 0) {
        Ok(header) => Told {
            event: by_kind(Row::from(header.msg_type), header.seq, bytes),
            length: Some(28 + header.body_len),
        },
        Err(why) => Told {
            event: Event::Faulty(fault_of(why)),
            length: None,
        },
    }
}

impl Session {
    // The frame at the front is read, and its event is the session's next call.
    pub fn received(self, time: u64, bytes: &[u8]) -> Arrival
        ensures { (said_of result.turn ≡ answer_to (line_of self) time (event_in bytes.now))
            × ((line_of result.turn.next ≡ next_of (line_of self) time (event_in bytes.now)) × (result.length ≡ length_if bytes.now)) }
    {
        let told = told_by(bytes);
        Arrival {
            turn: self.turn(time, told.event),
            length: told.length,
        }
    }
}
