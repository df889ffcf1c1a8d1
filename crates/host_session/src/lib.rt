// What C and Rust may call on a session, answered and told as in `host_frames`. A session is eight
// numbers, the host's to keep and not to read: state (new 0, waiting 1, active 2, leaving 3,
// over 4), the MsgSeqNum of our next message and of the next frame, the last time, when we last
// sent, when a frame was last taken, the agreed interval, and 0. A refusal writes nothing.
#![tactic(auto)]

ghost use Rattle.std.specs.Prelude.{◌≡◌, ◌&&◌, eqb, leb, [], ◌∷◌, Some};
ghost use Rattle.terms.specs.Paper.{pick};
ghost use Rattle.session_spec.specs.Table.{Begin, Time, Leave, Ask};
ghost use Rattle.session_spec.specs.Calls.{one, answer_to, opened};
ghost use Rattle.session.specs.Papers.{state_of, kind_of, event_of, sent_kind, sent_number, line_of};
ghost use Rattle.session.specs.Arrivals.{event_in};
ghost use Rattle.host_words.specs.Told.{Tells};
ghost use Rattle.host_session.specs.Words.{state_number, state_numbered, words_of, line_in, type_number, call_told, arrival_told, words_after};

use session::{Event, Kind, Outcome, Session, State};
use terms::SessionNumber;

fn number_of(state: State) -> u64
    ensures { result ≡ state_number (state_of state) }
{
    match state {
        State::New => 0,
        State::Waiting => 1,
        State::Active => 2,
        State::Leaving => 3,
        State::Over => 4,
    }
}

// From 4 on over: `out_in` sees to it that a number above 4 breaks the state rules.
fn state_in(word: u64) -> State
    ensures { state_of result ≡ state_numbered word }
{
    match word {
        0 => State::New,
        1 => State::Waiting,
        2 => State::Active,
        3 => State::Leaving,
        _ => State::Over,
    }
}

// Our next number. Where the first word is above 4, or the last is not 0, it is 0, which breaks the
// rules of every state.
fn out_in(first: u64, out: u64, behind: u64) -> u64
    ensures { result ≡ pick (leb first 4 && eqb behind 0) out 0 }
{
    if (first <= 4) & (behind == 0) { out } else { 0 }
}

// The session that eight words stand for, sound or not.
fn session_in(words: &[u64; 8]) -> Session
    ensures { line_of result ≡ line_in words.now }
{
    Session {
        state: state_in(words[0]),
        sending: SessionNumber::new(out_in(words[0], words[1], words[7])),
        expecting: SessionNumber::new(words[2]),
        last: words[3],
        sent: words[4],
        heard: words[5],
        interval: words[6],
    }
}

fn words_of(session: Session) -> [u64; 8]
    ensures { result ≡ words_of (line_of session) }
{
    [
        number_of(session.state),
        session.sending.value(),
        session.expecting.value(),
        session.last,
        session.sent,
        session.heard,
        session.interval,
        0,
    ]
}

// The MsgType of what is to be sent, its four letters as one number.
fn type_of(kind: Kind) -> u64
    ensures { result ≡ type_number (kind_of (Some kind)) }
{
    match kind {
        Kind::S001 => 0x53303031,
        Kind::S002 => 0x53303032,
        Kind::S003 => 0x53303033,
        Kind::P002 => 0x50303032,
    }
}

// What is told of a call that is not refused: the MsgType to send, 0 for nothing, its MsgSeqNum,
// and whether the line was called dead.
fn outcome_words(outcome: Outcome) -> [u64; 3]
    ensures { result ≡ type_number (sent_kind outcome.message) ∷ sent_number outcome.message ∷ one outcome.dead ∷ [] }
{
    let (kind, number) = match outcome.message {
        Some(message) => (type_of(message.kind), message.number.value()),
        None => (0, 0),
    };
    [kind, number, u64::from(outcome.dead)]
}

// A new session: both counters 1. Always 0.
pub fn rk_session_open(state: &mut [u64; 8]) -> u32
    ensures { (result ≡ 0) × (state.new ≡ words_of opened) }
{
    *state = words_of(Session::opened());
    0
}

// One call of a host.
fn call(state: &mut [u64; 8], time: u64, event: Event, told: &mut [u64; 3]) -> u32
    ensures { Tells (call_told state.old time (event_of event)) told.old result told.new
        × (state.new ≡ words_after state.old time (event_of event)) }
{
    let turn = session_in(state).turn(time, event);
    match turn.answer {
        Ok(outcome) => {
            *state = words_of(turn.next);
            *told = outcome_words(outcome);
            0
        }
        Err(why) => u32::from(why),
    }
}

// Begins: our logon is to be sent.
pub fn rk_session_begin(state: &mut [u64; 8], time: u64, told: &mut [u64; 3]) -> u32
    ensures { Tells (call_told state.old time Begin) told.old result told.new
        × (state.new ≡ words_after state.old time Begin) }
{
    call(state, time, Event::Begin, told)
}

// Lets time pass: a heartbeat may be due, or the line dead.
pub fn rk_session_time(state: &mut [u64; 8], time: u64, told: &mut [u64; 3]) -> u32
    ensures { Tells (call_told state.old time Time) told.old result told.new
        × (state.new ≡ words_after state.old time Time) }
{
    call(state, time, Event::Time, told)
}

// Leaves: our logout is to be sent, and nothing after it.
pub fn rk_session_leave(state: &mut [u64; 8], time: u64, told: &mut [u64; 3]) -> u32
    ensures { Tells (call_told state.old time Leave) told.old result told.new
        × (state.new ≡ words_after state.old time Leave) }
{
    call(state, time, Event::Leave, told)
}

// Asks for a resend: a P002 is to be sent.
pub fn rk_session_ask(state: &mut [u64; 8], time: u64, told: &mut [u64; 3]) -> u32
    ensures { Tells (call_told state.old time Ask) told.old result told.new
        × (state.new ≡ words_after state.old time Ask) }
{
    call(state, time, Event::Ask, told)
}

// The frame at the front has arrived. Told beside 0: as of the other calls, and its length.
pub fn rk_session_receive(state: &mut [u64; 8], time: u64, bytes: &[u8], told: &mut [u64; 4]) -> u32
    ensures { Tells (arrival_told state.old time bytes.now) told.old result told.new
        × (state.new ≡ words_after state.old time (event_in bytes.now)) }
{
    let arrived = session::told_by(bytes);
    let turn = session_in(state).turn(time, arrived.event);
    match turn.answer {
        Ok(outcome) => {
            let [kind, number, dead] = outcome_words(outcome);
            *state = words_of(turn.next);
            *told = [kind, number, dead, arrived.length.unwrap_or(0) as u64];
            0
        }
        Err(why) => u32::from(why),
    }
}

// What sending a request would be answered now. Nothing is sent, and nothing moves.
pub fn rk_session_may_send(state: &[u64; 8], time: u64) -> u32
    ensures { result ≡ (answer_to (line_in state.now) time Ask).number }
{
    terms::number_of(session_in(state).may_send(time))
}
