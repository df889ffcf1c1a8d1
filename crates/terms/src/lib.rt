// The words that all crates share: the three counters that the source keeps apart, and the refusals
// of document 01.
#![tactic(auto)]

ghost use Rattle.std.specs.Prelude.{◌≡◌};
ghost use Rattle.terms.specs.Counters.{session_of, tick_of, channel_of};
ghost use Rattle.terms.specs.Refusals.{number_of};
ghost use Rattle.terms.specs.Verdicts.{verdict_number};

// The session's MsgSeqNum. Its field is private: only `new` and `value` make one or take one apart.
#[derive(Clone, Copy, Debug, PartialEq, Eq, PartialOrd, Ord)]
pub struct SessionNumber(u64);

impl SessionNumber {
    // For a number decoded from bytes, or handed in by a host; never for another counter's value.
    pub fn new(n: u64) -> SessionNumber
        ensures { result ≡ session_of n }
    {
        SessionNumber(n)
    }

    // Its number.
    pub fn value(self) -> u64
        ensures { result ≡ self.0 }
    {
        self.0 // MsgSeqNum
    }
}

// A channel's tick number: ApplSeqNum, ApplLastSeqNum, and both resend numbers.
#[derive(Clone, Copy, Debug, PartialEq, Eq, PartialOrd, Ord)]
pub struct TickNumber(u64);

impl TickNumber {
    // For a number decoded from bytes, or handed in by a host; never for another counter's value.
    pub fn new(n: u64) -> TickNumber
        ensures { result ≡ tick_of n }
    {
        TickNumber(n)
    }

    // Its number.
    pub fn value(self) -> u64
        ensures { result ≡ self.0 }
    {
        self.0 // ApplSeqNum
    }
}

// ChannelNO. Two bytes wide, so that a number above 9,999 can be offered and refused.
#[derive(Clone, Copy, Debug, PartialEq, Eq, PartialOrd, Ord)]
pub struct ChannelNumber(u16);

impl ChannelNumber {
    // For a number decoded from bytes, or handed in by a host; never for another counter's value.
    pub fn new(n: u16) -> ChannelNumber
        ensures { result ≡ channel_of n }
    {
        ChannelNumber(n)
    }

    // Its number.
    pub fn value(self) -> u16
        ensures { result ≡ self.0 }
    {
        self.0 // ChannelNO
    }
}

// Why something is refused: a case for each row of document 01's table but 0, in its order, and for
// the numbers that the requests add. (The rows "type" and "number" are MsgType and Range here.)
#[derive(Clone, Copy, Debug, PartialEq, Eq)]
pub enum Refusal {
    More,
    MsgType,
    Long,
    Length,
    Sum,
    Field,
    Time,
    Room,
    Place,
    Range,
    Repeat,
    Far,
    State,
    Busy,
    Whole,
    Unasked,
    Status,
    Channel,
    Closed,
    Entries,
    Full,
    Open,
    Captures,
    Sums,
    Places,
    Early,
    Sequence,
    Over,
    Again,
}

// Document 01's number of a refusal.
impl From<Refusal> for u32 {
    ghost from_gives = { λ why n. n ≡ number_of why };

    fn from(why: Refusal) -> u32 {
        match why {
            Refusal::More => 1,
            Refusal::MsgType => 2,
            Refusal::Long => 3,
            Refusal::Length => 4,
            Refusal::Sum => 5,
            Refusal::Field => 6,
            Refusal::Time => 7,
            Refusal::Room => 8,
            Refusal::Place => 9,
            Refusal::Range => 10,
            Refusal::Repeat => 11,
            Refusal::Far => 12,
            Refusal::State => 13,
            Refusal::Busy => 14,
            Refusal::Whole => 15,
            Refusal::Unasked => 16,
            Refusal::Status => 17,
            Refusal::Channel => 18,
            Refusal::Closed => 19,
            Refusal::Entries => 20,
            Refusal::Full => 21,
            Refusal::Open => 22,
            Refusal::Captures => 27,
            Refusal::Sums => 28,
            Refusal::Places => 29,
            Refusal::Early => 30,
            Refusal::Sequence => 31,
            Refusal::Over => 32,
            Refusal::Again => 33,
        }
    }
}

// The number of an answer: 0 where there is one, else the refusal's.
pub fn number_of<T: Drop>(answer: Result<T, Refusal>) -> u32
    ensures { result ≡ verdict_number answer }
{
    match answer {
        Ok(_) => 0,
        Err(why) => u32::from(why),
    }
}
