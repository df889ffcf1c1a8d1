// The fault record of 64 bytes, made and read back.
// Every function takes all input. What is written is made aside first: without room nothing is
// written and the answer is 8.
#![tactic(auto)]

ghost use Rattle.std.specs.Prelude.{◌≡◌, ◌≤◌, length};
ghost use Rattle.octets.specs.Papers.{written_paper, room_for, laid_if_room};
ghost use Rattle.record.specs.Record.{record_of, record_at};
ghost use Rattle.record.specs.Stored.{Stored};

use octets::Number;
use terms::{ChannelNumber, Refusal, SessionNumber, TickNumber};

// One reading, as support sees it. msg_type is four spaces where the reading was refused.
#[derive(Clone, Copy)]
pub struct Record {
    pub place: u64,
    pub msg_type: u32,
    pub answer: u32,
    pub seq: SessionNumber,
    pub tick: TickNumber,
    pub channel: ChannelNumber,
    pub body_len: u32,
    pub floor: TickNumber,
    pub top: TickNumber,
}

// The record's 64 bytes. The zero fields are those that nothing is copied to.
fn bytes_of(r: Record) -> [u8; 64]
    ensures { result ≡ record_of r }
{
    let mut d = [0; 64];
    d[..8].copy_from_slice(&r.place.to_be_bytes());
    d[8..12].copy_from_slice(&r.msg_type.to_be_bytes());
    d[12..16].copy_from_slice(&r.answer.to_be_bytes());
    d[16..24].copy_from_slice(&r.seq.value().to_be_bytes());
    d[24..32].copy_from_slice(&r.tick.value().to_be_bytes());
    d[32..34].copy_from_slice(&r.channel.value().to_be_bytes());
    d[36..40].copy_from_slice(&r.body_len.to_be_bytes());
    d[40..48].copy_from_slice(&r.floor.value().to_be_bytes());
    d[48..56].copy_from_slice(&r.top.value().to_be_bytes());
    d
}

// Writes the record's 64 bytes over out from at on.
pub fn put(out: &mut [u8], at: usize, r: Record) -> Result<usize, Refusal>
    ensures { (written_paper result ≡ room_for at 64 (length out.old)) × (out.new ≡ laid_if_room at (record_of r) out.old) }
{
    octets::lay(out, at, &bytes_of(r))
}

// The record at the front of s.
#[tactic(auto, unfolding(crate::specs::Record::record_at))]
fn front(s: &[u8]) -> Record
    ensures { result ≡ record_at 0 s.now }
{
    Record {
        place: u64::at(s, 0),
        msg_type: u32::at(s, 8),
        answer: u32::at(s, 12),
        seq: SessionNumber::new(u64::at(s, 16)),
        tick: TickNumber::new(u64::at(s, 24)),
        channel: ChannelNumber::new(u16::at(s, 32)),
        body_len: u32::at(s, 36),
        floor: TickNumber::new(u64::at(s, 40)),
        top: TickNumber::new(u64::at(s, 48)),
    }
}

// The record in the 64 bytes from at on. It judges nothing; bytes past the end count as 0, and the
// zero fields are passed over.
#[tactic(auto, using(crate::specs::RecordLaws::record_rest))]
pub fn record_at(bytes: &[u8], at: usize) -> Record
    ensures { result ≡ record_at at bytes.now }
{
    front(&bytes[at.min(bytes.len())..])
}
