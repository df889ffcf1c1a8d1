// What is seen at a place of a capture. Document 01, "Fault records and the listing".
#![tactic(auto)]

ghost use Rattle.std.specs.Prelude.{◌≡◌, drop};
ghost use Rattle.reading.specs.Seen.{blank, seen_of};

use rules::Kind;
use terms::{ChannelNumber, Refusal, SessionNumber, TickNumber};

// All that a reading tells the layers above, and nothing private. A refused reading shows why, and
// else four spaces and zeros. size is the frame's length, 0 where none was read.
#[derive(Clone, Copy)]
pub struct Seen {
    pub answer: Result<(), Refusal>,
    pub msg_type: u32,
    pub seq: SessionNumber,
    pub channel: ChannelNumber,
    pub tick: TickNumber,
    pub status: u8,
    pub body_len: u32,
    pub size: usize,
}

// What a refused reading shows: why, four spaces, and zeros. No byte of it is handed on.
pub fn blank(why: Refusal) -> Seen
    ensures { result ≡ blank why }
{
    Seen {
        answer: Err(why),
        msg_type: 0x20202020,
        seq: SessionNumber::new(0),
        channel: ChannelNumber::new(0),
        tick: TickNumber::new(0),
        status: 0,
        body_len: 0,
        size: 0,
    }
}

// The reading at a place. A place beyond the end reads as no bytes: 1.
pub fn see(bytes: &[u8], at: usize) -> Seen
    ensures { result ≡ seen_of (drop at bytes.now) }
{
    match frame::read_at(bytes, at) {
        Err(why) => blank(why),
        Ok(header) => {
            let first = at + 24;
            let behind = first + header.body_len;
            let view = frame_view::view_of(Kind::from(header.msg_type), &bytes[first..behind]);
            Seen {
                answer: Ok(()),
                msg_type: header.msg_type,
                seq: header.seq,
                channel: view.channel,
                tick: view.tick,
                status: view.status,
                body_len: header.body_len as u32,
                size: 28 + header.body_len,
            }
        }
    }
}
