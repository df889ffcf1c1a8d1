// One BINARY frame: read, written, and the next good one found in a damaged capture.
#![tactic(auto)]

ghost use Rattle.std.specs.Prelude.{◌≡◌, ◌+◌, ◌≤◌, length, take, drop, Ok};
ghost use Rattle.octets.specs.Octets.{be, sum8, laid};
ghost use Rattle.octets.specs.Papers.{written_paper};
ghost use Rattle.rules.specs.Table.{kind_of};
ghost use Rattle.frame_spec.specs.Frame.{msg_type, body_length, read_of, reads, body_read, Whole};
ghost use Rattle.frame.specs.Papers.{read_paper, found_paper, HeadSays, text_of};
ghost use Rattle.frame_spec.specs.Write.{message, frame_of, write_of, left_of};
ghost use Rattle.frame_spec.specs.Search.{search_of};

use octets::Number;
use rules::Kind;
use terms::{Refusal, SessionNumber};

// What an accepted frame's header tells, but for its sum.
#[derive(Clone, Copy, Debug, PartialEq, Eq)]
pub struct Header {
    pub msg_type: u32,
    pub sending_time: u64,
    pub seq: SessionNumber,
    pub body_len: usize,
}

// Of a frame that is there as a whole: its type, and the length of its body.
#[derive(Clone, Copy)]
struct Head {
    kind: Kind,
    body_len: usize,
}

// The checks up to the whole length, of the frame at a place. The type is tested before anything
// after it is read, and its third letter, 0 in each, before the others: in noise that one byte
// mostly tells.
fn head_at(bytes: &[u8], at: usize) -> Result<Head, Refusal>
    ensures { HeadSays result (drop at bytes.now) }
{
    if bytes.len() < at {
        return Err(Refusal::More);
    }
    let left = bytes.len() - at;
    if left < 24 {
        return Err(Refusal::More);
    }
    if bytes[at + 2] != b'0' {
        return Err(Refusal::MsgType);
    }
    let kind = Kind::from(u32::at(bytes, at));
    if !rules::is_known(kind) {
        return Err(Refusal::MsgType);
    }
    let body_len = u32::at(bytes, at + 20) as usize;
    rules::measure(kind, body_len)?;
    if left < 28 + body_len {
        return Err(Refusal::More);
    }
    Ok(Head { kind, body_len })
}

// The checks after them, of a frame whose header and body sum to v.
fn rest_at(bytes: &[u8], at: usize, head: Head, v: u8) -> Result<Header, Refusal>
    requires { HeadSays (Ok head) (drop at bytes.now) × (v ≡ sum8 (take (24 + head.body_len) (drop at bytes.now))) }
    ensures { read_paper result ≡ read_of (drop at bytes.now) }
{
    let start = at + 24;
    let end = start + head.body_len;
    let stored = u32::at(bytes, end);
    if stored != v as u32 {
        return Err(Refusal::Sum);
    }
    let sent = u64::at(bytes, at + 4);
    rules::judge(head.kind, sent, &bytes[start..end])?;
    Ok(Header {
        msg_type: u32::at(bytes, at),
        sending_time: sent,
        seq: SessionNumber::new(u64::at(bytes, at + 12)),
        body_len: head.body_len,
    })
}

// The frame at a place of bytes. A place beyond the end reads as no bytes: 1.
pub fn read_at(bytes: &[u8], at: usize) -> Result<Header, Refusal>
    ensures { read_paper result ≡ read_of (drop at bytes.now) }
{
    let head = head_at(bytes, at)?;
    let v = octets::sum(bytes, at, 24 + head.body_len);
    rest_at(bytes, at, head, v)
}

// The body of the frame at a place, as a part of the caller's bytes; of a frame that does not read,
// the empty part: no byte of a refused frame is handed on.
pub fn body_at(bytes: &[u8], at: usize) -> &[u8]
    ensures { result.now ≡ body_read (drop at bytes.now) }
{
    match read_at(bytes, at) {
        Err(_) => &bytes[0..0],
        Ok(header) => {
            let first = at + 24;
            let behind = first + header.body_len;
            &bytes[first..behind]
        }
    }
}

// What is written: the fields that writing does not work out.
#[derive(Clone, Copy)]
struct Message<'a> {
    msg_type: u32,
    sending_time: u64,
    seq: SessionNumber,
    body: &'a [u8],
}

// What writing a message into so much room returns.
fn may_write(message: Message<'_>, room: usize) -> Result<usize, Refusal>
    ensures { written_paper result ≡ write_of (text_of message.entry) room }
{
    let kind = Kind::from(message.msg_type);
    rules::measure(kind, message.body.len())?;
    rules::judge(kind, message.sending_time, message.body)?;
    let size = 28 + message.body.len();
    if room < size {
        return Err(Refusal::Room);
    }
    Ok(size)
}

// Stores a message's frame at the front of out. It has room for all of it, so that nothing here is
// refused.
fn store(message: Message<'_>, out: &mut [u8])
    requires { 28 + length message.body.now ≤ length out.old }
    ensures { out.new ≡ laid 0 (frame_of (text_of message.entry)) out.old }
{
    let body = message.body;
    let end = 24 + body.len();
    let _ = octets::put(out, 0, 4, message.msg_type as u64);
    let _ = octets::put(out, 4, 8, message.sending_time);
    let _ = octets::put(out, 12, 8, message.seq.value());
    let _ = octets::put(out, 20, 4, body.len() as u64);
    let _ = octets::lay(out, 24, body);
    let v = octets::sum(out, 0, end);
    let _ = octets::put(out, end, 4, v as u64);
}

// Writes a message at the front of out, and returns how many bytes its frame has. A refusal
// writes nothing.
pub fn write(
    msg_type: u32,
    sending_time: u64,
    seq: SessionNumber,
    body: &[u8],
    out: &mut [u8],
) -> Result<usize, Refusal>
    ensures { (written_paper result ≡ write_of (message msg_type sending_time seq.0 body.now) (length out.old)) × (out.new ≡ left_of (message msg_type sending_time seq.0 body.now) out.old) }
{
    let message = Message {
        msg_type,
        sending_time,
        seq,
        body,
    };
    let size = may_write(message, out.len())?;
    store(message, out);
    Ok(size)
}

// Whether the checks behind the head pass.
// It is called and not inlined: few places get so far, and the search's loop over places is a third
// faster without their code.
#[inline(never)]
fn accepts(bytes: &[u8], at: usize, head: Head, v: u8) -> bool
    requires { HeadSays (Ok head) (drop at bytes.now) × (v ≡ sum8 (take (24 + head.body_len) (drop at bytes.now))) }
    ensures { result ≡ reads (drop at bytes.now) }
{
    rest_at(bytes, at, head, v).is_ok()
}

// The lowest place at or after `from` where a frame reads: start places outside, the bytes of a
// frame inside, left by label at the first accepted frame.
pub fn search(bytes: &[u8], from: usize) -> Result<Option<usize>, Refusal>
    ensures { found_paper result ≡ search_of bytes.now from }
{
    if bytes.len() < from {
        return Err(Refusal::Place);
    }
    let mut found = None;
    'places: for at in from..bytes.len() {
        if let Ok(head) = head_at(bytes, at) {
            let end = at + 24 + head.body_len;
            let mut v: u8 = 0;
            for i in at..end {
                v = v.wrapping_add(bytes[i]);
            }
            if accepts(bytes, at, head, v) {
                found = Some(at);
                break 'places;
            }
        }
    }
    Ok(found)
}
