// The scrubber: the private fields of a frame painted over where it stands, and its
// checksum set anew.
#![tactic(auto)]

ghost use Rattle.std.specs.Prelude.{◌≡◌, true, ◌+◌, ◌-◌, ◌≤◌, length, take, drop, replicate};
ghost use Rattle.octets.specs.Octets.{laid, sum8, sum_after};
ghost use Rattle.octets.specs.Papers.{written_paper};
ghost use Rattle.private.specs.Private.{private_of};
ghost use Rattle.private.specs.Scrub.{painted, summed, scrub_answer, scrubbed};
ghost use Rattle.private.specs.Within.{body_in, span_painted, scrubbed_as, SmallSum};
ghost use Rattle.private.specs.Into.{frame_in, into_answer, into_leaves};
ghost use Rattle.rules.specs.Table.{suits, kind_of};
ghost use Rattle.frame_spec.specs.Frame.{msg_type, body_length, read_of};

use octets::Number;
use private::{Parts, Span};
use rules::Kind;
use terms::Refusal;

// Paints a span of the body that lies after the 24 header bytes of buf. v is a sum that counts its
// bytes; the answer is that sum then. It is worked out before the span is filled, from its bytes
// alone. They are lent alone: of a span whose length is a constant the compiler then makes no loop.
fn paint_span(buf: &mut [u8], s: Span, v: u8) -> u8
    requires { 24 + (s.place + s.len) ≤ length buf.old }
    ensures { (buf.new ≡ span_painted s buf.old) × (result ≡ sum_after v (take s.len (drop (24 + s.place) buf.old)) s.fill) }
{
    let a = 24 + s.place;
    let e = a + s.len;
    let w = octets::sum_after(v, &buf[a..e], 0, s.len, s.fill);
    octets::fill(&mut buf[a..e], s.fill);
    w
}

// Paints the private spans of the body of n bytes, whatever its type. All are told before the first
// is painted, and where there is none nothing is done. v is the sum of header and body; the answer
// is their sum then.
fn paint_all(buf: &mut [u8], kind: Kind, n: usize, v: u8) -> u8
    requires { (24 + n ≤ length buf.old) × ((suits kind n ≡ true) × (v ≡ sum8 (take (24 + n) buf.old))) }
    ensures { (buf.new ≡ laid 24 (painted (private_of kind (body_in n buf.old)) (body_in n buf.old)) buf.old) × (result ≡ sum8 (take (24 + n) buf.new)) }
{
    let end = 24 + n;
    match private::parts_in(kind, &buf[24..end]) {
        Parts::Nothing => v,
        Parts::One(first) => paint_span(buf, first, v),
        Parts::Two(first, second) => {
            let w = paint_span(buf, first, v);
            paint_span(buf, second, w)
        }
        Parts::Three(first, second, third) => {
            let w = paint_span(buf, first, v);
            let x = paint_span(buf, second, w);
            paint_span(buf, third, x)
        }
    }
}

// Stores v, the sum of the first n bytes, in the last of the four after them; the three before it
// are 0.
fn store_sum(buf: &mut [u8], n: usize, v: u8)
    requires { (n + 4 ≤ length buf.old) × ((v ≡ sum8 (take n buf.old)) × SmallSum n buf.old) }
    ensures { buf.new ≡ summed n buf.old }
{
    buf[n + 3] = v;
}

// Paints the body of n bytes after the header as one of that type and sets the sum anew, from v,
// the sum before. Of CheckSum only the last byte can change.
fn repaint(buf: &mut [u8], kind: Kind, n: usize, v: u8)
    requires { (28 + n ≤ length buf.old) × ((suits kind n ≡ true) × ((v ≡ sum8 (take (24 + n) buf.old)) × SmallSum (24 + n) buf.old)) }
    ensures { buf.new ≡ scrubbed_as kind n buf.old }
{
    let w = paint_all(buf, kind, n, v);
    store_sum(buf, 24 + n, w);
}

// Scrubs the frame at the front of buf where it stands, and returns how many bytes it has. A
// refusal of reading is passed on, and the buffer keeps its bytes; so do the bytes after the frame.
// Reading has found CheckSum right, so the new one is worked out of its last byte: after reading
// only that byte and the private ones are loaded, and only these are stored.
pub fn scrub(buf: &mut [u8]) -> Result<usize, Refusal>
    ensures { (written_paper result ≡ scrub_answer buf.old) × (buf.new ≡ scrubbed buf.old) }
{
    let header = frame::read_at(buf, 0)?;
    let kind = Kind::from(header.msg_type);
    let v = u8::at(buf, 27 + header.body_len);
    repaint(buf, kind, header.body_len, v);
    Ok(28 + header.body_len)
}

// Reads the frame at a place and writes it over out from `to` on, scrubbed; returns how many bytes
// it has. A refusal of reading is passed on, and 8 is given where out has no room for it; then out
// keeps its bytes. So do its bytes beside the frame.
pub fn scrub_into(bytes: &[u8], at: usize, out: &mut [u8], to: usize) -> Result<usize, Refusal>
    ensures { (written_paper result ≡ into_answer (drop at bytes.now) to (length out.old))
        × (out.new ≡ into_leaves (drop at bytes.now) to out.old) }
{
    let header = frame::read_at(bytes, at)?;
    let kind = Kind::from(header.msg_type);
    let n = header.body_len;
    let end = at + 28 + n;
    let size = octets::lay(out, to, &bytes[at..end])?;
    let v = u8::at(bytes, end - 1);
    let behind = to + size;
    repaint(&mut out[to..behind], kind, n, v);
    Ok(size)
}
