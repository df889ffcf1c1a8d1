// Which bytes of a frame's body are private. What a scrubbed frame is stands beside it, in specs/.
#![tactic(auto)]

ghost use Rattle.std.specs.Prelude.{◌≡◌, [], ◌∷◌, eqb, length};
ghost use Rattle.terms.specs.Paper.{pick};
ghost use Rattle.private.specs.Private.{spaces, tail_of, span_at};
ghost use Rattle.private.specs.Parts.{parts_spans, suited_spans, told_paper, span_answer};

use octets::Number;
use rules::{Kind, Layout};
use terms::Refusal;

// A private part of a body: where it starts, how many bytes it has, and the byte that replaces
// each of them.
#[derive(Clone, Copy, Debug, PartialEq, Eq)]
pub struct Span {
    pub place: usize,
    pub len: usize,
    pub fill: u8,
}

// All private spans of a body, in their order: no type has more than three.
#[derive(Clone, Copy, Debug, PartialEq, Eq)]
pub enum Parts {
    Nothing,
    One(Span),
    Two(Span, Span),
    Three(Span, Span, Span),
}

fn spaces_at(place: usize, len: usize) -> Span
    ensures { result ≡ spaces place len }
{
    Span {
        place,
        len,
        fill: 0x20,
    }
}

// The only span of a type, of a body that suits it.
fn only(suits: bool, place: usize, len: usize) -> Parts
    ensures { parts_spans result ≡ pick suits (spaces place len ∷ []) [] }
{
    if suits {
        Parts::One(spaces_at(place, len))
    } else {
        Parts::Nothing
    }
}

// Both CompIDs of an S001 whose body has n bytes.
fn comp_ids(n: usize) -> Parts
    ensures { parts_spans result ≡ pick (eqb n 74) (spaces 0 32 ∷ spaces 32 32 ∷ []) [] }
{
    if n == 74 {
        Parts::Two(spaces_at(0, 32), spaces_at(32, 32))
    } else {
        Parts::Nothing
    }
}

// How the extension of an M201 body is read: as an order or a trade where the body names that
// layout and has its length.
fn layout_in(body: &[u8]) -> Layout
    ensures { result ≡ tail_of body.now }
{
    let named = rules::layout_of(octets::letters_at(body, 11), u8::at(body, 28));
    if rules::suits_tail(named, body.len()) {
        return named;
    }
    Layout::Other
}

// MemberID, TraderCode and InvestorName of an order; of a trade nothing; else everything behind the
// 45 fixed bytes.
fn tail(body: &[u8]) -> Parts
    ensures { parts_spans result ≡ suited_spans Kind.M201 body.now }
{
    if body.len() < 45 {
        return Parts::Nothing;
    }
    match layout_in(body) {
        Layout::Order => { Parts::Three(spaces_at(64, 12), spaces_at(76, 12), spaces_at(120, 32)) }
        Layout::Trade => Parts::Nothing,
        Layout::Other => Parts::One(spaces_at(45, body.len() - 45)),
    }
}

// The private spans of a body. One whose length does not suit its type has none: so no span lies
// outside the body, whatever is lent.
pub fn parts_in(kind: Kind, body: &[u8]) -> Parts
    ensures { parts_spans result ≡ suited_spans kind body.now }
{
    match kind {
        Kind::S001 => comp_ids(body.len()),
        Kind::S002 => only(body.len() == 260, 4, 256),
        Kind::P002 => only(body.len() == 52, 20, 32),
        Kind::M201 => tail(body),
        _ => Parts::Nothing,
    }
}

fn of_three(i: usize, a: Span, b: Span, c: Span) -> Span
    ensures { result ≡ span_at i (a ∷ b ∷ c ∷ []) }
{
    match i {
        0 => a,
        1 => b,
        2 => c,
        _ => spaces_at(0, 0),
    }
}

// Span number i, counted from 0; from the last on, an empty one.
fn span_at(parts: Parts, i: usize) -> Span
    ensures { result ≡ span_at i (parts_spans parts) }
{
    let none = spaces_at(0, 0);
    match parts {
        Parts::Nothing => none,
        Parts::One(a) => of_three(i, a, none, none),
        Parts::Two(a, b) => of_three(i, a, b, none),
        Parts::Three(a, b, c) => of_three(i, a, b, c),
    }
}

// Private span number i of a body of that type, counted from 0; from the last on, an empty one. Or
// 2, 3 or 4, as reading gives them, where no frame of that type has a body of this length.
pub fn private_span(msg_type: u32, body: &[u8], i: usize) -> Result<Span, Refusal>
    ensures { told_paper result ≡ span_answer msg_type body.now i }
{
    let kind = Kind::from(msg_type);
    rules::measure(kind, body.len())?;
    Ok(span_at(parts_in(kind, body), i))
}
