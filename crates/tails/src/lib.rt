// The fields of an M201's extension, one by one: where each stands in the body, what it holds, and
// whether it is private.
#![tactic(auto)]

ghost use Rattle.std.specs.Prelude.{◌≡◌, true, false};
ghost use Rattle.tails.specs.declared.Content.TheVariants.{Letters, Number};
ghost use Rattle.tails.specs.Fields.{field_of, order_fields, trade_fields, all_behind, tail_fields, field_at};

use rules::Layout;

// What a field holds.
#[derive(Clone, Copy, Debug, PartialEq, Eq)]
pub enum Content {
    Letters,
    Number,
}

// A field: its place in the body and how many bytes it has, what it holds, and whether it is
// private.
#[derive(Clone, Copy, Debug, PartialEq, Eq)]
pub struct TailField {
    pub place: usize,
    pub len: usize,
    pub content: Content,
    pub is_private: bool,
}

fn letters(place: usize, len: usize) -> TailField
    ensures { result ≡ field_of place len Letters false }
{
    TailField {
        place,
        len,
        content: Content::Letters,
        is_private: false,
    }
}

fn hidden(place: usize, len: usize) -> TailField
    ensures { result ≡ field_of place len Letters true }
{
    TailField {
        is_private: true,
        ..letters(place, len)
    }
}

fn number(place: usize, len: usize) -> TailField
    ensures { result ≡ field_of place len Number false }
{
    TailField {
        content: Content::Number,
        ..letters(place, len)
    }
}

// Field number i of an order, in the order of source document 000, 2.5.4.1: Side, QuoteID, MemberID
// and so on.
fn order_field(i: usize) -> TailField
    ensures { result ≡ field_at i order_fields }
{
    match i {
        0 => letters(45, 1),
        1 => letters(46, 18),
        2 => hidden(64, 12),
        3 => hidden(76, 12),
        4 => number(88, 1),
        5 => number(89, 1),
        6 => number(90, 4),
        7 => number(94, 2),
        8 => number(96, 8),
        9 => letters(104, 16),
        10 => hidden(120, 32),
        11 => number(152, 1),
        12 => number(153, 1),
        13 => number(154, 4),
        14 => letters(158, 18),
        15 => number(176, 8),
        _ => number(0, 0),
    }
}

// Field number i of a trade, 2.5.4.2: BidApplSeqNum, OfferApplSeqNum and so on.
fn trade_field(i: usize) -> TailField
    ensures { result ≡ field_at i trade_fields }
{
    match i {
        0 => letters(45, 18),
        1 => letters(63, 18),
        2 => number(81, 8),
        3 => number(89, 1),
        4 => number(90, 8),
        _ => number(0, 0),
    }
}

// Everything behind the 45 fixed bytes, as one private field.
fn all_behind(n: usize, i: usize) -> TailField
    ensures { result ≡ field_at i (all_behind n) }
{
    if i == 0 {
        hidden(45, n.saturating_sub(45))
    } else {
        number(0, 0)
    }
}

// Field number i of the extension of an M201 body of n bytes, laid out so, counted from 0; from the
// last on, an empty one.
pub fn tail_field(layout: Layout, n: usize, i: usize) -> TailField
    ensures { result ≡ field_at i (tail_fields layout n) }
{
    match layout {
        Layout::Order => order_field(i),
        Layout::Trade => trade_field(i),
        Layout::Other => all_behind(n, i),
    }
}
