// What an accepted frame's body tells the layers above: its counters, and a resend's status.
// Nothing of it is private.
#![tactic(auto)]

ghost use Rattle.std.specs.Prelude.{◌≡◌};
ghost use Rattle.octets.specs.Octets.{be};
ghost use Rattle.frame_view.specs.View.{viewed, view_of};

use octets::Number;
use rules::Kind;
use terms::{ChannelNumber, TickNumber};

// What a type does not have is 0.
#[derive(Clone, Copy, Debug, PartialEq, Eq)]
pub struct View {
    pub kind: Kind,
    pub channel: ChannelNumber,
    pub tick: TickNumber,
    pub first: TickNumber,
    pub last: TickNumber,
    pub status: u8,
}

fn blank(kind: Kind) -> View
    ensures { result ≡ viewed kind 0 0 0 0 0 }
{
    View {
        kind,
        channel: ChannelNumber::new(0),
        tick: TickNumber::new(0),
        first: TickNumber::new(0),
        last: TickNumber::new(0),
        status: 0,
    }
}

// A tick's channel and number, which stand at the same places in each type that has them.
fn ticked(kind: Kind, body: &[u8]) -> View
    ensures { result ≡ viewed kind (be 2 1 body.now) (be 8 3 body.now) 0 0 0 }
{
    View {
        channel: ChannelNumber::new(u16::at(body, 1)),
        tick: TickNumber::new(u64::at(body, 3)),
        ..blank(kind)
    }
}

#[tactic(auto, unfolding(crate::specs::View::view_of))]
fn resend(body: &[u8]) -> View
    ensures { result ≡ view_of Kind.P002 body.now }
{
    let first = TickNumber::new(u64::at(body, 3));
    View {
        kind: Kind::P002,
        channel: ChannelNumber::new(u16::at(body, 0)),
        tick: first,
        first,
        last: TickNumber::new(u64::at(body, 11)),
        status: u8::at(body, 19),
    }
}

// The view of a body of a type. It judges nothing: hand it what `body_at` gave.
#[tactic(auto, using(crate::proofs::Views::view_tick, crate::proofs::Views::view_blank))]
pub fn view_of(kind: Kind, body: &[u8]) -> View
    ensures { result ≡ view_of kind body.now }
{
    match kind {
        Kind::P001 | Kind::M201 => ticked(kind, body),
        Kind::P002 => resend(body),
        _ => blank(kind),
    }
}
