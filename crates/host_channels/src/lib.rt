// Thirty-two channels for C and Rust: each call updates the host's table in place.
#![tactic(auto)]

ghost use Rattle.host_channels.specs.Exchanges.{Exchanges};

use channels::{ChannelCall, ChannelTold, Channels};

// A call, and what it is answered: numbers alone, lent as one, so that every machine passes them in
// the same way.
#[repr(C)]
#[derive(Clone, Copy)]
pub struct Exchange {
    pub call: ChannelCall,
    pub told: ChannelTold,
}

// Every call on a table, by its code. The names are lent; the index and the one row that the call
// is about are copied out. The answer is put beside the call. A refusal but 12 ends there; else
// index, row and the name beside it are put back.
pub fn rk_channels(table: &mut Channels, exchange: &mut Exchange)
    ensures { Exchanges table.old exchange.old table.new exchange.new }
{
    let call = exchange.call;
    let index = table.index;
    let turn = index.turn_to(&table.names.channels, call);
    let at = turn.at;
    let row = table.rows[at];
    let done = row.answered(index, turn, call);
    exchange.told = done.told;
    let number = done.told.answer;
    if (number != 0) & (number != 12) {
        return;
    }
    table.names.channels[at] = done.name;
    table.index = done.index;
    table.rows[at] = done.row;
}
