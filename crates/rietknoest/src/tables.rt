// The functions of host_channels.

ghost use Rattle.host_channels.specs.Exchanges.{Exchanges};

use channels::Channels;
use host_channels::Exchange;

#[unsafe(no_mangle)]
pub extern "C" fn rk_channels(table: &mut Channels, exchange: &mut Exchange)
    ensures { Exchanges table.old exchange.old table.new exchange.new }
{
    host_channels::rk_channels(table, exchange);
}
