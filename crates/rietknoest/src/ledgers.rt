// The functions of host_ledger.

ghost use Rattle.std.specs.Prelude.{◌≡◌, [], ◌∷◌};
ghost use Rattle.ledger_spec.specs.Calls.{Tick, Announce, Request, Reply, Ask, Between, Renew, open_number};
ghost use Rattle.host_words.specs.Told.{Tells};
ghost use Rattle.host_words.specs.Calls.{call_told, words_after};
ghost use Rattle.host_ledger.specs.Words.{open_words, ledger_told, reply_told};

#[unsafe(no_mangle)]
pub extern "C" fn rk_ledger_open(channel: u16, state: &mut [u64; 9]) -> u32
    ensures { (result ≡ open_number channel) × (state.new ≡ open_words channel state.old) }
{
    host_ledger::rk_ledger_open(channel, state)
}

#[unsafe(no_mangle)]
pub extern "C" fn rk_ledger_tick(
    state: &mut [u64; 9],
    channel: u16,
    number: u64,
    told: &mut [u64; 2],
) -> u32
    ensures { Tells (call_told state.old (Tick channel number)) told.old result told.new
        × (state.new ≡ words_after state.old (Tick channel number)) }
{
    host_ledger::rk_ledger_tick(state, channel, number, told)
}

#[unsafe(no_mangle)]
pub extern "C" fn rk_ledger_announce(state: &mut [u64; 9], channel: u16, last: u64) -> u32
    ensures { (result ≡ (call_told state.old (Announce channel last)).number)
        × (state.new ≡ words_after state.old (Announce channel last)) }
{
    host_ledger::rk_ledger_announce(state, channel, last)
}

#[unsafe(no_mangle)]
pub extern "C" fn rk_ledger_request(state: &mut [u64; 9], channel: u16, told: &mut [u64; 2]) -> u32
    ensures { Tells (call_told state.old (Request channel)) told.old result told.new
        × (state.new ≡ words_after state.old (Request channel)) }
{
    host_ledger::rk_ledger_request(state, channel, told)
}

#[unsafe(no_mangle)]
pub extern "C" fn rk_ledger_reply(
    state: &mut [u64; 9],
    channel: u16,
    first: u64,
    status: u8,
    told: &mut [u64; 9],
) -> u32
    ensures { Tells (reply_told state.old (Reply channel first status)) told.old result told.new
        × (state.new ≡ words_after state.old (Reply channel first status)) }
{
    host_ledger::rk_ledger_reply(state, channel, first, status, told)
}

#[unsafe(no_mangle)]
pub extern "C" fn rk_ledger_renew(state: &mut [u64; 9]) -> u32
    ensures { (result ≡ (call_told state.old Renew).number)
        × (state.new ≡ words_after state.old Renew) }
{
    host_ledger::rk_ledger_renew(state)
}

#[unsafe(no_mangle)]
pub extern "C" fn rk_ledger_told(state: &[u64; 9], told: &mut [u64; 7]) -> u32
    ensures { Tells (ledger_told state.now) told.old result told.new }
{
    host_ledger::rk_ledger_told(state, told)
}

#[unsafe(no_mangle)]
pub extern "C" fn rk_ledger_missing(
    state: &[u64; 9],
    channel: u16,
    a: u64,
    b: u64,
    told: &mut u64,
) -> u32
    ensures { Tells (call_told state.now (Ask (Between channel a b))) (told.old ∷ []) result (told.new ∷ []) }
{
    host_ledger::rk_ledger_missing(state, channel, a, b, told)
}
