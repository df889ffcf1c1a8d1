// The functions of host_session.

ghost use Rattle.std.specs.Prelude.{◌≡◌};
ghost use Rattle.session_spec.specs.Table.{Begin, Time, Leave, Ask};
ghost use Rattle.session_spec.specs.Calls.{answer_to, opened};
ghost use Rattle.session.specs.Arrivals.{event_in};
ghost use Rattle.host_words.specs.Told.{Tells};
ghost use Rattle.host_session.specs.Words.{words_of, line_in, call_told, arrival_told, words_after};

#[unsafe(no_mangle)]
pub extern "C" fn rk_session_open(state: &mut [u64; 8]) -> u32
    ensures { (result ≡ 0) × (state.new ≡ words_of opened) }
{
    host_session::rk_session_open(state)
}

#[unsafe(no_mangle)]
pub extern "C" fn rk_session_begin(state: &mut [u64; 8], time: u64, told: &mut [u64; 3]) -> u32
    ensures { Tells (call_told state.old time Begin) told.old result told.new
        × (state.new ≡ words_after state.old time Begin) }
{
    host_session::rk_session_begin(state, time, told)
}

#[unsafe(no_mangle)]
pub extern "C" fn rk_session_time(state: &mut [u64; 8], time: u64, told: &mut [u64; 3]) -> u32
    ensures { Tells (call_told state.old time Time) told.old result told.new
        × (state.new ≡ words_after state.old time Time) }
{
    host_session::rk_session_time(state, time, told)
}

#[unsafe(no_mangle)]
pub extern "C" fn rk_session_leave(state: &mut [u64; 8], time: u64, told: &mut [u64; 3]) -> u32
    ensures { Tells (call_told state.old time Leave) told.old result told.new
        × (state.new ≡ words_after state.old time Leave) }
{
    host_session::rk_session_leave(state, time, told)
}

#[unsafe(no_mangle)]
pub extern "C" fn rk_session_ask(state: &mut [u64; 8], time: u64, told: &mut [u64; 3]) -> u32
    ensures { Tells (call_told state.old time Ask) told.old result told.new
        × (state.new ≡ words_after state.old time Ask) }
{
    host_session::rk_session_ask(state, time, told)
}

#[unsafe(no_mangle)]
pub extern "C" fn rk_session_receive(
    state: &mut [u64; 8],
    time: u64,
    bytes: &[u8],
    told: &mut [u64; 4],
) -> u32
    ensures { Tells (arrival_told state.old time bytes.now) told.old result told.new
        × (state.new ≡ words_after state.old time (event_in bytes.now)) }
{
    host_session::rk_session_receive(state, time, bytes, told)
}

#[unsafe(no_mangle)]
pub extern "C" fn rk_session_may_send(state: &[u64; 8], time: u64) -> u32
    ensures { result ≡ (answer_to (line_in state.now) time Ask).number }
{
    host_session::rk_session_may_send(state, time)
}
