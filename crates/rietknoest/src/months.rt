// The functions of host_month.

ghost use Rattle.std.specs.Prelude.{◌≡◌};
ghost use Rattle.month_spec.specs.Calls.{start_number, answer_to};
ghost use Rattle.host_words.specs.Told.{Tells};
ghost use Rattle.host_month.specs.Words.{page_words, start_words, words_after};

#[unsafe(no_mangle)]
pub extern "C" fn rk_month_start(channels: &[u16], state: &mut [u64; 226]) -> u32
    ensures { (result ≡ start_number channels.now) × (state.new ≡ start_words channels.now state.old) }
{
    host_month::rk_month_start(channels, state)
}

#[unsafe(no_mangle)]
pub extern "C" fn rk_month_add(state: &mut [u64; 226], capture: &[u8], told: &mut [u64; 192]) -> u32
    ensures { Tells (answer_to (page_words state.old) capture.now) told.old result told.new
        × (state.new ≡ words_after state.old capture.now) }
{
    host_month::rk_month_add(state, capture, told)
}
