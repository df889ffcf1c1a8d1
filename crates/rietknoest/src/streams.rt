// The functions of host_stream.

ghost use Rattle.std.specs.Prelude.{◌≡◌, length};
ghost use Rattle.octets.specs.Octets.{Bytes};
ghost use Rattle.stream_spec.specs.State.{opened};
ghost use Rattle.stream_spec.specs.Calls.{Feed, Close, leaves};
ghost use Rattle.host_words.specs.Told.{Tells};
ghost use Rattle.host_stream_spec.specs.Lent.{lent, lent_of, stream_in};
ghost use Rattle.host_stream_spec.specs.Calls.{call_told, lent_after};
ghost use Rattle.stream_clean_spec.specs.Calls as Clean;
ghost use Rattle.host_stream_spec.specs.Washes.{wash_told, wash_after};

#[unsafe(no_mangle)]
pub extern "C" fn rk_stream_open(
    state: &mut [u64; 6],
    ledger: &mut [u64; 9],
    kept: &mut [u8; 8191],
) -> u32
    ensures { (result ≡ 0) × (lent state.new ledger.new kept.new ≡ lent_of opened) }
{
    host_stream::rk_stream_open(state, ledger, kept)
}

#[unsafe(no_mangle)]
pub extern "C" fn rk_stream_feed(
    state: &mut [u64; 6],
    ledger: &mut [u64; 9],
    kept: &mut [u8; 8191],
    cut: &[u8],
    records: &mut [u8],
    told: &mut [u64; 5],
) -> u32
    ensures { (Tells (call_told (lent state.old ledger.old kept.old) (Feed cut.now) (length records.old)) told.old result told.new
        × ((lent state.new ledger.new kept.new ≡ lent_after (lent state.old ledger.old kept.old) (Feed cut.now) (length records.old))
        × (records.new ≡ leaves (stream_in (lent state.old ledger.old kept.old)) (Feed cut.now) records.old)))
        × Bytes cut.now }
{
    host_stream::rk_stream_feed(state, ledger, kept, cut, records, told)
}

#[unsafe(no_mangle)]
pub extern "C" fn rk_stream_close(
    state: &mut [u64; 6],
    ledger: &mut [u64; 9],
    kept: &mut [u8; 8191],
    records: &mut [u8],
    told: &mut [u64; 5],
) -> u32
    ensures { Tells (call_told (lent state.old ledger.old kept.old) Close (length records.old)) told.old result told.new
        × ((lent state.new ledger.new kept.new ≡ lent_after (lent state.old ledger.old kept.old) Close (length records.old))
        × (records.new ≡ leaves (stream_in (lent state.old ledger.old kept.old)) Close records.old)) }
{
    host_stream::rk_stream_close(state, ledger, kept, records, told)
}

#[unsafe(no_mangle)]
pub extern "C" fn rk_stream_clean(
    state: &mut [u64; 6],
    ledger: &mut [u64; 9],
    kept: &mut [u8; 8191],
    cut: &[u8],
    out: &mut [u8],
    told: &mut [u64; 6],
) -> u32
    ensures { (Tells (wash_told (lent state.old ledger.old kept.old) (Feed cut.now) (length out.old)) told.old result told.new
        × ((lent state.new ledger.new kept.new ≡ wash_after (lent state.old ledger.old kept.old) (Feed cut.now) (length out.old))
        × (out.new ≡ Clean.leaves (stream_in (lent state.old ledger.old kept.old)) (Feed cut.now) out.old)))
        × Bytes cut.now }
{
    host_stream::rk_stream_clean(state, ledger, kept, cut, out, told)
}

#[unsafe(no_mangle)]
pub extern "C" fn rk_stream_clean_close(
    state: &mut [u64; 6],
    ledger: &mut [u64; 9],
    kept: &mut [u8; 8191],
    out: &mut [u8],
    told: &mut [u64; 6],
) -> u32
    ensures { Tells (wash_told (lent state.old ledger.old kept.old) Close (length out.old)) told.old result told.new
        × ((lent state.new ledger.new kept.new ≡ wash_after (lent state.old ledger.old kept.old) Close (length out.old))
        × (out.new ≡ Clean.leaves (stream_in (lent state.old ledger.old kept.old)) Close out.old)) }
{
    host_stream::rk_stream_clean_close(state, ledger, kept, out, told)
}
