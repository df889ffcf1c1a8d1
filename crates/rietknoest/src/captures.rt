// The functions of host_captures.

ghost use Rattle.std.specs.Prelude.{◌≡◌, [], ◌∷◌, length};
ghost use Rattle.octets.specs.Papers.{room_for, laid_if_room};
ghost use Rattle.listing_text.specs.Whole.{lines_in};
ghost use Rattle.walk_spec.specs.Walk.{walk_answer, walk_leaves};
ghost use Rattle.clean_spec.specs.Clean.{clean_answer, clean_leaves};
ghost use Rattle.host_words.specs.Told.{Tells};
ghost use Rattle.host_captures.specs.Captures.{walk_words, record_told, listing_told, listing_leaves, clean_told};

#[unsafe(no_mangle)]
pub extern "C" fn rk_walk(
    capture: &[u8],
    records: &mut [u8],
    state: &mut [u64; 9],
    told: &mut [u64; 3],
) -> u32
    ensures { Tells (walk_answer capture.now (length records.old)) told.old result told.new
        × ((state.new ≡ walk_words capture.now (length records.old) state.old)
        × (records.new ≡ walk_leaves capture.now records.old)) }
{
    host_captures::rk_walk(capture, records, state, told)
}

#[unsafe(no_mangle)]
pub extern "C" fn rk_record(bytes: &[u8], told: &mut [u64; 9]) -> u32
    ensures { Tells (record_told bytes.now) told.old result told.new }
{
    host_captures::rk_record(bytes, told)
}

#[unsafe(no_mangle)]
pub extern "C" fn rk_lines(records: &[u8], text: &mut [u8], told: &mut u64) -> u32
    ensures { Tells (room_for 0 (length (lines_in records.now)) (length text.old)) (told.old ∷ []) result (told.new ∷ [])
        × (text.new ≡ laid_if_room 0 (lines_in records.now) text.old) }
{
    host_captures::rk_lines(records, text, told)
}

#[unsafe(no_mangle)]
pub extern "C" fn rk_listing(
    records: &[u8],
    frames: u64,
    refused: u64,
    state: &[u64; 9],
    text: &mut [u8],
    told: &mut u64,
) -> u32
    ensures { Tells (listing_told records.now frames refused state.now (length text.old)) (told.old ∷ []) result (told.new ∷ [])
        × (text.new ≡ listing_leaves records.now frames refused state.now text.old) }
{
    host_captures::rk_listing(records, frames, refused, state, text, told)
}

#[unsafe(no_mangle)]
pub extern "C" fn rk_clean(capture: &[u8], out: &mut [u8], told: &mut [u64; 3]) -> u32
    ensures { Tells (clean_answer capture.now (length out.old)) told.old result told.new
        × (out.new ≡ clean_leaves capture.now out.old) }
{
    host_captures::rk_clean(capture, out, told)
}

#[unsafe(no_mangle)]
pub extern "C" fn rk_is_clean(capture: &[u8], told: &mut [u64; 2]) -> u32
    ensures { Tells (clean_told capture.now) told.old result told.new }
{
    host_captures::rk_is_clean(capture, told)
}
