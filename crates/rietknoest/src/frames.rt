// The functions of host_frames.

ghost use Rattle.std.specs.Prelude.{◌≡◌, [], ◌∷◌, length, drop};
ghost use Rattle.frame_spec.specs.Write.{message, write_of, left_of};
ghost use Rattle.private.specs.Scrub.{scrub_answer, scrubbed};
ghost use Rattle.private.specs.Parts.{span_answer};
ghost use Rattle.host_words.specs.Told.{Tells};
ghost use Rattle.host_frames.specs.Frames.{read_told, search_told, tail_told, broken_told, entries_told, entry_told};

#[unsafe(no_mangle)]
pub extern "C" fn rk_read(bytes: &[u8], place: usize, told: &mut [u64; 9]) -> u32
    ensures { Tells (read_told (drop place bytes.now)) told.old result told.new }
{
    host_frames::rk_read(bytes, place, told)
}

#[unsafe(no_mangle)]
pub extern "C" fn rk_write(
    msg_type: u32,
    sending_time: u64,
    seq: u64,
    body: &[u8],
    out: &mut [u8],
    told: &mut u64,
) -> u32
    ensures { Tells (write_of (message msg_type sending_time seq body.now) (length out.old)) (told.old ∷ []) result (told.new ∷ [])
        × (out.new ≡ left_of (message msg_type sending_time seq body.now) out.old) }
{
    host_frames::rk_write(msg_type, sending_time, seq, body, out, told)
}

#[unsafe(no_mangle)]
pub extern "C" fn rk_search(bytes: &[u8], from: usize, told: &mut [u64; 2]) -> u32
    ensures { Tells (search_told bytes.now from) told.old result told.new }
{
    host_frames::rk_search(bytes, from, told)
}

#[unsafe(no_mangle)]
pub extern "C" fn rk_scrub(frame: &mut [u8], told: &mut u64) -> u32
    ensures { Tells (scrub_answer frame.old) (told.old ∷ []) result (told.new ∷ [])
        × (frame.new ≡ scrubbed frame.old) }
{
    host_frames::rk_scrub(frame, told)
}

#[unsafe(no_mangle)]
pub extern "C" fn rk_private(msg_type: u32, body: &[u8], i: usize, told: &mut [u64; 3]) -> u32
    ensures { Tells (span_answer msg_type body.now i) told.old result told.new }
{
    host_frames::rk_private(msg_type, body, i, told)
}

#[unsafe(no_mangle)]
pub extern "C" fn rk_tail_field(body: &[u8], i: usize, told: &mut [u64; 4]) -> u32
    ensures { Tells (tail_told body.now i) told.old result told.new }
{
    host_frames::rk_tail_field(body, i, told)
}

#[unsafe(no_mangle)]
pub extern "C" fn rk_broken_field(msg_type: u32, body: &[u8], told: &mut [u64; 5]) -> u32
    ensures { Tells (broken_told msg_type body.now) told.old result told.new }
{
    host_frames::rk_broken_field(msg_type, body, told)
}

#[unsafe(no_mangle)]
pub extern "C" fn rk_entries(body: &[u8], told: &mut u64) -> u32
    ensures { Tells (entries_told body.now) (told.old ∷ []) result (told.new ∷ []) }
{
    host_frames::rk_entries(body, told)
}

#[unsafe(no_mangle)]
pub extern "C" fn rk_entry(body: &[u8], place: usize, told: &mut [u64; 6]) -> u32
    ensures { Tells (entry_told body.now place) told.old result told.new }
{
    host_frames::rk_entry(body, place, told)
}
