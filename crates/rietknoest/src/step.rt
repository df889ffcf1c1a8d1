// The functions of host_step.

ghost use Rattle.std.specs.Prelude.{◌≡◌, [], ◌∷◌, length, drop};
ghost use Rattle.host_words.specs.Told.{Tells};
ghost use Rattle.step_spec.specs.Fields.{field_at};
ghost use Rattle.step_spec.specs.Frame.{step_read_of};
ghost use Rattle.step_spec.specs.Written.{step_write_of, step_left_of};
ghost use Rattle.step_scrub.specs.Scrubbed.{step_scrub_of, step_scrub_left};

#[unsafe(no_mangle)]
pub extern "C" fn rk_step_read(bytes: &[u8], place: usize, told: &mut [u64; 4]) -> u32
    ensures { Tells (step_read_of (drop place bytes.now)) told.old result told.new }
{
    host_step::rk_step_read(bytes, place, told)
}

#[unsafe(no_mangle)]
pub extern "C" fn rk_step_field(fields: &[u8], place: usize, told: &mut [u64; 4]) -> u32
    ensures { Tells (field_at place fields.now) told.old result told.new }
{
    host_step::rk_step_field(fields, place, told)
}

#[unsafe(no_mangle)]
pub extern "C" fn rk_step_write(kind: u8, fields: &[u8], out: &mut [u8], told: &mut u64) -> u32
    ensures { Tells (step_write_of kind fields.now (length out.old)) (told.old ∷ []) result (told.new ∷ [])
        × (out.new ≡ step_left_of kind fields.now out.old) }
{
    host_step::rk_step_write(kind, fields, out, told)
}

#[unsafe(no_mangle)]
pub extern "C" fn rk_step_scrub(frame: &mut [u8], told: &mut u64) -> u32
    ensures { Tells (step_scrub_of frame.old) (told.old ∷ []) result (told.new ∷ [])
        × (frame.new ≡ step_scrub_left frame.old) }
{
    host_step::rk_step_scrub(frame, told)
}
