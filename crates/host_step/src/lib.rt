// What C and Rust may call on STEP frames. Each function returns a code, a number of document 01 or
// 02 or 0; results go to an out-parameter: a fixed row of numbers (host/include/rietknoest.h). A
// refusal writes nothing there, nor into a buffer.
#![tactic(auto)]

ghost use Rattle.std.specs.Prelude.{◌≡◌, [], ◌∷◌, length, drop};
ghost use Rattle.host_words.specs.Told.{Tells};
ghost use Rattle.step_spec.specs.Fields.{field_at};
ghost use Rattle.step_spec.specs.Frame.{step_read_of};
ghost use Rattle.step_spec.specs.Written.{step_write_of, step_left_of};
ghost use Rattle.step_frame.specs.Papers.{step_written_paper};
ghost use Rattle.step_scrub.specs.Scrubbed.{step_scrub_of, step_scrub_left};

use step_frame::StepRefusal;

// Reads the frame at a place. Results: its type, the place of the fields after the frame's start,
// their length, the frame's length.
pub fn rk_step_read(bytes: &[u8], place: usize, told: &mut [u64; 4]) -> u32
    ensures { Tells (step_read_of (drop place bytes.now)) told.old result told.new }
{
    match step_frame::read_at(bytes, place) {
        Ok(frame) => {
            *told = [
                frame.kind as u64,
                frame.place as u64,
                frame.len as u64,
                frame.total as u64,
            ];
            0
        }
        Err(why) => u32::from(why),
    }
}

// The field at a place among fields. Results: its tag, the place and the length of its value, the
// place after it; 26 where none stands there.
pub fn rk_step_field(fields: &[u8], place: usize, told: &mut [u64; 4]) -> u32
    ensures { Tells (field_at place fields.now) told.old result told.new }
{
    match step_frame::field_at(fields, place) {
        Some(field) => {
            *told = [
                field.tag,
                field.value as u64,
                field.len as u64,
                field.next as u64,
            ];
            0
        }
        None => u32::from(StepRefusal::Fields),
    }
}

// What a call that writes returns: its number; the result is how many bytes.
fn told_bytes(written: Result<usize, StepRefusal>, told: &mut u64) -> u32
    ensures { Tells (step_written_paper written) (told.old ∷ []) result (told.new ∷ []) }
{
    match written {
        Ok(n) => {
            *told = n as u64;
            0
        }
        Err(why) => u32::from(why),
    }
}

// Writes a message at the front of out: a type and its fields, `tag=value` SOH one after the other.
// Result: how many bytes.
pub fn rk_step_write(kind: u8, fields: &[u8], out: &mut [u8], told: &mut u64) -> u32
    ensures { Tells (step_write_of kind fields.now (length out.old)) (told.old ∷ []) result (told.new ∷ [])
        × (out.new ≡ step_left_of kind fields.now out.old) }
{
    let written = step_frame::write(kind, fields, out);
    told_bytes(written, told)
}

// Scrubs the frame at the front of a buffer where it stands. Result: how many bytes it has.
pub fn rk_step_scrub(frame: &mut [u8], told: &mut u64) -> u32
    ensures { Tells (step_scrub_of frame.old) (told.old ∷ []) result (told.new ∷ [])
        × (frame.new ≡ step_scrub_left frame.old) }
{
    let scrubbed = step_scrub::scrub(frame);
    told_bytes(scrubbed, told)
}
