// What C and Rust may call on whole captures: code and results as in `host_frames`. A refusal
// writes nothing: neither a result, nor into a buffer, nor into the nine words of a ledger (crate
// `host_words`).
#![tactic(auto)]

ghost use Rattle.std.specs.Prelude.{◌≡◌, [], ◌∷◌, length};
ghost use Rattle.octets.specs.Papers.{room_for, laid_if_room};
ghost use Rattle.listing_text.specs.Whole.{lines_in};
ghost use Rattle.walk_spec.specs.Walk.{walk_answer, walk_leaves};
ghost use Rattle.clean_spec.specs.Clean.{clean_answer, clean_leaves};
ghost use Rattle.host_words.specs.Told.{Tells};
ghost use Rattle.host_captures.specs.Captures.{walk_words, record_told, listing_told, listing_leaves, clean_told};

use listing_text::Summary;

// Walks a capture: a record of 64 bytes for each reading, and channel 100's ledger. Results: how
// many records, frames, and readings refused. Where the records have no room, 8, and nothing is
// written anywhere.
pub fn rk_walk(capture: &[u8], records: &mut [u8], state: &mut [u64; 9], told: &mut [u64; 3]) -> u32
    ensures { Tells (walk_answer capture.now (length records.old)) told.old result told.new
        × ((state.new ≡ walk_words capture.now (length records.old) state.old)
        × (records.new ≡ walk_leaves capture.now records.old)) }
{
    let walked = walk::walk(capture, records);
    host_words::keep(state, terms::number_of(walked.answer), walked.ledger);
    match walked.answer {
        Ok(counts) => {
            *told = [
                counts.records as u64,
                counts.frames as u64,
                counts.refused as u64,
            ];
            0
        }
        Err(why) => u32::from(why),
    }
}

// One record of a walk, the first 64 bytes; 1 where there are fewer. Results, as document 01 lays
// them out: place, MsgType, answer, MsgSeqNum, tick number, channel, BodyLength, floor, top.
pub fn rk_record(bytes: &[u8], told: &mut [u64; 9]) -> u32
    ensures { Tells (record_told bytes.now) told.old result told.new }
{
    if bytes.len() < 64 {
        return 1;
    }
    let read = record::record_at(bytes, 0);
    *told = [
        read.place,
        read.msg_type as u64,
        read.answer as u64,
        read.seq.value(),
        read.tick.value(),
        read.channel.value() as u64,
        read.body_len as u64,
        read.floor.value(),
        read.top.value(),
    ];
    0
}

// The lines of the listing without the last one: a line of each whole record. Result: how many
// bytes; or 8.
pub fn rk_lines(records: &[u8], text: &mut [u8], told: &mut u64) -> u32
    ensures { Tells (room_for 0 (length (lines_in records.now)) (length text.old)) (told.old ∷ []) result (told.new ∷ [])
        × (text.new ≡ laid_if_room 0 (lines_in records.now) text.old) }
{
    host_words::told_bytes(listing_text::put_lines(text, records), told)
}

// The listing of what a walk left: the line of each whole record, then the last line. Result: how
// many bytes. 13 where the words break the state rules, then 8.
pub fn rk_listing(
    records: &[u8],
    frames: u64,
    refused: u64,
    state: &[u64; 9],
    text: &mut [u8],
    told: &mut u64,
) -> u32
    ensures { Tells (listing_told records.now frames refused state.now (length text.old)) (told.old ∷ []) result (told.new ∷ [])
        × (text.new ≡ listing_leaves records.now frames refused state.now text.old) }
{
    let ledger = host_words::ledger_in(state);
    match ledger.missing().answer {
        Ok(missing) => {
            let last = Summary {
                frames,
                refused,
                floor: ledger.floor,
                top: ledger.top,
                missing,
            };
            host_words::told_bytes(listing_text::put_listing(text, records, last), told)
        }
        Err(why) => u32::from(why),
    }
}

// A capture, scrubbed: its accepted frames at the front of out, stray bytes left out. Results: how
// many bytes, how many frames, and how many of these the search found after damage.
pub fn rk_clean(capture: &[u8], out: &mut [u8], told: &mut [u64; 3]) -> u32
    ensures { Tells (clean_answer capture.now (length out.old)) told.old result told.new
        × (out.new ≡ clean_leaves capture.now out.old) }
{
    match clean::clean(capture, out) {
        Ok(cleaned) => {
            *told = [
                cleaned.bytes as u64,
                cleaned.frames as u64,
                cleaned.after_damage as u64,
            ];
            0
        }
        Err(why) => u32::from(why),
    }
}

// Whether a capture is what cleaning it gives. Results: 1 and the first place where the two differ,
// or 0 and 0 where none does.
pub fn rk_is_clean(capture: &[u8], told: &mut [u64; 2]) -> u32
    ensures { Tells (clean_told capture.now) told.old result told.new }
{
    *told = match clean::is_clean(capture) {
        None => [0, 0],
        Some(at) => [1, at as u64],
    };
    0
}
