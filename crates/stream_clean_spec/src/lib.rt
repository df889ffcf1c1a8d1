// What a stream that scrubs gives: the definitions of its calls stand in specs/, and the theorem
// over them, `cleaned_as_it_arrives`, in proofs/; the crate `stream_clean` makes the calls.
#![tactic(auto)]

// What was written: how many bytes, and how many frames they are; how many of these the search
// found after damage; and how many have a body that no rule judges (M101).
#[derive(Clone, Copy)]
pub struct Sums {
    pub bytes: usize,
    pub frames: usize,
    pub found: usize,
    pub unjudged: usize,
}
