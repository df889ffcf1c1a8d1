// What C and Rust may call on market files: each answers a number and the place or count beside it.
// A refusal leaves the lent buffer as it was.
#![tactic(auto)]

ghost use Rattle.std.specs.Prelude.{◌≡◌, length};
ghost use Rattle.market.specs.Papers.{verdict_paper};
ghost use Rattle.market_spec.specs.File.{fault_of};
ghost use Rattle.market_spec.specs.Sound.{values_of, file_of};
ghost use Rattle.market_spec.specs.FileBytes.{values_bytes, values_answer, laid_if0, values_given, written_answer};
ghost use Rattle.host_market.specs.Findings.{finding_paper};

use market::Wrong;

// 0, or CR 10's number; and beside 0 a count (lines, or bytes written), beside a refusal its place.
#[repr(C)]
#[derive(Clone, Copy, Debug, PartialEq, Eq)]
pub struct Finding {
    pub number: u64,
    pub place: u64,
}

// An answer as C is told it: 0 and the count, or the fault's number and its place.
impl From<Result<usize, Wrong>> for Finding {
    ghost from_gives = { λ answer finding. finding_paper finding ≡ verdict_paper answer };

    fn from(answer: Result<usize, Wrong>) -> Finding {
        let (number, place) = match answer {
            Ok(count) => (0, count),
            Err(wrong) => (u64::from(wrong.fault), wrong.place),
        };
        Finding {
            number,
            place: place as u64,
        }
    }
}

// Whether a file is sound: 0 and its lines, or the first fault and its place.
pub fn rk_market_check(file: &[u8]) -> Finding
    ensures { finding_paper result ≡ fault_of file.now }
{
    Finding::from(market::check(file))
}

// Takes the values out of a file, over the front of out: 0 and how many bytes they are, or as the
// check answers, then 8.
pub fn rk_market_values(file: &[u8], out: &mut [u8]) -> Finding
    ensures { (finding_paper result ≡ values_answer (length out.old) file.now)
        × (out.new ≡ laid_if0 (values_answer (length out.old) file.now) (values_bytes (values_of file.now)) out.old) }
{
    Finding::from(market_values::values(file, out))
}

// Writes the file that values make over the front of out: 0 and how long it is, or 40, 42, 43, then
// 47, then 8.
pub fn rk_market_write(values: &[u8], out: &mut [u8]) -> Finding
    ensures { (finding_paper result ≡ written_answer (length out.old) values.now)
        × (out.new ≡ laid_if0 (written_answer (length out.old) values.now) (file_of (values_given values.now)) out.old) }
{
    Finding::from(market_values::written(values, out))
}
