// Lists the capture on standard input. Document 01, "Fault records and the listing".
#![tactic(auto)]

ghost use Rattle.std.specs.Prelude.{◌≡◌, ◌+◌, ◌*◌, ◌/◌, ◌≤◌, length};
ghost use Rattle.octets.specs.Octets.{Bytes};
ghost use Rattle.record.specs.Stored.{Stored};
ghost use Rattle.listing_text.specs.Listed.{listed_of};
ghost use Rattle.listing.specs.LastLine.{last_by};
ghost use Rattle.listing_text.specs.Output.{output_of};

use ledger::Ledger;
use listing_text::Summary;
use std::io::{self, Read, Write};
use walk::Counts;

// The largest capture that is taken. One byte more is read, which tells a capture that is too long.
const MOST: usize = 65536;

// A capture of so many bytes has at most 2 * (65536 / 29) + 2 = 4520 records, of 64 bytes each;
// their lines have at most 127 bytes each, and the last line 138.
const RECORDS: usize = 289280;

const TEXT: usize = 574178;

// The last line's numbers: the walk's counts, and what its ledger says in the end.
fn last_of(counts: Counts, ledger: Ledger) -> Summary
    ensures { result ≡ last_by counts ledger }
{
    Summary {
        frames: counts.frames as u64,
        refused: counts.refused as u64,
        floor: ledger.floor,
        top: ledger.top,
        missing: ledger.missing().answer.unwrap_or(0),
    }
}

// Writes the listing of a capture over the front of text, and returns the place after it.
fn list(capture: &[u8], records: &mut [u8], text: &mut [u8]) -> usize
    requires { (length capture.now ≤ 65536) × ((289280 ≤ length records.old) × (574178 ≤ length text.old)) }
    ensures { Stored 0 (listed_of capture.now) text.old text.new result }
{
    let walked = walk::walk(capture, records);
    let counts = walked.answer.unwrap();
    let last = last_of(counts, walked.ledger);
    listing_text::put_listing(text, &records[..64 * counts.records], last).unwrap()
}

// Writes what is to be printed for an input over the front of text, and returns the place after it.
fn output(input: &[u8], records: &mut [u8], text: &mut [u8]) -> usize
    requires { (289280 ≤ length records.old) × (574178 ≤ length text.old) }
    ensures { Stored 0 (output_of input.now) text.old text.new result }
{
    if MOST < input.len() {
        let said = b"capture over 65536 bytes\n";
        text[..said.len()].copy_from_slice(said);
        return said.len();
    }
    list(input, records, text)
}

// One byte more than is taken is read, and all that is listed is written.
fn main(rt: HostRuntime) -> io::Result<()> {
    let alloc = rt.alloc();
    let mut input = Vec::new(alloc);
    rt.stdin().take(MOST as u64 + 1).read_to_end(&mut input)?;
    let mut records = Vec::from_elem(alloc, 0u8, RECORDS)?;
    let mut text = Vec::from_elem(alloc, 0u8, TEXT)?;
    let e = output(&input, &mut records, &mut text);
    rt.stdout().write_all(&text[..e])
}
