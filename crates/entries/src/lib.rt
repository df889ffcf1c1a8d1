// The entries of an M102 body, walked by a small reader that carries the caller's bytes and its
// place. Its functions are thin, over one on a plain slice.
#![tactic(auto)]

ghost use Rattle.std.specs.Prelude.{◌≡◌, ◌+◌, ◌-◌, ◌≤◌, length};
ghost use Rattle.std.specs.Iterator.{at_most};
ghost use Rattle.terms.specs.Verdicts.{verdict_number};
ghost use Rattle.entries.specs.Reader.{open_of, stands, entry_at, size_in, Opens, Stops, Steps};
ghost use Rattle.entries.specs.Papers.{entry_paper, answer_of};

use octets::Number;
use rules::Kind;
use terms::Refusal;

// The reader: the body that it walks, and where the next entry starts.
#[derive(Clone, Copy)]
pub struct Entries<'a> {
    pub body: &'a [u8],
    pub place: usize,
}

// One entry. Only those of stream MD001 are short.
#[derive(Clone, Copy, Debug, PartialEq, Eq)]
pub enum Entry {
    Short {
        kind: u16,
        price: u64,
    },
    Long {
        kind: u16,
        price: u64,
        size: u64,
        position: u8,
    },
}

// What a step found: the entry, and the place behind it.
#[derive(Clone, Copy, Debug, PartialEq, Eq)]
pub struct Found {
    pub entry: Entry,
    pub behind: usize,
}

// Whether a body may be walked: the checks 3, 4 and 6 as for M102.
// (Not `judge`: it is there for a message, and a body alone has no sending time.)
pub fn open_at(body: &[u8]) -> Result<(), Refusal>
    ensures { verdict_number result ≡ open_of body.now }
{
    rules::measure(Kind::M102, body.len())?;
    if rules::fields_ok(Kind::M102, body) {
        Ok(())
    } else {
        Err(Refusal::Field)
    }
}

// Whether an entry of w bytes stands at a place: none of the three conditions of row 20 is met.
// A place from 73 on that is not beyond the end leaves no body below 73 bytes.
fn is_entry(body: &[u8], place: usize, w: usize) -> bool
    requires { w ≡ size_in body.now }
    ensures { result ≡ stands body.now place }
{
    if place < 73 {
        return false;
    }
    if body.len() < place {
        return false;
    }
    let n = u16::at(body, 71) as usize;
    let i = place - 73;
    (i % w == 0) & (i / w < n) & (w <= body.len() - place)
}

// The entry of w bytes at a place.
fn entry_at(body: &[u8], place: usize, w: usize) -> Entry
    requires { (w ≡ size_in body.now) × (place + w ≤ length body.now) }
    ensures { entry_paper result ≡ entry_at body.now place }
{
    let kind = u16::at(body, place);
    let price = u64::at(body, place + 2);
    if w == 10 {
        return Entry::Short { kind, price };
    }
    let size = u64::at(body, place + 10);
    let position = u8::at(body, place + 18);
    Entry::Long {
        kind,
        price,
        size,
        position,
    }
}

// The decoder: the entry at a place and the place behind it, or 20. The stream and NoMDEntries are
// read from the body, whoever made the reader.
pub fn step_from(body: &[u8], place: usize) -> Result<Found, Refusal>
    ensures { Stops body.now place result }
{
    let w = rules::entry_size(octets::letters_at(body, 10));
    if !is_entry(body, place, w) {
        return Err(Refusal::Entries);
    }
    Ok(Found {
        entry: entry_at(body, place, w),
        behind: place + w,
    })
}

// A reader over a body, at its first entry; or what `open_at` refuses.
pub fn reader_of<'a>(body: &'a [u8]) -> Result<Entries<'a>, Refusal>
    ensures { Opens body.entry result }
{
    open_at(body)?;
    Ok(Entries { body, place: 73 })
}

impl<'a> Entries<'a> {
    // The entry at the reader's place, which moves behind it; or 20, and the reader stays.
    pub fn step(&mut self) -> Result<Entry, Refusal>
        ensures { Steps self.old result self.new }
    {
        let found = step_from(self.body, self.place)?;
        self.place = found.behind;
        Ok(found.entry)
    }
}

// Its entries in turn, up to the first place where none stands.
impl<'a> Iterator for Entries<'a> {
    type Item = Entry;

    ghost next_gives = { λ d x e. Steps d (answer_of x) e };

    ghost remaining = { λ d. at_most (length d.body.now - d.place) };

    fn next(&mut self) -> Option<Entry> {
        self.step().ok()
    }
}
