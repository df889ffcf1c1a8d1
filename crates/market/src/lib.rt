// Whether a B-to-H market file is sound by 003, and if not what is wrong and where.
#![tactic(auto)]

ghost use Rattle.std.specs.Prelude.{◌≡◌, ◌+◌, ◌≤◌, length};
ghost use Rattle.market_columns.specs.Columns.{columns};
ghost use Rattle.market_spec.specs.File.{end_of, line_fault, type_at, layout_of, first_of, last_of, tail_fault, marks, mark_ok, left_over, and_then, count_ok, sum_ok, closing, trailer_fault, lines_fault, fault_of};
ghost use Rattle.market.specs.Papers.{fault_number, verdict_paper};
ghost use Rattle.market.specs.Starts.{line_number, start_number};

use market_columns::Amount;

// What is wrong: CR 10's numbers 40 to 47, in its order; and 8, too small a buffer, which no check
// gives.
#[derive(Clone, Copy, Debug, PartialEq, Eq)]
pub enum Fault {
    CutShort,
    Header,
    LineType,
    Column,
    Count,
    Trailer,
    Sum,
    Large,
    Room,
}

// CR 10's number of a fault.
impl From<Fault> for u64 {
    ghost from_gives = { λ fault n. n ≡ fault_number fault };

    fn from(fault: Fault) -> u64 {
        match fault {
            Fault::CutShort => 40,
            Fault::Header => 41,
            Fault::LineType => 42,
            Fault::Column => 43,
            Fault::Count => 44,
            Fault::Trailer => 45,
            Fault::Sum => 46,
            Fault::Large => 47,
            Fault::Room => 8,
        }
    }
}

// What is wrong, and where.
#[derive(Clone, Copy, Debug, PartialEq, Eq)]
pub struct Wrong {
    pub fault: Fault,
    pub place: usize,
}

// The types of a line.
#[derive(Clone, Copy, Debug, PartialEq, Eq)]
pub enum LineType {
    Md401,
    Md404,
    Md405,
    Md406,
}

// What stands at a line's start: its type, the trailer, one of these cut short, or none of them.
#[derive(Clone, Copy, Debug, PartialEq, Eq)]
pub enum Start {
    Line(LineType),
    Trailer,
    Cut,
    Other,
}

// The rows of a layout: from first up to last, of the 58 that there are.
#[derive(Clone, Copy, Debug, PartialEq, Eq)]
pub struct Rows {
    pub first: usize,
    pub last: usize,
    ghost within: { last ≤ 58 },
}

// The rows of the header.
pub const HEADER: Rows = Rows { first: 0, last: 9 };

impl LineType {
    // The rows of a line's type.
    pub fn rows(self) -> Rows
        ensures { (columns result.first result.last ≡ layout_of (line_number self)) × ((result.first ≡ first_of (line_number self)) × (result.last ≡ last_of (line_number self))) }
    {
        let (first, last) = match self {
            LineType::Md401 => (9, 26),
            LineType::Md404 => (26, 36),
            LineType::Md405 => (36, 46),
            LineType::Md406 => (46, 58),
        };
        Rows { first, last }
    }
}

// The rows of a line's type by its number, 1 to 4; any other number has those of 4.
pub fn rows_of(t: u8) -> Rows
    ensures { (columns result.first result.last ≡ layout_of t) × ((result.last ≤ 58) × ((result.first ≡ first_of t) × (result.last ≡ last_of t))) }
{
    match t {
        1 => LineType::Md401.rows(),
        2 => LineType::Md404.rows(),
        3 => LineType::Md405.rows(),
        _ => LineType::Md406.rows(),
    }
}

// The byte that is due behind the column of row i, of a layout whose rows end before last:
// a newline behind the last, else a bar.
pub fn due(i: usize, last: usize) -> u8
    ensures { result ≡ end_of (columns (i + 1) last) }
{
    if (last <= i) | (57 <= i) {
        return b'\n';
    }
    if i + 1 == last { b'\n' } else { b'|' }
}

// The columns of some rows, in s from at on: the place behind them, or the first fault, which is
// the given one where a column or the byte behind it is wrong.
fn line_at(s: &[u8], at: usize, rows: Rows, fault: Fault) -> Result<usize, Wrong>
    requires { at ≤ length s.now }
    ensures { verdict_paper result ≡ line_fault (fault_number fault) (columns rows.first rows.last) at s.now }
{
    let cut = Wrong {
        fault: Fault::CutShort,
        place: s.len(),
    };
    let mut p = at;
    for i in rows.first..rows.last {
        let width = market_columns::column(i).width;
        if s.len() - p < width {
            return Err(cut);
        }
        if !market_columns::column_ok(s, p, i) {
            return Err(Wrong { fault, place: p });
        }
        let e = p + width;
        if s.len() <= e {
            return Err(cut);
        }
        if s[e] != due(i, rows.last) {
            return Err(Wrong { fault, place: e });
        }
        p = e + 1;
    }
    Ok(p)
}

// What stands at a line's start.
fn type_at(s: &[u8], at: usize) -> Start
    requires { at ≤ length s.now }
    ensures { start_number result ≡ type_at at s.now }
{
    let rest = &s[at..];
    if rest.starts_with(b"MD401") {
        return Start::Line(LineType::Md401);
    }
    if rest.starts_with(b"MD404") {
        return Start::Line(LineType::Md404);
    }
    if rest.starts_with(b"MD405") {
        return Start::Line(LineType::Md405);
    }
    if rest.starts_with(b"MD406") {
        return Start::Line(LineType::Md406);
    }
    if rest.starts_with(b"TRAILER") {
        return Start::Trailer;
    }
    if b"MD401".starts_with(rest)
        | b"MD404".starts_with(rest)
        | b"MD405".starts_with(rest)
        | b"MD406".starts_with(rest)
        | b"TRAILER".starts_with(rest)
    {
        return Start::Cut;
    }
    Start::Other
}

// What stands at a place as a line's start. Past the end nothing stands, as if a word were cut
// short.
pub fn line_type(s: &[u8], at: usize) -> Start
    ensures { start_number result ≡ type_at at s.now }
{
    if s.len() < at {
        return Start::Cut;
    }
    type_at(s, at)
}

// Behind TRAILER: a bar, three digits (0 here), a newline.
const MARKS: [u8; 5] = [b'|', 0, 0, 0, b'\n'];

fn mark_ok(m: u8, b: u8) -> bool
    ensures { result ≡ mark_ok m b }
{
    if m == 0 { b.is_ascii_digit() } else { b == m }
}

// The five bytes behind TRAILER, in s from at on.
fn tail_at(s: &[u8], at: usize) -> Result<usize, Wrong>
    requires { at ≤ length s.now }
    ensures { verdict_paper result ≡ tail_fault marks at s.now }
{
    for (i, &m) in MARKS.iter().enumerate() {
        let p = at + i;
        if s.len() <= p {
            return Err(Wrong {
                fault: Fault::CutShort,
                place: s.len(),
            });
        }
        if !mark_ok(m, s[p]) {
            return Err(Wrong {
                fault: Fault::Trailer,
                place: p,
            });
        }
    }
    Ok(at + MARKS.len())
}

// The same, and nothing behind them.
fn end_at(s: &[u8], at: usize) -> Result<usize, Wrong>
    requires { at ≤ length s.now }
    ensures { verdict_paper result ≡ and_then (tail_fault marks at s.now) (left_over s.now) }
{
    let p = tail_at(s, at)?;
    if p < s.len() {
        return Err(Wrong {
            fault: Fault::CutShort,
            place: p,
        });
    }
    Ok(p)
}

// Whether the header counts k lines.
fn count_ok(s: &[u8], k: usize) -> bool
    ensures { result ≡ count_ok k s.now }
{
    let counted = Amount {
        sign: 0,
        units: k as u64,
    };
    market_columns::number_at(s, 27, market_columns::column(3)) == Some(counted)
}

// Whether the three digits of the trailer at a place are the sum of all bytes before them.
fn sum_ok(s: &[u8], at: usize) -> bool
    requires { at + 7 ≤ length s.now }
    ensures { result ≡ sum_ok at s.now }
{
    digits::digits_at(s, at + 8, 3) == Some(u64::from(octets::sum(s, 0, at + 8)))
}

// A file of k lines whose trailer, at a place, has nothing wrong: its count, then its sum.
fn close(s: &[u8], at: usize, k: usize) -> Result<usize, Wrong>
    requires { at + 7 ≤ length s.now }
    ensures { verdict_paper result ≡ closing k at s.now }
{
    if !count_ok(s, k) {
        return Err(Wrong {
            fault: Fault::Count,
            place: 0,
        });
    }
    if !sum_ok(s, at) {
        return Err(Wrong {
            fault: Fault::Sum,
            place: 0,
        });
    }
    Ok(k)
}

// The trailer at a place, behind k lines, and all that is judged there.
fn trailer_at(s: &[u8], at: usize, k: usize) -> Result<usize, Wrong>
    requires { at + 7 ≤ length s.now }
    ensures { verdict_paper result ≡ trailer_fault k at s.now }
{
    end_at(s, at + 7)?;
    close(s, at, k)
}

// All lines from a place on, and the trailer: how many lines they are.
fn lines_at(s: &[u8], at: usize) -> Result<usize, Wrong>
    requires { at ≤ length s.now }
    ensures { verdict_paper result ≡ lines_fault (length s.now + 1) 0 at s.now }
{
    let mut p = at;
    let mut k: usize = 0;
    loop {
        match type_at(s, p) {
            Start::Line(line) => {
                p = line_at(s, p, line.rows(), Fault::Column)?;
                k += 1;
            }
            Start::Trailer => return trailer_at(s, p, k),
            Start::Cut => {
                return Err(Wrong {
                    fault: Fault::CutShort,
                    place: s.len(),
                });
            }
            Start::Other => {
                return Err(Wrong {
                    fault: Fault::LineType,
                    place: p,
                });
            }
        }
    }
}

// Whether a file is sound: the number of its lines; or what is wrong, and where.
pub fn check(file: &[u8]) -> Result<usize, Wrong>
    ensures { verdict_paper result ≡ fault_of file.now }
{
    if 65536 < file.len() {
        return Err(Wrong {
            fault: Fault::Large,
            place: 0,
        });
    }
    let p = line_at(file, 0, HEADER, Fault::Header)?;
    lines_at(file, p)
}
