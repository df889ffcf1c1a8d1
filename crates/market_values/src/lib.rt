// The values of a B-to-H market file taken out of it as bytes, and a file written from them.
// First MDTime, MDUpdateType and MktStatus, then for each line its type and its columns' values.
#![tactic(auto)]

ghost use Rattle.std.specs.Prelude.{◌≡◌, true, ◌∷◌, ◌+◌, ◌≤◌, length, get_or, take, drop};
ghost use Rattle.octets.specs.Octets.{be, laid, bytes_of, sum8, Bytes};
ghost use Rattle.market_columns.specs.Columns.{row_of, columns, wide, column_ok};
ghost use Rattle.market_columns.specs.Tables.{length_of};
ghost use Rattle.market_columns.specs.Values.{fits, text_of, value_in};
ghost use Rattle.market.specs.Papers.{verdict_paper};
ghost use Rattle.market.specs.Starts.{line_number};
ghost use Rattle.market_spec.specs.File.{layout_of, fine};
ghost use Rattle.market_spec.specs.LineValues.{line_text, line_values};
ghost use Rattle.market_spec.specs.ValueBytes.{size_of, taken_of, taken_line, taken_fault, AllFit, value_bytes, row_bytes};
ghost use Rattle.market_spec.specs.TakenBack.{sizes_of};
ghost use Rattle.market_spec.specs.FileBytes.{type_of, type_number, lines_bytes, values_bytes, values_answer, laid_if0, values_taken, values_given, written_answer};
ghost use Rattle.market_spec.specs.Sound.{Sound, values_of, head_text, file_of};
ghost use Rattle.market_spec.specs.LinesValues.{lines_text};
ghost use Rattle.market_spec.specs.TrailerText.{trailer_text};
ghost use Rattle.market_values.specs.Giving.{Right};
ghost use Rattle.market_values.specs.Steps.{some_number};
ghost use Rattle.market_values.specs.Writing.{judged_paper, lines_judged, judged_of, HeadGood, trailer_front, FileGood};

use market::{Fault, LineType, Rows, Start, Wrong};
use market_columns::{Amount, Kind};
use octets::Number;

// The rows of the header's own values.
const OWN: Rows = Rows { first: 6, last: 9 };

// How many bytes the value of row i's column has.
fn size(i: usize) -> usize
    ensures { result ≡ size_of (row_of i) }
{
    let form = market_columns::column(i);
    match form.kind {
        Kind::Constant | Kind::Blank => 0,
        Kind::Number => 9,
        Kind::Text | Kind::Name => form.width,
    }
}

// The nine bytes of s from p on as an amount: its sign, any byte, then the units.
fn amount_at(s: &[u8], p: usize) -> Amount
    requires { p + 9 ≤ length s.now }
    ensures { (result.sign ≡ get_or s.now p 0) × (result.units ≡ be 8 (p + 1) s.now) }
{
    Amount {
        sign: s[p],
        units: u64::at(s, p + 1),
    }
}

// Whether the value that stands in s from p on fits the column of row i.
fn value_fits(s: &[u8], p: usize, i: usize) -> bool
    requires { p + size_of (row_of i) ≤ length s.now }
    ensures { result ≡ fits (row_of i) (taken_of (row_of i) (drop p s.now)) }
{
    let form = market_columns::column(i);
    match form.kind {
        Kind::Constant | Kind::Blank | Kind::Name => true,
        Kind::Number => market_columns::number_fits(form, amount_at(s, p)),
        Kind::Text => market_columns::column_ok(s, p, i),
    }
}

// Lays the column of row i over out from at on, made of the value that stands in s from p on and
// fits it.
fn put_column(out: &mut [u8], at: usize, s: &[u8], p: usize, i: usize)
    requires { (at + wide (row_of i) ≤ length out.old) × ((p + size_of (row_of i) ≤ length s.now) × (fits (row_of i) (taken_of (row_of i) (drop p s.now)) ≡ true)) }
    ensures { out.new ≡ laid at (text_of (row_of i) (taken_of (row_of i) (drop p s.now))) out.old }
{
    let form = market_columns::column(i);
    match form.kind {
        Kind::Constant | Kind::Blank => {
            market_columns::put_fixed(out, at, i);
        }
        Kind::Number => {
            market_columns::put_number(out, at, form, amount_at(s, p));
        }
        Kind::Text | Kind::Name => {
            let _ = octets::lay(out, at, &s[p..p + form.width]);
        }
    }
}

// The values of some rows, in s from a place on: the place behind them, or the first that is cut
// short or does not fit.
fn values_fit(s: &[u8], at: usize, rows: Rows) -> Result<usize, Wrong>
    requires { at ≤ length s.now }
    ensures { verdict_paper result ≡ taken_fault (columns rows.first rows.last) at s.now }
{
    let mut p = at;
    for i in rows.first..rows.last {
        let n = size(i);
        if s.len() - p < n {
            return Err(Wrong {
                fault: Fault::CutShort,
                place: s.len(),
            });
        }
        if !value_fits(s, p, i) {
            return Err(Wrong {
                fault: Fault::Column,
                place: p,
            });
        }
        p += n;
    }
    Ok(p)
}

// Lays the line of some rows over out from at on, made of the values that stand in s from `from`
// on, all of which fit.
fn put_line(out: &mut [u8], at: usize, s: &[u8], from: usize, rows: Rows)
    requires { (at + length_of (columns rows.first rows.last) ≤ length out.old) × AllFit (columns rows.first rows.last) from s.now }
    ensures { out.new ≡ laid at (line_text (columns rows.first rows.last) (taken_line (columns rows.first rows.last) (drop from s.now))) out.old }
{
    let mut a = at;
    let mut p = from;
    for i in rows.first..rows.last {
        let e = a + market_columns::column(i).width;
        put_column(out, a, s, p, i);
        out[e] = market::due(i, rows.last);
        p += size(i);
        a = e + 1;
    }
}

// TAKING OUT

// Lays an amount's sign and units, nine bytes, over out from at on.
fn give_number(out: &mut [u8], at: usize, amount: Amount)
    requires { at + 9 ≤ length out.old }
    ensures { out.new ≡ laid at (amount.sign ∷ bytes_of 8 amount.units) out.old }
{
    out[at] = amount.sign;
    let _ = octets::put(out, at + 1, 8, amount.units);
}

// Lays the value of row i's column, which stands right in s from p on, over out from at on.
fn give_column(out: &mut [u8], at: usize, s: &[u8], p: usize, i: usize)
    requires { (at + size_of (row_of i) ≤ length out.old) × ((p + wide (row_of i) ≤ length s.now) × (column_ok (row_of i) (take (wide (row_of i)) (drop p s.now)) ≡ true)) }
    ensures { out.new ≡ laid at (value_bytes (value_in (row_of i) (take (wide (row_of i)) (drop p s.now)))) out.old }
{
    let form = market_columns::column(i);
    match form.kind {
        Kind::Constant | Kind::Blank => {}
        Kind::Number => {
            if let Some(amount) = market_columns::number_at(s, p, form) {
                give_number(out, at, amount);
            }
        }
        Kind::Text | Kind::Name => {
            let _ = octets::lay(out, at, &s[p..p + form.width]);
        }
    }
}

// Lays the values of some rows, a line of s from a place on with nothing wrong, over out from at
// on.
fn give_line(out: &mut [u8], at: usize, s: &[u8], from: usize, rows: Rows)
    requires { (at + sizes_of (columns rows.first rows.last) ≤ length out.old) × Right (columns rows.first rows.last) from s.now }
    ensures { out.new ≡ laid at (row_bytes (line_values (columns rows.first rows.last) (drop from s.now))) out.old }
{
    let mut a = at;
    let mut p = from;
    for i in rows.first..rows.last {
        give_column(out, a, s, p, i);
        a += size(i);
        p += market_columns::column(i).width + 1;
    }
}

// How many bytes a line has, and its values with the two of its type.
#[derive(Clone, Copy, Debug, PartialEq, Eq)]
struct Sizes {
    bytes: usize,
    values: usize,
}

fn line_sizes(line: LineType) -> Sizes
    ensures { ((result.bytes ≡ length_of (layout_of (line_number line))) × (result.bytes ≤ 227)) × ((result.values ≡ 2 + sizes_of (layout_of (line_number line))) × (result.values ≤ 173)) }
{
    let (bytes, values) = match line {
        LineType::Md401 => (227, 173),
        LineType::Md404 => (128, 109),
        LineType::Md405 => (125, 103),
        LineType::Md406 => (149, 121),
    };
    Sizes { bytes, values }
}

// The number of a line's type, and the type of a number.
fn type_number(line: LineType) -> u64
    ensures { result ≡ type_number (line_number line) }
{
    match line {
        LineType::Md401 => 401,
        LineType::Md404 => 404,
        LineType::Md405 => 405,
        LineType::Md406 => 406,
    }
}

fn type_of(n: u16) -> Option<LineType>
    ensures { some_number result ≡ type_of n }
{
    match n {
        401 => Some(LineType::Md401),
        404 => Some(LineType::Md404),
        405 => Some(LineType::Md405),
        406 => Some(LineType::Md406),
        _ => None,
    }
}

// How many bytes the values of a sound file have.
fn values_size(s: &[u8]) -> usize
    requires { Sound s.now }
    ensures { result ≡ length (values_bytes (values_of s.now)) }
{
    let mut p: usize = 82;
    let mut n: usize = 38;
    while let Start::Line(line) = market::line_type(s, p) {
        let sizes = line_sizes(line);
        n += sizes.values;
        p += sizes.bytes;
    }
    n
}

// Lays the values of all lines of a sound file over out, behind those of the header.
fn give_lines(out: &mut [u8], s: &[u8])
    requires { Sound s.now × (length (values_bytes (values_of s.now)) ≤ length out.old) }
    ensures { out.new ≡ laid 38 (lines_bytes (values_of s.now).lines) out.old }
{
    let mut a: usize = 38;
    let mut p: usize = 82;
    while let Start::Line(line) = market::line_type(s, p) {
        let _ = octets::put(out, a, 2, type_number(line));
        give_line(out, a + 2, s, p, line.rows());
        let sizes = line_sizes(line);
        a += sizes.values;
        p += sizes.bytes;
    }
}

// Lays all values of a sound file over out.
fn give_all(out: &mut [u8], s: &[u8])
    requires { Sound s.now × (length (values_bytes (values_of s.now)) ≤ length out.old) }
    ensures { out.new ≡ laid 0 (values_bytes (values_of s.now)) out.old }
{
    give_line(out, 0, s, 49, OWN);
    give_lines(out, s);
}

// Takes the values out of a file, and answers how many bytes they are. What the check refuses is
// refused so, and where they have no room the answer is 8; nothing is written then.
pub fn values(file: &[u8], out: &mut [u8]) -> Result<usize, Wrong>
    ensures { (verdict_paper result ≡ values_answer (length out.old) file.now) × (out.new ≡ laid_if0 (values_answer (length out.old) file.now) (values_bytes (values_of file.now)) out.old) }
{
    market::check(file)?;
    let n = values_size(file);
    if out.len() < n {
        return Err(Wrong {
            fault: Fault::Room,
            place: 0,
        });
    }
    give_all(out, file);
    Ok(n)
}

// WRITING

// Values with nothing wrong: how long the file is that they make, and how many lines it has.
#[derive(Clone, Copy, Debug, PartialEq, Eq)]
struct Good {
    size: usize,
    lines: usize,
}

// The lines' values, behind those of the header.
fn judge_lines(s: &[u8]) -> Result<Good, Wrong>
    requires { 38 ≤ length s.now }
    ensures { judged_paper result ≡ lines_judged s.now }
{
    let mut p: usize = 38;
    let mut lines: usize = 0;
    let mut size: usize = 94;
    while p < s.len() {
        if s.len() - p < 2 {
            return Err(Wrong {
                fault: Fault::CutShort,
                place: s.len(),
            });
        }
        let Some(line) = type_of(u16::at(s, p)) else {
            return Err(Wrong {
                fault: Fault::LineType,
                place: p,
            });
        };
        p = values_fit(s, p + 2, line.rows())?;
        size += line_sizes(line).bytes;
        lines += 1;
    }
    Ok(Good { size, lines })
}

// All values.
fn judge(s: &[u8]) -> Result<Good, Wrong>
    ensures { judged_paper result ≡ judged_of s.now }
{
    values_fit(s, 0, OWN)?;
    judge_lines(s)
}

// Lays the header of a file of k lines over out.
fn put_head(out: &mut [u8], s: &[u8], k: usize)
    requires { HeadGood s.now k × (82 ≤ length out.old) }
    ensures { out.new ≡ laid 0 (head_text (values_given s.now)) out.old }
{
    let mut h = [0u8; 47];
    let _ = octets::put(&mut h, 1, 8, k as u64);
    let _ = octets::lay(&mut h, 9, &s[..38]);
    put_line(out, 0, &h, 0, market::HEADER);
}

// Lays all lines over out, behind the header.
fn put_lines(out: &mut [u8], s: &[u8])
    requires { (values_taken s.now ≡ fine 0) × (82 + length (lines_text (values_given s.now).lines) ≤ length out.old) }
    ensures { out.new ≡ laid 82 (lines_text (values_given s.now).lines) out.old }
{
    let mut a: usize = 82;
    let mut p: usize = 38;
    while p < s.len() {
        let Some(line) = type_of(u16::at(s, p)) else {
            return;
        };
        put_line(out, a, s, p + 2, line.rows());
        let sizes = line_sizes(line);
        a += sizes.bytes;
        p += sizes.values;
    }
}

// Lays the trailer over out at a place: TRAILER, a bar, the sum of all bytes up to there, a
// newline.
fn put_trailer(out: &mut [u8], at: usize)
    requires { at + 12 ≤ length out.old }
    ensures { out.new ≡ laid at (trailer_text (sum8 (take (at + 8) (laid at trailer_front out.old)))) out.old }
{
    let _ = octets::lay(out, at, b"TRAILER|");
    let v = octets::sum(out, 0, at + 8);
    let _ = digits::put_digits(out, at + 8, 3, u64::from(v));
    out[at + 11] = b'\n';
}

// Lays the file that good values make over out.
fn put_file(out: &mut [u8], s: &[u8], good: Good)
    requires { FileGood s.now good.size good.lines × (good.size ≤ length out.old) }
    ensures { out.new ≡ laid 0 (file_of (values_given s.now)) out.old }
{
    put_head(out, s, good.lines);
    put_lines(out, s);
    put_trailer(out, good.size - 12);
}

// Writes the file that values make, and answers how long it is. Refused are, by rising place among
// the values, 40, 42 and 43; then 47 for too long a file, then 8 for too small a buffer; nothing is
// written then.
pub fn written(values: &[u8], out: &mut [u8]) -> Result<usize, Wrong>
    ensures { (verdict_paper result ≡ written_answer (length out.old) values.now) × ((out.new ≡ laid_if0 (written_answer (length out.old) values.now) (file_of (values_given values.now)) out.old) × Bytes values.now) }
{
    let good = judge(values)?;
    if 65536 < good.size {
        return Err(Wrong {
            fault: Fault::Large,
            place: 0,
        });
    }
    if out.len() < good.size {
        return Err(Wrong {
            fault: Fault::Room,
            place: 0,
        });
    }
    put_file(out, values, good);
    Ok(good.size)
}
