// Which field of a body breaks a rule: the lowest, in the order of document 01's widths. It is
// asked where reading has answered 6.
#![tactic(auto, unfolding(crate::specs::Broken::lowest_from, crate::specs::Broken::broken_of, rules::specs::Fields::tail_ok), using(crate::proofs::First::or_unless, crate::proofs::First::or_assoc))]

ghost use Rattle.std.specs.Prelude.{◌≡◌, ◌++◌, ◌+◌, ◌≤◌, length, drop};
ghost use Rattle.terms.specs.Paper.{pick};
ghost use Rattle.rules.specs.Sizes.{Wide, Entries};
ghost use Rattle.rules.specs.declared.Kind.TheVariants.{S001, S002, P001, P002, M102, M201};
ghost use Rattle.broken.specs.Broken.{none, broken_at, lowest_from, type_ok, fixed_fields, entry_fields, entries_fields, entries_of, fields_of, broken_of};

use octets::Number;
use rules::Kind;

// A field that breaks a rule: where it starts, how many bytes it has, and its number in the order
// of the type's widths, counted from 0. An M201's extension is number 9. The fields of an M102
// entry are numbers 13 to 16: type, price, size, position; `entry` is the entry's number, counted
// from 1, and 0 for any other field.
#[derive(Clone, Copy, Debug, PartialEq, Eq)]
pub struct Broken {
    pub place: usize,
    pub len: usize,
    pub index: u64,
    pub entry: usize,
}

// A field of an entry, unless it keeps its rule.
fn unless_in(entry: usize, ok: bool, place: usize, len: usize, index: u64) -> Option<Broken>
    ensures { result ≡ pick ok none (broken_at place len index entry) }
{
    (!ok).then_some(Broken {
        place,
        len,
        index,
        entry,
    })
}

// The same of any other field.
fn unless(ok: bool, place: usize, len: usize, index: u64) -> Option<Broken>
    ensures { result ≡ pick ok none (broken_at place len index 0) }
{
    unless_in(0, ok, place, len, index)
}

fn s001_broken(b: &[u8]) -> Option<Broken>
    ensures { result ≡ lowest_from (fields_of S001 b.now) none }
{
    let heart_bt_int = u16::at(b, 64);
    unless(0 < heart_bt_int, 64, 2, 2)
}

fn s002_broken(b: &[u8]) -> Option<Broken>
    ensures { result ≡ lowest_from (fields_of S002 b.now) none }
{
    let session_status = u32::at(b, 0);
    unless(session_status <= 9999, 0, 4, 0)
}

fn p001_broken(b: &[u8]) -> Option<Broken>
    ensures { result ≡ lowest_from (fields_of P001 b.now) none }
{
    let security_type = u8::at(b, 0);
    let channel_no = u16::at(b, 1);
    let appl_last_seq_num = u64::at(b, 3);
    let end_of_channel = u8::at(b, 11);
    let flag = (end_of_channel == b'Y') | (end_of_channel == b'N');
    unless(security_type == 13, 0, 1, 0)
        .or(unless(channel_no < 10000, 1, 2, 1))
        .or(unless(appl_last_seq_num < 1000000000000000000, 3, 8, 2))
        .or(unless(flag, 11, 1, 3))
}

fn p002_broken(b: &[u8]) -> Option<Broken>
    ensures { result ≡ lowest_from (fields_of P002 b.now) none }
{
    let channel_no = u16::at(b, 0);
    let resend_type = u8::at(b, 2);
    let first = u64::at(b, 3);
    let last = u64::at(b, 11);
    let status = u8::at(b, 19);
    let request = (0 < status) | (last == 0) | (first <= last);
    unless(channel_no < 10000, 0, 2, 0)
        .or(unless(resend_type == 1, 2, 1, 1))
        .or(unless((0 < first) & (first < 1000000000000000000), 3, 8, 2))
        .or(unless((last < 1000000000000000000) & request, 11, 8, 3))
        .or(unless((status <= 5) | (status == 99), 19, 1, 4))
}

// The extension's rule is its length.
fn m201_broken(b: &[u8]) -> Option<Broken>
    ensures { result ≡ lowest_from (fields_of M201 b.now) none }
{
    let security_type = u8::at(b, 0);
    let channel_no = u16::at(b, 1);
    let tick = u64::at(b, 3);
    let transact_time = u32::at(b, 24);
    let exec = u8::at(b, 28);
    let price = u64::at(b, 29);
    let order_qty = u64::at(b, 37);
    let tail = rules::suits_tail(rules::layout_of(octets::letters_at(b, 11), exec), b.len());
    let type_of_tick = (exec == b'0') | (exec == b'4') | (exec == b'F');
    unless(security_type == 13, 0, 1, 0)
        .or(unless(channel_no < 10000, 1, 2, 1))
        .or(unless((0 < tick) & (tick < 1000000000000000000), 3, 8, 2))
        .or(unless(transact_time < 1000000000, 24, 4, 5))
        .or(unless(type_of_tick, 28, 1, 6))
        .or(unless(price < 10000000000000, 29, 8, 7))
        .or(unless(order_qty < 1000000000000000, 37, 8, 8))
        .or(unless(tail, 45, b.len().saturating_sub(45), 9))
}

// Whether some stream goes with a security type in an M102.
fn type_ok(t: u8) -> bool
    ensures { result ≡ type_ok t }
{
    (t == 1) | (t == 2) | (t == 3) | (t == 12) | (t == 13) | (t == 14)
}

// An entry of w bytes at a place. The short one has a price alone.
fn entry_broken(b: &[u8], at: usize, w: usize, entry: usize) -> Option<Broken>
    requires { Wide w × (at + w ≤ length b.now) }
    ensures { result ≡ lowest_from (entry_fields w at entry b.now) none }
{
    let price = u64::at(b, at + 2);
    let told = unless_in(entry, price < 10000000000000, at + 2, 8, 14);
    if w == 10 {
        return told;
    }
    let size = u64::at(b, at + 10);
    let position = u8::at(b, at + 18);
    told.or(unless_in(entry, size < 1000000000000, at + 10, 8, 15))
        .or(unless_in(entry, position < 100, at + 18, 1, 16))
}

// The n entries of w bytes each that fill the body behind its fixed part. It stops at the first
// that has a broken field.
fn entries_broken(b: &[u8], n: usize, w: usize) -> Option<Broken>
    requires { Entries w n b.now }
    ensures { result ≡ lowest_from (entries_fields n w b.now) none }
{
    for i in 0..n {
        let told = entry_broken(b, 73 + i * w, w, i + 1);
        if told.is_some() {
            return told;
        }
    }
    None
}

// NoMDEntries, whose rule is that as many entries fill the body, and then the entries.
fn m102_counted(b: &[u8]) -> Option<Broken>
    ensures { result ≡ lowest_from (drop 12 (fixed_fields M102 b.now) ++ entries_of b.now) none }
{
    let n = u16::at(b, 71) as usize;
    let w = rules::entry_size(octets::letters_at(b, 10));
    if b.len() != 73 + n * w {
        return unless(false, 71, 2, 12);
    }
    entries_broken(b, n, w)
}

// From PreClosePx on.
fn m102_back(b: &[u8]) -> Option<Broken>
    ensures { result ≡ lowest_from (drop 7 (fixed_fields M102 b.now) ++ entries_of b.now) none }
{
    let pre_close_px = u64::at(b, 31);
    let total_volume_traded = u64::at(b, 39);
    let num_trades = u64::at(b, 47);
    let total_value_traded = u64::at(b, 55);
    unless(pre_close_px < 10000000000000, 31, 8, 7)
        .or(unless(total_volume_traded < 10000000000000000, 39, 8, 8))
        .or(unless(num_trades < 10000000000000000, 47, 8, 9))
        .or(unless(total_value_traded < 10000000000000000, 55, 8, 10))
        .or(m102_counted(b))
}

fn m102_broken(b: &[u8]) -> Option<Broken>
    ensures { result ≡ lowest_from (fields_of M102 b.now) none }
{
    let security_type = u8::at(b, 0);
    let mode = u8::at(b, 1);
    let trade_date = u32::at(b, 2);
    let last_update_time = u32::at(b, 6);
    let pair = rules::pair_ok(security_type, octets::letters_at(b, 10));
    unless(type_ok(security_type), 0, 1, 0)
        .or(unless((1 <= mode) & (mode <= 3), 1, 1, 1))
        .or(unless(trade_date < 100000000, 2, 4, 2))
        .or(unless(last_update_time < 1000000000, 6, 4, 3))
        .or(unless(pair, 10, 5, 4))
        .or(m102_back(b))
}

// The lowest field of a body that breaks a rule of its type, or none; none too for a type that is
// not in the table.
pub fn broken_field(kind: Kind, b: &[u8]) -> Option<Broken>
    ensures { result ≡ broken_of kind b.now }
{
    match kind {
        Kind::S001 => s001_broken(b),
        Kind::S002 => s002_broken(b),
        Kind::P001 => p001_broken(b),
        Kind::P002 => p002_broken(b),
        Kind::M102 => m102_broken(b),
        Kind::M201 => m201_broken(b),
        _ => None,
    }
}
