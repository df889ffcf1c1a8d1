// The table of message types, and the field rules: what is checked before the checksum, and
// what after it.
#![tactic(auto)]

ghost use Rattle.std.specs.Prelude.{◌≡◌, ◌+◌, ◌*◌, ◌≤◌, ◌<◌};
ghost use Rattle.rules.specs.Table.{kind_paper, type_of, known, suits, measure_of};
ghost use Rattle.terms.specs.Verdicts.{verdict_number};
ghost use Rattle.rules.specs.Fields.{layout_of, suits_tail, s001_ok, s002_ok, p001_ok, p002_ok, tail_ok, m201_ok, pair_ok, m102_values_ok, m102_fixed_ok, entry_size, entry_ok, entries_ok, m102_ok, fields_ok, judge_of};
ghost use Rattle.rules.specs.Sizes.{Entries};
ghost use Rattle.std.specs.Fn.{FnReturnsAt};

use octets::Number;
use terms::Refusal;

// The types of the table, under their MsgType, and one case for every other MsgType.
#[derive(Clone, Copy, Debug, PartialEq, Eq)]
pub enum Kind {
    S001,
    S002,
    S003,
    P001,
    P002,
    M101,
    M102,
    M201,
    Unknown,
}

// How the extension of an M201 is laid out: as an order, as a trade, or as no table tells.
#[derive(Clone, Copy, Debug, PartialEq, Eq)]
pub enum Layout {
    Order,
    Trade,
    Other,
}

// The type whose four letters a number holds, high byte first. The third letter of each is 0: in
// noise that one test mostly tells.
impl From<u32> for Kind {
    ghost from_gives = { λ letters kind. kind_paper kind ≡ type_of letters };

    #[tactic(auto, using(crate::specs::Table::kind_none), unfolding(crate::specs::Table::type_of, crate::specs::Table::kind_of))]
    fn from(letters: u32) -> Kind {
        if letters / 256 % 256 != 0x30 {
            return Kind::Unknown;
        }
        match letters {
            0x53303031 => Kind::S001,
            0x53303032 => Kind::S002,
            0x53303033 => Kind::S003,
            0x50303031 => Kind::P001,
            0x50303032 => Kind::P002,
            0x4D313031 => Kind::M101,
            0x4D313032 => Kind::M102,
            0x4D323031 => Kind::M201,
            _ => Kind::Unknown,
        }
    }
}

// Whether a type is in the table.
pub fn is_known(kind: Kind) -> bool
    ensures { result ≡ known kind }
{
    kind != Kind::Unknown
}

// Whether a body of n bytes suits the type.
#[tactic(auto, unfolding(crate::specs::Table::suits))]
fn suits_length(kind: Kind, n: usize) -> bool
    ensures { result ≡ suits kind n }
{
    match kind {
        Kind::S001 => n == 74,
        Kind::S002 => n == 260,
        Kind::S003 => n == 0,
        Kind::P001 => n == 12,
        Kind::P002 => n == 52,
        Kind::M101 => true,
        Kind::M102 => 73 <= n,
        Kind::M201 => 45 <= n,
        Kind::Unknown => false,
    }
}

// The checks 2, 3 and 4, in this order, of a body of n bytes.
#[tactic(auto, unfolding(crate::specs::Table::measure_of))]
pub fn measure(kind: Kind, n: usize) -> Result<(), Refusal>
    ensures { verdict_number result ≡ measure_of kind n }
{
    if !is_known(kind) {
        return Err(Refusal::MsgType);
    }
    if 8164 < n {
        return Err(Refusal::Long);
    }
    if !suits_length(kind, n) {
        return Err(Refusal::Length);
    }
    Ok(())
}

// The layout of an M201's extension, by its stream, the five letters as a number, and its ExecType:
// an order's in MD211 to MD216 where that is 0 or 4, a trade's in MD217 where it is F.
#[tactic(auto, unfolding(crate::specs::Fields::layout_of))]
pub fn layout_of(stream: u64, exec: u8) -> Layout
    ensures { result ≡ layout_of stream exec }
{
    match (stream, exec) {
        (0x4D44323131..=0x4D44323136, b'0' | b'4') => Layout::Order,
        (0x4D44323137, b'F') => Layout::Trade,
        _ => Layout::Other,
    }
}

// Whether an M201 body of n bytes suits the layout of its extension: 45 bytes and 139 for an order,
// 45 and 53 for a trade.
#[tactic(auto, unfolding(crate::specs::Fields::suits_tail))]
pub fn suits_tail(layout: Layout, n: usize) -> bool
    ensures { result ≡ suits_tail layout n }
{
    match layout {
        Layout::Order => n == 184,
        Layout::Trade => n == 98,
        Layout::Other => true,
    }
}

#[tactic(auto, unfolding(crate::specs::Fields::s001_ok))]
fn s001_ok(b: &[u8]) -> bool
    ensures { result ≡ s001_ok b.now }
{
    let heart_bt_int = u16::at(b, 64);
    0 < heart_bt_int
}

#[tactic(auto, unfolding(crate::specs::Fields::s002_ok))]
fn s002_ok(b: &[u8]) -> bool
    ensures { result ≡ s002_ok b.now }
{
    let session_status = u32::at(b, 0);
    session_status <= 9999
}

#[tactic(auto, unfolding(crate::specs::Fields::p001_ok))]
fn p001_ok(b: &[u8]) -> bool
    ensures { result ≡ p001_ok b.now }
{
    let security_type = u8::at(b, 0);
    let channel_no = u16::at(b, 1);
    let appl_last_seq_num = u64::at(b, 3);
    let end_of_channel = u8::at(b, 11);
    (security_type == 13)
        & (channel_no < 10000)
        & (appl_last_seq_num < 1000000000000000000)
        & ((end_of_channel == b'Y') | (end_of_channel == b'N'))
}

#[tactic(auto, unfolding(crate::specs::Fields::p002_ok))]
fn p002_ok(b: &[u8]) -> bool
    ensures { result ≡ p002_ok b.now }
{
    let channel_no = u16::at(b, 0);
    let resend_type = u8::at(b, 2);
    let first = u64::at(b, 3);
    let last = u64::at(b, 11);
    let status = u8::at(b, 19);
    (channel_no < 10000)
        & (resend_type == 1)
        & (0 < first)
        & (first < 1000000000000000000)
        & (last < 1000000000000000000)
        & ((status <= 5) | (status == 99))
        & ((0 < status) | (last == 0) | (first <= last))
}

// Whether an M201 body has the length of the layout that its stream and ExecType name.
#[tactic(auto, unfolding(crate::specs::Fields::tail_ok))]
fn tail_ok(b: &[u8]) -> bool
    ensures { result ≡ tail_ok b.now }
{
    suits_tail(layout_of(octets::letters_at(b, 11), u8::at(b, 28)), b.len())
}

#[tactic(auto, unfolding(crate::specs::Fields::m201_ok))]
fn m201_ok(b: &[u8]) -> bool
    ensures { result ≡ m201_ok b.now }
{
    let security_type = u8::at(b, 0);
    let channel_no = u16::at(b, 1);
    let appl_seq_num = u64::at(b, 3);
    let transact_time = u32::at(b, 24);
    let exec_type = u8::at(b, 28);
    let price = u64::at(b, 29);
    let order_qty = u64::at(b, 37);
    let tail = tail_ok(b);
    (security_type == 13)
        & (channel_no < 10000)
        & (0 < appl_seq_num)
        & (appl_seq_num < 1000000000000000000)
        & (transact_time < 1000000000)
        & ((exec_type == b'0') | (exec_type == b'4') | (exec_type == b'F'))
        & (price < 10000000000000)
        & (order_qty < 1000000000000000)
        & tail
}

// Whether a security type and a stream, its five letters as a number, go together in an M102: 1 and
// MD001 to MD004, 2 and MD301, 3 and MD101 or MD102, 12 and MD201, 13 and MD210, 14 and MDE01.
pub fn pair_ok(t: u8, s: u64) -> bool
    ensures { result ≡ pair_ok t s }
{
    // no branch: which of them comes next a processor can't guess
    ((t == 1) & (0x4D44303031 <= s) & (s <= 0x4D44303034))
        | ((t == 2) & (s == 0x4D44333031))
        | ((t == 3) & ((s == 0x4D44313031) | (s == 0x4D44313032)))
        | ((t == 12) & (s == 0x4D44323031))
        | ((t == 13) & (s == 0x4D44323130))
        | ((t == 14) & (s == 0x4D44453031))
}

#[tactic(auto, unfolding(crate::specs::Fields::m102_values_ok))]
fn m102_values_ok(b: &[u8]) -> bool
    ensures { result ≡ m102_values_ok b.now }
{
    let trad_ses_mode = u8::at(b, 1);
    let trade_date = u32::at(b, 2);
    let last_update_time = u32::at(b, 6);
    let pre_close_px = u64::at(b, 31);
    let total_volume_traded = u64::at(b, 39);
    let num_trades = u64::at(b, 47);
    let total_value_traded = u64::at(b, 55);
    (1 <= trad_ses_mode)
        & (trad_ses_mode <= 3)
        & (trade_date < 100000000)
        & (last_update_time < 1000000000)
        & (pre_close_px < 10000000000000)
        & (total_volume_traded < 10000000000000000)
        & (num_trades < 10000000000000000)
        & (total_value_traded < 10000000000000000)
}

// Whether the first 71 bytes of an M102 body keep their rules: its stream goes with its security
// type, and no number is too wide. How many entries follow, and whether these are right, is not
// asked: so the front of a body that is not at hand as a whole can be judged.
pub fn m102_fixed_ok(b: &[u8]) -> bool
    ensures { result ≡ m102_fixed_ok b.now }
{
    pair_ok(u8::at(b, 0), octets::letters_at(b, 10)) & m102_values_ok(b)
}

// How many bytes an M102 entry has whose stream's five letters are this number: 10 for MD001.
#[tactic(auto, unfolding(crate::specs::Fields::entry_size))]
pub fn entry_size(s: u64) -> usize
    ensures { result ≡ entry_size s }
{
    if s == 0x4D44303031 { 10 } else { 19 }
}

// Whether an M102 entry of w bytes, lent alone, keeps its widths. The short one, of 10 bytes, has a
// price alone: what stands behind it is not looked at.
#[tactic(auto, unfolding(crate::specs::Fields::entry_ok))]
pub fn entry_ok(e: &[u8], w: usize) -> bool
    ensures { result ≡ entry_ok w 0 e.now }
{
    let price = u64::at(e, 2);
    let size = u64::at(e, 10);
    let position = u8::at(e, 18);
    (price < 10000000000000) & ((w == 10) | ((size < 1000000000000) & (position < 100)))
}

// The n entries of w bytes each that fill the body behind its fixed part. It stops at the first
// that is not right. Each is lent alone: of a part whose length it knows the compiler need not ask
// whether a field is there.
fn entries_ok(b: &[u8], n: usize, w: usize) -> bool
    requires { Entries w n b.now }
    ensures { result ≡ entries_ok n w b.now }
{
    for i in 0..n {
        let at = 73 + i * w;
        if !entry_ok(&b[at..at + w], w) {
            return false;
        }
    }
    true
}

// The length is asked before the entries, and the width of an entry once: each of the two has a
// loop of its own then.
fn m102_ok(b: &[u8]) -> bool
    ensures { result ≡ m102_ok b.now }
{
    if b.len() < 73 {
        return false;
    }
    let stream = octets::letters_at(b, 10);
    let n = u16::at(b, 71) as usize;
    let w = entry_size(stream);
    if b.len() != 73 + n * w {
        return false;
    }
    if !m102_fixed_ok(b) {
        return false;
    }
    if w == 10 {
        entries_ok(b, n, 10)
    } else {
        entries_ok(b, n, 19)
    }
}

// A check of a body that holds n bytes takes a way of its own: there the compiler knows that none
// of its fields lies past the end, and loads each of them without asking.
fn known_long<F: Fn(&[u8]) -> bool>(b: &[u8], n: usize, check: F) -> bool
    requires { F.IsAlwaysCallable check }
    ensures { FnReturnsAt F.Fn check b.now result }
{
    if b.len() < n { check(b) } else { check(b) }
}

// Whether a body keeps the field rules of its type; one of no type of the table does not.
#[tactic(auto, unfolding(crate::specs::Fields::fields_ok))]
pub fn fields_ok(kind: Kind, b: &[u8]) -> bool
    ensures { result ≡ fields_ok kind b.now }
{
    match kind {
        Kind::S001 => s001_ok(b),
        Kind::S002 => s002_ok(b),
        Kind::P001 => known_long(b, 12, p001_ok),
        Kind::P002 => known_long(b, 20, p002_ok),
        Kind::M102 => m102_ok(b),
        Kind::M201 => known_long(b, 45, m201_ok),
        Kind::S003 | Kind::M101 => true,
        Kind::Unknown => false,
    }
}

// The checks after the checksum, in this order: 7, the time; 6, the field rules.
#[tactic(auto, unfolding(crate::specs::Fields::judge_of))]
pub fn judge(kind: Kind, sending_time: u64, body: &[u8]) -> Result<(), Refusal>
    ensures { verdict_number result ≡ judge_of kind sending_time body.now }
{
    if !calendar::is_real(sending_time) {
        return Err(Refusal::Time);
    }
    if !fields_ok(kind, body) {
        return Err(Refusal::Field);
    }
    Ok(())
}
