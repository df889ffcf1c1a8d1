// Real times: whether a SendingTime, the number YYYYMMDDHHMMSSsss, is a date and a time of day
// that there is.
#![tactic(auto)]

ghost use Rattle.std.specs.Prelude.{◌≡◌, ◌/◌, ◌%◌, ◌^◌};
ghost use Rattle.calendar.specs.Calendar.{leap, days_in, date_ok, clock_ok, real_time};

// Whether a year has 29 February.
#[tactic(auto, unfolding(crate::specs::Calendar::leap))]
fn leap_year(y: u32) -> bool
    ensures { result ≡ leap y }
{
    ((y % 4 == 0) & (y % 100 != 0)) | (y % 400 == 0)
}

// How many days a month has; one that is none of the twelve has 31, and who calls refuses it.
#[tactic(auto, unfolding(crate::specs::Calendar::days_in))]
fn days_in(y: u32, m: u32) -> u32
    ensures { result ≡ days_in y m }
{
    match m {
        2 => if leap_year(y) { 29 } else { 28 },
        4 | 6 | 9 | 11 => 30,
        _ => 31,
    }
}

// Whether YYYYMMDD is a day from the year 2000 to 9999.
fn real_date(date: u32) -> bool
    ensures { result ≡ date_ok (date / 10 ^ 4) (date / 10 ^ 2 % 100) (date % 100) }
{
    let (y, m, d) = (date / 10000, date / 100 % 100, date % 100);
    matches!(y, 2000..=9999) & matches!(m, 1..=12) & (1 <= d) & (d <= days_in(y, m))
}

// Whether HHMMSSsss is a time of day. Three digits of milliseconds are never too many.
fn real_clock(clock: u32) -> bool
    ensures { result ≡ clock_ok (clock / 10 ^ 7) (clock / 10 ^ 5 % 100) (clock / 10 ^ 3 % 100) (clock % 1000) }
{
    (clock / 10000000 <= 23) & (clock / 100000 % 100 <= 59) & (clock / 1000 % 100 <= 59)
}

// Whether a time is real. Date and clock are taken apart once, each below 2^32: a date of more than
// eight digits is none.
#[tactic(auto, using(crate::proofs::Times::date_too_long, crate::proofs::Times::in_halves))]
pub fn is_real(time: u64) -> bool
    ensures { result ≡ real_time time }
{
    let date = time / 1000000000;
    if 100000000 <= date {
        return false;
    }
    real_date(date as u32) & real_clock((time % 1000000000) as u32)
}
