// The calendar of the years 2000 to 2099: which dates are calendar days, how days are counted, and
// in which cycle a day falls.
#![tactic(auto)]

ghost use Rattle.std.specs.Prelude.{◌≡◌};
ghost use Rattle.calendar.specs.Calendar.{date_at, code_of, is_before, year_of, month_of, day_of, has_digits, is_day, days_of, cycle_of, begins};

use days::{day_number, has_day};

// YYMMDD as it is written, two decimal digits to a byte. The year is 2000 + YY.
#[derive(Clone, Copy)]
pub struct Date {
    pub year: u8,
    pub month: u8,
    pub day: u8,
}

// The kind of a cycle.
#[derive(Clone, Copy)]
pub enum Period {
    Day,
    Week,
    Month,
}

// The date in the three bytes at a place.
pub fn date_at(s: &[u8], at: usize) -> Date
    ensures { result ≡ date_at s.now at }
{
    if at < s.len() {
        Date {
            year: wire::byte_at(s, at),
            month: wire::byte_at(s, at + 1),
            day: wire::byte_at(s, at + 2),
        }
    } else {
        Date {
            year: 0,
            month: 0,
            day: 0,
        }
    }
}

// The three bytes as one number.
fn code_of(date: Date) -> u32
    ensures { result ≡ code_of date }
{
    date.year as u32 * 65_536 + date.month as u32 * 256 + date.day as u32
}

// Whether a date comes before another: calendar days compare as their bytes do.
pub fn is_before(a: Date, b: Date) -> bool
    ensures { result ≡ is_before a b }
{
    code_of(a) < code_of(b)
}

fn year_of(date: Date) -> u8
    ensures { result ≡ year_of date }
{
    wire::pair_value(date.year)
}

fn month_of(date: Date) -> u8
    ensures { result ≡ month_of date }
{
    wire::pair_value(date.month)
}

fn day_of(date: Date) -> u8
    ensures { result ≡ day_of date }
{
    wire::pair_value(date.day)
}

// Whether a date is written in six decimal digits.
fn has_digits(date: Date) -> bool
    ensures { result ≡ has_digits date }
{
    wire::is_pair(date.year) & wire::is_pair(date.month) & wire::is_pair(date.day)
}

// Whether a date is a calendar day.
pub fn is_day(date: Date) -> bool
    ensures { result ≡ is_day date }
{
    has_digits(date) & has_day(year_of(date), month_of(date), day_of(date))
}

// The days from Friday 31 December 1999 to a date.
pub fn days_of(date: Date) -> u32
    ensures { result ≡ days_of date }
{
    day_number(year_of(date), month_of(date), day_of(date))
}

// The number of the cycle in which a date falls. A week begins on the first day, 0 Friday to 6
// Thursday.
pub fn cycle_of(period: Period, first: u8, date: Date) -> u32
    ensures { result ≡ cycle_of period first date }
{
    match period {
        Period::Day => days_of(date),
        Period::Week => (days_of(date) + 7 - first as u32 % 7) / 7,
        Period::Month => 12 * year_of(date) as u32 + month_of(date) as u32,
    }
}

// Whether a cycle begins: this date comes after the last one, and falls in another cycle.
pub fn begins(period: Period, first: u8, last: Date, date: Date) -> bool
    ensures { result ≡ begins period first last date }
{
    if is_before(last, date) {
        cycle_of(period, first, last) != cycle_of(period, first, date)
    } else {
        false
    }
}
