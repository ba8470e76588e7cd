// The days of the years 2000 to 2099, by year, month and day as numbers: which there are, and how they are counted.
#![tactic(auto)]

ghost use Rattle.std.specs.Prelude.{◌≡◌};
ghost use Rattle.days.specs.Days.{is_leap, month_length, has_day, days_before, day_number};

// Every fourth year from 2000 to 2099 is a leap year.
fn is_leap(year: u8) -> bool
    ensures { result ≡ is_leap year }
{
    year % 4 == 0
}

// The days of a month.
fn month_length(year: u8, month: u8) -> u8
    ensures { result ≡ month_length year month }
{
    match month {
        2 => { if is_leap(year) { 29 } else { 28 } }
        4 | 6 | 9 | 11 => 30,
        _ => 31,
    }
}

// Whether there is such a month, and such a day in it.
pub fn has_day(year: u8, month: u8, day: u8) -> bool
    ensures { result ≡ has_day year month day }
{
    (1 <= month) & (month <= 12) & (1 <= day) & (day <= month_length(year, month))
}

// The days of a common year before each month; there is no month 0.
const DAYS_BEFORE: [u32; 13] = [0, 0, 31, 59, 90, 120, 151, 181, 212, 243, 273, 304, 334];

fn days_before(month: u8) -> u32
    ensures { result ≡ days_before month }
{
    DAYS_BEFORE.get(month as usize).copied().unwrap_or(0)
}

// The leap days of the years before this one are (year + 3) / 4, for 2000 has one; this year's
// counts from March on.
pub fn day_number(year: u8, month: u8, day: u8) -> u32
    ensures { result ≡ day_number year month day }
{
    let years = 365 * year as u32 + (year as u32 + 3) / 4;
    let days = years + days_before(month) + day as u32;
    if (2 < month) & is_leap(year) {
        days + 1
    } else {
        days
    }
}
