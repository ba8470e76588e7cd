// The currencies of a class's sheet, in ascending order, each with the sum of what was approved in it.
#![tactic(auto)]

ghost use Rattle.std.specs.Prelude.{◌≡◌, ◌∷◌, ◌+◌, ◌-◌, ◌≤◌, ◌<◌};
ghost use Rattle.sums.specs.Sums.{new, sums_from, written, place_of, fits_sale, sale_added};

use sheet::Sheet;
use std::mem;

const COUNT: usize = 393;

const CODES: usize = 394;

const SUMS: usize = 426;

// The most currencies that a sheet has.
const MOST: u64 = 32;

// The place among so many currencies of the first that is not smaller, behind them where there is none.
fn place_of(sheet: &Sheet, count: usize, code: u64) -> usize
    requires { count ≤ 32 }
    ensures { (result ≡ place_of code (sums_from count 0 sheet.now)) × (result ≤ count) }
{
    for at in 0..count {
        if code <= sheet[CODES + at] {
            return at;
        }
    }
    count
}

// A new currency at a place: those from there on move up by one.
fn push(sheet: &mut Sheet, from: usize, count: usize, code: u64, sum: u64)
    requires { (from ≤ count) × (count < 32) }
    ensures { sheet.new ≡ written from (new code sum ∷ sums_from (count - from) from sheet.old) sheet.old }
{
    let mut code = code;
    let mut sum = sum;
    for at in from..count {
        code = mem::replace(&mut sheet[CODES + at], code);
        sum = mem::replace(&mut sheet[SUMS + at], sum);
    }
    sheet[CODES + count] = code;
    sheet[SUMS + count] = sum;
}

// An amount approved in a currency, added to its sum. False where it would be a thirty-third currency:
// then the sheet stays.
pub fn add_sale(sheet: &mut Sheet, currency: u16, amount: u64) -> bool
    ensures { (result ≡ fits_sale sheet.old currency amount)
        × (sheet.new ≡ sale_added sheet.old currency amount) }
{
    let code = currency as u64;
    let count = sheet[COUNT];
    if MOST < count {
        return false;
    }
    let places = count as usize;
    let at = place_of(sheet, places, code);
    if at < places {
        if sheet[CODES + at] == code {
            sheet[SUMS + at] = sheet::plus(sheet[SUMS + at], amount);
            return true;
        }
    }
    if count == MOST {
        return false;
    }
    push(sheet, at, places, code, amount);
    sheet[COUNT] = count + 1;
    true
}
