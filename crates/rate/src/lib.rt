// A rate of version one, a 64-bit float, as digits and a shift.
#![tactic(auto)]

ghost use Rattle.std.specs.Prelude.{◌≡◌, ◌≤◌, ◌^◌};
ghost use Rattle.rate.specs.Rate.{shift_at, digits_of, digits_at, rate_of};

// The last digits. A search that ends behind them has found none.
const LAST: u16 = 9_999;

// Digits and a shift, the paper's s + 9.
#[derive(Clone, Copy)]
pub struct Pair {
    pub digits: u16,
    pub shift: u8,
}

fn power_of_ten(exponent: u8) -> u32
    requires { exponent ≤ 9 }
    ensures { result ≡ 10 ^ exponent }
{
    10u32.pow(exponent as u32)
}

// The first digits that, times one power and divided by the other, round to the rate.
fn digits_of(rate: f64, times: u32, over: u32) -> u16
    requires { times ≤ 1000 }
    ensures { result ≡ digits_of rate times over }
{
    let power = over as f64;
    for digits in 1..=LAST {
        if (digits as u32 * times) as f64 / power == rate {
            return digits;
        }
    }
    LAST + 1
}

// The first digits that round to the rate at a shift.
fn digits_at(rate: f64, shift: u8) -> u16
    requires { shift ≤ 12 }
    ensures { result ≡ digits_at rate shift }
{
    if shift <= 9 {
        digits_of(rate, 1, power_of_ten(9 - shift))
    } else {
        digits_of(rate, power_of_ten(shift - 9), 1)
    }
}

// The shifts in their order: 0 down to -9, then 1 to 3.
fn shift_at(place: u8) -> u8
    ensures { result ≡ shift_at place }
{
    if place <= 9 { 9 - place } else { place }
}

// The first pair that rounds to the rate.
pub fn rate_of(rate: f64) -> Option<Pair>
    ensures { result ≡ rate_of rate }
{
    for place in 0..13 {
        let shift = shift_at(place);
        let digits = digits_at(rate, shift);
        if digits <= LAST {
            return Some(Pair { digits, shift });
        }
    }
    None
}
