// The MTA of an old record, a 64-bit float, as an amount.
#![tactic(auto)]

ghost use Rattle.std.specs.Prelude.{◌≡◌, ◌≤◌};
ghost use Rattle.money.specs.Money.{max};
ghost use Rattle.std.specs.Float.{binary64};
ghost use Rattle.std.specs.Float.Ieee.{in_unsigned, to_unsigned};
ghost use Rattle.mta.specs.Mta.{is_within, mta_of};

use money::{AccumulatorAmount, MAX};

// Above -1 and below 2^64 a fraction can be cut off. Not-a-number is not within.
fn is_within(mta: f64) -> bool
    ensures { result ≡ is_within mta }
{
    (mta > -1.0) & (mta < 18446744073709551616.0)
}

// Whether a float that was cut off to an amount is whole: nothing was cut off, and it is not -0.
// That equals 0, but one divided by it is below 0.
fn is_whole(mta: f64, amount: u64) -> bool
    requires { (amount ≤ max) × (amount ≡ to_unsigned 64 mta) }
    ensures { result ≡ in_unsigned binary64 64 mta }
{
    (amount as f64 == mta) & ((amount != 0) | (1.0 / mta > 0.0))
}

// A whole number from 0 to MAX.
pub fn mta_of(mta: f64) -> Option<AccumulatorAmount>
    ensures { result ≡ mta_of mta }
{
    if !is_within(mta) {
        return None;
    }
    let amount = std::num::truncating_f64_to_u64(mta);
    if MAX < amount {
        return None;
    }
    if is_whole(mta, amount) {
        Some(AccumulatorAmount(amount))
    } else {
        None
    }
}
