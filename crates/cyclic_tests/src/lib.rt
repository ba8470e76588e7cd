// The tests of the cyclic accumulators' limits, and of a purchase's date.
#![tactic(auto)]

ghost use Rattle.std.specs.Prelude.{◌≡◌, ◌+◌, ◌≤◌, ltb};
ghost use Rattle.rules.specs.Rules.{rules_of, cyclic_rule};
ghost use Rattle.purchase.specs.Meter.{cyclic_worth};
ghost use Rattle.limits.specs.Limits.{cyclic_exceeds, dating_bits};

use limits::bit;
use money::{AccumulatorAmount, Converted};
use purchase::{Purchase, Timing};
use rules::{Place, Values, Words};

// A value and what is added to it exceed a limit. The sum isn't stopped at MAX.
fn sum_exceeds(limit: u64, value: u64, more: u64) -> bool
    ensures { result ≡ ltb limit (value + more) }
{
    if limit < value {
        return true;
    }
    limit - value < more
}

// Cyclic accumulator i + 1 exceeds its limit, with a purchase whose date is in order.
fn test_cyclic(
    words: &Words,
    place: Place,
    i: usize,
    value: AccumulatorAmount,
    purchase: Purchase,
) -> bool
    ensures { result ≡ cyclic_exceeds (cyclic_rule (rules_of words.now) place i)
        (cyclic_worth (rules_of words.now) purchase i) value.0 }
{
    let rule = rules::cyclic_rule(words, place, i);
    if !rule.active {
        return false;
    }
    if !rule.include {
        return rule.limit.0 < value.0;
    }
    match purchase::cyclic_worth(words, purchase, i) {
        Converted::Amount(more) => sum_exceeds(rule.limit.0, value.0, more.0),
        Converted::Over => true,
        Converted::NoEntry => rule.limit.0 < value.0,
    }
}

// Bits 0 and 1 the cyclic accumulators' limits, bit 2 a date error, in which they are not tested.
pub fn test_dating(words: &Words, place: Place, values: Values, purchase: Purchase) -> u8
    ensures { (result ≡ dating_bits (rules_of words.now) place values purchase) × (result ≤ 4) }
{
    let timing = purchase.timing;
    match timing {
        Timing::Undated => 0,
        Timing::InOrder => {
            let amounts = values.cyclic;
            bit(test_cyclic(words, place, 0, amounts[0], purchase))
                + bit(test_cyclic(words, place, 1, amounts[1], purchase)) * 2
        }
        Timing::DateError(_) => 4,
    }
}
