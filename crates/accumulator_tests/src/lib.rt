// The tests of the accumulators' limits (document 01, "Start and the checks").
#![tactic(auto)]

ghost use Rattle.std.specs.Prelude.{◌≡◌, ◌+◌, ◌*◌, ◌≤◌, cond, ◌&&◌, nat_lt};
ghost use Rattle.money.specs.declared.Converted.TheVariants.{NoEntry};
ghost use Rattle.rules.specs.Rules.{rules_of};
ghost use Rattle.purchase.specs.Meter.{accumulator, rule_of, worth, is_open};
ghost use Rattle.limits.specs.Limits.{bit, limit_bits, accumulator_bits, is_included};

use limits::bit;
use money::{AccumulatorAmount, Converted};
use purchase::Purchase;
use rules::{Place, Values, Words};

// The limits that the sum exceeds: bit 0 the lower, bit 4 the upper.
fn limits_exceeded(lower: u64, upper: u64, value: u64, more: u64) -> u8
    ensures { (result ≡ bit (nat_lt lower (value + more)) + bit (nat_lt upper (value + more)) * 16) × (result ≤ 17) }
{
    let Some(sum) = value.checked_add(more) else {
        return 17;
    };
    bit(lower < sum) + bit(upper < sum) * 16
}

// What the tests of accumulator i + 1 add to its value: the purchase, with "include this transaction"
// and where the slot takes it up.
fn included(words: &Words, purchase: Purchase, i: usize, include: bool) -> Converted
    ensures { result ≡ cond (is_open (rules_of words.now) purchase i && include)
        (worth (rules_of words.now) purchase i) NoEntry }
{
    if !include {
        return Converted::NoEntry;
    }
    if purchase::is_open(words, purchase, i) {
        return purchase::worth(words, purchase, i);
    }
    Converted::NoEntry
}

// The limits that accumulator i + 1 exceeds: bit 0 the lower, bit 4 the upper. An amount that is
// over exceeds both.
fn test_accumulator(
    words: &Words,
    place: Place,
    i: usize,
    value: AccumulatorAmount,
    purchase: Purchase,
) -> u8
    ensures { (result ≡ limit_bits (rule_of (rules_of words.now) place (accumulator i))
        (is_included (rules_of words.now) purchase (accumulator i) (rule_of (rules_of words.now) place (accumulator i)))
        (worth (rules_of words.now) purchase i) value.0) × (result ≤ 17) }
{
    let rule = rules::accumulator_rule(words, place, i);
    if !rule.active {
        return 0;
    }
    match included(words, purchase, i, rule.include) {
        Converted::Amount(more) => limits_exceeded(rule.lower.0, rule.upper.0, value.0, more.0),
        Converted::Over => 17,
        Converted::NoEntry => limits_exceeded(rule.lower.0, rule.upper.0, value.0, 0),
    }
}

// Bits 0 to 3 the lower limits, 4 to 7 the upper.
pub fn test_accumulators(words: &Words, place: Place, values: Values, purchase: Purchase) -> u8
    ensures { result ≡ accumulator_bits (rules_of words.now) place values purchase }
{
    let amounts = values.accumulators;
    test_accumulator(words, place, 0, amounts[0], purchase)
        + test_accumulator(words, place, 1, amounts[1], purchase) * 2
        + test_accumulator(words, place, 2, amounts[2], purchase) * 4
        + test_accumulator(words, place, 3, amounts[3], purchase) * 8
}
