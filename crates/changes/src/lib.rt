// What approvals, declines and the issuer's orders do to the accumulators and the cyclic
// accumulators, and to all values.
#![tactic(auto)]

ghost use Rattle.std.specs.Prelude.{◌≡◌};
ghost use Rattle.rules.specs.Rules.{rules_of};
ghost use Rattle.purchase.specs.Meter.{accumulator, cyclic, is_in_order};
ghost use Rattle.meters.specs.declared.Change.TheVariants.{Approve};
ghost use Rattle.meters.specs.Meters.{amount_moved, addition, order, entered, applied};

use meters::{Change, change_count};
use money::{AccumulatorAmount, Converted};
use purchase::{Purchase, Timing};
use rules::{Place, Values, Words};

// An accumulator with what a purchase is worth to it. An amount that is over fills it; without a
// conversion the purchase doesn't count there.
fn grow(amount: AccumulatorAmount, worth: Converted) -> AccumulatorAmount
    ensures { result ≡ amount_moved amount (addition worth) }
{
    match worth {
        Converted::Amount(more) => money::plus(amount, more),
        Converted::Over => AccumulatorAmount(money::MAX),
        Converted::NoEntry => amount,
    }
}

// Accumulator i + 1 after a change.
fn change_amount(
    words: &Words,
    place: Place,
    i: usize,
    amount: AccumulatorAmount,
    change: Change,
) -> AccumulatorAmount
    ensures { result ≡ amount_moved amount (entered (rules_of words.now) place change (accumulator i)) }
{
    let rule = rules::accumulator_rule(words, place, i);
    if !rule.active {
        return amount;
    }
    match change {
        Change::Approve(purchase) => {
            if purchase::is_open(words, purchase, i) & rule.allow {
                return grow(amount, purchase::worth(words, purchase, i));
            }
            amount
        }
        Change::Decline => amount,
        Change::SetToLimits => rule.upper,
        Change::Clear => AccumulatorAmount(0),
    }
}

// Whether a purchase's date is in order, so that cyclic accumulators take part.
fn is_in_order(timing: Timing) -> bool
    ensures { result ≡ is_in_order timing }
{
    matches!(timing, Timing::InOrder)
}

// Cyclic accumulator i + 1 after an approval, which it counts if its date is in order.
fn grow_cyclic(
    words: &Words,
    place: Place,
    i: usize,
    amount: AccumulatorAmount,
    purchase: Purchase,
) -> AccumulatorAmount
    ensures { result ≡ amount_moved amount (entered (rules_of words.now) place (Approve purchase) (cyclic i)) }
{
    let timing = purchase.timing;
    if !is_in_order(timing) {
        return amount;
    }
    let rule = rules::cyclic_rule(words, place, i);
    if rule.active & rule.allow {
        return grow(amount, purchase::cyclic_worth(words, purchase, i));
    }
    amount
}

// Cyclic accumulator i + 1 after an order: if it is active, its limit or zero.
fn put_cyclic(
    words: &Words,
    place: Place,
    i: usize,
    amount: AccumulatorAmount,
    limit: bool,
) -> AccumulatorAmount
    ensures { result ≡ amount_moved amount (entered (rules_of words.now) place (order limit) (cyclic i)) }
{
    let rule = rules::cyclic_rule(words, place, i);
    if !rule.active {
        return amount;
    }
    if limit {
        rule.limit
    } else {
        AccumulatorAmount(0)
    }
}

// Cyclic accumulator i + 1 after a change.
fn change_cyclic(
    words: &Words,
    place: Place,
    i: usize,
    amount: AccumulatorAmount,
    change: Change,
) -> AccumulatorAmount
    ensures { result ≡ amount_moved amount (entered (rules_of words.now) place change (cyclic i)) }
{
    match change {
        Change::Approve(purchase) => grow_cyclic(words, place, i, amount, purchase),
        Change::Decline => amount,
        Change::SetToLimits => put_cyclic(words, place, i, amount, true),
        Change::Clear => put_cyclic(words, place, i, amount, false),
    }
}

// The values after a change.
pub fn apply(words: &Words, place: Place, values: Values, change: Change) -> Values
    ensures { result ≡ applied (rules_of words.now) place values change }
{
    let amounts = values.accumulators;
    let counts = values.counters;
    let cycles = values.cyclic;
    Values {
        accumulators: [
            change_amount(words, place, 0, amounts[0], change),
            change_amount(words, place, 1, amounts[1], change),
            change_amount(words, place, 2, amounts[2], change),
            change_amount(words, place, 3, amounts[3], change),
        ],
        counters: [
            change_count(words, place, 0, counts[0], change),
            change_count(words, place, 1, counts[1], change),
            change_count(words, place, 2, counts[2], change),
            change_count(words, place, 3, counts[3], change),
        ],
        cyclic: [
            change_cyclic(words, place, 0, cycles[0], change),
            change_cyclic(words, place, 1, cycles[1], change),
        ],
    }
}
