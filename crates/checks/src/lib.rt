// The tests of document 01, "Start and the checks", and the decision bits (ADR).
#![tactic(auto)]

ghost use Rattle.std.specs.Prelude.{◌≡◌, ◌+◌, ◌≤◌};
ghost use Rattle.rules.specs.Rules.{rules_of};
ghost use Rattle.limits.specs.Limits.{packed};
ghost use Rattle.checks.specs.Checks.{maximum_exceeded, cashback_found, history_flags, test_bits, meets_mask};

use limits::bit;
use money::Converted;
use purchase::Purchase;
use rules::{Place, Values, Words};
use state::History;

// Of the decision bits, from bit 0 upward: 0 to 4 copy the history, 5 is the MTA, from 6 and from 14
// on stand the limits that the four accumulators and the four counters exceed, 22 and 23 are the two
// cyclic accumulators' limits, 24 a date error and 25 a cashback.
const MAXIMUM: u32 = 32;

const ACCUMULATORS: u32 = 64;

const COUNTERS: u32 = 16_384;

const DATING: u32 = 4_194_304;

const CASHBACK: u32 = 33_554_432;

// Their groups of four.
pub const ACCUMULATORS_LOWER: u32 = 0x3C0;

pub const ACCUMULATORS_UPPER: u32 = 0x3C00;

pub const COUNTERS_LOWER: u32 = 0x3C000;

pub const COUNTERS_UPPER: u32 = 0x3C0000;

pub const DATE_ERROR: u32 = 0x100_0000;

// The MTA is on and the amount, converted to its currency, exceeds it.
fn exceeds_maximum(words: &Words, place: Place, purchase: Purchase) -> bool
    ensures { result ≡ maximum_exceeded (rules_of words.now) place purchase }
{
    let maximum = rules::maximum_amount(words, place);
    if !maximum.on {
        return false;
    }
    match purchase::worth_in(words, purchase, maximum.currency) {
        Converted::Amount(spent) => maximum.amount.0 < spent.0,
        Converted::Over => true,
        Converted::NoEntry => false,
    }
}

// The profile checks cashback, and there is some.
fn finds_cashback(words: &Words, place: Place, purchase: Purchase) -> bool
    ensures { result ≡ cashback_found (rules_of words.now) place purchase }
{
    if purchase.cashback {
        return rules::checks_cashback(words, place);
    }
    false
}

pub fn history_bits(history: History) -> u8
    ensures { (result ≡ packed (history_flags history)) × (result ≤ 31) }
{
    bit(history.uncompleted)
        + bit(history.online) * 2
        + bit(history.failed) * 4
        + bit(history.unable) * 8
        + bit(history.missing) * 16
}

// The decision bits: the history's, and behind them those of the tests of a purchase under a profile.
pub fn decision_bits(
    words: &Words,
    place: Place,
    values: Values,
    purchase: Purchase,
    history: u8,
) -> u32
    ensures { result ≡ history + test_bits (rules_of words.now) place values purchase }
{
    history as u32
        + bit(exceeds_maximum(words, place, purchase)) as u32 * MAXIMUM
        + accumulator_tests::test_accumulators(words, place, values, purchase) as u32 * ACCUMULATORS
        + counter_tests::test_counters(words, place, values, purchase) as u32 * COUNTERS
        + cyclic_tests::test_dating(words, place, values, purchase) as u32 * DATING
        + bit(finds_cashback(words, place, purchase)) as u32 * CASHBACK
}

// Some bit is in both.
pub fn meets(adr: u32, mask: u32) -> bool
    ensures { result ≡ meets_mask adr mask }
{
    adr & mask != 0
}
