// The tests of the counters' limits (document 01, "Start and the checks").
#![tactic(auto)]

ghost use Rattle.std.specs.Prelude.{◌≡◌, ◌&&◌, ◌+◌, ◌≤◌, ◌<◌};
ghost use Rattle.rules.specs.Rules.{rules_of};
ghost use Rattle.purchase.specs.Meter.{counter, rule_of, once, is_open};
ghost use Rattle.limits.specs.Limits.{bit, limit_bits, counter_bits, is_included};

use limits::bit;
use purchase::Purchase;
use rules::{Place, Values, Words};

// What the tests of counter i + 1 add to its value: 1 for a purchase that is included likewise.
fn one_included(words: &Words, purchase: Purchase, i: usize, include: bool) -> u8
    requires { i < 4 }
    ensures { (result ≡ bit (is_open (rules_of words.now) purchase (4 + i) && include)) × (result ≤ 1) }
{
    if !include {
        return 0;
    }
    bit(purchase::is_open(words, purchase, 4 + i))
}

// The limits that counter i + 1 exceeds. A purchase adds 1.
fn test_counter(words: &Words, place: Place, i: usize, value: u8, purchase: Purchase) -> u8
    requires { i < 4 }
    ensures { (result ≡ limit_bits (rule_of (rules_of words.now) place (counter i))
        (is_included (rules_of words.now) purchase (counter i) (rule_of (rules_of words.now) place (counter i)))
        once value) × (result ≤ 17) }
{
    let rule = rules::counter_rule(words, place, i);
    if !rule.active {
        return 0;
    }
    let sum = value as u16 + one_included(words, purchase, i, rule.include) as u16;
    bit((rule.lower as u16) < sum) + bit((rule.upper as u16) < sum) * 16
}

pub fn test_counters(words: &Words, place: Place, values: Values, purchase: Purchase) -> u8
    ensures { result ≡ counter_bits (rules_of words.now) place values purchase }
{
    let counts = values.counters;
    test_counter(words, place, 0, counts[0], purchase)
        + test_counter(words, place, 1, counts[1], purchase) * 2
        + test_counter(words, place, 2, counts[2], purchase) * 4
        + test_counter(words, place, 3, counts[3], purchase) * 8
}
