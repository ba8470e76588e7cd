// New limits of a rule, written into the words that hold the rules: in every profile.
#![tactic(auto)]

ghost use Rattle.std.specs.Prelude.{◌≡◌, ◌+◌, ◌≤◌, length};
ghost use Rattle.rules.specs.Word.{word_count, profile_length, rule_length};
ghost use Rattle.rules.specs.Rules.{rules_of};
ghost use Rattle.rules.specs.Limits.{limits_put, limits_put_in_all, accumulator_limits_put, counter_limits_put, with_accumulator_limits, with_counter_limits};

use money::AccumulatorAmount;
use rules::{Place, Words, base, word};

// The limits of a rule in a profile; the rule stands this far behind the profile's first word. The
// words come as a slice, of which it is known how long it is.
fn put_limits(words: &mut [u64], place: Place, rule: usize, lower: u64, upper: u64)
    requires { (rule + rule_length ≤ profile_length) × (length words.old ≡ word_count) }
    ensures { words.new ≡ limits_put place rule lower upper words.old }
{
    let at = base(place) + rule;
    words[at + word::LOWER] = lower;
    words[at + word::UPPER] = upper;
}

// In every profile, active or not.
fn put_limits_in_all(words: &mut [u64], rule: usize, lower: u64, upper: u64)
    requires { (rule + rule_length ≤ profile_length) × (length words.old ≡ word_count) }
    ensures { words.new ≡ limits_put_in_all rule lower upper words.old }
{
    put_limits(words, Place::One, rule, lower, upper);
    put_limits(words, Place::Two, rule, lower, upper);
    put_limits(words, Place::Three, rule, lower, upper);
    put_limits(words, Place::Four, rule, lower, upper);
}

// The limits of accumulator i + 1 in every profile.
pub fn set_accumulator_limits(
    words: &mut Words,
    i: usize,
    lower: AccumulatorAmount,
    upper: AccumulatorAmount,
)
    ensures { (words.new ≡ accumulator_limits_put words.old i lower upper)
        × (rules_of words.new ≡ with_accumulator_limits (rules_of words.old) i lower upper) }
{
    if i < 4 {
        put_limits_in_all(
            words,
            word::ACCUMULATORS + word::RULE_LENGTH * i,
            lower.0,
            upper.0,
        );
    }
}

// The limits of counter i + 1 in every profile.
pub fn set_counter_limits(words: &mut Words, i: usize, lower: u8, upper: u8)
    ensures { (words.new ≡ counter_limits_put words.old i lower upper)
        × (rules_of words.new ≡ with_counter_limits (rules_of words.old) i lower upper) }
{
    if i < 4 {
        put_limits_in_all(
            words,
            word::COUNTERS + word::RULE_LENGTH * i,
            lower as u64,
            upper as u64,
        );
    }
}
