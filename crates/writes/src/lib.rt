// What one element of a PUT DATA command does to values and limits.
#![tactic(auto)]

ghost use Rattle.std.specs.Prelude.{◌≡◌};
ghost use Rattle.rules.specs.Rules.{rules_of};
ghost use Rattle.writes.specs.Writes.{value_in, values_with, rules_with, words_with};

use element::Write;
use money::AccumulatorAmount;
use rules::{Values, Words};

// The values with that of accumulator slot + 1, active or not.
fn put_value(mut values: Values, slot: usize, amount: AccumulatorAmount) -> Values
    ensures { result ≡ value_in values slot amount }
{
    if slot < 4 {
        values.accumulators[slot] = amount;
    }
    values
}

// What one element writes.
pub fn apply(words: &mut Words, values: Values, write: Write) -> Values
    ensures { (result ≡ values_with values write)
        × (words.new ≡ words_with words.old write)
        × (rules_of words.new ≡ rules_with (rules_of words.old) write) }
{
    match write {
        Write::Value { slot, amount } => put_value(values, slot, amount),
        Write::AccumulatorLimits { slot, lower, upper } => {
            new_limits::set_accumulator_limits(words, slot, lower, upper);
            values
        }
        Write::CounterLimits { slot, lower, upper } => {
            new_limits::set_counter_limits(words, slot, lower, upper);
            values
        }
    }
}
