// The room left of one accumulator in one profile.
#![tactic(auto)]

ghost use Rattle.std.specs.Prelude.{◌≡◌};
ghost use Rattle.rules.specs.Rules.{rules_of};
ghost use Rattle.room.specs.Room.{left_in};

use money::AccumulatorAmount;
use rules::{Place, Words};

// What is left of accumulator i + 1 in the profile at a place: its upper limit less the value, 0
// where the value is at or above it, and where there is no profile.
pub fn left(words: &Words, place: Place, i: usize, value: AccumulatorAmount) -> u64
    ensures { result ≡ left_in (rules_of words.now) place i value }
{
    if rules::profile_number(words, place) == 0 {
        return 0;
    }
    let rule = rules::accumulator_rule(words, place, i);
    let upper = rule.upper;
    if value.0 < upper.0 {
        upper.0 - value.0
    } else {
        0
    }
}
