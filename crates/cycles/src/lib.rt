// A First's date, before the tests: whether it is in order, and the cycles that begin with it.
#![tactic(auto)]

ghost use Rattle.std.specs.Prelude.{◌≡◌};
ghost use Rattle.rules.specs.Rules.{rules_of};
ghost use Rattle.cycles.specs.Cycles.{timing_of, amount_begun, advanced, dated};

use calendar::Date;
use money::AccumulatorAmount;
use purchase::Timing;
use rules::{Values, Words};
use state::State;

// A date earlier than the last one is a date error.
pub fn timing_of(last: Date, when: Option<Date>) -> Timing
    ensures { result ≡ timing_of last when }
{
    let Some(date) = when else {
        return Timing::Undated;
    };
    if calendar::is_before(date, last) {
        return Timing::DateError(date);
    }
    Timing::InOrder
}

// The amount of cyclic accumulator i + 1: zero where its cycle begins.
fn begin_amount(
    words: &Words,
    i: usize,
    amount: AccumulatorAmount,
    last: Date,
    date: Date,
) -> AccumulatorAmount
    ensures { result ≡ amount_begun (rules_of words.now) i amount last date }
{
    let cycle = rules::cycle_of(words, i);
    let period = cycle.period;
    if calendar::begins(period, cycle.first, last, date) {
        return AccumulatorAmount(0);
    }
    amount
}

// The card with the cycles that begin with a date, which it leaves as the last one.
fn advance(words: &Words, state: State, date: Date) -> State
    ensures { result ≡ advanced (rules_of words.now) state date }
{
    let last = state.last;
    let amounts = state.values.cyclic;
    State {
        values: Values {
            cyclic: [
                begin_amount(words, 0, amounts[0], last, date),
                begin_amount(words, 1, amounts[1], last, date),
            ],
            ..state.values
        },
        last: date,
        ..state
    }
}

// The card after an accepted First's date. A date error leaves it as it was.
pub fn take_date(words: &Words, state: State, when: Option<Date>) -> State
    ensures { result ≡ dated (rules_of words.now) state when }
{
    let Some(date) = when else {
        return state;
    };
    if calendar::is_before(date, state.last) {
        return state;
    }
    advance(words, state, date)
}
