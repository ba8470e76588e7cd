// First GENERATE AC.
#![tactic(auto)]

ghost use Rattle.std.specs.Prelude.{◌≡◌};
ghost use Rattle.rules.specs.Rules.{rules_of};
ghost use Rattle.first.specs.First.{first_answered, first_performed};

use command::First;
use cryptogram::{Issuer, Later};
use decision::{conclude, decide};
use purchase::{Purchase, Timing};
use rules::{Place, Words};
use state::{Outcome, State};

// The tests, the decision and what follows, with the cycles of its date begun.
fn answer(words: &Words, state: State, place: Place, first: First, timing: Timing) -> Outcome
    ensures { result ≡ first_answered (rules_of words.now) state first place timing }
{
    let values = state.values;
    let history = state.history;
    let amount = first.amount;
    let cvm = first.cvm;
    let purchase = Purchase {
        amount,
        currency: first.currency,
        timing,
        cvm,
        cashback: first.cashback,
    };
    let adr = checks::decision_bits(
        words,
        place,
        values,
        purchase,
        checks::history_bits(history),
    );
    let kind = decide(
        first.requested,
        adr,
        rules::profile_masks(words, place),
        first.terminal,
    );
    let limits = cryptogram::limits_of(adr);
    let issuer = Issuer {
        unperformed: history.unable | history.missing,
        failed: history.failed,
        unable: false,
    };
    let cvr = cryptogram::verify(
        words,
        history,
        limits,
        state.scripts,
        kind,
        Later::NotRequested,
        issuer,
    );
    conclude(words, state, place, purchase, limits, cvr, kind)
}

pub fn perform(words: &Words, state: State, place: Place, first: First) -> Outcome
    ensures { result ≡ first_performed (rules_of words.now) state first place }
{
    let last = state.last;
    let when = first.when;
    let timing = cycles::timing_of(last, when);
    let state = cycles::take_date(words, state, when);
    answer(words, state, place, first, timing)
}
