// The card: which commands it takes, and what each comes to.
#![tactic(auto)]

ghost use Rattle.std.specs.Prelude.{◌≡◌};
ghost use Rattle.rules.specs.Rules.{rules_of};
ghost use Rattle.card.specs.Card.{is_dated, first_taken, first_step, second_taken, second_step, step_of};

use calendar::Date;
use command::{Command, First, Second};
use refusal::Refusal;
use rules::{Place, Words};
use start::answer_start;
use state::{Outcome, Pending, Phase, State, refuse};

// Whether a First's date, if it has one, is a calendar day.
fn is_dated(when: Option<Date>) -> bool
    ensures { result ≡ is_dated when }
{
    when.is_none_or(calendar::is_day)
}

// A First in turn.
fn take_first(words: &Words, state: State, place: Place, first: First) -> Outcome
    ensures { result ≡ first_taken (rules_of words.now) state first place }
{
    if 2 < first.requested {
        return refuse(state, Refusal::BadType);
    }
    let in_range = (first.amount.0 <= money::MAX) & wire::is_currency(first.currency);
    if !in_range {
        return refuse(state, Refusal::OutOfRange);
    }
    if !is_dated(first.when) {
        return refuse(state, Refusal::NotADay);
    }
    first::perform(words, state, place, first)
}

fn answer_first(words: &Words, state: State, first: First) -> Outcome
    ensures { result ≡ first_step (rules_of words.now) state first }
{
    match state.phase {
        Phase::Idle => refuse(state, Refusal::OutOfTurn),
        Phase::Opened(place) => take_first(words, state, place, first),
        Phase::Asked(_) => refuse(state, Refusal::OutOfTurn),
    }
}

// A Second in turn.
fn take_second(words: &Words, state: State, pending: Pending, second: Second) -> Outcome
    ensures { result ≡ second_taken (rules_of words.now) state second pending }
{
    if 1 < second.requested {
        return refuse(state, Refusal::BadType);
    }
    if 2 < second.issuer {
        return refuse(state, Refusal::OutOfRange);
    }
    second::perform(words, state, pending, second)
}

fn answer_second(words: &Words, state: State, second: Second) -> Outcome
    ensures { result ≡ second_step (rules_of words.now) state second }
{
    match state.phase {
        Phase::Idle => refuse(state, Refusal::OutOfTurn),
        Phase::Opened(_) => refuse(state, Refusal::OutOfTurn),
        Phase::Asked(pending) => take_second(words, state, pending, second),
    }
}

// The answer to a command, and the card after it. A refusal leaves the card as it was.
pub fn step(words: &Words, state: State, command: Command) -> Outcome
    ensures { result ≡ step_of (rules_of words.now) state command }
{
    match command {
        Command::Start(command) => answer_start(words, state, command),
        Command::First(command) => answer_first(words, state, command),
        Command::Second(command) => answer_second(words, state, command),
    }
}
