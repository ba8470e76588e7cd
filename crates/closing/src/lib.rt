// A transaction closed: its answer, the last date, and the issuer's order for the values.
#![tactic(auto)]

ghost use Rattle.std.specs.Prelude.{◌≡◌};
ghost use Rattle.rules.specs.Rules.{rules_of};
ghost use Rattle.closing.specs.Closing.{closing_kind, later_kind, closed, ordered_change, ordered, recovered};

use calendar::Date;
use cryptogram::{Issuer, Later};
use marks::Scripts;
use meters::Change;
use purchase::{Purchase, Timing};
use rules::{Place, Values, Words};
use state::{Answer, History, Kind, Outcome, Pending, Phase, State};

fn closing_kind(approves: bool) -> Kind
    ensures { result ≡ closing_kind approves }
{
    if approves { Kind::Tc } else { Kind::Aac }
}

fn later_kind(approves: bool) -> Later
    ensures { result ≡ later_kind approves }
{
    if approves { Later::Tc } else { Later::Aac }
}

// Closes the transaction with a TC or an AAC.
pub fn close(
    words: &Words,
    atc: u16,
    pending: Pending,
    approves: bool,
    values: Values,
    last: Date,
    history: History,
    scripts: Scripts,
    issuer: Issuer,
) -> Outcome
    ensures { result ≡ closed (rules_of words.now) atc pending approves values last history scripts issuer }
{
    let place = pending.place;
    let before = pending.history;
    let cvr = cryptogram::verify(
        words,
        before,
        pending.limits,
        pending.scripts,
        Kind::Arqc,
        later_kind(approves),
        issuer,
    );
    let iad = cryptogram::send(words, place, values, cvr);
    let kind = closing_kind(approves);
    Outcome {
        state: State {
            values,
            phase: Phase::Idle,
            atc,
            last,
            history,
            scripts,
        },
        answer: Answer::Given { kind, atc, iad },
    }
}

// What an order other than 00 does to the values.
fn change_ordered(order: u8, purchase: Purchase) -> Change
    ensures { result ≡ ordered_change order purchase }
{
    if order == 1 {
        return Change::SetToLimits;
    }
    if order == 2 {
        return Change::Clear;
    }
    Change::Approve(purchase)
}

// What the issuer orders for the values: CSU byte 2, b2-b1.
pub fn order(words: &Words, place: Place, values: Values, purchase: Purchase, update: u8) -> Values
    ensures { result ≡ ordered (rules_of words.now) place values purchase update }
{
    if update % 4 == 0 {
        return values;
    }
    changes::apply(words, place, values, change_ordered(update % 4, purchase))
}

// The last date after an answer by the issuer, or without its data: in a date error a TC makes the
// transaction's date the last one.
pub fn recover(timing: Timing, approves: bool, last: Date) -> Date
    ensures { result ≡ recovered timing approves last }
{
    match timing {
        Timing::Undated => last,
        Timing::InOrder => last,
        Timing::DateError(date) => { if approves { date } else { last } }
    }
}
