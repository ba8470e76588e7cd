// The decision of a First, and what follows from it.
#![tactic(auto)]

ghost use Rattle.std.specs.Prelude.{◌≡◌};
ghost use Rattle.rules.specs.Rules.{rules_of};
ghost use Rattle.decision.specs.Decision.{is_arqc, is_tc, is_offline_only, decision, settled, asked, concluded};

use iad::Cvr;
use meters::Change;
use purchase::Purchase;
use rules::{Masks, Place, Words};
use state::{Answer, Kind, Outcome, Pending, Phase, State};

fn is_offline_only(terminal: u8) -> bool
    ensures { result ≡ is_offline_only terminal }
{
    (terminal == 0x13)
        | (terminal == 0x16)
        | (terminal == 0x23)
        | (terminal == 0x26)
        | (terminal == 0x36)
}

// The decision, in document 01's order.
pub fn decide(requested: u8, adr: u32, masks: Masks, terminal: u8) -> Kind
    ensures { result ≡ decision requested adr masks terminal }
{
    if requested == 0 {
        return Kind::Aac;
    }
    if checks::meets(adr, masks.decline) {
        return Kind::Aac;
    }
    if requested == 2 {
        return Kind::Arqc;
    }
    if is_offline_only(terminal) {
        if checks::meets(adr, masks.default) {
            return Kind::Aac;
        }
        return Kind::Tc;
    }
    if checks::meets(adr, masks.online) {
        return Kind::Arqc;
    }
    Kind::Tc
}

// Answers a TC or an AAC with the change that it makes, and closes the transaction.
fn settle(
    words: &Words,
    state: State,
    place: Place,
    cvr: Cvr,
    kind: Kind,
    change: Change,
) -> Outcome
    ensures { result ≡ settled (rules_of words.now) state place cvr kind change }
{
    let values = state.values;
    let history = state.history;
    let last = state.last;
    let atc = state.atc;
    let scripts = state.scripts;
    let values = changes::apply(words, place, values, change);
    let iad = cryptogram::send(words, place, values, cvr);
    Outcome {
        state: State {
            values,
            phase: Phase::Idle,
            atc,
            last,
            history,
            scripts,
        },
        answer: Answer::Given { kind, atc, iad },
    }
}

// Answers an ARQC, which moves no value, and remembers what a Second needs.
fn ask(
    words: &Words,
    state: State,
    place: Place,
    purchase: Purchase,
    limits: u8,
    cvr: Cvr,
) -> Outcome
    ensures { result ≡ asked (rules_of words.now) state place purchase limits cvr }
{
    let values = state.values;
    let history = state.history;
    let last = state.last;
    let atc = state.atc;
    let scripts = state.scripts;
    let iad = cryptogram::send(words, place, values, cvr);
    Outcome {
        state: State {
            values,
            phase: Phase::Asked(Pending {
                purchase,
                limits,
                place,
                history,
                scripts,
            }),
            atc,
            last,
            history: history.with_uncompleted(),
            scripts,
        },
        answer: Answer::Given {
            kind: Kind::Arqc,
            atc,
            iad,
        },
    }
}

fn is_arqc(kind: Kind) -> bool
    ensures { result ≡ is_arqc kind }
{
    matches!(kind, Kind::Arqc)
}

fn is_tc(kind: Kind) -> bool
    ensures { result ≡ is_tc kind }
{
    matches!(kind, Kind::Tc)
}

// What follows from the decision.
pub fn conclude(
    words: &Words,
    state: State,
    place: Place,
    purchase: Purchase,
    limits: u8,
    cvr: Cvr,
    kind: Kind,
) -> Outcome
    ensures { result ≡ concluded (rules_of words.now) state place purchase limits cvr kind }
{
    if is_arqc(kind) {
        return ask(words, state, place, purchase, limits, cvr);
    }
    let change = Change::offline(is_tc(kind), purchase);
    settle(words, state, place, cvr, kind, change)
}
