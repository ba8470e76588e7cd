// Second GENERATE AC.
#![tactic(auto)]

ghost use Rattle.std.specs.Prelude.{◌≡◌, cond};
ghost use Rattle.rules.specs.Rules.{rules_of};
ghost use Rattle.marks.specs.Marks.{heard};
ghost use Rattle.second.specs.Second.{is_unable, unable_performed, verified_performed, failed_performed, absent_performed, second_performed};

use closing::{close, order, recover};
use command::Second;
use cryptogram::Issuer;
use marks::Scripts;
use meters::Change;
use rules::Words;
use state::{History, Outcome, Pending, State};

// Response code Y3 or Z3.
fn is_unable(code: u32) -> bool
    ensures { result ≡ is_unable code }
{
    (code == 0x5933) | (code == 0x5A33)
}

// Unable to go online.
fn unable(words: &Words, state: State, pending: Pending, requested: u8) -> Outcome
    ensures { result ≡ unable_performed (rules_of words.now) state requested pending }
{
    let values = state.values;
    let place = pending.place;
    let purchase = pending.purchase;
    let before = pending.history;
    let present = state.history;
    let adr = checks::decision_bits(
        words,
        place,
        values,
        purchase,
        checks::history_bits(before.with_unable()),
    );
    let masks = rules::profile_masks(words, place);
    let approves = !((requested == 0) | checks::meets(adr, masks.default));
    let change = Change::offline(approves, purchase);
    let values = changes::apply(words, place, values, change);
    let issuer = Issuer {
        unperformed: true,
        failed: before.failed,
        unable: true,
    };
    close(
        words,
        state.atc,
        pending,
        approves,
        values,
        state.last,
        present.with_unable(),
        state.scripts,
        issuer,
    )
}

// The issuer's data verified.
fn verified(words: &Words, state: State, pending: Pending, second: Second) -> Outcome
    ensures { result ≡ verified_performed (rules_of words.now) state second pending }
{
    let place = pending.place;
    let purchase = pending.purchase;
    let values = state.values;
    let update = (second.csu / 65_536 % 256) as u8;
    let history = History {
        uncompleted: false,
        online: update / 8 % 2 == 1,
        failed: false,
        unable: false,
        missing: false,
    };
    let values = order(words, place, values, purchase, update);
    let issuer = Issuer {
        unperformed: false,
        failed: false,
        unable: false,
    };
    let approved = (second.requested == 1) & (128 <= update);
    let scripts = state.scripts.heard();
    let timing = purchase.timing;
    let last = recover(timing, approved, state.last);
    close(
        words, state.atc, pending, approved, values, last, history, scripts, issuer,
    )
}

// The issuer's data failed.
fn failed(words: &Words, state: State, pending: Pending) -> Outcome
    ensures { result ≡ failed_performed (rules_of words.now) state pending }
{
    let values = state.values;
    let present = state.history;
    let before = pending.history;
    let issuer = Issuer {
        unperformed: before.unable | before.missing,
        failed: true,
        unable: false,
    };
    close(
        words,
        state.atc,
        pending,
        false,
        values,
        state.last,
        present.with_failed(),
        state.scripts,
        issuer,
    )
}

// Data that are absent are heard where authentication is not required.
fn hear_absent(required: bool, scripts: Scripts) -> Scripts
    ensures { result ≡ cond required scripts (heard scripts) }
{
    if required {
        return scripts;
    }
    scripts.heard()
}

// The issuer's data absent.
fn absent(words: &Words, state: State, pending: Pending, requested: u8) -> Outcome
    ensures { result ≡ absent_performed (rules_of words.now) state requested pending }
{
    let values = state.values;
    let present = state.history;
    let before = pending.history;
    let required = rules::is_required(words);
    let mut history = present.with_missing();
    history.uncompleted = present.uncompleted & required;
    let issuer = Issuer {
        unperformed: true,
        failed: before.failed,
        unable: false,
    };
    let approved = (requested == 1) & !required;
    let scripts = hear_absent(required, state.scripts);
    let purchase = pending.purchase;
    let timing = purchase.timing;
    let last = recover(timing, approved, state.last);
    close(
        words, state.atc, pending, approved, values, last, history, scripts, issuer,
    )
}

pub fn perform(words: &Words, state: State, pending: Pending, second: Second) -> Outcome
    ensures { result ≡ second_performed (rules_of words.now) state second pending }
{
    if is_unable(second.code) {
        return unable(words, state, pending, second.requested);
    }
    if second.issuer == 1 {
        return verified(words, state, pending, second);
    }
    if second.issuer == 2 {
        return failed(words, state, pending);
    }
    absent(words, state, pending, second.requested)
}
