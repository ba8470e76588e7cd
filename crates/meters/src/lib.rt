// What approvals, declines and the issuer's orders do to a value, and what they do to a counter.
#![tactic(auto)]

ghost use Rattle.std.specs.Prelude.{◌≡◌};
ghost use Rattle.rules.specs.Rules.{rules_of};
ghost use Rattle.purchase.specs.Meter.{counter, counter_cap};
ghost use Rattle.meters.specs.Meters.{add, move, moved, offline, entered};

use purchase::Purchase;
use rules::{Place, Words};

// What a command does to the values.
#[derive(Clone, Copy)]
pub enum Change {
    // An offline approval, or the addition that CSU order 11 asks for.
    Approve(Purchase),
    // An offline decline.
    Decline,
    // CSU order 01: what is active takes its upper limit.
    SetToLimits,
    // CSU order 10: what is active becomes zero.
    Clear,
}

impl Change {
    // An offline approval or an offline decline.
    pub fn offline(approves: bool, purchase: Purchase) -> Change
        ensures { result ≡ offline approves purchase }
    {
        if approves {
            Change::Approve(purchase)
        } else {
            Change::Decline
        }
    }
}

// One more, stopping at 255.
fn next(value: u8) -> u8
    ensures { result ≡ move counter_cap value (add 1) }
{
    value.saturating_add(1)
}

// Counter i + 1 after a change.
pub fn change_count(words: &Words, place: Place, i: u8, value: u8, change: Change) -> u8
    ensures { result ≡ moved counter_cap value (entered (rules_of words.now) place change (counter i)) }
{
    let i = i as usize;
    let rule = rules::counter_rule(words, place, i);
    if !rule.active {
        return value;
    }
    match change {
        Change::Approve(purchase) => {
            if purchase::is_open(words, purchase, 4 + i) & rule.allow {
                return next(value);
            }
            value
        }
        Change::Decline => {
            if rule.allow & rule.declines {
                return next(value);
            }
            value
        }
        Change::SetToLimits => rule.upper,
        Change::Clear => 0,
    }
}
