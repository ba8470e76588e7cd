// A purchase, and what it is worth.
#![tactic(auto)]

ghost use Rattle.std.specs.Prelude.{◌≡◌};
ghost use Rattle.money.specs.Money.{convert_of};
ghost use Rattle.rules.specs.Rules.{rules_of};
ghost use Rattle.purchase.specs.Meter.{worth, cyclic_worth, is_open};

use calendar::Date;
use cpace::Cvm;
use money::{AccumulatorAmount, Converted, TransactionAmount};
use rules::Words;

// How a purchase's date stands to the card's last one: an earlier one is a date error.
#[derive(Clone, Copy)]
pub enum Timing {
    Undated,
    InOrder,
    DateError(Date),
}

#[derive(Clone, Copy)]
pub struct Purchase {
    pub amount: TransactionAmount,
    pub currency: u16,
    pub timing: Timing,
    pub cvm: Cvm,
    pub cashback: bool,
}

// The purchase in a currency. The table is read only for another one.
pub fn worth_in(words: &Words, purchase: Purchase, currency: u16) -> Converted
    ensures { result ≡ convert_of purchase.amount purchase.currency currency (rules_of words.now).rates }
{
    let amount = purchase.amount;
    if purchase.currency == currency {
        return Converted::Amount(AccumulatorAmount(money::stop(amount.0)));
    }
    money::convert(amount, purchase.currency, currency, rules::rates(words))
}

// The purchase in the currency of accumulator i + 1.
pub fn worth(words: &Words, purchase: Purchase, i: usize) -> Converted
    ensures { result ≡ worth (rules_of words.now) purchase i }
{
    worth_in(words, purchase, rules::currency(words, i))
}

// The purchase in the currency of cyclic accumulator i + 1.
pub fn cyclic_worth(words: &Words, purchase: Purchase, i: usize) -> Converted
    ensures { result ≡ cyclic_worth (rules_of words.now) purchase i }
{
    let cycle = rules::cycle_of(words, i);
    worth_in(words, purchase, cycle.currency)
}

// Whether a slot, accumulator i + 1 or from 5 on a counter, takes the purchase up: its control does not
// close it. A control of 0, as every one of a CPA card, lets all in.
pub fn is_open(words: &Words, purchase: Purchase, slot: usize) -> bool
    ensures { result ≡ is_open (rules_of words.now) purchase slot }
{
    let control = rules::control(words, slot);
    if control == 0 {
        return true;
    }
    let cvm = purchase.cvm;
    !cpace::closes(control, cvm)
}
