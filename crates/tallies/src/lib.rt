// What an answer adds to the sheet of a class: one for its refusal, or one for its kind, by the profile
// that the IAD names, and the amount of an offline approval.
#![tactic(auto)]

ghost use Rattle.std.specs.Prelude.{◌≡◌};
ghost use Rattle.tallies.specs.Tallies.{kind_number, is_approval, cryptogram_tallies, answer_tallies, all_fit, all_tallied};

use sheet::Sheet;
use state::{Answer, Kind};

// What a First asked.
#[derive(Clone, Copy)]
pub struct Sale {
    pub amount: u64,
    pub currency: u16,
}

fn kind_number(kind: Kind) -> u8
    ensures { result ≡ kind_number kind }
{
    match kind {
        Kind::Tc => 0,
        Kind::Aac => 1,
        Kind::Arqc => 2,
    }
}

// Whether a cryptogram approves, where it was decided offline.
fn is_approval(offline: bool, kind: Kind) -> bool
    ensures { result ≡ is_approval offline kind }
{
    match kind {
        Kind::Tc => offline,
        Kind::Aac => false,
        Kind::Arqc => false,
    }
}

fn take_cryptogram(sheet: &mut Sheet, offline: bool, sale: Sale, kind: Kind, profile: u8) -> bool
    ensures { (result ≡ all_fit sheet.old (cryptogram_tallies offline sale kind profile))
        × (sheet.new ≡ all_tallied sheet.old (cryptogram_tallies offline sale kind profile)) }
{
    sheet::count_answer(sheet, profile, kind_number(kind));
    if is_approval(offline, kind) {
        return sums::add_sale(sheet, sale.currency, sale.amount);
    }
    true
}

// An answer, whether what it answers is decided offline, and what the transaction's First asked. False
// where it would bring a thirty-third currency.
pub fn take_answer(sheet: &mut Sheet, offline: bool, sale: Sale, answer: Answer) -> bool
    ensures { (result ≡ all_fit sheet.old (answer_tallies offline sale answer))
        × (sheet.new ≡ all_tallied sheet.old (answer_tallies offline sale answer)) }
{
    match answer {
        Answer::Refused(refusal) => {
            sheet::count_refusal(sheet, refusal.number());
            true
        }
        Answer::Given { kind, iad, .. } => {
            take_cryptogram(sheet, offline, sale, kind, iad.profile)
        }
        Answer::Started { .. } => true,
        Answer::Done => true,
    }
}
