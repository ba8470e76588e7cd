// CVR and IAD: what goes out with a cryptogram.
#![tactic(auto)]

ghost use Rattle.std.specs.Prelude.{◌≡◌, ◌≤◌};
ghost use Rattle.rules.specs.Rules.{rules_of};
ghost use Rattle.cryptogram.specs.Cryptogram.{kind_code, later_code, limits_byte, verification, sent_amount, sent_count, sent_iad};

use iad::{Cvr, Iad};
use limits::bit;
use marks::Scripts;
use money::AccumulatorAmount;
use rules::{Place, Values, Words};
use state::{History, Kind};

// The type of the second cryptogram.
#[derive(Drop)]
pub enum Later {
    Aac,
    Tc,
    NotRequested,
}

// How the issuer was reached: issuer authentication not performed, failed; unable to go online.
#[derive(Drop)]
pub struct Issuer {
    pub unperformed: bool,
    pub failed: bool,
    pub unable: bool,
}

fn kind_code(kind: Kind) -> u8
    ensures { (result ≡ kind_code kind) × (result ≤ 2) }
{
    match kind {
        Kind::Aac => 0,
        Kind::Tc => 1,
        Kind::Arqc => 2,
    }
}

fn later_code(later: Later) -> u8
    ensures { (result ≡ later_code later) × (result ≤ 2) }
{
    match later {
        Later::Aac => 0,
        Later::Tc => 1,
        Later::NotRequested => 2,
    }
}

// CVR byte 3: any counter lower, upper, any accumulator lower, upper, and a date error.
pub fn limits_of(adr: u32) -> u8
    ensures { result ≡ limits_byte adr }
{
    bit(checks::meets(adr, checks::COUNTERS_LOWER)) * 128
        + bit(checks::meets(adr, checks::COUNTERS_UPPER)) * 64
        + bit(checks::meets(adr, checks::ACCUMULATORS_LOWER)) * 32
        + bit(checks::meets(adr, checks::ACCUMULATORS_UPPER)) * 16
        + bit(checks::meets(adr, checks::DATE_ERROR)) * 2
}

// The Card Verification Results. History, limits and what is kept of scripts are those of the First.
pub fn verify(
    words: &Words,
    history: History,
    limits: u8,
    scripts: Scripts,
    first: Kind,
    later: Later,
    issuer: Issuer,
) -> Cvr
    ensures { result ≡ verification (rules_of words.now) history limits scripts first later issuer }
{
    let tries = rules::pin_tries(words);
    Cvr {
        byte1: later_code(later) * 64
            + kind_code(first) * 16
            + bit(issuer.unperformed) * 2
            + bit(issuer.failed),
        byte2: tries * 16 + bit(tries == 0) * 2 + bit(history.uncompleted),
        byte3: limits,
        byte4: scripts.marks() + bit(history.online) * 2 + bit(issuer.unable),
        byte5: 0,
    }
}

// The accumulator of a number from 1 to 4, 0 for none.
fn sent_amount(values: [AccumulatorAmount; 4], number: u8) -> AccumulatorAmount
    ensures { result ≡ sent_amount values number }
{
    if (number == 0) | (4 < number) {
        return AccumulatorAmount(0);
    }
    values[number as usize - 1]
}

fn sent_counter(values: [u8; 4], number: u8) -> u8
    ensures { result ≡ sent_count values number }
{
    if (number == 0) | (4 < number) {
        return 0;
    }
    values[number as usize - 1]
}

// The fields of the IAD, with the values after the step.
pub fn send(words: &Words, place: Place, values: Values, cvr: Cvr) -> Iad
    ensures { result ≡ sent_iad (rules_of words.now) place values cvr }
{
    let sent = rules::profile_sent(words, place);
    let accumulators = values.accumulators;
    let counters = values.counters;
    Iad {
        accumulator: sent_amount(accumulators, sent.accumulator),
        key: rules::key_index(words),
        cvr,
        first: sent_counter(counters, sent.first),
        second: sent_counter(counters, sent.second),
        profile: rules::profile_number(words, place),
    }
}
