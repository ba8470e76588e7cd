// What a set-up says, in lent words: one word to a field. Where they stand is said here alone; the
// crates above ask by name. Whatever the words hold, each question has an answer.
#![tactic(auto)]

pub mod word;

ghost use Rattle.std.specs.Prelude.{◌≡◌, ◌+◌, ◌≤◌, ◌<◌};
ghost use Rattle.rules.specs.Word.{word_count, syllabus, profile_length, rule_length, rate_from};
ghost use Rattle.rules.specs.Rules.{blank_words, rules_of, profile_base, place_or, find_profile, profile_at, currency_at};
ghost use Rattle.rules.specs.Rules.{rate_at, accumulator_at, counter_at, accumulator_rule, counter_rule};
ghost use Rattle.rules.specs.Rules.{index_of, period_of, cycle_at, cyclic_rule_at, cycle_of, cyclic_rule, control_at, checks_cashback};

use calendar::Period;
use money::{AccumulatorAmount, Rate, Rates};

pub type Words = [u64; word::COUNT];

// One of the four places of a profile.
#[derive(Clone, Copy)]
pub enum Place {
    One,
    Two,
    Three,
    Four,
}

#[derive(Drop)]
pub struct Masks {
    pub online: u32,
    pub decline: u32,
    pub default: u32,
}

// The maximum transaction amount (MTA).
#[derive(Drop)]
pub struct MaximumAmount {
    pub amount: AccumulatorAmount,
    pub currency: u16,
    pub on: bool,
}

#[derive(Drop)]
pub struct AccumulatorRule {
    pub lower: AccumulatorAmount,
    pub upper: AccumulatorAmount,
    pub active: bool,
    pub allow: bool,
    pub include: bool,
}

#[derive(Drop)]
pub struct CounterRule {
    pub lower: u8,
    pub upper: u8,
    pub active: bool,
    pub allow: bool,
    pub include: bool,
    pub declines: bool,
}

// A cyclic accumulator: its currency, and the cycle whose amount it holds.
#[derive(Drop)]
pub struct Cycle {
    pub currency: u16,
    pub period: Period,
    pub first: u8,
}

#[derive(Drop)]
pub struct CyclicRule {
    pub limit: AccumulatorAmount,
    pub active: bool,
    pub allow: bool,
    pub include: bool,
}

// The values of the accumulators, the counters and the cyclic accumulators.
#[derive(Clone, Copy)]
pub struct Values {
    pub accumulators: [AccumulatorAmount; 4],
    pub counters: [u8; 4],
    pub cyclic: [AccumulatorAmount; 2],
}

// Which accumulator and which two counters the IAD sends: 1 to 4, 0 for none.
#[derive(Drop)]
pub struct Sent {
    pub accumulator: u8,
    pub first: u8,
    pub second: u8,
}

// Words to lend, before a set-up is loaded into them.
pub fn blank() -> Words
    ensures { result ≡ blank_words }
{
    [0; word::COUNT]
}

pub fn key_index(words: &Words) -> u8
    ensures { result ≡ (rules_of words.now).key }
{
    (words[word::KEY_INDEX] % 256) as u8
}

pub fn pin_tries(words: &Words) -> u8
    ensures { result ≡ (rules_of words.now).pin }
{
    (words[word::PIN_TRIES] % 16) as u8
}

// Whether issuer authentication is required.
pub fn is_required(words: &Words) -> bool
    ensures { result ≡ (rules_of words.now).required }
{
    words[word::REQUIRED] == 1
}

// The currency of accumulator i + 1.
pub fn currency(words: &Words, i: usize) -> u16
    ensures { result ≡ currency_at (rules_of words.now) i }
{
    if i < 4 {
        (words[word::CURRENCIES + i] % 65_536) as u16
    } else {
        0
    }
}

// Rate i + 1.
fn rate(words: &Words, i: usize) -> Rate
    requires { i < 5 }
    ensures { result ≡ rate_at words.now (rate_from i) }
{
    let at = word::RATES + word::RATE_LENGTH * i;
    Rate {
        from: (words[at] % 65_536) as u16,
        to: (words[at + word::TO] % 65_536) as u16,
        digits: (words[at + word::DIGITS] % 65_536) as u16,
        shift: (words[at + word::SHIFT] % 256) as u8,
    }
}

// The conversion table, and the syllabus by which it rounds.
pub fn rates(words: &Words) -> Rates
    ensures { result ≡ (rules_of words.now).rates }
{
    Rates {
        entries: [
            rate(words, 0),
            rate(words, 1),
            rate(words, 2),
            rate(words, 3),
            rate(words, 4),
        ],
        up: words[word::SYLLABUS] == 1,
    }
}

// Which of the four places it is, from 0 on.
pub fn index(place: Place) -> usize
    ensures { (result ≡ index_of place) × (result < 4) }
{
    place as usize
}

// Where the words of a profile begin.
pub fn base(place: Place) -> usize
    ensures { (result ≡ profile_base place) × (result + profile_length ≤ syllabus) }
{
    word::PROFILES + word::PROFILE_LENGTH * index(place)
}

pub fn profile_number(words: &Words, place: Place) -> u8
    ensures { result ≡ (profile_at (rules_of words.now) place).number }
{
    let at = base(place);
    (words[at] % 256) as u8
}

// The place if its profile has the number, else what was found elsewhere.
fn place_or(words: &Words, place: Place, number: u8, elsewhere: Option<Place>) -> Option<Place>
    ensures { result ≡ place_or (rules_of words.now) place number elsewhere }
{
    if profile_number(words, place) == number {
        Some(place)
    } else {
        elsewhere
    }
}

// The place of the profile of a number. No profile has number 0.
pub fn find_profile(words: &Words, number: u8) -> Option<Place>
    ensures { result ≡ find_profile (rules_of words.now) number }
{
    if number == 0 {
        return None;
    }
    // No find over an array of the places: tried, and the proof did not close.
    let fourth = place_or(words, Place::Four, number, None);
    let third = place_or(words, Place::Three, number, fourth);
    let second = place_or(words, Place::Two, number, third);
    place_or(words, Place::One, number, second)
}

pub fn profile_masks(words: &Words, place: Place) -> Masks
    ensures { result ≡ (profile_at (rules_of words.now) place).masks }
{
    let at = base(place);
    Masks {
        online: (words[at + word::ONLINE] % 4_294_967_296) as u32,
        decline: (words[at + word::DECLINE] % 4_294_967_296) as u32,
        default: (words[at + word::DEFAULT] % 4_294_967_296) as u32,
    }
}

pub fn maximum_amount(words: &Words, place: Place) -> MaximumAmount
    ensures { result ≡ (profile_at (rules_of words.now) place).maximum }
{
    let at = base(place);
    MaximumAmount {
        amount: AccumulatorAmount(words[at + word::MAXIMUM]),
        currency: (words[at + word::MAXIMUM_CURRENCY] % 65_536) as u16,
        on: words[at + word::MAXIMUM_ON] == 1,
    }
}

fn accumulator(words: &Words, at: usize) -> AccumulatorRule
    requires { at + rule_length ≤ word_count }
    ensures { result ≡ accumulator_at words.now at }
{
    let switches = words[at];
    AccumulatorRule {
        lower: AccumulatorAmount(words[at + word::LOWER]),
        upper: AccumulatorAmount(words[at + word::UPPER]),
        active: switches % 2 == 1,
        allow: switches / 2 % 2 == 1,
        include: switches / 4 % 2 == 1,
    }
}

// The rule of accumulator i + 1.
pub fn accumulator_rule(words: &Words, place: Place, i: usize) -> AccumulatorRule
    ensures { result ≡ accumulator_rule (rules_of words.now) place i }
{
    if i < 4 {
        return accumulator(
            words,
            base(place) + word::ACCUMULATORS + word::RULE_LENGTH * i,
        );
    }
    AccumulatorRule {
        lower: AccumulatorAmount(0),
        upper: AccumulatorAmount(0),
        active: false,
        allow: false,
        include: false,
    }
}

fn counter(words: &Words, at: usize) -> CounterRule
    requires { at + rule_length ≤ word_count }
    ensures { result ≡ counter_at words.now at }
{
    let switches = words[at];
    CounterRule {
        lower: (words[at + word::LOWER] % 256) as u8,
        upper: (words[at + word::UPPER] % 256) as u8,
        active: switches % 2 == 1,
        allow: switches / 2 % 2 == 1,
        include: switches / 4 % 2 == 1,
        declines: switches / 8 % 2 == 1,
    }
}

// The rule of counter i + 1.
pub fn counter_rule(words: &Words, place: Place, i: usize) -> CounterRule
    ensures { result ≡ counter_rule (rules_of words.now) place i }
{
    if i < 4 {
        return counter(words, base(place) + word::COUNTERS + word::RULE_LENGTH * i);
    }
    CounterRule {
        lower: 0,
        upper: 0,
        active: false,
        allow: false,
        include: false,
        declines: false,
    }
}

// The kinds of cycle: 1 day, 2 week, 3 month.
fn period(kind: u64) -> Period
    ensures { result ≡ period_of kind }
{
    match kind {
        1 => Period::Day,
        2 => Period::Week,
        _ => Period::Month,
    }
}

// Cyclic accumulator i + 1.
pub fn cycle_of(words: &Words, i: usize) -> Cycle
    ensures { result ≡ cycle_of (rules_of words.now) i }
{
    if i < 2 {
        let at = word::CYCLES + word::CYCLE_LENGTH * i;
        return Cycle {
            currency: (words[at] % 65_536) as u16,
            period: period(words[at + word::CYCLE_KIND]),
            first: (words[at + word::FIRST_DAY] % 256) as u8,
        };
    }
    Cycle {
        currency: 0,
        period: Period::Month,
        first: 0,
    }
}

// The rule of cyclic accumulator i + 1.
pub fn cyclic_rule(words: &Words, place: Place, i: usize) -> CyclicRule
    ensures { result ≡ cyclic_rule (rules_of words.now) place i }
{
    if i < 2 {
        let at = word::CYCLIC_RULES
            + word::CYCLIC_RULES_LENGTH * index(place)
            + word::CYCLIC_RULE_LENGTH * i;
        let switches = words[at];
        return CyclicRule {
            limit: AccumulatorAmount(words[at + word::CYCLIC_LIMIT]),
            active: switches % 2 == 1,
            allow: switches / 2 % 2 == 1,
            include: switches / 4 % 2 == 1,
        };
    }
    CyclicRule {
        limit: AccumulatorAmount(0),
        active: false,
        allow: false,
        include: false,
    }
}

// The control of slot i + 1: of accumulator i + 1, or from 5 on of a counter.
pub fn control(words: &Words, i: usize) -> u8
    ensures { result ≡ control_at (rules_of words.now) i }
{
    if i < 8 {
        (words[word::CONTROLS + i] % 256) as u8
    } else {
        0
    }
}

// Whether a profile checks cashback.
pub fn checks_cashback(words: &Words, place: Place) -> bool
    ensures { result ≡ checks_cashback (rules_of words.now) place }
{
    words[word::CASHBACKS + index(place)] == 1
}

pub fn profile_sent(words: &Words, place: Place) -> Sent
    ensures { result ≡ (profile_at (rules_of words.now) place).sent }
{
    let at = base(place);
    Sent {
        accumulator: (words[at + word::ACCUMULATOR_SENT] % 256) as u8,
        first: (words[at + word::FIRST_SENT] % 256) as u8,
        second: (words[at + word::SECOND_SENT] % 256) as u8,
    }
}
