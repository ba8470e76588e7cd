// Where the fields of a set-up's body stand (document 01, "The paper"): each from the beginning of
// its part. What stands first in its part has no name here.
#![tactic(auto)]

ghost use Rattle.std.specs.Prelude.{◌≡◌, ◌<◌, ◌^◌};
ghost use Rattle.layout.specs.Layout.{profile_from, conversion_from, base_length, profile_place, conversion_place, cycles_length, family_length};

// The head.
pub const KEY_INDEX: usize = 0;

pub const PIN_TRIES: usize = 1;
// Issuer authentication required.
pub const REQUIRED: usize = 2;
// p, the number of profiles.
pub const PROFILES: usize = 3;
// c, the number of conversions.
pub const CONVERSIONS: usize = 4;

pub const ATC: usize = 5;

pub const ONLINE_NEXT: usize = 7;

pub const ACCUMULATORS: usize = 8;

pub const COUNTERS: usize = 48;

pub const HEAD_LENGTH: usize = 52;

// An accumulator of the head: currency, value.
pub const VALUE: usize = 2;

pub const ACCUMULATOR_LENGTH: usize = 10;

// A profile: number, masks, maximum transaction amount, rules, what is sent.
pub const ONLINE: usize = 1;

pub const DECLINE: usize = 5;

pub const DEFAULT: usize = 9;

pub const MAXIMUM_ON: usize = 13;

pub const MAXIMUM_CURRENCY: usize = 14;

pub const MAXIMUM: usize = 16;

pub const ACCUMULATOR_RULES: usize = 24;

pub const COUNTER_RULES: usize = 92;

pub const ACCUMULATOR_SENT: usize = 104;

pub const FIRST_SENT: usize = 105;

pub const SECOND_SENT: usize = 106;

pub const PROFILE_LENGTH: usize = 107;

// A rule of an accumulator or a counter: switches, lower, upper. Its limits have so many bytes.
pub const ACCUMULATOR_LIMIT: usize = 8;

pub const COUNTER_LIMIT: usize = 1;

pub const LOWER: usize = 1;

pub const ACCUMULATOR_UPPER: usize = LOWER + ACCUMULATOR_LIMIT;

pub const ACCUMULATOR_RULE_LENGTH: usize = LOWER + 2 * ACCUMULATOR_LIMIT;

pub const COUNTER_RULE_LENGTH: usize = LOWER + 2 * COUNTER_LIMIT;

// A conversion: from, to, digits, s + 9.
pub const TO: usize = 2;

pub const DIGITS: usize = 4;

pub const SHIFT: usize = 6;

pub const CONVERSION_LENGTH: usize = 7;

// The tail of version 04: dated, last date, cyclic accumulators, and for each profile their rules.
pub const LAST_DATE: usize = 1;

pub const CYCLES: usize = 4;

pub const CYCLIC_RULES: usize = 28;

// A cyclic accumulator: currency, amount, kind of cycle, first day of a week.
pub const CYCLE_AMOUNT: usize = 2;

pub const CYCLE_KIND: usize = 10;

pub const FIRST_DAY: usize = 11;

pub const CYCLE_LENGTH: usize = 12;

// Its rule in a profile: switches, limit.
pub const CYCLIC_LIMIT: usize = 1;

pub const CYCLIC_RULE_LENGTH: usize = 9;

// Those of both.
pub const CYCLIC_RULES_LENGTH: usize = 18;

// The tail of version 05: family, controls of four accumulators and of four counters, and for each
// profile whether it checks cashback.
pub const CONTROLS: usize = 1;

pub const CASHBACKS: usize = 9;

// Where profile i + 1 begins, and where i profiles end.
fn profile_from(i: usize) -> usize
    requires { i < 256 }
    ensures { result ≡ profile_from i }
{
    HEAD_LENGTH + PROFILE_LENGTH * i
}

// Where conversion i + 1 begins, and where i conversions end.
fn conversion_from(s: &[u8], i: usize) -> usize
    requires { i < 256 }
    ensures { (result ≡ conversion_from s.now i) × (result < 2 ^ 63) }
{
    profile_from(wire::byte_at(s, PROFILES) as usize) + CONVERSION_LENGTH * i
}

// How many bytes the base of document 01 has.
pub fn base_length(s: &[u8]) -> usize
    ensures { (result ≡ base_length s.now) × (result < 2 ^ 63) }
{
    conversion_from(s, wire::byte_at(s, CONVERSIONS) as usize)
}

// The place of profile i + 1: one that is not there stands at the end, where every byte reads as 0.
pub fn profile_place(s: &[u8], i: usize) -> usize
    ensures { (result ≡ profile_place s.now i) × (result < 2 ^ 63) }
{
    if i < wire::byte_at(s, PROFILES) as usize {
        profile_from(i)
    } else {
        s.len()
    }
}

// How many bytes the tail of version 04 has where dates are on: 28 + 18p.
pub fn cycles_length(s: &[u8]) -> usize
    ensures { (result ≡ cycles_length s.now) × (result < 2 ^ 63) }
{
    CYCLIC_RULES + CYCLIC_RULES_LENGTH * wire::byte_at(s, PROFILES) as usize
}

// How many bytes the tail of version 05 has where the card is a CPACE one: 9 + p.
pub fn family_length(s: &[u8]) -> usize
    ensures { (result ≡ family_length s.now) × (result < 2 ^ 63) }
{
    CASHBACKS + wire::byte_at(s, PROFILES) as usize
}

// The place of conversion i + 1.
pub fn conversion_place(s: &[u8], i: usize) -> usize
    ensures { (result ≡ conversion_place s.now i) × (result < 2 ^ 63) }
{
    if i < wire::byte_at(s, CONVERSIONS) as usize {
        conversion_from(s, i)
    } else {
        s.len()
    }
}
