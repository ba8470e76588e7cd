// Where the words stand. What stands first in its part has no name here.

// The head, 5 rates, 4 profiles, the syllabus, 2 cyclic accumulators and their rules, 8 controls and
// 4 profiles' cashback checks.
pub const KEY_INDEX: usize = 0;

pub const PIN_TRIES: usize = 1;

pub const REQUIRED: usize = 2;

pub const CURRENCIES: usize = 3;

pub const RATES: usize = 7;

pub const PROFILES: usize = 27;

pub const SYLLABUS: usize = 163;

pub const CYCLES: usize = 164;

pub const CYCLIC_RULES: usize = 170;

pub const CONTROLS: usize = 186;

pub const CASHBACKS: usize = 194;

pub const COUNT: usize = 198;

// A rate: from, to, digits, shift.
pub const TO: usize = 1;

pub const DIGITS: usize = 2;

pub const SHIFT: usize = 3;

pub const RATE_LENGTH: usize = 4;

// A profile: number, masks, maximum transaction amount, rules, what is sent.
pub const ONLINE: usize = 1;

pub const DECLINE: usize = 2;

pub const DEFAULT: usize = 3;

pub const MAXIMUM_ON: usize = 4;

pub const MAXIMUM_CURRENCY: usize = 5;

pub const MAXIMUM: usize = 6;

pub const ACCUMULATORS: usize = 7;

pub const COUNTERS: usize = 19;

pub const ACCUMULATOR_SENT: usize = 31;

pub const FIRST_SENT: usize = 32;

pub const SECOND_SENT: usize = 33;

pub const PROFILE_LENGTH: usize = 34;

// A rule of an accumulator or a counter: switches, lower, upper.
pub const LOWER: usize = 1;

pub const UPPER: usize = 2;

pub const RULE_LENGTH: usize = 3;

// A cyclic accumulator: currency, kind of cycle, first day of a week.
pub const CYCLE_KIND: usize = 1;

pub const FIRST_DAY: usize = 2;

pub const CYCLE_LENGTH: usize = 3;

// Its rule in a profile: switches, limit. Each profile has two.
pub const CYCLIC_LIMIT: usize = 1;

pub const CYCLIC_RULE_LENGTH: usize = 2;

pub const CYCLIC_RULES_LENGTH: usize = 4;
