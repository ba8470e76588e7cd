// Whether the bytes of a set-up's body are a set-up: its length, and the range of every field
// (document 01, "Numbers" and "The paper"). Ranges hold for inactive entries too.
#![tactic(auto)]

ghost use Rattle.std.specs.Prelude.{◌≡◌, [], ◌∷◌, ◌+◌, ◌<◌, ◌^◌};
ghost use Rattle.layout.specs.Layout.{accumulator_from, accumulator_rule_from, counter_rule_from, profile_length, conversion_length};
ghost use Rattle.ranges.specs.Ranges.{has_length, is_head, is_accumulator, are_accumulators, is_setup};
ghost use Rattle.ranges.specs.Ranges.{are_masks, is_maximum_amount, is_accumulator_rule, are_accumulator_rules, is_counter_rule, are_counter_rules, are_sent};
ghost use Rattle.ranges.specs.Ranges.{is_profile, is_profile_or_absent, are_profiles, is_conversion, is_conversion_or_absent, are_conversions};
ghost use Rattle.ranges.specs.Ranges.{apart, listed, profile_number, are_numbers_apart, conversion_pair, are_pairs_apart};

use money::MAX;

// 52 + 107p + 7c bytes.
fn has_length(s: &[u8]) -> bool
    ensures { result ≡ has_length s.now }
{
    s.len() == layout::base_length(s)
}

// PIN tries, issuer authentication required, p, c and go online next.
fn is_head(s: &[u8]) -> bool
    ensures { result ≡ is_head s.now }
{
    let p = wire::byte_at(s, layout::PROFILES);
    (wire::byte_at(s, layout::PIN_TRIES) <= 15)
        & (wire::byte_at(s, layout::REQUIRED) <= 1)
        & (1 <= p)
        & (p <= 4)
        & (wire::byte_at(s, layout::CONVERSIONS) <= 5)
        & (wire::byte_at(s, layout::ONLINE_NEXT) <= 1)
}

// Currency and value of accumulator i + 1.
fn is_accumulator(s: &[u8], i: usize) -> bool
    requires { i < 4 }
    ensures { result ≡ is_accumulator s.now (accumulator_from i) }
{
    let at = layout::ACCUMULATORS + layout::ACCUMULATOR_LENGTH * i;
    wire::is_currency(wire::u16_at(s, at)) & (wire::u64_at(s, at + layout::VALUE) <= MAX)
}

fn are_accumulators(s: &[u8]) -> bool
    ensures { result ≡ are_accumulators s.now }
{
    is_accumulator(s, 0) & is_accumulator(s, 1) & is_accumulator(s, 2) & is_accumulator(s, 3)
}

// Online, Decline and Default of the profile at a place: the bits from the one that is unnamed on
// are zero.
fn are_masks(s: &[u8], unnamed: u32, at: usize) -> bool
    requires { at + profile_length < 2 ^ 64 }
    ensures { result ≡ are_masks s.now unnamed at }
{
    (wire::u32_at(s, at + layout::ONLINE) < unnamed)
        & (wire::u32_at(s, at + layout::DECLINE) < unnamed)
        & (wire::u32_at(s, at + layout::DEFAULT) < unnamed)
}

// MTA on, its currency, and the MTA of the profile at a place.
fn is_maximum_amount(s: &[u8], at: usize) -> bool
    requires { at + profile_length < 2 ^ 64 }
    ensures { result ≡ is_maximum_amount s.now at }
{
    (wire::byte_at(s, at + layout::MAXIMUM_ON) <= 1)
        & wire::is_currency(wire::u16_at(s, at + layout::MAXIMUM_CURRENCY))
        & (wire::u64_at(s, at + layout::MAXIMUM) <= MAX)
}

// Switches, lower and upper limit of accumulator j + 1.
fn is_accumulator_rule(s: &[u8], at: usize, j: usize) -> bool
    requires { (at + profile_length < 2 ^ 64) × (j < 4) }
    ensures { result ≡ is_accumulator_rule s.now (at + accumulator_rule_from j) }
{
    let rule = at + (layout::ACCUMULATOR_RULES + layout::ACCUMULATOR_RULE_LENGTH * j);
    (wire::byte_at(s, rule) <= 7)
        & (wire::u64_at(s, rule + layout::LOWER) <= MAX)
        & (wire::u64_at(s, rule + layout::ACCUMULATOR_UPPER) <= MAX)
}

fn are_accumulator_rules(s: &[u8], at: usize) -> bool
    requires { at + profile_length < 2 ^ 64 }
    ensures { result ≡ are_accumulator_rules s.now at }
{
    is_accumulator_rule(s, at, 0)
        & is_accumulator_rule(s, at, 1)
        & is_accumulator_rule(s, at, 2)
        & is_accumulator_rule(s, at, 3)
}

// The switches of counter j + 1. Its limits may be any.
fn is_counter_rule(s: &[u8], at: usize, j: usize) -> bool
    requires { (at + profile_length < 2 ^ 64) × (j < 4) }
    ensures { result ≡ is_counter_rule s.now (at + counter_rule_from j) }
{
    let rule = at + (layout::COUNTER_RULES + layout::COUNTER_RULE_LENGTH * j);
    wire::byte_at(s, rule) <= 15
}

fn are_counter_rules(s: &[u8], at: usize) -> bool
    requires { at + profile_length < 2 ^ 64 }
    ensures { result ≡ are_counter_rules s.now at }
{
    is_counter_rule(s, at, 0)
        & is_counter_rule(s, at, 1)
        & is_counter_rule(s, at, 2)
        & is_counter_rule(s, at, 3)
}

// The accumulator sent and the two counters sent: 1 to 4, or 0 for none.
fn are_sent(s: &[u8], at: usize) -> bool
    requires { at + profile_length < 2 ^ 64 }
    ensures { result ≡ are_sent s.now at }
{
    (wire::byte_at(s, at + layout::ACCUMULATOR_SENT) <= 4)
        & (wire::byte_at(s, at + layout::FIRST_SENT) <= 4)
        & (wire::byte_at(s, at + layout::SECOND_SENT) <= 4)
}

// A profile at a place.
fn is_profile(s: &[u8], unnamed: u32, at: usize) -> bool
    requires { at + profile_length < 2 ^ 64 }
    ensures { result ≡ is_profile s.now unnamed at }
{
    let number = wire::byte_at(s, at);
    (1 <= number)
        & (number <= 124)
        & are_masks(s, unnamed, at)
        & is_maximum_amount(s, at)
        & are_accumulator_rules(s, at)
        & are_counter_rules(s, at)
        & are_sent(s, at)
}

// Profile i + 1, if it is there.
fn is_profile_or_absent(s: &[u8], unnamed: u32, i: usize) -> bool
    ensures { result ≡ is_profile_or_absent s.now unnamed i }
{
    if wire::byte_at(s, layout::PROFILES) as usize <= i {
        return true;
    }
    is_profile(s, unnamed, layout::profile_place(s, i))
}

fn are_profiles(s: &[u8], unnamed: u32) -> bool
    ensures { result ≡ are_profiles s.now unnamed }
{
    is_profile_or_absent(s, unnamed, 0)
        & is_profile_or_absent(s, unnamed, 1)
        & is_profile_or_absent(s, unnamed, 2)
        & is_profile_or_absent(s, unnamed, 3)
}

// From, to, d and s + 9 of the conversion at a place. From is not to.
fn is_conversion(s: &[u8], at: usize) -> bool
    requires { at + conversion_length < 2 ^ 64 }
    ensures { result ≡ is_conversion s.now at }
{
    let from = wire::u16_at(s, at);
    let to = wire::u16_at(s, at + layout::TO);
    let digits = wire::u16_at(s, at + layout::DIGITS);
    wire::is_currency(from)
        & wire::is_currency(to)
        & (from != to)
        & (1 <= digits)
        & (digits <= 9_999)
        & (wire::byte_at(s, at + layout::SHIFT) <= 12)
}

// Conversion i + 1, if it is there.
fn is_conversion_or_absent(s: &[u8], i: usize) -> bool
    ensures { result ≡ is_conversion_or_absent s.now i }
{
    if wire::byte_at(s, layout::CONVERSIONS) as usize <= i {
        return true;
    }
    is_conversion(s, layout::conversion_place(s, i))
}

fn are_conversions(s: &[u8]) -> bool
    ensures { result ≡ are_conversions s.now }
{
    is_conversion_or_absent(s, 0)
        & is_conversion_or_absent(s, 1)
        & is_conversion_or_absent(s, 2)
        & is_conversion_or_absent(s, 3)
        & is_conversion_or_absent(s, 4)
}

// Four entries by what they go by, all different. 0 stands for one that is not there.
fn are_apart(a: u32, b: u32, c: u32, d: u32) -> bool
    ensures { result ≡ apart 4 (listed (a ∷ b ∷ c ∷ d ∷ [])) }
{
    ((a != b) | (b == 0))
        & (((a != c) & (b != c)) | (c == 0))
        & (((a != d) & (b != d) & (c != d)) | (d == 0))
}

// The number of profile i + 1, 0 if it is not there.
fn profile_number(s: &[u8], i: usize) -> u32
    ensures { result ≡ profile_number s.now i }
{
    wire::byte_at(s, layout::profile_place(s, i)) as u32
}

// No two profiles have the same number.
fn are_numbers_apart(s: &[u8]) -> bool
    ensures { result ≡ are_numbers_apart s.now }
{
    are_apart(
        profile_number(s, 0),
        profile_number(s, 1),
        profile_number(s, 2),
        profile_number(s, 3),
    )
}

// From and to of conversion i + 1 in one number, 0 if it is not there.
fn conversion_pair(s: &[u8], i: usize) -> u32
    ensures { result ≡ conversion_pair s.now i }
{
    wire::u32_at(s, layout::conversion_place(s, i))
}

// No two conversions are for the same pair.
fn are_pairs_apart(s: &[u8]) -> bool
    ensures { result ≡ are_pairs_apart s.now }
{
    let a = conversion_pair(s, 0);
    let b = conversion_pair(s, 1);
    let c = conversion_pair(s, 2);
    let d = conversion_pair(s, 3);
    let e = conversion_pair(s, 4);
    are_apart(a, b, c, d) & (((a != e) & (b != e) & (c != e) & (d != e)) | (e == 0))
}

// Whether the bytes are the base of a set-up, with masks below the bit that is unnamed.
pub fn is_setup(s: &[u8], unnamed: u32) -> bool
    ensures { result ≡ is_setup s.now unnamed }
{
    has_length(s)
        & is_head(s)
        & are_accumulators(s)
        & are_profiles(s, unnamed)
        & are_numbers_apart(s)
        & are_conversions(s)
        & are_pairs_apart(s)
}
