// A set-up's body, loaded into the words of its rules.
#![tactic(auto)]

ghost use Rattle.std.specs.Prelude.{◌≡◌, ◌+◌, ◌*◌, ◌≤◌, ◌<◌, ◌^◌};
ghost use Rattle.std.proofs.lemmas.List.Edits.{sets};
ghost use Rattle.layout.specs.Layout.{profile_place, profile_length as profileBytes};
ghost use Rattle.rules.specs.Word.{word_count, profiles, profile_from, profile_length, accumulator_sent, rule_length};
ghost use Rattle.load.specs.Load.{head_words, stored};
ghost use Rattle.wire.specs.Wire.{byte};
ghost use Rattle.rules.specs.Rules.{four};
ghost use Rattle.load.specs.Load.{limit_in, rule_words, rules_words, profile_head_words, sent_words, profile_words, profiles_words};

use rules::{Words, word};

// Key index, PIN tries, issuer authentication required, and the accumulators' currencies.
fn load_head(words: &mut Words, s: &[u8])
    ensures { words.new ≡ sets words.old 0 (head_words s.now) }
{
    words[word::KEY_INDEX] = wire::byte_at(s, layout::KEY_INDEX) as u64;
    words[word::PIN_TRIES] = wire::byte_at(s, layout::PIN_TRIES) as u64;
    words[word::REQUIRED] = wire::byte_at(s, layout::REQUIRED) as u64;
    let first = layout::ACCUMULATORS;
    let length = layout::ACCUMULATOR_LENGTH;
    words[word::CURRENCIES] = wire::u16_at(s, first) as u64;
    words[word::CURRENCIES + 1] = wire::u16_at(s, first + length) as u64;
    words[word::CURRENCIES + 2] = wire::u16_at(s, first + 2 * length) as u64;
    words[word::CURRENCIES + 3] = wire::u16_at(s, first + 3 * length) as u64;
}

// A limit: of one byte if it is a counter's, else of 8.
fn limit(s: &[u8], at: usize, width: usize) -> u64
    ensures { result ≡ limit_in s.now at width }
{
    if width == layout::COUNTER_LIMIT {
        wire::byte_at(s, at) as u64
    } else {
        wire::u64_at(s, at)
    }
}

// A rule: switches, and the lower and the upper limit of a width.
fn load_rule(words: &mut Words, to: usize, s: &[u8], at: usize, width: usize)
    requires { (to + rule_length ≤ word_count) × (at + profileBytes < 2 ^ 64) × (width ≤ 8) }
    ensures { words.new ≡ sets words.old to (rule_words s.now at width) }
{
    words[to] = wire::byte_at(s, at) as u64;
    words[to + word::LOWER] = limit(s, at + layout::LOWER, width);
    words[to + word::UPPER] = limit(s, at + (layout::LOWER + width), width);
}

// The rules of the four accumulators, or of the four counters.
fn load_rules(words: &mut Words, to: usize, s: &[u8], at: usize, width: usize)
    requires { (to + 4 * rule_length ≤ word_count) × (at + 2 * profileBytes < 2 ^ 64) × (width ≤ 8) }
    ensures { words.new ≡ sets words.old to (rules_words s.now at width) }
{
    let length = layout::LOWER + 2 * width;
    let second = at + length;
    let third = second + length;
    let fourth = third + length;
    load_rule(words, to, s, at, width);
    load_rule(words, to + word::RULE_LENGTH, s, second, width);
    load_rule(words, to + word::RULE_LENGTH * 2, s, third, width);
    load_rule(words, to + word::RULE_LENGTH * 3, s, fourth, width);
}

// A profile's number, masks and maximum transaction amount.
fn load_profile_head(words: &mut Words, to: usize, s: &[u8], at: usize)
    requires { (to + profile_length ≤ word_count) × (at + profileBytes < 2 ^ 64) }
    ensures { words.new ≡ sets words.old to (profile_head_words s.now at) }
{
    words[to] = wire::byte_at(s, at) as u64;
    words[to + word::ONLINE] = wire::u32_at(s, at + layout::ONLINE) as u64;
    words[to + word::DECLINE] = wire::u32_at(s, at + layout::DECLINE) as u64;
    words[to + word::DEFAULT] = wire::u32_at(s, at + layout::DEFAULT) as u64;
    words[to + word::MAXIMUM_ON] = wire::byte_at(s, at + layout::MAXIMUM_ON) as u64;
    words[to + word::MAXIMUM_CURRENCY] = wire::u16_at(s, at + layout::MAXIMUM_CURRENCY) as u64;
    words[to + word::MAXIMUM] = wire::u64_at(s, at + layout::MAXIMUM);
}

// Which accumulator and which two counters a profile sends.
fn load_sent(words: &mut Words, to: usize, s: &[u8], at: usize)
    requires { (to + profile_length ≤ word_count) × (at + profileBytes < 2 ^ 64) }
    ensures { words.new ≡ sets words.old (to + accumulator_sent) (sent_words s.now at) }
{
    words[to + word::ACCUMULATOR_SENT] = wire::byte_at(s, at + layout::ACCUMULATOR_SENT) as u64;
    words[to + word::FIRST_SENT] = wire::byte_at(s, at + layout::FIRST_SENT) as u64;
    words[to + word::SECOND_SENT] = wire::byte_at(s, at + layout::SECOND_SENT) as u64;
}

// Profile i + 1.
fn load_profile(words: &mut Words, i: usize, s: &[u8])
    requires { i < 4 }
    ensures { words.new ≡ sets words.old (profile_from i) (profile_words s.now (profile_place s.now i)) }
{
    let at = layout::profile_place(s, i);
    let to = word::PROFILES + word::PROFILE_LENGTH * i;
    let accumulators = at + layout::ACCUMULATOR_RULES;
    let counters = at + layout::COUNTER_RULES;
    load_profile_head(words, to, s, at);
    load_rules(
        words,
        to + word::ACCUMULATORS,
        s,
        accumulators,
        layout::ACCUMULATOR_LIMIT,
    );
    load_rules(
        words,
        to + word::COUNTERS,
        s,
        counters,
        layout::COUNTER_LIMIT,
    );
    load_sent(words, to, s, at);
}

fn load_profiles(words: &mut Words, s: &[u8])
    ensures { words.new ≡ sets words.old profiles (profiles_words s.now) }
{
    load_profile(words, 0, s);
    load_profile(words, 1, s);
    load_profile(words, 2, s);
    load_profile(words, 3, s);
}

// Every word, whatever stood there: the base's, the syllabus, those of the cyclic accumulators, and
// those of a CPACE card.
pub fn load(words: &mut Words, s: &[u8], t: &[u8], f: &[u8], syllabus: u8)
    ensures { words.new
        ≡ stored words.old s.now t.now f.now syllabus }
{
    load_head(words, s);
    load_parts::load_rates(words, s);
    load_profiles(words, s);
    words[word::SYLLABUS] = syllabus as u64;
    load_parts::load_cycles(words, t);
    load_parts::load_family(words, f);
}
