// The conversions of a set-up's body, and what its tails of versions 04 and 05 say, loaded into the words of its rules.
#![tactic(auto)]

ghost use Rattle.std.specs.Prelude.{◌≡◌, ◌+◌, ◌*◌, ◌≤◌, ◌<◌, ◌^◌};
ghost use Rattle.std.proofs.lemmas.List.Edits.{sets};
ghost use Rattle.layout.specs.Layout.{conversion_place};
ghost use Rattle.rules.specs.Word.{word_count, rates, profiles, rate_from};
ghost use Rattle.load_parts.specs.LoadParts.{rate_words, rates_words};
ghost use Rattle.layout.specs.Layout.{cycle_from as cycleBytes, cyclic_rule_from as cyclicRuleBytes};
ghost use Rattle.rules.specs.Word.{cycles, cycle_from, cyclic_rule_from};
ghost use Rattle.load_parts.specs.LoadParts.{cycle_words, cyclic_rule_words, cyclic_rules_words, cycles_words};
ghost use Rattle.wire.specs.Wire.{byte};
ghost use Rattle.rules.specs.Word.{controls};
ghost use Rattle.rules.specs.Rules.{four};
ghost use Rattle.load_parts.specs.LoadParts.{family_words};

use rules::{Words, word};

// Conversion i + 1: from, to, digits, s + 9.
fn load_rate(words: &mut Words, i: usize, s: &[u8])
    requires { i < 5 }
    ensures { words.new ≡ sets words.old (rate_from i) (rate_words s.now (conversion_place s.now i)) }
{
    let at = layout::conversion_place(s, i);
    let to = word::RATES + word::RATE_LENGTH * i;
    words[to] = wire::u16_at(s, at) as u64;
    words[to + word::TO] = wire::u16_at(s, at + layout::TO) as u64;
    words[to + word::DIGITS] = wire::u16_at(s, at + layout::DIGITS) as u64;
    words[to + word::SHIFT] = wire::byte_at(s, at + layout::SHIFT) as u64;
}

pub fn load_rates(words: &mut Words, s: &[u8])
    ensures { words.new ≡ sets words.old rates (rates_words s.now) }
{
    load_rate(words, 0, s);
    load_rate(words, 1, s);
    load_rate(words, 2, s);
    load_rate(words, 3, s);
    load_rate(words, 4, s);
}

// Cyclic accumulator i + 1: currency, kind, first day.
fn load_cycle(words: &mut Words, i: usize, t: &[u8])
    requires { i < 2 }
    ensures { words.new ≡ sets words.old (cycle_from i) (cycle_words t.now (cycleBytes i)) }
{
    let at = layout::CYCLES + layout::CYCLE_LENGTH * i;
    let to = word::CYCLES + word::CYCLE_LENGTH * i;
    words[to] = wire::u16_at(t, at) as u64;
    words[to + word::CYCLE_KIND] = wire::byte_at(t, at + layout::CYCLE_KIND) as u64;
    words[to + word::FIRST_DAY] = wire::byte_at(t, at + layout::FIRST_DAY) as u64;
}

// The rule of cyclic accumulator i + 1 in profile j + 1: switches, limit.
fn load_cyclic_rule(words: &mut Words, j: usize, i: usize, t: &[u8])
    requires { (j < 4) × (i < 2) }
    ensures { words.new
        ≡ sets words.old (cyclic_rule_from j i) (cyclic_rule_words t.now (cyclicRuleBytes j i)) }
{
    let at = layout::CYCLIC_RULES
        + layout::CYCLIC_RULES_LENGTH * j
        + layout::CYCLIC_RULE_LENGTH * i;
    let to = word::CYCLIC_RULES + word::CYCLIC_RULES_LENGTH * j + word::CYCLIC_RULE_LENGTH * i;
    words[to] = wire::byte_at(t, at) as u64;
    words[to + word::CYCLIC_LIMIT] = wire::u64_at(t, at + layout::CYCLIC_LIMIT);
}

// The rules of both in profile j + 1.
fn load_cyclic_rules(words: &mut Words, j: usize, t: &[u8])
    requires { j < 4 }
    ensures { words.new ≡ sets words.old (cyclic_rule_from j 0) (cyclic_rules_words t.now j) }
{
    load_cyclic_rule(words, j, 0, t);
    load_cyclic_rule(words, j, 1, t);
}

// The cyclic accumulators and their rules; where dates are off there are no bytes, and all is 0.
pub fn load_cycles(words: &mut Words, t: &[u8])
    ensures { words.new ≡ sets words.old cycles (cycles_words t.now) }
{
    load_cycle(words, 0, t);
    load_cycle(words, 1, t);
    load_cyclic_rules(words, 0, t);
    load_cyclic_rules(words, 1, t);
    load_cyclic_rules(words, 2, t);
    load_cyclic_rules(words, 3, t);
}

// Four bytes from a place on.
fn load_bytes(words: &mut Words, to: usize, f: &[u8], at: usize)
    requires { (to + 4 ≤ word_count) × (at + 4 < 2 ^ 64) }
    ensures { words.new ≡ sets words.old to (four (λ i. byte f.now (at + i))) }
{
    words[to] = wire::byte_at(f, at) as u64;
    words[to + 1] = wire::byte_at(f, at + 1) as u64;
    words[to + 2] = wire::byte_at(f, at + 2) as u64;
    words[to + 3] = wire::byte_at(f, at + 3) as u64;
}

// The controls of the accumulators and of the counters, and whether the profiles check cashback; a
// CPA card has no bytes of it, and all is 0.
pub fn load_family(words: &mut Words, f: &[u8])
    ensures { words.new ≡ sets words.old controls (family_words f.now) }
{
    load_bytes(words, word::CONTROLS, f, layout::CONTROLS);
    load_bytes(words, word::CONTROLS + 4, f, layout::CONTROLS + 4);
    load_bytes(words, word::CASHBACKS, f, layout::CASHBACKS);
}
