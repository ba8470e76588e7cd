// Whether the bytes of a set-up's tails are in range, those of version 04 and of version 05. Ranges hold
// for inactive entries too.
#![tactic(auto)]

ghost use Rattle.std.specs.Prelude.{◌≡◌, ◌<◌};
ghost use Rattle.layout.specs.Layout.{cycle_from, cyclic_rule_from};
ghost use Rattle.ranges.specs.Ranges.{all};
ghost use Rattle.tails.specs.Tails.{is_cycle, is_cyclic_rule, are_cyclic_rules, are_cycles, is_control, is_cashback, is_family};

use money::MAX;

// Currency, amount, kind and first day of cyclic accumulator i + 1.
fn is_cycle(t: &[u8], i: usize) -> bool
    requires { i < 2 }
    ensures { result ≡ is_cycle t.now (cycle_from i) }
{
    let at = layout::CYCLES + layout::CYCLE_LENGTH * i;
    let kind = wire::byte_at(t, at + layout::CYCLE_KIND);
    wire::is_currency(wire::u16_at(t, at))
        & (wire::u64_at(t, at + layout::CYCLE_AMOUNT) <= MAX)
        & (1 <= kind)
        & (kind <= 3)
        & (wire::byte_at(t, at + layout::FIRST_DAY) <= 6)
}

// Switches and limit of cyclic accumulator i + 1 in profile j + 1. Of a profile that is not there
// every byte reads as 0.
fn is_cyclic_rule(t: &[u8], j: usize, i: usize) -> bool
    requires { (j < 4) × (i < 2) }
    ensures { result ≡ is_cyclic_rule t.now (cyclic_rule_from j i) }
{
    let at = layout::CYCLIC_RULES
        + layout::CYCLIC_RULES_LENGTH * j
        + layout::CYCLIC_RULE_LENGTH * i;
    (wire::byte_at(t, at) <= 7) & (wire::u64_at(t, at + layout::CYCLIC_LIMIT) <= MAX)
}

fn are_cyclic_rules(t: &[u8], j: usize) -> bool
    requires { j < 4 }
    ensures { result ≡ are_cyclic_rules t.now j }
{
    is_cyclic_rule(t, j, 0) & is_cyclic_rule(t, j, 1)
}

// Whether the bytes are the tail of version 04, in range where dates are on; none where they are off.
pub fn are_cycles(t: &[u8]) -> bool
    ensures { result ≡ are_cycles t.now }
{
    if t.is_empty() {
        return true;
    }
    calendar::is_day(calendar::date_at(t, layout::LAST_DATE))
        & (is_cycle(t, 0) & is_cycle(t, 1))
        & (are_cyclic_rules(t, 0)
            & are_cyclic_rules(t, 1)
            & are_cyclic_rules(t, 2)
            & are_cyclic_rules(t, 3))
}

// The control of slot i + 1.
fn is_control(f: &[u8], i: usize) -> bool
    requires { i < 8 }
    ensures { result ≡ is_control f.now i }
{
    wire::byte_at(f, layout::CONTROLS + i) <= 15
}

// Eight named tests: `(0..8).all(..)` asks a law on lists of numbers, and is no plainer.
fn are_controls(f: &[u8]) -> bool
    ensures { result ≡ all 8 (is_control f.now) }
{
    is_control(f, 0)
        & is_control(f, 1)
        & is_control(f, 2)
        & is_control(f, 3)
        & is_control(f, 4)
        & is_control(f, 5)
        & is_control(f, 6)
        & is_control(f, 7)
}

// Whether profile j + 1 checks cashback. Of a profile that is not there every byte reads as 0.
fn is_cashback(f: &[u8], j: usize) -> bool
    requires { j < 4 }
    ensures { result ≡ is_cashback f.now j }
{
    wire::byte_at(f, layout::CASHBACKS + j) <= 1
}

// Whether the bytes are the tail of version 05, in range where the card is a CPACE one; none of a CPA
// one.
pub fn is_family(f: &[u8]) -> bool
    ensures { result ≡ is_family f.now }
{
    if f.is_empty() {
        return true;
    }
    are_controls(f)
        & (is_cashback(f, 0) & is_cashback(f, 1) & is_cashback(f, 2) & is_cashback(f, 3))
}
