// One element of a PUT DATA command's list, by CPA 18.8: its length, and what it writes.
#![tactic(auto)]

ghost use Rattle.std.specs.Prelude.{◌≡◌, ◌<◌, ◌≤◌};
ghost use Rattle.element.specs.Element.{is_length, length_size, length_at, value_written, limits_written, counts_written};
ghost use Rattle.element.specs.Element.{head_size, element_size};

use digits::{are_pairs, pairs_value};
use money::AccumulatorAmount;
use wire::byte_at;

// P1 P2: values and limits of accumulators.
pub const ACCUMULATORS: u16 = 0xBF30;

// P1 P2: limits of counters.
pub const COUNTERS: u16 = 0xBF35;

// What an element writes. Slots count from 0.
#[derive(Drop)]
pub enum Write {
    Value {
        slot: usize,
        amount: AccumulatorAmount,
    },
    AccumulatorLimits {
        slot: usize,
        lower: AccumulatorAmount,
        upper: AccumulatorAmount,
    },
    CounterLimits {
        slot: usize,
        lower: u8,
        upper: u8,
    },
}

// A length is one byte, 00 to 7F, or 81 and one byte.
pub fn is_length(lead: u8) -> bool
    ensures { result ≡ is_length lead }
{
    (lead < 0x80) | (lead == 0x81)
}

// How many bytes write the length at a place.
pub fn length_size(s: &[u8], at: usize) -> usize
    ensures { (result ≡ length_size s.now at) × (result ≤ 2) }
{
    if byte_at(s, at) == 0x81 { 2 } else { 1 }
}

// The length at a place.
pub fn length_at(s: &[u8], at: usize) -> usize
    ensures { (result ≡ length_at s.now at) × (result < 256) }
{
    let lead = byte_at(s, at);
    if lead == 0x81 {
        return byte_at(s, at + 1) as usize;
    }
    lead as usize
}

// Six bytes: an accumulator's value.
pub fn value_written(slot: usize, value: &[u8]) -> Option<Write>
    ensures { result ≡ value_written slot value.now }
{
    if (value.len() == 6) & are_pairs(value, 0) {
        return Some(Write::Value {
            slot,
            amount: AccumulatorAmount(pairs_value(value, 0)),
        });
    }
    None
}

// Twelve bytes: an accumulator's lower limit and its upper.
pub fn limits_written(slot: usize, value: &[u8]) -> Option<Write>
    ensures { result ≡ limits_written slot value.now }
{
    if (value.len() == 12) & are_pairs(value, 0) & are_pairs(value, 6) {
        return Some(Write::AccumulatorLimits {
            slot,
            lower: AccumulatorAmount(pairs_value(value, 0)),
            upper: AccumulatorAmount(pairs_value(value, 6)),
        });
    }
    None
}

// Two bytes: a counter's lower limit and its upper.
pub fn counts_written(slot: usize, value: &[u8]) -> Option<Write>
    ensures { result ≡ counts_written slot value.now }
{
    if value.len() == 2 {
        return Some(Write::CounterLimits {
            slot,
            lower: value[0],
            upper: value[1],
        });
    }
    None
}

// How many bytes an element's tag, of two, and its length take. The list begins with it.
pub fn head_size(list: &[u8]) -> usize
    ensures { (result ≡ head_size list.now) × (result ≤ 4) }
{
    2 + length_size(list, 2)
}

// How many bytes the element takes with which a list begins.
pub fn element_size(list: &[u8]) -> usize
    ensures { (result ≡ element_size list.now) × (result < 260) }
{
    head_size(list) + length_at(list, 2)
}
