// The test of an accumulator or a counter by an entry of a CPACE card's Profile Selection File: the value
// against the entry's block, by CPACE C.45.
#![tactic(auto)]

ghost use Rattle.std.specs.Prelude.{◌≡◌, ◌-◌, ◌≤◌};
ghost use Rattle.slot.specs.Slot.{tests_slot, slot_of, asks_amount, has_amount, lacks_amount};
ghost use Rattle.slot.specs.Slot.{number_of, value_of, with_transaction, slot_value, slot_passes};

use block::{Slot, adds_transaction, asks_greater, block_value, slot_of};
use digits::{are_pairs, pairs_value};
use fields::check_type;
use money::AccumulatorAmount;
use wire::byte_at;

// What a card's entries may test: of a CPA card nothing.
#[derive(Clone, Copy)]
pub struct Slots {
    pub testable: bool,
    pub amounts: [u64; 4],
    pub counts: [u8; 4],
}

// b8 of the check type. To a CPA card it says nothing.
pub fn tests_slot(entry: &[u8], slots: Slots) -> bool
    ensures { result ≡ tests_slot entry.now slots }
{
    slots.testable & (0x80 <= check_type(entry))
}

// The place of a number that counts from 1.
fn place_of(number: u8) -> u8
    ensures { result ≡ number - 1 }
{
    number.saturating_sub(1)
}

fn asks_amount(check: u8) -> bool
    ensures { result ≡ asks_amount (slot_of check) check }
{
    match slot_of(check) {
        Slot::Accumulator(_) => adds_transaction(check),
        Slot::Counter(_) => false,
    }
}

// Whether an amount stands at a position of the data, the first byte being 1.
fn has_amount(data: &[u8], position: u8) -> bool
    ensures { result ≡ has_amount «data».now position }
{
    (0 < position) & (position as usize + 5 <= data.len()) & are_pairs(data, place_of(position))
}

// Whether an amount is asked that the data do not have.
pub fn lacks_amount(entry: &[u8], data: &[u8]) -> bool
    ensures { result ≡ lacks_amount entry.now «data».now }
{
    asks_amount(check_type(entry)) & !has_amount(data, byte_at(entry, 1))
}

// The card's value of a slot.
fn value_of(slots: Slots, slot: Slot) -> u64
    requires { number_of slot ≤ 4 }
    ensures { result ≡ value_of slots slot }
{
    match slot {
        Slot::Accumulator(x) => slots.amounts[place_of(x) as usize],
        Slot::Counter(x) => u64::from(slots.counts[place_of(x) as usize]),
    }
}

// A value with the transaction: plus the amount in the data, stopped at MAX, or plus 1, stopped at 255.
fn with_transaction(slot: Slot, value: u64, data: &[u8], position: u8) -> u64
    ensures { result ≡ with_transaction slot value «data».now position }
{
    match slot {
        Slot::Accumulator(_) => {
            let amount = pairs_value(data, place_of(position));
            money::plus(AccumulatorAmount(value), AccumulatorAmount(amount)).0
        }
        Slot::Counter(_) => { if value < 255 { value + 1 } else { 255 } }
    }
}

// The value that is tested: the card's, or that with the transaction.
fn slot_value(entry: &[u8], data: &[u8], slots: Slots) -> u64
    ensures { result ≡ slot_value entry.now «data».now slots }
{
    let check = check_type(entry);
    let slot = slot_of(check);
    let value = value_of(slots, slot);
    if adds_transaction(check) {
        return with_transaction(slot, value, data, byte_at(entry, 1));
    }
    value
}

// Whether the value is greater than the block, or less.
pub fn passes(entry: &[u8], data: &[u8], slots: Slots) -> bool
    ensures { result ≡ slot_passes entry.now «data».now slots }
{
    let check = check_type(entry);
    let value = slot_value(entry, data, slots);
    let block = block_value(slot_of(check), entry);
    if asks_greater(check) {
        block < value
    } else {
        value < block
    }
}
