// An entry of a CPACE card's Profile Selection File that tests an accumulator or a counter, by CPACE
// C.45 and Table 74: its check type, and the one block that the value is compared with.
#![tactic(auto)]

ghost use Rattle.std.specs.Prelude.{◌≡◌};
ghost use Rattle.block.specs.Block.{slot_of, adds_transaction, asks_greater, block_fits, is_slot_sound, block_value};

use digits::{are_pairs, pairs_value};
use fields::check_type;
use wire::byte_at;

// An accumulator or a counter, by its number.
#[derive(Clone, Copy)]
pub enum Slot {
    Accumulator(u8),
    Counter(u8),
}

// b7 of a check type: an accumulator or a counter; b6 and b5: its number, and 00 is counter 4.
pub fn slot_of(check: u8) -> Slot
    ensures { result ≡ slot_of check }
{
    let number = check / 16 % 4;
    if check / 64 % 2 == 1 {
        return Slot::Accumulator(number);
    }
    if number == 0 {
        return Slot::Counter(4);
    }
    Slot::Counter(number)
}

// b2: with the transaction.
pub fn adds_transaction(check: u8) -> bool
    ensures { result ≡ adds_transaction check }
{
    check / 2 % 2 == 1
}

// b1: greater than the block, or less.
pub fn asks_greater(check: u8) -> bool
    ensures { result ≡ asks_greater check }
{
    check % 2 == 1
}

// There is no accumulator 0. An accumulator's block is six bytes of digits, a counter's is one byte.
fn block_fits(slot: Slot, entry: &[u8]) -> bool
    ensures { result ≡ block_fits slot entry.now }
{
    match slot {
        Slot::Accumulator(x) => (x != 0) & (byte_at(entry, 2) == 6) & are_pairs(entry, 4),
        Slot::Counter(_) => byte_at(entry, 2) == 1,
    }
}

// All of it is there, n is 1, and the block is one for its slot.
pub fn is_sound(entry: &[u8]) -> bool
    ensures { result ≡ is_slot_sound entry.now }
{
    let length = byte_at(entry, 0) as usize;
    (entry.len() == length + 1)
        & (byte_at(entry, 3) == 1)
        & (length == byte_at(entry, 2) as usize + 6)
        & block_fits(slot_of(check_type(entry)), entry)
}

pub fn block_value(slot: Slot, entry: &[u8]) -> u64
    ensures { result ≡ block_value slot entry.now }
{
    match slot {
        Slot::Accumulator(_) => pairs_value(entry, 4),
        Slot::Counter(_) => byte_at(entry, 4) as u64,
    }
}
