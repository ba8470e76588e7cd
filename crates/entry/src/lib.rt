// One entry of the Profile Selection File of CPA Annex A: it tests a stretch of the terminal's data, in a
// CPACE card also an accumulator or a counter, and its action names a profile or moves down some entries.
#![tactic(auto)]

ghost use Rattle.std.specs.Ordering.{nat_cmp};
ghost use Rattle.std.specs.Prelude.{◌≡◌, ◌-◌, ◌<◌};
ghost use Rattle.fields.specs.Fields.{position, blocks};
ghost use Rattle.entry.specs.Entry.{is_well_formed, reaches_past, masked, block, is_any_of, passes};
ghost use Rattle.entry.specs.Entry.{action_of, action_after, data_action, slot_action, action_taken};

use fields::{block_place, blocks_end, check_type};
use slot::Slots;
use std::cmp::Ordering;
use wire::byte_at;

// What an action byte says. No action is zero, and profile 7F is none.
#[derive(Drop)]
pub enum Action {
    Profile(u8),
    Move(u8),
    Refused,
}

// All of it is there, n is 2 at least, the check type is known, and L and P are not 0.
fn is_well_formed(entry: &[u8]) -> bool
    ensures { result ≡ is_well_formed entry.now }
{
    let length = byte_at(entry, 0) as usize;
    (entry.len() == length + 1)
        & (6 <= length)
        & (2 <= byte_at(entry, 3))
        & (length == blocks_end(entry) + 2)
        & (check_type(entry) <= 2)
        & (0 < byte_at(entry, 2))
        & (0 < byte_at(entry, 1))
}

fn reaches_past(entry: &[u8], data: &[u8]) -> bool
    ensures { result ≡ reaches_past entry.now «data».now }
{
    data.len() + 1 < byte_at(entry, 1) as usize + byte_at(entry, 2) as usize
}

// How the masked data stands to block i, both read as big-endian numbers.
fn compare(entry: &[u8], i: u8, data: &[u8]) -> Ordering
    requires { 0 < position entry.now }
    ensures { result ≡ nat_cmp (masked entry.now «data».now) (block entry.now i) }
{
    let start = byte_at(entry, 1) as usize - 1;
    let length = byte_at(entry, 2) as usize;
    let place = block_place(entry, i);
    for k in 0..length {
        let mask = byte_at(entry, 4 + k);
        let masked = byte_at(data, start + k) & mask;
        let value = byte_at(entry, place + k);
        let order = masked.cmp(&value);
        if order.is_ne() {
            return order;
        }
    }
    Ordering::Equal
}

// Whether the masked data equals any comparison value.
fn matches_any(entry: &[u8], data: &[u8]) -> bool
    requires { 0 < position entry.now }
    ensures { result ≡ is_any_of (masked entry.now «data».now) entry.now 1 (blocks entry.now - 1) }
{
    for i in 1..byte_at(entry, 3) {
        if compare(entry, i, data).is_eq() {
            return true;
        }
    }
    false
}

#[tactic(auto, using(crate::proofs::Compared::tells), unfolding(crate::specs::Entry::passes))]
fn passes_test(entry: &[u8], data: &[u8]) -> bool
    requires { 0 < position entry.now }
    ensures { result ≡ passes entry.now «data».now }
{
    match check_type(entry) {
        0 => matches_any(entry, data),
        1 => compare(entry, 1, data).is_lt(),
        _ => compare(entry, 1, data).is_gt(),
    }
}

#[tactic(auto, unfolding(crate::specs::Entry::action_of))]
fn read_action(action: u8) -> Action
    ensures { result ≡ action_of action }
{
    match action {
        0 | 127 | 128 => Action::Refused,
        1..=126 => Action::Profile(action),
        _ => Action::Move(action - 128),
    }
}

// The action that a test leads to; the other one is not judged.
fn act_on(entry: &[u8], passed: bool) -> Action
    ensures { result ≡ action_after entry.now passed }
{
    read_action(if passed {
        fields::positive_action(entry)
    } else {
        fields::negative_action(entry)
    })
}

// What an entry does that tests the terminal's data.
#[tactic(auto, unfolding(crate::specs::Entry::data_action))]
fn data_action(entry: &[u8], data: &[u8]) -> Action
    ensures { result ≡ data_action entry.now «data».now }
{
    if !is_well_formed(entry) || reaches_past(entry, data) {
        return Action::Refused;
    }
    act_on(entry, passes_test(entry, data))
}

// What an entry does that tests an accumulator or a counter.
#[tactic(auto, unfolding(crate::specs::Entry::slot_action))]
fn slot_action(entry: &[u8], data: &[u8], slots: Slots) -> Action
    ensures { result ≡ slot_action entry.now «data».now slots }
{
    if !block::is_sound(entry) || slot::lacks_amount(entry, data) {
        return Action::Refused;
    }
    act_on(entry, slot::passes(entry, data, slots))
}

// What a visited entry does.
pub fn take_action(entry: &[u8], data: &[u8], slots: Slots) -> Action
    ensures { result ≡ action_taken entry.now «data».now slots }
{
    if slot::tests_slot(entry, slots) {
        return slot_action(entry, data, slots);
    }
    data_action(entry, data)
}
