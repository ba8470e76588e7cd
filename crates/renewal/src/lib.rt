// The rooms left worked out anew, in the lent cells: all of them, or those whose value moved.
#![tactic(auto)]

ghost use Rattle.std.specs.Prelude.{◌≡◌, ◌<◌, length};
ghost use Rattle.rules.specs.Rules.{rules_of};
ghost use Rattle.rooms.specs.Rooms.{cell_count, cell_set, column_set, column_renewed, filled, renewed};

use money::AccumulatorAmount;
use rooms::{Rooms, cell};
use rules::{Place, Values, Words};

// The room of accumulator i + 1 in the profile at a place. The cells come as a slice, of which it is
// known how long it is.
fn put(words: &Words, place: Place, i: u8, value: AccumulatorAmount, rooms: &mut [u64])
    requires { (i < 4) × (length rooms.old ≡ cell_count) }
    ensures { rooms.new ≡ cell_set (rules_of words.now) place i value rooms.old }
{
    let at = cell(place, i);
    rooms[at] = room::left(words, place, i as usize, value);
}

// In every profile, active there or not.
fn renew(words: &Words, i: u8, value: AccumulatorAmount, rooms: &mut [u64])
    requires { (i < 4) × (length rooms.old ≡ cell_count) }
    ensures { rooms.new ≡ column_set (rules_of words.now) i value rooms.old }
{
    put(words, Place::One, i, value, rooms);
    put(words, Place::Two, i, value, rooms);
    put(words, Place::Three, i, value, rooms);
    put(words, Place::Four, i, value, rooms);
}

// Where the value moved.
fn renew_if_moved(
    words: &Words,
    i: u8,
    before: AccumulatorAmount,
    after: AccumulatorAmount,
    rooms: &mut [u64],
)
    requires { (i < 4) × (length rooms.old ≡ cell_count) }
    ensures { rooms.new ≡ column_renewed (rules_of words.now) i before after rooms.old }
{
    if before.0 != after.0 {
        renew(words, i, after, rooms);
    }
}

// The rooms of all accumulators, by the rules and the values.
pub fn fill(words: &Words, values: Values, rooms: &mut Rooms)
    ensures { rooms.new ≡ filled (rules_of words.now) values rooms.old }
{
    let amounts = values.accumulators;
    renew(words, 0, amounts[0], rooms);
    renew(words, 1, amounts[1], rooms);
    renew(words, 2, amounts[2], rooms);
    renew(words, 3, amounts[3], rooms);
}

// Those of the accumulators whose value moved; the others stay as they are.
pub fn refresh(words: &Words, before: Values, after: Values, rooms: &mut Rooms)
    ensures { rooms.new ≡ renewed (rules_of words.now) before after rooms.old }
{
    let old = before.accumulators;
    let new = after.accumulators;
    renew_if_moved(words, 0, old[0], new[0], rooms);
    renew_if_moved(words, 1, old[1], new[1], rooms);
    renew_if_moved(words, 2, old[2], new[2], rooms);
    renew_if_moved(words, 3, old[3], new[3], rooms);
}
