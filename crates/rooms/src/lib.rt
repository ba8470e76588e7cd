// What can still be spent offline: the room left of each accumulator of each profile, stored beside
// the card in lent cells.
#![tactic(auto)]

ghost use Rattle.std.specs.Prelude.{◌≡◌, ◌+◌, ◌≤◌};
ghost use Rattle.rules.specs.Rules.{rules_of};
ghost use Rattle.rooms.specs.Rooms.{no_rooms, cell_of, stored_at, room_left};

use money::AccumulatorAmount;
use refusal::Refusal;
use rules::{Place, Words};

// One cell for each accumulator of each profile: 4 x place + accumulator, both from 0 on. A place
// without a profile has 0.
pub type Rooms = [u64; 16];

// Cells to lend, before a set-up is read.
pub fn none() -> Rooms
    ensures { result ≡ no_rooms }
{
    [0; 16]
}

// The cell of accumulator i + 1 in the profile at a place.
pub fn cell(place: Place, i: u8) -> usize
    ensures { (result ≡ cell_of place i) × (result ≤ 12 + i) }
{
    4 * rules::index(place) + usize::from(i)
}

// The four rooms that are stored for the profile at a place.
pub fn stored(rooms: &Rooms, place: Place) -> [u64; 4]
    ensures { result ≡ stored_at rooms.now place }
{
    let at = cell(place, 0);
    [rooms[at], rooms[at + 1], rooms[at + 2], rooms[at + 3]]
}

// The room that is stored for an accumulator, 1 to 4, of a profile, by its number.
pub fn room_left(
    words: &Words,
    rooms: &Rooms,
    profile: u8,
    accumulator: u8,
) -> Result<AccumulatorAmount, Refusal>
    ensures { result ≡ room_left (rules_of words.now) rooms.now profile accumulator }
{
    let place = rules::find_profile(words, profile).ok_or(Refusal::UnknownProfile)?;
    if (accumulator == 0) | (4 < accumulator) {
        return Err(Refusal::OutOfRange);
    }
    let at = cell(place, accumulator - 1);
    Ok(AccumulatorAmount(rooms[at]))
}
