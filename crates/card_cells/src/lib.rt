// A card in cells that are lent: the words of its rules, its rooms, the shape of its paper and its
// state, one behind the other; those behind them stay as they are. In a seat that is too short
// nothing is stored, and blank words and no rooms are read.
#![tactic(auto)]

ghost use Rattle.std.specs.Prelude.{◌≡◌, ◌+◌, ◌≤◌, length};
ghost use Rattle.std.proofs.lemmas.List.Edits.{sets};
ghost use Rattle.seating.specs.States.{state_cells, StateFits};
ghost use Rattle.card_cells.specs.Seat.{size, card_in, card_of, placed_in, words_or, rooms_or};

use rooms::Rooms;
use rules::{Words, word};
use shape::Shape;
use state::State;

// Where the rooms, the shape and the state's values, phase and marks begin, and how many cells a
// card takes.
const ROOMS: usize = word::COUNT;

pub const SHAPE: usize = ROOMS + 16;

pub const VALUES: usize = SHAPE + shape_seat::SHAPE;

const PHASE: usize = VALUES + seating::VALUES;

const MARKS: usize = PHASE + phase_seat::PHASE;

pub const SIZE: usize = MARKS + seating::MARKS;

// A part of the cells, one by one: a slice copied whole would ask `memmove` of whoever links the archive.
fn put(cells: &mut [u64], at: usize, part: &[u64])
    requires { at + length part.now ≤ length cells.old }
    ensures { cells.new ≡ sets cells.old at part.now }
{
    for (i, cell) in part.iter().enumerate() {
        cells[at + i] = *cell;
    }
}

// The words of a seated card, and its rooms.
pub fn words_in(seat: &[u64]) -> Words
    ensures { result ≡ words_or seat.now }
{
    if seat.len() < SIZE {
        return rules::blank();
    }
    let mut words = rules::blank();
    put(&mut words, 0, &seat[0..ROOMS]);
    words
}

pub fn rooms_in(seat: &[u64]) -> Rooms
    ensures { result ≡ rooms_or seat.now }
{
    if seat.len() < SIZE {
        return rooms::none();
    }
    let mut rooms = rooms::none();
    put(&mut rooms, 0, &seat[ROOMS..SHAPE]);
    rooms
}

// A state into its cells.
fn put_state(seat: &mut [u64], state: State)
    requires { size ≤ length seat.old }
    ensures { (seat.new ≡ sets seat.old 231 (state_cells state)) × StateFits state }
{
    let values = state.values;
    let phase = state.phase;
    put(seat, VALUES, &seating::value_cells(values));
    put(seat, PHASE, &phase_seat::phase_cells(phase));
    put(seat, MARKS, &seating::mark_cells(state));
}

// A card into the first cells, where it is then read.
pub fn put_card(seat: &mut [u64], words: &Words, rooms: &Rooms, shape: Shape, state: State)
    ensures { (seat.new ≡ placed_in seat.old (card_of words.now rooms.now shape state))
        × (size ≤ length seat.old → card_in seat.new ≡ card_of words.now rooms.now shape state) }
{
    if seat.len() < SIZE {
        return;
    }
    put(seat, 0, words);
    put(seat, ROOMS, rooms);
    put(seat, SHAPE, &shape_seat::shape_cells(shape));
    put_state(seat, state);
}
