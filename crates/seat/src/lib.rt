// The card for C and for whatever calls C: it sits in cells that the caller lends, behind three
// functions. A seat that is too short is refusal 7 before all else. A refusal changes nothing.
#![tactic(auto)]

ghost use Rattle.std.specs.Prelude.{◌≡◌, length};
ghost use Rattle.card_cells.specs.Seat.{card_in};
ghost use Rattle.seat.specs.Calls.{event_number, open_number, open_cells, fresh_card, ran_number, run_number, run_cells, run_room, card_behind};
ghost use Rattle.seat.specs.Calls.{room_number, room_left};

use card_cells::{SHAPE, SIZE, VALUES, put_card, rooms_in, words_in};
use keeper::begin;
use records::Event;
use refusal::Refusal;
use rooms::room_left;
use runs::run;

// 0, or the refusal.
fn event_number(event: Event) -> u8
    ensures { result ≡ event_number event }
{
    match event {
        Event::SetUp => 0,
        Event::End => 0,
        Event::Refused(refusal) => refusal.number(),
        Event::Answered { .. } => 0,
    }
}

fn ran_number(ran: Result<usize, Refusal>) -> u8
    ensures { result ≡ ran_number ran }
{
    match ran {
        Ok(_) => 0,
        Err(refusal) => refusal.number(),
    }
}

// A paper's set-up is read and its fresh card seated: 0, or the refusal of the set-up or the paper.
// What stands behind the set-up is not run.
#[unsafe(no_mangle)]
pub extern "C" fn comblattice_open(paper: &[u8], seat: &mut [u64]) -> u8
    ensures { (result ≡ open_number seat.old paper.now)
        × (seat.new ≡ open_cells seat.old paper.now)
        × (result ≡ 0 → card_in seat.new ≡ fresh_card paper.now) }
{
    if seat.len() < SIZE {
        return Refusal::RoomTooSmall.number();
    }
    let mut words = rules::blank();
    let mut rooms = rooms::none();
    let begun = begin(paper, &mut words, &mut rooms);
    let event = begun.event;
    let refusal = event_number(event);
    if refusal != 0 {
        return refusal;
    }
    let shape = begun.shape;
    let state = begun.state;
    put_card(seat, &words, &rooms, shape, state);
    0
}

// A run on the seated card, with its paper: 0, 9 or 17. For 0 the room holds the answers, 36 bytes
// each, and the seat the card behind them.
#[unsafe(no_mangle)]
pub extern "C" fn comblattice_run(
    paper: &[u8],
    seat: &mut [u64],
    records: &[u8],
    room: &mut [u8],
) -> u8
    ensures { (result ≡ run_number seat.old records.now (length room.old))
        × (seat.new ≡ run_cells paper.now seat.old records.now (length room.old))
        × (room.new ≡ run_room paper.now seat.old records.now room.old)
        × (result ≡ 0 → card_in seat.new ≡ card_behind paper.now (card_in seat.old) records.now (length room.old)) }
{
    if seat.len() < SIZE {
        return Refusal::RoomTooSmall.number();
    }
    let mut words = words_in(seat);
    let mut rooms = rooms_in(seat);
    let shape = shape_seat::shape_in(&seat[SHAPE..]);
    let state = seating::state_in(&seat[VALUES..]);
    let end = run(&mut words, &mut rooms, shape, paper, state, records, room);
    let ran = end.ran;
    let ruling = ran_number(ran);
    if ruling != 0 {
        return ruling;
    }
    let after = end.state;
    put_card(seat, &words, &rooms, shape, after);
    0
}

// The room left of an accumulator, 1 to 4, of a profile, by its number, as the seated card stores
// it: 0, 3 or 6.
#[unsafe(no_mangle)]
pub extern "C" fn comblattice_room(seat: &[u64], profile: u8, accumulator: u8, left: &mut u64) -> u8
    ensures { (result ≡ room_number seat.now profile accumulator)
        × (left.new ≡ room_left seat.now profile accumulator left.old) }
{
    if seat.len() < SIZE {
        return Refusal::RoomTooSmall.number();
    }
    let words = words_in(seat);
    let rooms = rooms_in(seat);
    match room_left(&words, &rooms, profile, accumulator) {
        Ok(amount) => {
            *left = amount.0;
            0
        }
        Err(refusal) => refusal.number(),
    }
}
