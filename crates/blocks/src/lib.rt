// A stack of papers, each behind its 4-byte length: what stands at the front of the bytes at hand, and
// what a turn makes of it where no paper is to be answered.
#![tactic(auto)]

ghost use Rattle.std.specs.Prelude.{◌≡◌, [], ◌+◌, ◌≤◌, length};
ghost use Rattle.std.proofs.lemmas.List.Edits.{sets};
ghost use Rattle.blocks.specs.Blocks.{placed_text, text_room, waiting, turned_over, passing, said_by, room_by, front_of, front_room, last_text};

const LONGEST_PAPER: usize = 65_536;

// What is wanted next: a further turn, more bytes of the stack, or room.
#[derive(Drop)]
pub enum Wants {
    Turn,
    Input,
    Room,
}

// After a turn: how many of the bytes at hand are done with, how many bytes of a paper that is too
// long are still to pass, and where the pages end.
#[derive(Drop)]
pub struct Turned {
    pub taken: usize,
    pub skip: usize,
    pub end: usize,
    pub wants: Wants,
}

// What stands at the front: a block of which the turn is done, or a paper up to a place.
#[derive(Drop)]
pub enum Front {
    Done(Turned),
    Paper { end: usize },
}

// A text from a place of the room on, or that there is no room for it.
fn place_text(room: &mut [u8], at: usize, text: &[u8]) -> Option<usize>
    ensures { (result ≡ placed_text (length room.old) at text.now) × (room.new ≡ text_room room.old at text.now) }
{
    if room.len() < at || room.len() - at < text.len() {
        return None;
    }
    Some(text::put(room, at, text))
}

// Nothing can be done before more bytes are at hand.
fn wait(taken: usize, skip: usize, end: usize) -> Turned
    ensures { result ≡ waiting taken skip end }
{
    Turned {
        taken,
        skip,
        end,
        wants: Wants::Input,
    }
}

// So many bytes are done with, if their page found room.
pub fn turn_over(page: Option<usize>, taken: usize, skip: usize, to: usize) -> Turned
    ensures { result ≡ turned_over taken skip to page }
{
    match page {
        Some(end) => Turned {
            taken,
            skip: 0,
            end,
            wants: Wants::Turn,
        },
        None => Turned {
            taken: 0,
            skip,
            end: to,
            wants: Wants::Room,
        },
    }
}

// Bytes of a paper that is too long are passed; at its last one it is answered.
fn pass(input: &[u8], skip: usize, room: &mut [u8], to: usize) -> Turned
    ensures { (result ≡ said_by (length room.old) to skip (passing skip [] input.now)) × (room.new ≡ room_by room.old to (passing skip [] input.now)) }
{
    let left = input.len();
    if left < skip {
        return wait(left, skip - left, to);
    }
    turn_over(place_text(room, to, b"0 9\n\n"), skip, skip, to)
}

// The block at the front of the bytes at hand.
pub fn take_front(input: &[u8], skip: usize, room: &mut [u8], to: usize) -> Front
    ensures { (result ≡ front_of (length room.old) to skip input.now) × (room.new ≡ front_room room.old to skip input.now) }
{
    if 0 < skip {
        return Front::Done(pass(input, skip, room, to));
    }
    if input.len() < 4 {
        return Front::Done(wait(0, 0, to));
    }
    let size = wire::u32_at(input, 0) as usize;
    if LONGEST_PAPER < size {
        return Front::Done(Turned {
            taken: 4,
            skip: size,
            end: to,
            wants: Wants::Turn,
        });
    }
    if input.len() - 4 < size {
        return Front::Done(wait(0, 0, to));
    }
    Front::Paper { end: 4 + size }
}

// The stack has ended: a block that was begun is cut short.
pub fn finish(left: usize, skip: usize, room: &mut [u8], to: usize) -> Option<usize>
    ensures { (result ≡ placed_text (length room.old) to (last_text left skip)) × (room.new ≡ text_room room.old to (last_text left skip)) }
{
    if (left == 0) & (skip == 0) {
        return place_text(room, to, b"");
    }
    place_text(room, to, b"cut short\n")
}
