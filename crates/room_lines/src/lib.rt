// The lines of the rooms left, one for each profile in the set-up's order, written into lent room from
// a place on; the place behind is returned.
#![tactic(auto)]

ghost use Rattle.std.specs.Prelude.{◌≡◌, ◌+◌, ◌≤◌, length};
ghost use Rattle.text.specs.Stored.{Stored};
ghost use Rattle.rules.specs.Rules.{rules_of};
ghost use Rattle.room_lines.specs.RoomLines.{heading, room_line, place_line, room_lines, longest, placed, place_behind};

use rooms::Rooms;
use rules::{Place, Words};

// The most bytes that the lines of four profiles have.
pub const LONGEST: usize = 372;

// The word, and a profile's number.
fn put_heading(room: &mut [u8], at: usize, number: u8) -> usize
    requires { at + 26 ≤ length room.old }
    ensures { Stored room.old at (heading number) 9 result room.new }
{
    let at = text::put(room, at, b"room ");
    numerals::put_field(room, at, number as u64, b' ')
}

// The rooms of a profile, by its number.
fn put_room_line(room: &mut [u8], at: usize, number: u8, rooms: [u64; 4]) -> usize
    requires { at + 93 ≤ length room.old }
    ensures { Stored room.old at (room_line number rooms) 93 result room.new }
{
    let at = put_heading(room, at, number);
    let at = numerals::put_field(room, at, rooms[0], b' ');
    let at = numerals::put_field(room, at, rooms[1], b' ');
    let at = numerals::put_field(room, at, rooms[2], b' ');
    numerals::put_field(room, at, rooms[3], b'\n')
}

// Those of the profile at a place, where there is one.
fn put_place(words: &Words, rooms: &Rooms, place: Place, room: &mut [u8], at: usize) -> usize
    requires { at + 93 ≤ length room.old }
    ensures { Stored room.old at (place_line (rules_of words.now) rooms.now place) 93 result room.new }
{
    let number = rules::profile_number(words, place);
    if number == 0 {
        return at;
    }
    put_room_line(room, at, number, rooms::stored(rooms, place))
}

fn store_rooms(words: &Words, rooms: &Rooms, room: &mut [u8], at: usize) -> usize
    requires { at + longest ≤ length room.old }
    ensures { Stored room.old at (room_lines (rules_of words.now) rooms.now) longest result room.new }
{
    let at = put_place(words, rooms, Place::One, room, at);
    let at = put_place(words, rooms, Place::Two, room, at);
    let at = put_place(words, rooms, Place::Three, room, at);
    put_place(words, rooms, Place::Four, room, at)
}

// The rooms of all profiles. Without room for the longest lines nothing is written, and the place stays.
pub fn put_rooms(words: &Words, rooms: &Rooms, room: &mut [u8], at: usize) -> usize
    ensures { (result ≡ place_behind (length room.old) at (room_lines (rules_of words.now) rooms.now))
        × (room.new ≡ placed room.old at (room_lines (rules_of words.now) rooms.now))
        × (result ≤ at + longest) }
{
    if room.len() < at || room.len() - at < LONGEST {
        return at;
    }
    store_rooms(words, rooms, room, at)
}
