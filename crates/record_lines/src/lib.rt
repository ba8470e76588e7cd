// The lines of a set-up and of a record, in lent room: that of the sitting and, where the rooms are
// shown too, behind it the room left of each profile, while there is a card.
#![tactic(auto)]

ghost use Rattle.std.specs.Prelude.{◌≡◌, ◌+◌, ◌≤◌, length};
ghost use Rattle.rules.specs.Rules.{rules_of};
ghost use Rattle.text.specs.Stored.{Stored};
ghost use Rattle.lines.specs.Sitting.{event_line};
ghost use Rattle.room_lines.specs.RoomLines.{room_lines};
ghost use Rattle.record_lines.specs.RecordLines.{has_room, shown_lines, set_up_text, record_text, placed, place_behind};

use records::Event;
use rooms::Rooms;
use rules::Words;

// The most bytes of a record's line and the lines of four profiles' rooms.
pub const LONGEST: usize = 454;

// What is shown: the sitting's lines alone, or behind them the rooms.
#[derive(Clone, Copy)]
pub enum Showing {
    Lines,
    Rooms,
}

// Whether the longest text fits from a place on.
pub fn has_room(bytes: usize, at: usize) -> bool
    ensures { result ≡ has_room bytes at }
{
    if bytes < at {
        return false;
    }
    LONGEST <= bytes - at
}

// The rooms of all profiles, where rooms are shown.
fn put_shown(words: &Words, rooms: &Rooms, showing: Showing, room: &mut [u8], at: usize) -> usize
    requires { at + 372 ≤ length room.old }
    ensures { Stored room.old at (shown_lines showing (room_lines (rules_of words.now) rooms.now)) 372 result room.new }
{
    match showing {
        Showing::Lines => at,
        Showing::Rooms => room_lines::put_rooms(words, rooms, room, at),
    }
}

// The line of an event; a paper's end has none.
fn put_event(room: &mut [u8], at: usize, number: u16, event: Event) -> usize
    requires { at + 82 ≤ length room.old }
    ensures { Stored room.old at (event_line number event) 82 result room.new }
{
    match event {
        Event::SetUp => lines::put_refusal(room, at, number, 0),
        Event::End => at,
        Event::Refused(refusal) => lines::put_refusal(room, at, number, refusal.number()),
        Event::Answered { answer, .. } => lines::put_answer(room, at, number, answer),
    }
}

// The set-up's line, and the rooms of a card that is set up. Without room for the longest text nothing is
// written, and the place stays.
pub fn put_set_up(
    words: &Words,
    rooms: &Rooms,
    showing: Showing,
    event: Event,
    room: &mut [u8],
    at: usize,
) -> usize
    ensures { (result ≡ place_behind (length room.old) at (set_up_text showing (rules_of words.now) rooms.now event))
        × (room.new ≡ placed room.old at (set_up_text showing (rules_of words.now) rooms.now event)) }
{
    if !has_room(room.len(), at) {
        return at;
    }
    let end = put_event(room, at, 0, event);
    if let Event::SetUp = event {
        return put_shown(words, rooms, showing, room, end);
    }
    end
}

// A record's line, and the rooms behind it. The same without room.
pub fn put_record(
    words: &Words,
    rooms: &Rooms,
    showing: Showing,
    number: u16,
    event: Event,
    room: &mut [u8],
    at: usize,
) -> usize
    ensures { (result ≡ place_behind (length room.old) at (record_text showing (rules_of words.now) rooms.now number event))
        × (room.new ≡ placed room.old at (record_text showing (rules_of words.now) rooms.now number event)) }
{
    if !has_room(room.len(), at) {
        return at;
    }
    let end = put_event(room, at, number, event);
    if let Event::End = event {
        return end;
    }
    put_shown(words, rooms, showing, room, end)
}
