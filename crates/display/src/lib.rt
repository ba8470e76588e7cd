// A paper shown record by record, in lent room: the lines of its sitting and, where the rooms are shown
// too, behind each the room left of each profile, while there is a card.
#![tactic(auto)]

ghost use Rattle.std.specs.Prelude.{◌≡◌, length};
ghost use Rattle.rules.specs.Rules.{rules_of};
ghost use Rattle.display.specs.Shown.{set_up_shown, set_up_words, set_up_rooms, set_up_room};
ghost use Rattle.display.specs.Shown.{record_shown, record_words, record_rules, record_rooms, record_room};

use record_lines::Showing;
use rooms::Rooms;
use rules::Words;
use shown::{Shown, Wants};

// The paper's set-up, from a place of the room on. Without room for the longest text nothing is done.
pub fn show_set_up(
    paper: &[u8],
    words: &mut Words,
    rooms: &mut Rooms,
    showing: Showing,
    room: &mut [u8],
    to: usize,
) -> Shown
    ensures { (result ≡ set_up_shown showing words.old rooms.old paper.now (length room.old) to)
        × (words.new ≡ set_up_words words.old paper.now (length room.old) to)
        × (rooms.new ≡ set_up_rooms words.old rooms.old paper.now (length room.old) to)
        × (room.new ≡ set_up_room showing words.old rooms.old paper.now room.old to) }
{
    if !record_lines::has_room(room.len(), to) {
        return shown::show_nothing(to);
    }
    let begun = keeper::begin(paper, words, rooms);
    let end = record_lines::put_set_up(words, rooms, showing, begun.event, room, to);
    Shown {
        shape: begun.shape,
        state: begun.state,
        at: begun.at,
        number: 1,
        end,
        wants: shown::wanted(begun.event),
    }
}

// The next record, from a place of the room on. Without room for the longest text nothing is done.
pub fn show_record(
    words: &mut Words,
    rooms: &mut Rooms,
    showing: Showing,
    shown: Shown,
    paper: &[u8],
    room: &mut [u8],
    to: usize,
) -> Shown
    ensures { (result ≡ record_shown showing (rules_of words.old) rooms.old shown paper.now (length room.old) to)
        × (words.new ≡ record_words words.old shown paper.now (length room.old) to)
        × (rules_of words.new ≡ record_rules (rules_of words.old) shown paper.now (length room.old) to)
        × (rooms.new ≡ record_rooms (rules_of words.old) rooms.old shown paper.now (length room.old) to)
        × (room.new ≡ record_room showing (rules_of words.old) rooms.old shown paper.now room.old to) }
{
    if !record_lines::has_room(room.len(), to) {
        return Shown {
            end: to,
            wants: Wants::Room,
            ..shown
        };
    }
    let taken = keeper::take(words, rooms, shown.shape, shown.state, paper, shown.at);
    let end = record_lines::put_record(words, rooms, showing, shown.number, taken.event, room, to);
    shown::show_behind(shown, taken, end)
}
