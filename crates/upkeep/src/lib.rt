// What an event does to the room left.
#![tactic(auto)]

ghost use Rattle.std.specs.Prelude.{◌≡◌};
ghost use Rattle.rules.specs.Rules.{rules_of};
ghost use Rattle.upkeep.specs.Upkeep.{is_scripted, rooms_after};

use records::{Event, Taken};
use rooms::Rooms;
use rules::{Values, Words};
use state::Answer;

// Whether a script was carried out.
fn is_scripted(event: Event) -> bool
    ensures { result ≡ is_scripted event }
{
    matches!(
        event,
        Event::Answered {
            answer: Answer::Done,
            ..
        }
    )
}

// The room left after a record, by the values before and after it. A script may have written limits:
// then all are worked out anew.
pub fn keep(words: &Words, before: Values, taken: Taken, rooms: &mut Rooms)
    ensures { rooms.new ≡ rooms_after (rules_of words.now) before taken.state.values taken.event rooms.old }
{
    let state = taken.state;
    let after = state.values;
    let event = taken.event;
    if is_scripted(event) {
        renewal::fill(words, after, rooms);
    } else {
        renewal::refresh(words, before, after, rooms);
    }
}
