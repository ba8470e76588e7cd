// A conversation that also keeps the room left: the cells beside the card are right after the set-up,
// every answer and every refusal.
#![tactic(auto)]

ghost use Rattle.std.specs.Prelude.{◌≡◌};
ghost use Rattle.rules.specs.Rules.{rules_of};
ghost use Rattle.script.specs.Script.{rules_after, words_after};
ghost use Rattle.records.specs.Records.{record_taken, record_writes};
ghost use Rattle.conversation.specs.Conversation.{taken_of, taken_writes};
ghost use Rattle.opening.specs.Opening.{begun_of, words_begun};
ghost use Rattle.keeper.specs.Keeper.{rooms_recorded, rooms_taken, rooms_begun};

use begun::Begun;
use records::{Event, Taken};
use rooms::Rooms;
use rules::Words;
use shape::Shape;
use state::State;

// The paper is opened and its set-up read, or refused. There is room left once there is a card.
pub fn begin(paper: &[u8], words: &mut Words, rooms: &mut Rooms) -> Begun
    ensures { (result ≡ begun_of paper.now)
        × (words.new ≡ words_begun words.old paper.now)
        × (rooms.new ≡ rooms_begun words.old rooms.old paper.now) }
{
    let begun = opening::begin(paper, words);
    let event = begun.event;
    if let Event::SetUp = event {
        let state = begun.state;
        let values = state.values;
        renewal::fill(words, values, rooms);
    }
    begun
}

// A record of a kind, whose body ends at a place; it may come from elsewhere than the paper.
pub fn take_record(
    words: &mut Words,
    rooms: &mut Rooms,
    shape: Shape,
    state: State,
    paper: &[u8],
    kind: u8,
    body: &[u8],
    end: usize,
) -> Taken
    ensures { (result ≡ record_taken (rules_of words.old) shape state paper.now kind body.now end)
        × (words.new ≡ words_after words.old (record_writes shape state kind body.now))
        × (rules_of words.new ≡ rules_after (rules_of words.old) (record_writes shape state kind body.now))
        × (rooms.new ≡ rooms_recorded (rules_of words.old) shape state paper.now kind body.now end rooms.old) }
{
    let taken = records::take(words, shape, state, paper, kind, body, end);
    let before = state.values;
    upkeep::keep(words, before, taken, rooms);
    taken
}

// The record at a place of a paper.
pub fn take(
    words: &mut Words,
    rooms: &mut Rooms,
    shape: Shape,
    state: State,
    paper: &[u8],
    at: usize,
) -> Taken
    ensures { (result ≡ taken_of (rules_of words.old) shape state paper.now at)
        × (words.new ≡ words_after words.old (taken_writes shape state paper.now at))
        × (rules_of words.new ≡ rules_after (rules_of words.old) (taken_writes shape state paper.now at))
        × (rooms.new ≡ rooms_taken (rules_of words.old) shape state paper.now at rooms.old) }
{
    let taken = conversation::take(words, shape, state, paper, at);
    let before = state.values;
    upkeep::keep(words, before, taken, rooms);
    taken
}
