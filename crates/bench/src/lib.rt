// A run as a block of a stack: it is run in a room of the size that the block asks, and what became of it is told as
// a page of text.
#![tactic(auto)]

ghost use Rattle.std.specs.Prelude.{◌≡◌, ◌≤◌, length, replicate};
ghost use Rattle.std.proofs.lemmas.List.Edits.{sets};
ghost use Rattle.rules.specs.Rules.{rules_of};
ghost use Rattle.runs.specs.Runs.{card_of, card_run, room_run, ruled_run};
ghost use Rattle.run_page.specs.RunPage.{page_of, page_size};
ghost use Rattle.run_block.specs.RunBlock.{filler};
ghost use Rattle.bench.specs.Bench.{has_room, turn_of, card_turned, room_turned, text_turned, turned};

use rooms::Rooms;
use rules::Words;
use shape::Shape;
use state::State;

// The card after a block, and its text.
#[derive(Drop)]
pub struct Turn {
    pub state: State,
    pub page: Option<usize>,
}

// Whether there is room for a run in a room of some size, and for its text.
fn has_room(size: usize, room: usize, text: usize) -> bool
    requires { size ≤ 65536 }
    ensures { result ≡ has_room size room text }
{
    (size <= room) & (46 + 3 * size <= text)
}

// A run in a room of the size that its block asks.
fn run_in(
    words: &mut Words,
    rooms: &mut Rooms,
    shape: Shape,
    paper: &[u8],
    state: State,
    records: &[u8],
    room: &mut [u8],
    text: &mut [u8],
) -> Turn
    requires { page_size (length room.old) ≤ length text.old }
    ensures { let card = card_of words.old rooms.old state in
        let after = card_run shape paper.now card records.now (length room.old) in
        let filled = room_run shape paper.now card records.now (replicate (length room.old) filler) in
        let page = page_of (ruled_run shape records.now (length room.old)) filled in
        (result ≡ turned after.state page) × (words.new ≡ after.words) × (rooms.new ≡ after.rooms)
        × (room.new ≡ filled) × (text.new ≡ sets text.old 0 page)
        × (rules_of words.new ≡ after.rules) }
{
    run_block::fill(room);
    let run = runs::run(words, rooms, shape, paper, state, records, room);
    let ran = run.ran;
    let state = run.state;
    Turn {
        state,
        page: Some(run_text::put_page(text, ran, room)),
    }
}

// A block answered on the card as it stands: so much of the room as it asks is filled and lent to its
// run, and the text of it stands at the front of the lent text. The paper is the one that the set-up
// came in. Where the room is smaller than the block asks, or the text than its page may be, nothing is
// run.
pub fn answer_block(
    words: &mut Words,
    rooms: &mut Rooms,
    shape: Shape,
    paper: &[u8],
    state: State,
    block: &[u8],
    room: &mut [u8],
    text: &mut [u8],
) -> Turn
    ensures { (result ≡ turn_of shape paper.now (card_of words.old rooms.old state) block.now (length room.old) (length text.old))
        × (words.new ≡ (card_turned shape paper.now (card_of words.old rooms.old state) block.now (length room.old) (length text.old)).words)
        × (rooms.new ≡ (card_turned shape paper.now (card_of words.old rooms.old state) block.now (length room.old) (length text.old)).rooms)
        × (room.new ≡ room_turned shape paper.now (card_of words.old rooms.old state) block.now room.old (length text.old))
        × (text.new ≡ text_turned shape paper.now (card_of words.old rooms.old state) block.now (length room.old) text.old)
        × (rules_of words.new ≡ (card_turned shape paper.now (card_of words.old rooms.old state) block.now (length room.old) (length text.old)).rules) }
{
    let size = run_block::size_in(block);
    if !has_room(size, room.len(), text.len()) {
        return Turn { state, page: None };
    }
    let from = run_block::head_in(block);
    run_in(
        words,
        rooms,
        shape,
        paper,
        state,
        &block[from..],
        &mut room[..size],
        text,
    )
}
