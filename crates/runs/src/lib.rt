// A run: records as they stand in a paper, answered by one call. All of it is looked at first; then
// each command is answered in lent room, a refused one too.
#![tactic(auto)]

ghost use Rattle.std.specs.Prelude.{◌≡◌, true, ◌*◌, ◌≤◌, length};
ghost use Rattle.std.proofs.lemmas.List.Edits.{sets};
ghost use Rattle.rules.specs.Rules.{rules_of};
ghost use Rattle.answers.specs.Answers.{size};
ghost use Rattle.runs.specs.Runs.{records_in, is_run, card_of, card_after, answers_to, card_run, room_run, end_of};

use paper::Next;
use records::Event;
use refusal::Refusal;
use rooms::Rooms;
use rules::Words;
use shape::Shape;
use state::State;

// The card after a run, and what became of it.
#[derive(Drop)]
pub struct RunEnd {
    pub state: State,
    pub ran: Result<usize, Refusal>,
}

// Each record is answered on the card as it then stands, and its answer stored behind those before it.
fn answer_records(
    words: &mut Words,
    rooms: &mut Rooms,
    shape: Shape,
    paper: &[u8],
    state: State,
    records: &[u8],
    room: &mut [u8],
) -> State
    requires { (is_run shape records.now ≡ true) × (size * length (records_in records.now) ≤ length room.old) }
    ensures { let card = card_of words.old rooms.old state in
        let after = card_after shape paper.now card (records_in records.now) in
        (result ≡ after.state) × (words.new ≡ after.words) × (rooms.new ≡ after.rooms)
        × (room.new ≡ sets room.old 0 (answers_to shape paper.now card (records_in records.now)))
        × (rules_of words.new ≡ after.rules) }
{
    let mut state = state;
    let mut at = 0;
    let mut to = 0;
    while at < records.len() {
        let Next::Record { kind, start, end } = paper::record_at(records, at) else {
            return state;
        };
        let taken = keeper::take_record(
            words,
            rooms,
            shape,
            state,
            paper,
            kind,
            &records[start..end],
            end,
        );
        state = taken.state;
        at = end;
        let event = taken.event;
        let Event::Answered { answer, .. } = event else {
            return state;
        };
        answers::put(room, to, answer);
        to += answers::SIZE;
    }
    state
}

// A run on the card as it stands, where it is not refused; else nothing is run. The paper is the one
// that the set-up came in: only the file in it is read.
pub fn run(
    words: &mut Words,
    rooms: &mut Rooms,
    shape: Shape,
    paper: &[u8],
    state: State,
    records: &[u8],
    room: &mut [u8],
) -> RunEnd
    ensures { (result ≡ end_of shape paper.now (card_of words.old rooms.old state) records.now (length room.old))
        × (words.new ≡ (card_run shape paper.now (card_of words.old rooms.old state) records.now (length room.old)).words)
        × (rooms.new ≡ (card_run shape paper.now (card_of words.old rooms.old state) records.now (length room.old)).rooms)
        × (room.new ≡ room_run shape paper.now (card_of words.old rooms.old state) records.now room.old)
        × (rules_of words.new ≡ (card_run shape paper.now (card_of words.old rooms.old state) records.now (length room.old)).rules) }
{
    let ran = run_rule::rule(shape, records, room.len());
    match ran {
        Err(_) => RunEnd { state, ran },
        Ok(_) => RunEnd {
            state: answer_records(words, rooms, shape, paper, state, records, room),
            ran,
        },
    }
}
