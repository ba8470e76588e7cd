// A whole paper answered: its lines, one behind the other, in lent room.
#![tactic(auto)]

ghost use Rattle.std.specs.Prelude.{◌≡◌, ◌+◌, ◌-◌, ◌≤◌, length};
ghost use Rattle.std.proofs.lemmas.List.Edits.{sets};
ghost use Rattle.rules.specs.Rules.{rules_of};
ghost use Rattle.conversation.specs.Events.{words_from, words_left};
ghost use Rattle.transcript.specs.Transcript.{last_line, set_up_number, rest_of, transcript_of, room_for, transcribed, room_after, words_after};

use records::Event;
use rules::Words;
use shape::Shape;
use state::State;

// The line of a record that ends the paper.
fn put_last(room: &mut [u8], at: usize, number: u16, event: Event) -> usize
    requires { at + 82 ≤ length room.old }
    ensures { (result ≡ at + length (last_line number event)) × (room.new ≡ sets room.old at (last_line number event)) }
{
    let Event::Refused(refusal) = event else {
        return at;
    };
    lines::put_refusal(room, at, number, refusal.number())
}

// The lines of the records from a place of the paper on, from a place of the room on.
fn put_records(
    words: &mut Words,
    shape: Shape,
    fresh: State,
    paper: &[u8],
    start: usize,
    room: &mut [u8],
    to: usize,
) -> usize
    requires { (4 ≤ start) × (start ≤ length paper.now) × (length paper.now ≤ 65536) × (to + room_for (length paper.now - start) ≤ length room.old) }
    ensures { (result ≡ to + length (rest_of (rules_of words.old) shape fresh paper.now start 1))
        × (room.new ≡ sets room.old to (rest_of (rules_of words.old) shape fresh paper.now start 1))
        × (words.new ≡ words_from (length paper.now) words.old shape fresh paper.now start) }
{
    let mut state = fresh;
    let mut at = start;
    let mut end = to;
    let mut number: u16 = 1;
    'records: while at < paper.len() {
        let taken = conversation::take(words, shape, state, paper, at);
        let event = taken.event;
        state = taken.state;
        at = taken.at;
        let Event::Answered { answer, .. } = event else {
            return put_last(room, end, number, event);
        };
        end = lines::put_answer(room, end, number, answer);
        number += 1;
    }
    end
}

// The number that a set-up's line says: its refusal's, or 0.
fn number_of(event: Event) -> u8
    ensures { result ≡ set_up_number event }
{
    let Event::Refused(refusal) = event else {
        return 0;
    };
    refusal.number()
}

// The lines of a paper, where there is room for them.
fn put_paper(paper: &[u8], words: &mut Words, room: &mut [u8], at: usize) -> usize
    requires { at + room_for (length paper.now) ≤ length room.old }
    ensures { (result ≡ at + length (transcript_of words.old paper.now)) × (room.new ≡ sets room.old at (transcript_of words.old paper.now)) × (words.new ≡ words_left words.old paper.now) }
{
    let begun = opening::begin(paper, words);
    let event = begun.event;
    let end = lines::put_refusal(room, at, 0, number_of(event));
    let Event::SetUp = event else {
        return end;
    };
    let shape = begun.shape;
    let fresh = begun.state;
    put_records(words, shape, fresh, paper, begun.at, room, end)
}

// The lines of a paper, from a place of the room on.
pub fn transcribe(paper: &[u8], words: &mut Words, room: &mut [u8], at: usize) -> Option<usize>
    ensures { (result ≡ transcribed words.old paper.now room.old at) × (room.new ≡ room_after words.old paper.now room.old at) × (words.new ≡ words_after words.old paper.now room.old at) }
{
    if !paper_room::has_room(room.len(), at, paper.len()) {
        return None;
    }
    Some(put_paper(paper, words, room, at))
}
