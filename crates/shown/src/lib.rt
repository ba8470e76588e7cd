// How far a paper is shown, and what is wanted next.
#![tactic(auto)]

ghost use Rattle.std.specs.Prelude.{◌≡◌};
ghost use Rattle.shown.specs.Shown.{wants_after, unshown, shown_behind};

use records::{Event, Taken};
use shape::{Family, SelectionFile, Shape, Span};
use state::State;

// What is wanted next: a further record; room; a run, as the paper is at its end and the card stands;
// or nothing, as a refusal has ended the paper.
#[derive(Drop)]
pub enum Wants {
    Record,
    Room,
    Run,
    Nothing,
}

// How far a paper is shown: its shape, the card, the place and the number of the next record, where
// the text ends, and what is wanted.
#[derive(Drop)]
pub struct Shown {
    pub shape: Shape,
    pub state: State,
    pub at: usize,
    pub number: u16,
    pub end: usize,
    pub wants: Wants,
}

// At a paper's end a run may follow; behind a refusal that ends the paper nothing does.
pub fn wanted(event: Event) -> Wants
    ensures { result ≡ wants_after event }
{
    match event {
        Event::SetUp | Event::Answered { .. } => Wants::Record,
        Event::End => Wants::Run,
        Event::Refused(_) => Wants::Nothing,
    }
}

// Nothing is shown for want of room: there is no card.
pub fn show_nothing(to: usize) -> Shown
    ensures { result ≡ unshown to }
{
    Shown {
        shape: Shape {
            base: 0,
            selecting: None,
            syllabus: 0,
            dating: None,
            family: Family::Cpa,
            scripting: false,
            logging: None,
            unnamed: 4_194_304,
        },
        state: fresh::fresh_card(setup::no_card()),
        at: 0,
        number: 0,
        end: to,
        wants: Wants::Room,
    }
}

// Behind a record that was taken, its text ending at a place: the next record has the next number.
pub fn show_behind(shown: Shown, taken: Taken, end: usize) -> Shown
    ensures { result ≡ shown_behind shown taken end }
{
    Shown {
        state: taken.state,
        at: taken.at,
        number: shown.number.wrapping_add(1),
        end,
        wants: wanted(taken.event),
        ..shown
    }
}
