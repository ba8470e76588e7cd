// What a set-up comes to: the paper's shape, a fresh card and the event, or why there is no card.
#![tactic(auto)]

ghost use Rattle.std.specs.Prelude.{◌≡◌};
ghost use Rattle.setup.specs.Setup.{is_accepted, words_after};
ghost use Rattle.begun.specs.Begun.{set_up_event, refused_at, base_begun, past_begun};

use records::Event;
use refusal::Refusal;
use rules::Words;
use shape::{Family, SelectionFile, Shape, Span};
use state::State;

// After the set-up: the paper's shape, the card, the place of the first record, and what happened.
#[derive(Drop)]
pub struct Begun {
    pub shape: Shape,
    pub state: State,
    pub at: usize,
    pub event: Event,
}

fn event_of(answer: Result<(), Refusal>) -> Event
    ensures { result ≡ set_up_event answer }
{
    match answer {
        Ok(()) => Event::SetUp,
        Err(refusal) => Event::Refused(refusal),
    }
}

// A paper that ends with its set-up: no card.
pub fn refuse(refusal: Refusal, at: usize) -> Begun
    ensures { result ≡ refused_at refusal at }
{
    let none = setup::no_card();
    Begun {
        shape: Shape {
            base: 0,
            selecting: None,
            syllabus: 0,
            dating: None,
            family: Family::Cpa,
            scripting: false,
            logging: None,
            unnamed: 4_194_304,
        },
        state: fresh::fresh_card(none),
        at,
        event: Event::Refused(refusal),
    }
}

// The set-up's base, the tail with its cyclic accumulators and that with a CPACE card's controls, read
// into lent words.
pub fn take_base(
    shape: Shape,
    base: &[u8],
    cycles: &[u8],
    family: &[u8],
    end: usize,
    words: &mut Words,
) -> Begun
    ensures { (result ≡ base_begun shape base.now cycles.now family.now end)
        × (words.new ≡ words_after words.old base.now cycles.now family.now
        shape.syllabus shape.unnamed) }
{
    let read = setup::read_setup(base, cycles, family, shape.syllabus, shape.unnamed, words);
    let fresh = read.fresh;
    let answer = read.answer;
    Begun {
        shape,
        state: fresh::fresh_card(fresh),
        at: end,
        event: event_of(answer),
    }
}

// A log whose tables reach past their data: refusal 14, where everything else is accepted.
pub fn refuse_log(base: &[u8], cycles: &[u8], family: &[u8], unnamed: u32, end: usize) -> Begun
    ensures { result ≡ past_begun (is_accepted base.now cycles.now family.now unnamed) end }
{
    if setup::is_accepted(base, cycles, family, unnamed) {
        return refuse(Refusal::PastData, end);
    }
    refuse(Refusal::BadSetup, end)
}
