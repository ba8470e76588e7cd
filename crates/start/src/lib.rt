// Start: a profile is opened.
#![tactic(auto)]

ghost use Rattle.std.specs.Prelude.{◌≡◌};
ghost use Rattle.rules.specs.Rules.{rules_of};
ghost use Rattle.start.specs.Start.{opening_step, start_step};

use command::Start;
use refusal::Refusal;
use rules::Words;
use selection::Selected;
use state::{Answer, Outcome, Phase, State, refuse};

// Opens a profile, dropping what was unfinished, and adds 1 to the ATC.
fn open_profile(words: &Words, state: State, profile: u8, visits: u8) -> Outcome
    ensures { result ≡ opening_step (rules_of words.now) state profile visits }
{
    let Some(place) = rules::find_profile(words, profile) else {
        return refuse(state, Refusal::UnknownProfile);
    };
    if state.atc == 65_535 {
        return refuse(state, Refusal::AtcUsedUp);
    }
    let scripts = state.scripts.started();
    let atc = state.atc + 1;
    Outcome {
        state: State {
            phase: Phase::Opened(place),
            atc,
            scripts,
            ..state
        },
        answer: Answer::Started { atc, visits },
    }
}

pub fn answer_start(words: &Words, state: State, start: Start) -> Outcome
    ensures { result ≡ start_step (rules_of words.now) state start }
{
    if 1 < start.interface {
        return refuse(state, Refusal::OutOfRange);
    }
    match start.chosen {
        None => refuse(state, Refusal::NotSelected),
        Some(Selected { profile, visits }) => open_profile(words, state, profile, visits),
    }
}
