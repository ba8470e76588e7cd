// One record answered, as a value: the card after it, and what happened. No text and no room is here.
#![tactic(auto)]

ghost use Rattle.std.specs.Prelude.{◌≡◌};
ghost use Rattle.rules.specs.Rules.{rules_of};
ghost use Rattle.script.specs.Script.{rules_after, words_after};
ghost use Rattle.records.specs.Records.{answered_by, scripted_by, body_writes, record_taken, record_writes, can_be_read};

use command::Command;
use refusal::Refusal;
use rules::Words;
use shape::Shape;
use state::{Answer, State};

const SCRIPT: u8 = 5;

// What is answered. A script is a command of its own kind, and no absence of one: no Option.
#[derive(Clone, Copy)]
pub enum Said {
    Command(Command),
    Script,
}

// The list of answers that document 01 names, a refusal among them: no Result.
#[derive(Clone, Copy)]
pub enum Event {
    // The card is set up.
    SetUp,
    // The paper's end.
    End,
    // Nothing more of the paper is read.
    Refused(Refusal),
    Answered { said: Said, answer: Answer },
}

// The card after a record, the place of the next one, and what happened.
#[derive(Clone, Copy)]
pub struct Taken {
    pub state: State,
    pub at: usize,
    pub event: Event,
}

// A record's command is answered, or refusal 9 ends the paper.
fn answer(words: &Words, state: State, read: Result<Command, Refusal>, end: usize) -> Taken
    ensures { result ≡ answered_by (rules_of words.now) state end read }
{
    match read {
        Err(refusal) => Taken {
            state,
            at: end,
            event: Event::Refused(refusal),
        },
        Ok(command) => {
            let outcome = card::step(words, state, command);
            let after = outcome.state;
            let answer = outcome.answer;
            Taken {
                state: after,
                at: end,
                event: Event::Answered {
                    said: Said::Command(command),
                    answer,
                },
            }
        }
    }
}

// A script's body: the secure messaging result, and the template to its end.
fn take_script(words: &mut Words, state: State, body: &[u8], end: usize) -> Taken
    ensures { (result ≡ scripted_by state body.now end)
        × (words.new ≡ words_after words.old (body_writes state body.now))
        × (rules_of words.new ≡ rules_after (rules_of words.old) (body_writes state body.now)) }
{
    if body.len() == 0 {
        return Taken {
            state,
            at: end,
            event: Event::Refused(Refusal::Unreadable),
        };
    }
    let result = body[0];
    let outcome = scripting::answer_script(words, state, result, &body[1..]);
    let after = outcome.state;
    let answer = outcome.answer;
    Taken {
        state: after,
        at: end,
        event: Event::Answered {
            said: Said::Script,
            answer,
        },
    }
}

// A record of a kind, whose body ends at a place. The file is the paper's, where the set-up came in;
// the body may come from elsewhere.
pub fn take(
    words: &mut Words,
    shape: Shape,
    state: State,
    paper: &[u8],
    kind: u8,
    body: &[u8],
    end: usize,
) -> Taken
    ensures { (result ≡ record_taken (rules_of words.old) shape state paper.now kind body.now end)
        × (words.new ≡ words_after words.old (record_writes shape state kind body.now))
        × (rules_of words.new ≡ rules_after (rules_of words.old) (record_writes shape state kind body.now)) }
{
    if shape.scripting {
        if kind == SCRIPT {
            return take_script(words, state, body, end);
        }
    }
    let values = state.values;
    let read = command::read_record(shape, values, paper, kind, body);
    answer(words, state, read, end)
}

// Whether a record of a kind with a body of so many bytes is answered; otherwise it is refusal 9.
pub fn can_be_read(shape: Shape, kind: u8, length: usize) -> bool
    ensures { result ≡ can_be_read shape kind length }
{
    if shape.scripting {
        if kind == SCRIPT {
            return 0 < length;
        }
    }
    command::is_command(shape, kind, length)
}
