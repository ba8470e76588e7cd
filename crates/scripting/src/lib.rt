// An issuer's script sent to a card: whether it is taken, and what it comes to.
#![tactic(auto)]

ghost use Rattle.std.specs.Prelude.{◌≡◌};
ghost use Rattle.rules.specs.Rules.{rules_of};
ghost use Rattle.script.specs.Script.{rules_after, words_after, rules_run, words_run};
ghost use Rattle.scripting.specs.Scripting.{script_performed, script_taken, template_writes, script_step, script_writes};

use object::Fault;
use refusal::Refusal;
use rules::Words;
use state::{Answer, Outcome, Phase, State, refuse};

// The commands of a template that was read without a fault.
fn run_script(words: &mut Words, state: State, verified: bool, template: &[u8]) -> Outcome
    ensures { (result ≡ script_performed state template.now verified)
        × (words.new ≡ words_run words.old state.scripts verified template.now)
        × (rules_of words.new ≡ rules_run (rules_of words.old) state.scripts verified template.now) }
{
    let ran = script::run(words, state.values, state.scripts, verified, template);
    Outcome {
        state: State {
            values: ran.values,
            scripts: ran.scripts,
            ..state
        },
        answer: Answer::Done,
    }
}

// A script in turn: its template is read whole before any of its commands is tried.
fn take_script(words: &mut Words, state: State, res: u8, template: &[u8]) -> Outcome
    ensures { (result ≡ script_taken state res template.now)
        × (words.new ≡ words_after words.old (template_writes state res template.now))
        × (rules_of words.new ≡ rules_after (rules_of words.old) (template_writes state res template.now)) }
{
    if 1 < res {
        return refuse(state, Refusal::OutOfRange);
    }
    match object::read_template(template) {
        Ok(()) => run_script(words, state, res == 1, template),
        Err(Fault::Malformed) => refuse(state, Refusal::Malformed),
        Err(Fault::TooDeep) => refuse(state, Refusal::TooDeep),
    }
}

// A script is out of turn where First is due. Limits are written into the lent words.
pub fn answer_script(words: &mut Words, state: State, res: u8, template: &[u8]) -> Outcome
    ensures { (result ≡ script_step state res template.now)
        × (words.new ≡ words_after words.old (script_writes state res template.now))
        × (rules_of words.new ≡ rules_after (rules_of words.old) (script_writes state res template.now)) }
{
    let phase = state.phase;
    match phase {
        Phase::Idle => take_script(words, state, res, template),
        Phase::Opened(_) => refuse(state, Refusal::OutOfTurn),
        Phase::Asked(_) => take_script(words, state, res, template),
    }
}
