// What an issuer script's template does to a card: its commands are tried in order until one fails.
#![tactic(auto)]

ghost use Rattle.std.specs.Prelude.{◌≡◌, true};
ghost use Rattle.rules.specs.Rules.{rules_of};
ghost use Rattle.put_data.specs.PutData.{writes_of, is_some, is_valid};
ghost use Rattle.script.specs.Script.{values_after, rules_after, words_after};
ghost use Rattle.script.specs.Script.{done, given, ran_of, rules_run, words_run};

use cursor::next_command;
use marks::Scripts;
use put_data::{Next, is_valid, next_write};
use rules::{Values, Words};

// What a template leaves, beside the lent words.
#[derive(Drop)]
pub struct Ran {
    pub values: Values,
    pub scripts: Scripts,
}

// What the elements of a valid command write, in order.
fn write_elements(words: &mut Words, mut values: Values, command: &[u8]) -> Values
    requires { is_valid command.now ≡ true }
    ensures { (result ≡ values_after values (given (writes_of command.now)))
        × (words.new ≡ words_after words.old (given (writes_of command.now)))
        × (rules_of words.new ≡ rules_after (rules_of words.old) (given (writes_of command.now))) }
{
    let mut at = 0;
    while let Next::Element { write, end } = next_write(command, at) {
        values = writes::apply(words, values, write);
        at = end;
    }
    values
}

// Whether a command is done. It fails where the result is not "verified", where one has already
// failed in this transaction, and where it is not valid.
fn is_done(verified: bool, scripts: Scripts, command: &[u8]) -> bool
    ensures { result ≡ is_some (done verified scripts command.now) }
{
    if verified & !scripts.is_failed_here() {
        return is_valid(command);
    }
    false
}

// The commands of a template in order until one fails. Limits are written into the lent words.
pub fn run(
    words: &mut Words,
    mut values: Values,
    mut scripts: Scripts,
    verified: bool,
    template: &[u8],
) -> Ran
    ensures { (result ≡ ran_of values scripts verified template.now)
        × (words.new ≡ words_run words.old scripts verified template.now)
        × (rules_of words.new ≡ rules_run (rules_of words.old) scripts verified template.now) }
{
    let mut at = 0;
    while let Some(span) = next_command(template, at) {
        let end = span.start + span.size;
        let command = &template[span.start..end];
        if !is_done(verified, scripts, command) {
            return Ran {
                values,
                scripts: scripts.with_failure(),
            };
        }
        values = write_elements(words, values, command);
        scripts = scripts.with_done();
        at = end;
    }
    Ran { values, scripts }
}
