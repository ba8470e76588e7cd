// What the sheet of a class has to know of a conversation, from the commands and the answers alone:
// whether a cryptogram is decided offline, and what the transaction's First asked.
#![tactic(auto)]

ghost use Rattle.std.specs.Prelude.{◌≡◌};
ghost use Rattle.sales.specs.Sales.{is_unable, offline_command, is_offline, is_given, command_sale, sale_by};

use command::Command;
use records::Said;
use state::Answer;
use tallies::Sale;

const Y3: u32 = 0x5933;

const Z3: u32 = 0x5A33;

// Whether a command's cryptogram is decided offline: a First's, and a Second's after Y3 or Z3.
fn offline_command(command: Command) -> bool
    ensures { result ≡ offline_command command }
{
    match command {
        Command::Start(_) => false,
        Command::First(_) => true,
        Command::Second(second) => (second.code == Y3) | (second.code == Z3),
    }
}

pub fn is_offline(said: Said) -> bool
    ensures { result ≡ is_offline said }
{
    match said {
        Said::Command(command) => offline_command(command),
        Said::Script => false,
    }
}

fn is_given(answer: Answer) -> bool
    ensures { result ≡ is_given answer }
{
    match answer {
        Answer::Given { .. } => true,
        Answer::Refused(_) => false,
        Answer::Started { .. } => false,
        Answer::Done => false,
    }
}

// What was asked before, or by a First that a cryptogram answers.
fn command_sale(command: Command, given: bool, before: Sale) -> Sale
    ensures { result ≡ command_sale command given before }
{
    match command {
        Command::Start(_) => before,
        Command::First(first) => {
            if given {
                return Sale {
                    amount: first.amount.0,
                    currency: first.currency,
                };
            }
            before
        }
        Command::Second(_) => before,
    }
}

// What the last First asked that a cryptogram answered.
pub fn sale_by(said: Said, answer: Answer, before: Sale) -> Sale
    ensures { result ≡ sale_by said answer before }
{
    match said {
        Said::Command(command) => command_sale(command, is_given(answer), before),
        Said::Script => before,
    }
}
