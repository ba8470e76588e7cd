// A conversation: the record at a place of a paper, taken as a value. What it comes to is an event.
#![tactic(auto)]

ghost use Rattle.std.specs.Prelude.{◌≡◌};
ghost use Rattle.rules.specs.Rules.{rules_of};
ghost use Rattle.script.specs.Script.{rules_after, words_after};
ghost use Rattle.conversation.specs.Conversation.{taken_of, taken_writes};

use paper::Next;
use records::{Event, Taken};
use refusal::Refusal;
use rules::Words;
use shape::Shape;
use state::State;

// The record at a place of a paper.
pub fn take(words: &mut Words, shape: Shape, state: State, paper: &[u8], at: usize) -> Taken
    ensures { (result ≡ taken_of (rules_of words.old) shape state paper.now at)
        × (words.new ≡ words_after words.old (taken_writes shape state paper.now at))
        × (rules_of words.new ≡ rules_after (rules_of words.old) (taken_writes shape state paper.now at)) }
{
    match paper::record_at(paper, at) {
        Next::End => Taken {
            state,
            at,
            event: Event::End,
        },
        Next::Fault => Taken {
            state,
            at,
            event: Event::Refused(Refusal::Unreadable),
        },
        Next::Record { kind, start, end } => {
            records::take(words, shape, state, paper, kind, &paper[start..end], end)
        }
    }
}
