// The log of a paper (request Eight): what its set-up says of it, and what a record is to it.
#![tactic(auto)]

ghost use Rattle.std.specs.Prelude.{◌≡◌};
ghost use Rattle.rules.specs.Rules.{rules_of};
ghost use Rattle.paper_log.specs.Log.{tail_at, tail_place, logging_in, is_dated, form_of, no_logging, log_of, heard_in};

use journal::Heard;
use log_fields::Form;
use rules::{Place, Words};
use shape::{Shape, Span};

// The number of profiles: the set-up's body begins at 4, behind the version, its length and its kind.
const PROFILES: usize = 7;

// A record's kind, behind its length.
const KIND: usize = 2;

// The response code, behind the length, the kind and the type.
const CODE: usize = 4;

// What goes in, what its lines must know of the paper, and where its tail lies. Without a log nothing
// goes in.
#[derive(Drop)]
pub struct Log {
    pub logging: journal::Logging,
    pub form: Form,
    pub start: usize,
    pub end: usize,
}

// The paper from a place up to another. What does not lie in it is empty.
pub fn tail_at(paper: &[u8], start: usize, end: usize) -> &[u8]
    ensures { (result.now ≡ tail_at paper.now start end) × (result.ref_ptr ≡ tail_place paper.entry start end) }
{
    if (start <= end) & (end <= paper.len()) {
        return &paper[start..end];
    }
    &paper[..0]
}

// What goes in: the tail's size and switches, and of each profile its number and whether it logs.
fn logging_in(words: &Words, tail: &[u8]) -> journal::Logging
    ensures { result ≡ logging_in (rules_of words.now) tail.now }
{
    journal::Logging {
        size: log_tail::size(tail),
        switches: log_tail::switches(tail),
        numbers: [
            rules::profile_number(words, Place::One),
            rules::profile_number(words, Place::Two),
            rules::profile_number(words, Place::Three),
            rules::profile_number(words, Place::Four),
        ],
        logs: [
            log_tail::logs(tail, 0),
            log_tail::logs(tail, 1),
            log_tail::logs(tail, 2),
            log_tail::logs(tail, 3),
        ],
    }
}

fn is_dated(dating: Option<Span>) -> bool
    ensures { result ≡ is_dated dating }
{
    dating.is_some()
}

fn form_of(shape: Shape, paper: &[u8]) -> Form
    ensures { result ≡ form_of shape paper.now }
{
    let dating = shape.dating;
    let family = shape.family;
    Form {
        profiles: wire::byte_at(paper, PROFILES),
        dated: is_dated(dating),
        cpace: bodies::is_cpace(family),
    }
}

// Nothing goes in.
fn no_logging() -> journal::Logging
    ensures { result ≡ no_logging }
{
    journal::Logging {
        size: 0,
        switches: 0,
        numbers: [0; 4],
        logs: [false; 4],
    }
}

// The log of a paper of this shape, its rules standing in the words.
pub fn log_of(words: &Words, shape: Shape, paper: &[u8]) -> Log
    ensures { result ≡ log_of (rules_of words.now) shape paper.now }
{
    let logging = shape.logging;
    match logging {
        None => Log {
            logging: no_logging(),
            form: form_of(shape, paper),
            start: 0,
            end: 0,
        },
        Some(Span { start, end }) => Log {
            logging: logging_in(words, tail_at(paper, start, end)),
            form: form_of(shape, paper),
            start,
            end,
        },
    }
}

// What is heard of a record that is answered, its length and its kind in front.
pub fn heard(record: &[u8]) -> Heard
    ensures { result ≡ heard_in «record».now }
{
    journal::heard_as(wire::byte_at(record, KIND), wire::u16_at(record, CODE))
}
