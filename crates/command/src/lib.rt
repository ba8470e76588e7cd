// Commands out of record bodies. What a command says is judged by the card.
#![tactic(auto)]

ghost use Rattle.std.specs.Prelude.{◌≡◌};
ghost use Rattle.command.specs.Command.{start_of, when_of};
ghost use Rattle.command.specs.Command.{first_of, second_of, command_of, slots_of, is_selecting, selected_in, start_selected, command_in, is_command};

use bodies::{
    first_length, interface_of, is_cpace, profile_named, read_cashback, read_cvm, start_length,
};
use calendar::Date;
use choice::{select_profile, slots_of};
use cpace::Cvm;
use money::TransactionAmount;
use refusal::Refusal;
use rules::Values;
use selection::Selected;
use shape::{Family, SelectionFile, Shape, Span};

const START: u8 = 2;

const FIRST: u8 = 3;

const SECOND: u8 = 4;

// The interface, 0 contact or 1 contactless, which a CPA card does not ask; the profile that was named,
// with no entry visited, or what selection gave.
#[derive(Clone, Copy)]
pub struct Start {
    pub chosen: Option<Selected>,
    pub interface: u8,
}

// To a CPA card every transaction is one with no CVM and no cashback.
#[derive(Clone, Copy)]
pub struct First {
    pub amount: TransactionAmount,
    pub currency: u16,
    pub requested: u8,
    pub terminal: u8,
    pub when: Option<Date>,
    pub cvm: Cvm,
    pub cashback: bool,
}

// The response code has more room than its two bytes: a Second of eight bytes would be moved as one
// number, through memory.
#[derive(Clone, Copy)]
pub struct Second {
    pub csu: u32,
    pub code: u32,
    pub requested: u8,
    pub issuer: u8,
}

#[derive(Clone, Copy)]
pub enum Command {
    Start(Start),
    First(First),
    Second(Second),
}

fn read_start(family: Family, body: &[u8]) -> Start
    ensures { result ≡ start_of family body.now }
{
    Start {
        interface: interface_of(family, body),
        chosen: Some(Selected {
            profile: profile_named(family, body),
            visits: 0,
        }),
    }
}

fn read_when(dating: Option<Span>, body: &[u8]) -> Option<Date>
    ensures { result ≡ when_of dating body.now }
{
    dating.map(|_| calendar::date_at(body, 12))
}

// Type, amount (8), currency (2), terminal type, the date (3) where the paper is dated, and CVM
// results (3) and cashback (6) where the card is a CPACE one.
fn read_first(dating: Option<Span>, family: Family, body: &[u8]) -> First
    ensures { result ≡ first_of dating family body.now }
{
    First {
        amount: TransactionAmount(wire::u64_at(body, 1)),
        currency: wire::u16_at(body, 9),
        requested: wire::byte_at(body, 0),
        terminal: wire::byte_at(body, 11),
        when: read_when(dating, body),
        cvm: read_cvm(dating, family, body),
        cashback: read_cashback(dating, family, body),
    }
}

// Type, response code (2), issuer data, CSU (4).
fn read_second(body: &[u8]) -> Second
    ensures { result ≡ second_of body.now }
{
    Second {
        csu: wire::u32_at(body, 4),
        code: wire::u16_at(body, 1) as u32,
        requested: wire::byte_at(body, 0),
        issuer: wire::byte_at(body, 3),
    }
}

// The command in a record of a kind, or refusal 9 for an unknown kind, a repeated set-up or a body
// of another length.
fn read_command(
    dating: Option<Span>,
    family: Family,
    kind: u8,
    body: &[u8],
) -> Result<Command, Refusal>
    ensures { result ≡ command_of dating family kind body.now }
{
    if (kind == START) & (body.len() == start_length(family)) {
        return Ok(Command::Start(read_start(family, body)));
    }
    if (kind == FIRST) & (body.len() == first_length(dating, family)) {
        return Ok(Command::First(read_first(dating, family, body)));
    }
    if (kind == SECOND) & (body.len() == 8) {
        return Ok(Command::Second(read_second(body)));
    }
    Err(Refusal::Unreadable)
}

// Whether a record of a kind is a Start that selects its profile.
fn selects(selecting: Option<SelectionFile>, kind: u8) -> bool
    ensures { result ≡ is_selecting selecting kind }
{
    selecting.is_some() & (kind == START)
}

// A Start that selects its profile: the terminal's data, of any length, before which a CPACE card's
// interface stands. Both together are what the file reads.
fn read_selecting(
    family: Family,
    selecting: Option<SelectionFile>,
    values: Values,
    paper: &[u8],
    body: &[u8],
) -> Result<Command, Refusal>
    ensures { result ≡ start_selected family (selected_in selecting (slots_of family values) paper.now body.now) body.now }
{
    if is_cpace(family) & (body.len() == 0) {
        return Err(Refusal::Unreadable);
    }
    let chosen = select_profile(selecting, slots_of(family, values), paper, body);
    Ok(Command::Start(Start {
        interface: interface_of(family, body),
        chosen,
    }))
}

// The command in a record of a paper, by the paper's shape and the card's present values.
pub fn read_record(
    shape: Shape,
    values: Values,
    paper: &[u8],
    kind: u8,
    body: &[u8],
) -> Result<Command, Refusal>
    ensures { result ≡ command_in shape values paper.now kind body.now }
{
    let selecting = shape.selecting;
    let dating = shape.dating;
    let family = shape.family;
    if selects(selecting, kind) {
        return read_selecting(family, selecting, values, paper, body);
    }
    read_command(dating, family, kind, body)
}

// Whether a record of a kind with a body of so many bytes is a command, by the paper's shape.
pub fn is_command(shape: Shape, kind: u8, length: usize) -> bool
    ensures { result ≡ is_command shape kind length }
{
    let selecting = shape.selecting;
    let dating = shape.dating;
    let family = shape.family;
    if selects(selecting, kind) {
        return (0 < length) | !is_cpace(family);
    }
    if kind == START {
        return length == start_length(family);
    }
    if kind == FIRST {
        return length == first_length(dating, family);
    }
    (kind == SECOND) & (length == 8)
}
