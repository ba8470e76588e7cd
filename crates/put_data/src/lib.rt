// The PUT DATA command of an issuer script, by CPA 18.8: whether it is valid, and what it writes.
#![tactic(auto)]

ghost use Rattle.std.specs.Prelude.{◌≡◌, ◌+◌, ◌≤◌, length, drop};
ghost use Rattle.element.specs.Element.{element_size, element_meaning};
ghost use Rattle.put_data.specs.PutData.{writes_in, told, next_in, is_some};
ghost use Rattle.put_data.specs.PutData.{elements_of, is_valid, next_write};

use element::{Write, element_size};
use frame::{is_put_data, is_secured, list_place, mac_place};
use meaning::element_meaning;
use wire::u16_at;

// What comes next among the elements: one of them, and where it ends; their end; or something that
// fails the command. Three ways, which every caller tells apart: a Result of an Option is no plainer.
#[derive(Drop)]
pub enum Next {
    Element { write: Write, end: usize },
    End,
    Fault,
}

// The element at a place of a list.
fn element_at(object: u16, list: &[u8], at: usize) -> Next
    requires { at ≤ length list.now }
    ensures { result ≡ told (element_meaning object (drop at list.now)) (at + element_size (drop at list.now)) }
{
    let rest = &list[at..];
    match element_meaning(object, rest) {
        Some(write) => Next::Element {
            write,
            end: at + element_size(rest),
        },
        None => Next::Fault,
    }
}

// The first element at or behind a place of a list. Between elements may stand fillers, 00.
fn next_element(object: u16, list: &[u8], from: usize) -> Next
    ensures { result ≡ next_in object list.now from }
{
    for at in from..list.len() {
        if list[at] != 0 {
            return element_at(object, list, at);
        }
    }
    Next::End
}

// Whether a list holds elements and fillers only.
fn are_elements(object: u16, list: &[u8]) -> bool
    ensures { result ≡ is_some (writes_in object list.now) }
{
    let mut at = 0;
    loop {
        match next_element(object, list, at) {
            Next::Element { end, .. } => at = end,
            Next::End => return true,
            Next::Fault => return false,
        }
    }
}

// The elements of a command, none where it ends before they do.
fn elements(command: &[u8]) -> &[u8]
    ensures { result.now ≡ elements_of command.now }
{
    let start = list_place(command);
    let end = mac_place(command);
    if command.len() < end {
        return &command[..0];
    }
    &command[start..end]
}

// Whether all of a command is as it must be. One that is not fails, and writes nothing.
pub fn is_valid(command: &[u8]) -> bool
    ensures { result ≡ is_valid command.now }
{
    if is_put_data(command) & is_secured(command) {
        return are_elements(u16_at(command, 2), elements(command));
    }
    false
}

// The first element at or behind a place among the elements of a command, which begin at 0.
pub fn next_write(command: &[u8], from: usize) -> Next
    ensures { result ≡ next_write command.now from }
{
    next_element(u16_at(command, 2), elements(command), from)
}
