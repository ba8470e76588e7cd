// What an element of a command says: which of the card's values or limits it writes.
#![tactic(auto)]

ghost use Rattle.std.specs.Prelude.{◌≡◌, ◌<◌};
ghost use Rattle.element.specs.Element.{is_one_of, meaning_of, element_meaning};

use element::{ACCUMULATORS, COUNTERS, Write};
use wire::{byte_at, u16_at};

// Whether a tag is one of the four from the first on.
fn is_one_of(first: u16, tag: u16) -> bool
    requires { first < 65532 }
    ensures { result ≡ is_one_of first tag }
{
    (first <= tag) & (tag <= first + 3)
}

// What an element writes, by P1 P2 and its tag.
fn meaning_of(object: u16, tag: u16, value: &[u8]) -> Option<Write>
    ensures { result ≡ meaning_of object tag value.now }
{
    if (object == ACCUMULATORS) & is_one_of(0xDF01, tag) {
        return element::value_written((tag - 0xDF01) as usize, value);
    }
    if (object == ACCUMULATORS) & is_one_of(0xDF11, tag) {
        return element::limits_written((tag - 0xDF11) as usize, value);
    }
    if (object == COUNTERS) & is_one_of(0xDF11, tag) {
        return element::counts_written((tag - 0xDF11) as usize, value);
    }
    None
}

// What the element writes with which a list begins. It must end within the list.
pub fn element_meaning(object: u16, list: &[u8]) -> Option<Write>
    ensures { result ≡ element_meaning object list.now }
{
    let size = element::element_size(list);
    if element::is_length(byte_at(list, 2)) & (size <= list.len()) {
        let head = element::head_size(list);
        return meaning_of(object, u16_at(list, 0), &list[head..size]);
    }
    None
}
