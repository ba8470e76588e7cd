// The head of an object, by EMV Book 3 Annex B: its tag and its length.
#![tactic(auto)]

ghost use Rattle.std.specs.Prelude.{◌≡◌, ◌+◌, ◌≤◌};
ghost use Rattle.head.specs.Head.{is_constructed, head_within, head_behind, head_of};

use wire::{byte_at, u16_at};

// How many bytes the head has, and how many the value.
#[derive(Clone, Copy)]
pub struct Head {
    pub size: usize,
    pub length: usize,
}

// Bit 6 of a tag's first byte.
pub fn is_constructed(tag: u8) -> bool
    ensures { result ≡ is_constructed tag }
{
    tag / 32 % 2 == 1
}

// The value ends within the bytes.
fn head_within(s: &[u8], size: usize, length: usize) -> Option<Head>
    requires { size + length ≤ 65_540 }
    ensures { result ≡ head_within s.now size length }
{
    if s.len() < size + length {
        return None;
    }
    Some(Head { size, length })
}

// The head whose length stands at a place, behind a tag of one byte or two. A length is 00 to 7F, or
// 81 and one byte, or 82 and two.
fn read_length(s: &[u8], at: usize) -> Option<Head>
    requires { at ≤ 2 }
    ensures { result ≡ head_behind s.now at }
{
    let lead = byte_at(s, at);
    if lead < 0x80 {
        return head_within(s, at + 1, lead as usize);
    }
    if lead == 0x81 {
        return head_within(s, at + 2, byte_at(s, at + 1) as usize);
    }
    if lead == 0x82 {
        return head_within(s, at + 3, u16_at(s, at + 1) as usize);
    }
    None
}

// The head of the object with which the bytes begin. A tag has a second byte where the low five bits
// of its first are all ones; a second byte of 80 or more would announce a third.
pub fn read_head(s: &[u8]) -> Option<Head>
    ensures { result ≡ head_of s.now }
{
    if byte_at(s, 0) % 32 != 31 {
        return read_length(s, 1);
    }
    if 0x80 <= byte_at(s, 1) {
        return None;
    }
    read_length(s, 2)
}
