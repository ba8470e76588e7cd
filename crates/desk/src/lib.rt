// Papers from standard input, lines to standard output. What is read is answered by `transcript`
// and `pages`; here it is only read and written.
#![tactic(auto)]

ghost use Rattle.std.specs.Prelude.{◌+◌, ◌≤◌, length};
ghost use Rattle.streams.specs.There.{there};

use blocks::{Turned, Wants};
use rules::Words;
use std::rt::Files;
use streams::{Failure, Unread};

// One paper, read into a buffer of a byte more than the longest.
fn sit(
    rt: &(impl Input + Print),
    buffer: &mut [u8],
    words: &mut Words,
    room: &mut [u8],
) -> Result<(), Failure> {
    let filled = streams::read_all(rt, buffer)?;
    let end = paper_text::put_text(&buffer[..filled], words, room, 0).ok_or(Failure::NotWritten)?;
    streams::write_out(rt, room, end)
}

// The bytes from a place up to another move to the front of the buffer, and more are read behind
// them. A block that is not at hand whole is shorter than the buffer, so there is room.
fn read_more(rt: &impl Input, buffer: &mut [u8], at: usize, filled: usize) -> Result<usize, Unread>
    requires { (at ≤ filled) × (filled ≤ length buffer.old) }
    ensures { there result ≤ length buffer.old }
{
    buffer.copy_within(at..filled, 0);
    streams::read_on(rt, buffer, filled - at)
}

// The block at the front of the bytes at hand.
fn turn(
    buffer: &[u8],
    at: usize,
    filled: usize,
    skip: usize,
    words: &mut Words,
    room: &mut [u8],
    to: usize,
) -> Turned
    requires { (at ≤ filled) × (filled ≤ length buffer.now) }
    ensures { at + result.taken ≤ filled }
{
    pages::turn(&buffer[at..filled], skip, words, room, to)
}

// The stack has ended with so many bytes at hand.
fn close(
    rt: &impl Print,
    left: usize,
    skip: usize,
    room: &mut [u8],
    to: usize,
) -> Result<(), Failure> {
    let end = blocks::finish(left, skip, room, to).ok_or(Failure::NotWritten)?;
    streams::write_out(rt, room, end)?;
    if left == 0 && skip == 0 {
        return Ok(());
    }
    Err(Failure::CutShort)
}

// All papers of a stack. It ends after more turns than any input has.
fn turn_pages(
    rt: &(impl Input + Print),
    buffer: &mut [u8],
    words: &mut Words,
    room: &mut [u8],
) -> Result<(), Failure> {
    let mut at: usize = 0;
    let mut filled: usize = 0;
    let mut skip: usize = 0;
    let mut to: usize = 0;
    for _ in 0..u64::MAX {
        let turned = turn(buffer, at, filled, skip, words, room, to);
        at += turned.taken;
        skip = turned.skip;
        to = turned.end;
        match turned.wants {
            Wants::Turn => {}
            Wants::Room => {
                streams::write_out(rt, room, to)?;
                to = 0;
            }
            Wants::Input => {
                let left = filled - at;
                let Ok(more) = read_more(rt, buffer, at, filled) else {
                    let _ = streams::write_out(rt, room, to);
                    return Err(Failure::NotRead);
                };
                if more == left {
                    return close(rt, left, skip, room, to);
                }
                at = 0;
                filled = more;
            }
        }
    }
    Err(Failure::NotRead)
}

pub fn run_sitting(rt: &(impl Input + Print + Files)) {
    let mut buffer = [0u8; 65_537];
    let mut room = [0u8; 770_118];
    let mut words = rules::blank();
    streams::acknowledge(rt, sit(rt, &mut buffer, &mut words, &mut room));
}

pub fn run_stack(rt: &(impl Input + Print + Files)) {
    let mut buffer = [0u8; 65_540];
    let mut room = [0u8; 770_118];
    let mut words = rules::blank();
    streams::acknowledge(rt, turn_pages(rt, &mut buffer, &mut words, &mut room));
}
