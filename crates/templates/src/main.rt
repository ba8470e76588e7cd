// Templates on standard input, each behind its length in 4 bytes. For each a line on standard output:
// 0, 18 or 19, and behind a 0 three words for each command: where it starts, how long it is, and what
// it writes. v1=5 is the value of accumulator 1, a1=5-6 and c1=5-6 are limits of an accumulator and of
// a counter, with commas between; + is nothing at all, and - a command that fails.
#![tactic(auto)]

ghost use Rattle.std.specs.Prelude.{◌≡◌, ◌+◌, ◌≤◌, ◌<◌, length};

use cursor::next_command;
use element::Write;
use object::{Fault, read_template};
use put_data::{Next, is_valid, next_write};
use streams::Failure;

// A text from a place of the room on.
fn put_text(room: &mut [u8], at: usize, text: &[u8]) -> usize
    requires { at + length text.now ≤ length room.old }
    ensures { result ≡ at + length text.now }
{
    let end = at + text.len();
    room[at..end].copy_from_slice(text);
    end
}

// A number in decimal.
fn put_number(room: &mut [u8], at: usize, n: u64) -> usize
    requires { at + 20 ≤ length room.old }
    ensures { result ≤ at + 20 }
{
    numerals::put_number(room, at, n)
}

// Two numbers with a dash between.
fn put_range(room: &mut [u8], at: usize, lower: u64, upper: u64) -> usize
    requires { at + 41 ≤ length room.old }
    ensures { result ≤ at + 41 }
{
    let at = put_number(room, at, lower);
    let at = put_text(room, at, b"-");
    put_number(room, at, upper)
}

// A comma where something stands from the start on.
fn put_comma(room: &mut [u8], start: usize, at: usize) -> usize
    requires { at + 1 ≤ length room.old }
    ensures { result ≤ at + 1 }
{
    if start < at {
        return put_text(room, at, b",");
    }
    at
}

// The name of a slot of a kind, and =.
fn put_name(room: &mut [u8], at: usize, kind: u8, slot: usize) -> usize
    requires { (at + 3 ≤ length room.old) × (slot < 4) }
    ensures { result ≡ at + 3 }
{
    put_text(room, at, &[kind, b'1' + slot as u8, b'='])
}

// What is written to a slot.
fn put_written(room: &mut [u8], at: usize, write: Write) -> usize
    requires { at + 41 ≤ length room.old }
    ensures { result ≤ at + 41 }
{
    match write {
        Write::Value { amount, .. } => put_number(room, at, amount.0),
        Write::AccumulatorLimits { lower, upper, .. } => put_range(room, at, lower.0, upper.0),
        Write::CounterLimits { lower, upper, .. } => {
            put_range(room, at, lower as u64, upper as u64)
        }
    }
}

// Whether a write is of a kind, v, a or c, and to a slot.
fn is_to(write: &Write, kind: u8, slot: usize) -> bool {
    let (letter, to) = match write {
        Write::Value { slot, .. } => (b'v', *slot),
        Write::AccumulatorLimits { slot, .. } => (b'a', *slot),
        Write::CounterLimits { slot, .. } => (b'c', *slot),
    };
    (kind == letter) & (slot == to)
}

// The last of the writes of a kind to a slot.
fn last_to(command: &[u8], kind: u8, slot: usize) -> Option<Write> {
    let mut last = None;
    let mut at = 0;
    while let Next::Element { write, end } = next_write(command, at) {
        if is_to(&write, kind, slot) {
            last = Some(write);
        }
        at = end;
    }
    last
}

// What a command writes of a kind to a slot.
fn put_slot(
    room: &mut [u8],
    start: usize,
    at: usize,
    command: &[u8],
    kind: u8,
    slot: usize,
) -> usize
    requires { (at + 45 ≤ length room.old) × (slot < 4) }
    ensures { result ≤ at + 45 }
{
    let Some(write) = last_to(command, kind, slot) else {
        return at;
    };
    let at = put_comma(room, start, at);
    let at = put_name(room, at, kind, slot);
    put_written(room, at, write)
}

// What a command writes of a kind.
fn put_kind(room: &mut [u8], start: usize, mut at: usize, command: &[u8], kind: u8) -> usize
    requires { at + 180 ≤ length room.old }
    ensures { result ≤ at + 180 }
{
    for slot in 0..4 {
        at = put_slot(room, start, at, command, kind, slot);
    }
    at
}

// What a command writes.
fn put_writes(room: &mut [u8], at: usize, command: &[u8]) -> usize
    requires { at + 540 ≤ length room.old }
    ensures { result ≤ at + 540 }
{
    if !is_valid(command) {
        return put_text(room, at, b"-");
    }
    let end = put_kind(room, at, at, command, b'v');
    let end = put_kind(room, at, end, command, b'a');
    let end = put_kind(room, at, end, command, b'c');
    if end == at {
        return put_text(room, at, b"+");
    }
    end
}

// The three words of a command.
fn print_command(
    rt: &impl Print,
    room: &mut [u8],
    template: &[u8],
    start: usize,
    end: usize,
) -> Result<(), Failure>
    requires { (583 ≤ length room.old) × (start ≤ end) × (end ≤ length template.now) }
{
    let at = put_text(room, 0, b" ");
    let at = put_number(room, at, start as u64);
    let at = put_text(room, at, b" ");
    let at = put_number(room, at, (end - start) as u64);
    let at = put_text(room, at, b" ");
    let at = put_writes(room, at, &template[start..end]);
    streams::write_out(rt, room, at)
}

// The words of all commands.
fn print_commands(rt: &impl Print, room: &mut [u8], template: &[u8]) -> Result<(), Failure>
    requires { 583 ≤ length room.old }
{
    let mut at = 0;
    while let Some(span) = next_command(template, at) {
        let end = span.start + span.size;
        print_command(rt, room, template, span.start, end)?;
        at = end;
    }
    Ok(())
}

// Writes a text.
fn print(rt: &impl Print, text: &[u8]) -> Result<(), Failure> {
    streams::write_out(rt, text, text.len())
}

// The line of a sound template.
fn print_sound(rt: &impl Print, room: &mut [u8], template: &[u8]) -> Result<(), Failure>
    requires { 583 ≤ length room.old }
{
    print(rt, b"0")?;
    print_commands(rt, room, template)?;
    print(rt, b"\n")
}

// The line of a template.
fn print_line(rt: &impl Print, room: &mut [u8], template: &[u8]) -> Result<(), Failure>
    requires { 583 ≤ length room.old }
{
    match read_template(template) {
        Ok(()) => print_sound(rt, room, template),
        Err(Fault::Malformed) => print(rt, b"18\n"),
        Err(Fault::TooDeep) => print(rt, b"19\n"),
    }
}

// The template of so many bytes that comes next, read and answered.
fn answer(
    rt: &(impl Input + Print),
    buffer: &mut [u8],
    size: usize,
    room: &mut [u8],
) -> Result<(), Failure>
    requires { 583 ≤ length room.old }
{
    if buffer.len() < size {
        return Err(Failure::NotRead);
    }
    if streams::read_all(rt, &mut buffer[..size])? < size {
        return Err(Failure::CutShort);
    }
    print_line(rt, room, &buffer[..size])
}

// All templates. It ends after more turns than any input has.
fn answer_all(rt: &(impl Input + Print), buffer: &mut [u8], room: &mut [u8]) -> Result<(), Failure>
    requires { 583 ≤ length room.old }
{
    let mut size = [0u8; 4];
    for _ in 0..u64::MAX {
        let filled = streams::read_all(rt, &mut size)?;
        if filled == 0 {
            return Ok(());
        }
        if filled < 4 {
            return Err(Failure::CutShort);
        }
        answer(rt, buffer, wire::u32_at(&size, 0) as usize, room)?;
    }
    Err(Failure::NotRead)
}

// The longest template, and the longest text of a command: 43 bytes, and 45 for each of 12 slots.
fn main(rt: HostRuntime) {
    let mut buffer = [0u8; 65_536];
    let mut room = [0u8; 583];
    streams::acknowledge(&rt, answer_all(&rt, &mut buffer, &mut room));
}
