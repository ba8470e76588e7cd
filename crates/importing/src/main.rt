// Old records on standard input, one after the other. For each a line on standard output. What is
// read is answered by `imports`; here it is only read and written.
#![tactic(auto)]

use imports::Answered;
use streams::Failure;

// The lines of all records: the buffer has whole ones, and is full but at the input's end. It ends
// after more turns than any input has.
fn answer_all(
    rt: &(impl Input + Print),
    buffer: &mut [u8],
    room: &mut [u8],
) -> Result<(), Failure> {
    let mut number: u64 = 1;
    for _ in 0..u64::MAX {
        let filled = streams::read_all(rt, buffer)?;
        let Answered { end, next } = imports::answer(&buffer[..filled], number, room).ok_or(
            Failure::NotWritten,
        )?;
        streams::write_out(rt, room, end)?;
        if filled < buffer.len() {
            return Ok(());
        }
        number = next;
    }
    Err(Failure::NotRead)
}

// 3,276 records, and 54 bytes for the line of each.
fn main(rt: HostRuntime) {
    let mut buffer = [0u8; 65_520];
    let mut room = [0u8; 176_904];
    streams::acknowledge(&rt, answer_all(&rt, &mut buffer, &mut room));
}
