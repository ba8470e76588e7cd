// Standard input read, standard output written, and how it ended said: what the programs share.
#![tactic(auto)]

ghost use Rattle.std.specs.Prelude.{◌≡◌, ◌≤◌, length};
ghost use Rattle.streams.specs.There.{there};
ghost use Rattle.streams.specs.declared.Failure.TheVariants.{NotRead};

use std::fs::{self, OpenOptions};
use std::io::{self, Read as _, Write};
use std::rt::Files;

// Descriptor 3, as the system names it among the files.
const DESCRIPTOR: &str = "/proc/self/fd/3";

// Why not everything was read, answered and written.
#[derive(Clone, Copy)]
pub enum Failure {
    CutShort,
    NotRead,
    NotWritten,
}

// A read that failed, and the bytes that are there all the same.
#[derive(Clone, Copy)]
pub struct Unread {
    pub filled: usize,
}

impl From<Unread> for Failure {
    ghost from_gives = { λ _ failure. failure ≡ NotRead };

    fn from(_unread: Unread) -> Failure {
        Failure::NotRead
    }
}

// Reads once, behind the bytes that are there: how many there are then. No more of them is the input's end.
fn read_behind(rt: &impl Input, buffer: &mut [u8], filled: usize) -> Result<usize, Unread>
    requires { filled ≤ length buffer.old }
    ensures { (filled ≤ there result) × (there result ≤ length buffer.old) }
{
    match rt.reader().read(&mut buffer[filled..]) {
        Ok(more) => Ok(filled + more),
        Err(_) => Err(Unread { filled }),
    }
}

// The same behind any place; behind the buffer's end it is a read that failed.
pub fn read_on(rt: &impl Input, buffer: &mut [u8], filled: usize) -> Result<usize, Unread>
    ensures { there result ≤ length buffer.old }
{
    if buffer.len() < filled {
        return Err(Unread { filled: 0 });
    }
    read_behind(rt, buffer, filled)
}

// Writes what stands before a place of the room.
pub fn write_out(rt: &impl Print, room: &[u8], to: usize) -> Result<(), Failure> {
    let text = room.get(..to).ok_or(Failure::NotWritten)?;
    rt.write_all(text).map_err(|_| Failure::NotWritten)
}

// Writes to descriptor 3, where that is open for writing.
fn write_word(rt: &impl Files, word: &[u8]) -> io::Result<()> {
    if fs::symlink_metadata(rt, DESCRIPTOR)?
        .permissions()
        .readonly()
    {
        return Ok(());
    }
    OpenOptions::new()
        .append(true)
        .open(rt, DESCRIPTOR)?
        .write_all(word)
}

// Says on descriptor 3 how it ended. Whoever started the program believes nothing else.
pub fn acknowledge(rt: &impl Files, ending: Result<(), Failure>) {
    let word: &[u8] = match ending {
        Ok(()) => b"done\n",
        Err(Failure::CutShort) => b"cut short\n",
        Err(Failure::NotRead) => b"not read\n",
        Err(Failure::NotWritten) => b"not written\n",
    };
    let _ = write_word(rt, word);
}

// Reads until the input ends, the buffer is full or a read fails.
pub fn read_all(rt: &impl Input, buffer: &mut [u8]) -> Result<usize, Unread>
    ensures { there result ≤ length buffer.old }
{
    let mut filled: usize = 0;
    while filled < buffer.len() {
        let to = read_behind(rt, buffer, filled)?;
        if to == filled {
            break;
        }
        filled = to;
    }
    Ok(filled)
}
