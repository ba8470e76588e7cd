// The tools beside the sitting, on standard input and output. `display` shows a paper, each line of its
// sitting with the room left behind it, and its log behind everything. `bench` takes a stack: a paper, and
// then runs for its card. What is read is answered by the crates `display`, `paper_text` and `bench`; here
// it is only read and written.
#![tactic(auto)]

ghost use Rattle.std.specs.Prelude.{◌≤◌, length, IfOk};
ghost use Rattle.intake.specs.Next.{size_of};

use intake::Next;
use paper_text::Parts;
use record_lines::Showing;
use rooms::Rooms;
use rules::Words;
use shape::Shape;
use shown::{Shown, Wants};
use state::State;
use std::rt::{Env, Files};
use streams::Failure;

// A paper shown to its end, in pieces as long as the room. It ends after more records than any paper
// has.
fn show(
    rt: &impl Print,
    paper: &[u8],
    words: &mut Words,
    rooms: &mut Rooms,
    showing: Showing,
    room: &mut [u8],
) -> Result<Shown, Failure> {
    let mut shown = display::show_set_up(paper, words, rooms, showing, room, 0);
    for _ in 0..u64::MAX {
        let end = shown.end;
        match shown.wants {
            Wants::Record => {
                shown = display::show_record(words, rooms, showing, shown, paper, room, end);
            }
            Wants::Room => {
                streams::write_out(rt, room, end)?;
                shown = display::show_record(words, rooms, showing, shown, paper, room, 0);
            }
            Wants::Run | Wants::Nothing => {
                streams::write_out(rt, room, end)?;
                return Ok(shown);
            }
        }
    }
    Err(Failure::NotWritten)
}

// The lines of the paper's log, behind what was shown of it.
fn write_log(rt: &impl Print, paper: &[u8], room: &mut [u8]) -> Result<(), Failure> {
    let Parts { lines, end } = paper_text::put_for_log(paper, room).ok_or(Failure::NotWritten)?;
    streams::write_out(rt, &room[lines..end], end - lines)
}

// A paper shown with its rooms, and its log behind everything.
fn show_whole(rt: &impl Print, paper: &[u8], room: &mut [u8]) -> Result<(), Failure> {
    let mut words = rules::blank();
    let mut rooms = rooms::none();
    let _ = show(rt, paper, &mut words, &mut rooms, Showing::Rooms, room)?;
    write_log(rt, paper, room)
}

// The paper on standard input, read into a buffer of a byte more than the longest.
fn show_paper(
    rt: &(impl Input + Print),
    buffer: &mut [u8],
    room: &mut [u8],
) -> Result<(), Failure> {
    let filled = streams::read_all(rt, buffer)?;
    show_whole(rt, &buffer[..filled], room)
}

fn say(rt: &impl Print, text: &[u8]) -> Result<(), Failure> {
    streams::write_out(rt, text, text.len())
}

// The next block of a stack; of one that is cut short that is written.
fn next_block(rt: &(impl Input + Print), buffer: &mut [u8]) -> Result<Next, Failure>
    ensures { IfOk result (λ next. size_of next ≤ length buffer.old) }
{
    let next = intake::read_next(rt, buffer);
    if let Err(Failure::CutShort) = next {
        say(rt, b"cut short\n")?;
    }
    next
}

// A run answered, and its text written: the card after it.
fn take_run(
    rt: &impl Print,
    paper: &[u8],
    words: &mut Words,
    rooms: &mut Rooms,
    shape: Shape,
    state: State,
    block: &[u8],
    room: &mut [u8],
    text: &mut [u8],
) -> Result<State, Failure> {
    let turn = bench::answer_block(words, rooms, shape, paper, state, block, room, text);
    let end = turn.page.ok_or(Failure::NotWritten)?;
    streams::write_out(rt, text, end)?;
    Ok(turn.state)
}

// Runs for the card of a paper that was shown, block by block. It ends after more blocks than any
// input has.
fn take_runs(
    rt: &(impl Input + Print),
    paper: &[u8],
    words: &mut Words,
    rooms: &mut Rooms,
    shown: Shown,
    buffer: &mut [u8],
    room: &mut [u8],
    text: &mut [u8],
) -> Result<(), Failure> {
    let shape = shown.shape;
    let mut state = shown.state;
    for _ in 0..u64::MAX {
        match next_block(rt, buffer)? {
            Next::Block(size) => {
                let block = &buffer[..size];
                state = take_run(rt, paper, words, rooms, shape, state, block, room, text)?;
            }
            Next::TooLong => say(rt, b"too long\n")?,
            Next::End => return Ok(()),
        }
    }
    Err(Failure::NotRead)
}

// A stack's paper; where no refusal ends it runs for its card follow.
fn answer_paper(
    rt: &(impl Input + Print),
    paper: &[u8],
    buffer: &mut [u8],
    room: &mut [u8],
    text: &mut [u8],
) -> Result<(), Failure> {
    let mut words = rules::blank();
    let mut rooms = rooms::none();
    let shown = show(rt, paper, &mut words, &mut rooms, Showing::Lines, text)?;
    if let Wants::Run = shown.wants {
        return take_runs(rt, paper, &mut words, &mut rooms, shown, buffer, room, text);
    }
    Ok(())
}

// A stack: its first block is the paper, and one that is too long is refused.
fn answer_stack(
    rt: &(impl Input + Print),
    first: &mut [u8],
    buffer: &mut [u8],
    room: &mut [u8],
    text: &mut [u8],
) -> Result<(), Failure> {
    match next_block(rt, first)? {
        Next::Block(size) => answer_paper(rt, &first[..size], buffer, room, text),
        Next::TooLong => say(rt, b"0 9\n"),
        Next::End => Ok(()),
    }
}

fn run_display(rt: &(impl Input + Print + Files)) {
    let mut buffer = [0u8; 65_537];
    let mut room = [0u8; 770_118];
    streams::acknowledge(rt, show_paper(rt, &mut buffer, &mut room));
}

fn run_bench(rt: &(impl Input + Print + Files)) {
    let mut paper = [0u8; 65_536];
    let mut buffer = [0u8; 65_540];
    let mut room = [0u8; 65_536];
    let mut text = [0u8; 196_654];
    streams::acknowledge(
        rt,
        answer_stack(rt, &mut paper, &mut buffer, &mut room, &mut text),
    );
}

// The tool that the first argument names.
pub fn run_tool(rt: &(impl Input + Print + Files + Env)) {
    if intake::is_named(rt, b"display") {
        run_display(rt);
    }
    if intake::is_named(rt, b"bench") {
        run_bench(rt);
    }
}
