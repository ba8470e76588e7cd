// A stack of papers from standard input, the sheet of the class to standard output. A paper is taken by
// `class_sheet`, the sheet is written by `sheet_lines`; here it is only read and written.
#![tactic(auto)]

ghost use Rattle.std.specs.Prelude.{◌≤◌, length};

use intake::Next;
use sheet::Sheet;
use sheet_lines::Form;
use std::rt::{Env, Files};
use streams::Failure;

// A paper taken into the sheet; where it is refused that is written, with its number in the stack.
fn enter(
    rt: &impl Print,
    sheet: &mut Sheet,
    paper: &[u8],
    form: Form,
    number: u64,
    text: &mut [u8],
) -> Result<(), Failure> {
    let Err(refusal) = class_sheet::take_paper(sheet, paper) else {
        return Ok(());
    };
    let end = sheet_lines::put_refused(text, 0, form, refusal.number(), number);
    streams::write_out(rt, text, end)
}

// The next paper of a stack, or that there is none. One that is too long has no byte here: both are
// refused by 9.
fn enter_next(
    rt: &(impl Input + Print),
    sheet: &mut Sheet,
    buffer: &mut [u8],
    form: Form,
    number: u64,
    text: &mut [u8],
) -> Result<bool, Failure> {
    match intake::read_next(rt, buffer)? {
        Next::Block(size) => enter(rt, sheet, &buffer[..size], form, number, text)?,
        Next::TooLong => enter(rt, sheet, b"", form, number, text)?,
        Next::End => return Ok(false),
    }
    Ok(true)
}

// All papers of a stack. It ends after more papers than any input has.
fn enter_all(
    rt: &(impl Input + Print),
    sheet: &mut Sheet,
    buffer: &mut [u8],
    form: Form,
    text: &mut [u8],
) -> Result<(), Failure> {
    for number in 1..=u64::MAX {
        if !enter_next(rt, sheet, buffer, form, number, text)? {
            return Ok(());
        }
    }
    Err(Failure::NotRead)
}

// The sheet.
fn write_sheet(rt: &impl Print, sheet: &Sheet, form: Form, text: &mut [u8]) -> Result<(), Failure> {
    let end = sheet_lines::put_sheet(text, 0, form, sheet);
    streams::write_out(rt, text, end)
}

// The sheet of a class, whose papers are a stack; where that is cut short the sheet is written too.
fn tell_class(
    rt: &(impl Input + Print),
    buffer: &mut [u8],
    form: Form,
    text: &mut [u8],
) -> Result<(), Failure> {
    let mut sheet = sheet::blank();
    let ended = enter_all(rt, &mut sheet, buffer, form, text);
    match ended {
        Ok(()) => write_sheet(rt, &sheet, form, text),
        Err(Failure::CutShort) => {
            streams::write_out(rt, b"cut short\n", 10)?;
            write_sheet(rt, &sheet, form, text)?;
            ended
        }
        Err(_) => ended,
    }
}

fn run_form(rt: &(impl Input + Print + Files), form: Form) {
    let mut buffer = [0u8; 65_536];
    let mut text = [0u8; 19_602];
    streams::acknowledge(rt, tell_class(rt, &mut buffer, form, &mut text));
}

// The sheet in the form that the first argument names.
pub fn run_class(rt: &(impl Input + Print + Files + Env)) {
    if intake::is_named(rt, b"report") {
        run_form(rt, Form::Report);
    }
    if intake::is_named(rt, b"tally") {
        run_form(rt, Form::Tally);
    }
}
