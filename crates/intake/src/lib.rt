// What the tools take in: a tool's name, which is the first argument, and the blocks of a stack, which is
// standard input.
#![tactic(auto)]

ghost use Rattle.std.specs.Prelude.{◌≤◌, length, IfOk};
ghost use Rattle.intake.specs.Next.{size_of};

use std::rt::Env;
use streams::Failure;

// What stands next in a stack.
#[derive(Drop)]
pub enum Next {
    // A block of so many bytes, at the front of the buffer.
    Block(usize),
    // A longer block than is taken: it was passed over.
    TooLong,
    End,
}

// The block of so many bytes that is next in a stack.
fn read_block(rt: &impl Input, buffer: &mut [u8], size: usize) -> Result<(), Failure>
    requires { size ≤ length buffer.old }
{
    if streams::read_all(rt, &mut buffer[..size])? < size {
        return Err(Failure::CutShort);
    }
    Ok(())
}

// So many bytes of a stack are passed over, in pieces as long as the buffer.
fn pass_over(rt: &impl Input, buffer: &mut [u8], size: usize) -> Result<(), Failure>
    requires { 1 ≤ length buffer.old }
{
    let piece = buffer.len();
    let mut left = size;
    while piece < left {
        read_block(rt, buffer, piece)?;
        left -= piece;
    }
    read_block(rt, buffer, left)
}

// The next block of a stack, behind its length in 4 bytes. The buffer is as long as the longest that is
// taken; one that has no room for a length reads nothing.
pub fn read_next(rt: &impl Input, buffer: &mut [u8]) -> Result<Next, Failure>
    ensures { IfOk result (λ next. size_of next ≤ length buffer.old) }
{
    if buffer.len() < 4 {
        return Err(Failure::NotRead);
    }
    let filled = streams::read_all(rt, &mut buffer[..4])?;
    if filled == 0 {
        return Ok(Next::End);
    }
    if filled < 4 {
        return Err(Failure::CutShort);
    }
    let size = wire::u32_at(buffer, 0) as usize;
    if buffer.len() < size {
        pass_over(rt, buffer, size)?;
        return Ok(Next::TooLong);
    }
    read_block(rt, buffer, size)?;
    Ok(Next::Block(size))
}

// Whether the first argument is a name.
pub fn is_named(rt: &impl Env, name: &[u8]) -> bool {
    let mut argument = [0u8; 16];
    let size = rt.arg(1, &mut argument).unwrap_or(0);
    &argument[..size] == name
}
