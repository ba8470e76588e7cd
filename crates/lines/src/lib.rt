// The events of a conversation as lines, written into lent room from a place on; the place behind is
// returned.
#![tactic(auto)]

ghost use Rattle.std.specs.Prelude.{◌≡◌, [], ◌∷◌, ◌++◌, ◌+◌, ◌*◌, ◌-◌, ◌≤◌, ◌<◌, length};
ghost use Rattle.hex_digits.specs.Hex.{hex_byte, hex};
ghost use Rattle.lines.specs.Lines.{decimal};
ghost use Rattle.lines.specs.Lines.{refusal_line, cryptogram_line, placed, place_behind};
ghost use Rattle.lines.specs.Sitting.{started_line, answer_line};
ghost use Rattle.card.specs.Card.{answer_number};
ghost use Rattle.text.specs.Stored.{Stored};

use hex_digits::{lower_digit, upper_digit};
use iad::Iad;
use state::Answer;

// The most bytes that a line has.
pub const LONGEST: usize = 82;

// How many bytes there are from a place on.
fn bytes_left(bytes: usize, at: usize) -> usize
    ensures { result ≡ bytes - at }
{
    if at < bytes { bytes - at } else { 0 }
}

fn put_byte(room: &mut [u8], at: usize, byte: u8) -> usize
    requires { at + 1 ≤ length room.old }
    ensures { Stored room.old at (byte ∷ []) 1 result room.new }
{
    room[at] = byte;
    at + 1
}

fn put_digit(room: &mut [u8], at: usize, digit: u16) -> usize
    requires { (at + 1 ≤ length room.old) × (digit < 10) }
    ensures { Stored room.old at ((48 + digit) ∷ []) 1 result room.new }
{
    put_byte(room, at, b'0' + digit as u8)
}

// A number below 100 in decimal.
fn put_below_100(room: &mut [u8], at: usize, n: u16) -> usize
    requires { (at + 2 ≤ length room.old) × (n < 100) }
    ensures { Stored room.old at (decimal n) 2 result room.new }
{
    if n < 10 {
        return put_digit(room, at, n);
    }
    let tens = n / 10;
    let at = put_digit(room, at, tens);
    put_digit(room, at, n - tens * 10)
}

// A number below 1,000: its tens, and the digit that they leave.
fn put_below_1000(room: &mut [u8], at: usize, n: u16) -> usize
    requires { (at + 3 ≤ length room.old) × (n < 1000) }
    ensures { Stored room.old at (decimal n) 3 result room.new }
{
    if n < 100 {
        return put_below_100(room, at, n);
    }
    let tens = n / 10;
    let at = put_below_100(room, at, tens);
    put_digit(room, at, n - tens * 10)
}

// A number from 100 on: its hundreds, and the two digits that they leave.
fn put_hundreds(room: &mut [u8], at: usize, n: u16) -> usize
    requires { (at + 5 ≤ length room.old) × (100 ≤ n) }
    ensures { Stored room.old at (decimal n) 5 result room.new }
{
    let tens = n / 10;
    let hundreds = tens / 10;
    let at = put_below_1000(room, at, hundreds);
    let at = put_digit(room, at, tens - hundreds * 10);
    put_digit(room, at, n - tens * 10)
}

// A number in decimal, and the mark behind it.
fn put_decimal(room: &mut [u8], at: usize, n: u16, mark: u8) -> usize
    requires { at + 6 ≤ length room.old }
    ensures { Stored room.old at (decimal n ++ mark ∷ []) 6 result room.new }
{
    if n < 100 {
        let at = put_below_100(room, at, n);
        return put_byte(room, at, mark);
    }
    let at = put_hundreds(room, at, n);
    put_byte(room, at, mark)
}

fn put_hex_byte(room: &mut [u8], at: usize, byte: u8) -> usize
    requires { at + 2 ≤ length room.old }
    ensures { Stored room.old at (hex_byte byte) 2 result room.new }
{
    let at = put_byte(room, at, upper_digit(byte));
    put_byte(room, at, lower_digit(byte))
}

// Bytes in hex, and the mark behind them.
fn put_hex(room: &mut [u8], at: usize, bytes: &[u8], mark: u8) -> usize
    requires { at + 2 * length bytes.now + 1 ≤ length room.old }
    ensures { Stored room.old at (hex bytes.now ++ mark ∷ [])
        (2 * length bytes.now + 1) result room.new }
{
    let mut end = at;
    for i in 0..bytes.len() {
        end = put_hex_byte(room, end, bytes[i]);
    }
    put_byte(room, end, mark)
}

// Refusal 0, done, and the space behind it.
fn put_done(room: &mut [u8], at: usize) -> usize
    requires { at + 2 ≤ length room.old }
    ensures { Stored room.old at (decimal 0 ++ 32 ∷ []) 2 result room.new }
{
    let at = put_byte(room, at, b'0');
    put_byte(room, at, b' ')
}

// Record number, refusal.
fn store_refusal(room: &mut [u8], at: usize, number: u16, refusal: u8) -> usize
    requires { at + 12 ≤ length room.old }
    ensures { Stored room.old at (refusal_line number refusal) 12 result room.new }
{
    let at = put_decimal(room, at, number, b' ');
    put_decimal(room, at, refusal as u16, b'\n')
}

// After Start: record number, 0, ATC, and where a profile was selected the entries visited.
fn put_started(room: &mut [u8], at: usize, number: u16, atc: u16, visits: u8) -> usize
    requires { at + 20 ≤ length room.old }
    ensures { Stored room.old at (started_line number atc visits) 20 result room.new }
{
    let at = put_decimal(room, at, number, b' ');
    let at = put_done(room, at);
    if visits == 0 {
        return put_decimal(room, at, atc, b'\n');
    }
    let at = put_decimal(room, at, atc, b' ');
    put_decimal(room, at, visits as u16, b'\n')
}

// After First or Second: record number, 0, CID, ATC, IAD.
fn put_cryptogram(room: &mut [u8], at: usize, number: u16, cid: u8, atc: u16, iad: Iad) -> usize
    requires { at + 82 ≤ length room.old }
    ensures { Stored room.old at (cryptogram_line number cid atc iad) 82 result room.new }
{
    let bytes = iad::bytes_of(iad);
    let at = put_decimal(room, at, number, b' ');
    let at = put_done(room, at);
    let at = put_hex(room, at, &[cid], b' ');
    let at = put_decimal(room, at, atc, b' ');
    put_hex(room, at, &bytes, b'\n')
}

// The refusal of an answer, 0 where there is none.
fn number_of(answer: Answer) -> u8
    ensures { result ≡ answer_number answer }
{
    match answer {
        Answer::Refused(refusal) => refusal.number(),
        _ => 0,
    }
}

// The line of an answer, where the longest fits.
fn store_answer(room: &mut [u8], at: usize, number: u16, answer: Answer) -> usize
    requires { at + 82 ≤ length room.old }
    ensures { Stored room.old at (answer_line number answer) 82 result room.new }
{
    match answer {
        Answer::Started { atc, visits } => put_started(room, at, number, atc, visits),
        Answer::Given { kind, atc, iad } => put_cryptogram(room, at, number, kind.cid(), atc, iad),
        _ => store_refusal(room, at, number, number_of(answer)),
    }
}

// The line of an answer.
pub fn put_answer(room: &mut [u8], at: usize, number: u16, answer: Answer) -> usize
    ensures { (result ≡ place_behind (length room.old) at (answer_line number answer))
        × (room.new ≡ placed room.old at (answer_line number answer)) }
{
    if bytes_left(room.len(), at) < LONGEST {
        return at;
    }
    store_answer(room, at, number, answer)
}

// The line of a set-up, or of a refusal that ends the paper.
pub fn put_refusal(room: &mut [u8], at: usize, number: u16, refusal: u8) -> usize
    ensures { (result ≡ place_behind (length room.old) at (refusal_line number refusal))
        × (room.new ≡ placed room.old at (refusal_line number refusal)) }
{
    if bytes_left(room.len(), at) < LONGEST {
        return at;
    }
    store_refusal(room, at, number, refusal)
}
