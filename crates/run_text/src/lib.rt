// The page of a run, written to the front of lent text: the refusal, the number of answers, and the
// room that was lent.
#![tactic(auto)]

ghost use Rattle.std.specs.Prelude.{◌≡◌, ◌++◌, ◌+◌, ◌*◌, ◌≤◌, length};
ghost use Rattle.hex_digits.specs.Hex.{hex_byte};
ghost use Rattle.text.specs.Stored.{Stored};
ghost use Rattle.run_page.specs.RunPage.{ran_line, feed, hex_lines, page_end, page_text};

use refusal::Refusal;

// The most bytes of what became of a run.
const LONGEST_HEAD: usize = 46;

// The bytes of the room in a line.
const LINE: usize = 36;

fn put_text(room: &mut [u8], at: usize, text: &[u8]) -> usize
    requires { at + length text.now ≤ length room.old }
    ensures { Stored room.old at text.now (length text.now) result room.new }
{
    text::put(room, at, text)
}

// What became of a run.
fn put_ran(room: &mut [u8], at: usize, ran: Result<usize, Refusal>) -> usize
    requires { at + 46 ≤ length room.old }
    ensures { Stored room.old at (ran_line ran) 46 result room.new }
{
    let at = put_text(room, at, b"run ");
    let at = numerals::put_field(room, at, run_page::refusal_in(ran) as u64, b' ');
    numerals::put_field(room, at, run_page::answers_in(ran) as u64, b'\n')
}

// A byte in hex, and a line feed where it ends a line.
fn put_byte(room: &mut [u8], at: usize, byte: u8, last: bool) -> usize
    requires { at + 3 ≤ length room.old }
    ensures { Stored room.old at (hex_byte byte ++ feed last) 3 result room.new }
{
    let at = put_text(
        room,
        at,
        &[hex_digits::upper_digit(byte), hex_digits::lower_digit(byte)],
    );
    if last {
        return put_text(room, at, b"\n");
    }
    at
}

// All bytes in hex.
fn put_lines(room: &mut [u8], at: usize, bytes: &[u8]) -> usize
    requires { at + 3 * length bytes.now ≤ length room.old }
    ensures { Stored room.old at (hex_lines bytes.now) (3 * length bytes.now) result room.new }
{
    let mut end = at;
    for (i, byte) in bytes.iter().enumerate() {
        let count = i + 1;
        end = put_byte(
            room,
            end,
            *byte,
            (count % LINE == 0) | (count == bytes.len()),
        );
    }
    end
}

// The whole page, and where it ends. Without room for the longest page nothing is written.
pub fn put_page(text: &mut [u8], ran: Result<usize, Refusal>, room: &[u8]) -> usize
    ensures { (result ≡ page_end (length text.old) ran room.now)
        × (text.new ≡ page_text text.old ran room.now) }
{
    if text.len() < LONGEST_HEAD || (text.len() - LONGEST_HEAD) / 3 < room.len() {
        return 0;
    }
    let at = put_ran(text, 0, ran);
    put_lines(text, at, room)
}
