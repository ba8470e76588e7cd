// The lines of a transaction log (request Eight), written into lent room from a place on; the place
// behind is returned.
#![tactic(auto)]

ghost use Rattle.std.specs.Prelude.{◌≡◌, ◌+◌, ◌≤◌, length};
ghost use Rattle.text.specs.Stored.{Stored};
ghost use Rattle.log_lines.specs.LogLines.{fields_text, values_text, heading, log_line, longest, placed, place_behind};

use log_fields::Form;
use log_values::{put_answer, put_hex, put_purchase};
use ring::Record;

// The most bytes that a line has.
pub const LONGEST: usize = 12_287;

// The fields of the table by which the record is logged.
fn put_fields(
    room: &mut [u8],
    at: usize,
    paper: &[u8],
    tail: &[u8],
    form: Form,
    kept: Record,
) -> usize
    requires { at + 12240 ≤ length room.old }
    ensures { Stored room.old at (fields_text paper.now tail.now form kept) 12240 result room.new }
{
    let mut end = at;
    for i in 0..log_fields::field_count(tail, form, kept) {
        end = put_hex(room, end, log_fields::field_at(paper, tail, form, kept, i));
    }
    end
}

fn put_values(
    room: &mut [u8],
    at: usize,
    paper: &[u8],
    tail: &[u8],
    form: Form,
    kept: Record,
) -> usize
    requires { at + 12278 ≤ length room.old }
    ensures { Stored room.old at (values_text paper.now tail.now form kept) 12278 result room.new }
{
    let first = log_fields::first_data(paper, form, kept);
    let at = put_purchase(room, at, first, form.dated);
    let at = put_answer(room, at, log_tail::switches(tail), kept);
    put_fields(room, at, paper, tail, form, kept)
}

// The word, and a record's number.
fn put_heading(room: &mut [u8], at: usize, k: u8) -> usize
    requires { at + 25 ≤ length room.old }
    ensures { Stored room.old at (heading k) 8 result room.new }
{
    let at = text::put(room, at, b"log ");
    let at = numerals::put_number(room, at, k as u64);
    text::put(room, at, b" ")
}

fn store_line(
    room: &mut [u8],
    at: usize,
    k: u8,
    paper: &[u8],
    tail: &[u8],
    form: Form,
    kept: Record,
) -> usize
    requires { at + longest ≤ length room.old }
    ensures { Stored room.old at (log_line k paper.now tail.now form kept) longest result room.new }
{
    let at = put_heading(room, at, k);
    let at = put_values(room, at, paper, tail, form, kept);
    text::put(room, at, b"\n")
}

// The line of a record, k being its number. Without room for the longest line nothing is written, and
// the place stays.
pub fn put_line(
    room: &mut [u8],
    at: usize,
    k: u8,
    paper: &[u8],
    tail: &[u8],
    form: Form,
    kept: Record,
) -> usize
    ensures { (result ≡ place_behind (length room.old) at (log_line k paper.now tail.now form kept))
        × (room.new ≡ placed room.old at (log_line k paper.now tail.now form kept))
        × (result ≤ at + longest) }
{
    if room.len() < at || room.len() - at < LONGEST {
        return at;
    }
    store_line(room, at, k, paper, tail, form, kept)
}
