// Old records, one after the other, answered by a line each: its number, then 0 and the new
// record's bytes in hex, or the refusal.
#![tactic(auto)]

ghost use Rattle.std.specs.Prelude.{◌≡◌, ◌+◌, ◌*◌, ◌≤◌, length, take, drop};
ghost use Rattle.hex_digits.specs.Hex.{hex};
ghost use Rattle.text.specs.Stored.{Stored};
ghost use Rattle.imports.specs.Imports.{numeral, record_line, records_in, lines_in, answered, room_after};

const OLD_LENGTH: usize = 20;

// The most bytes that a line has.
const LONGEST: usize = 54;

// Where the lines end, and the number of the record behind.
#[derive(Clone, Copy)]
pub struct Answered {
    pub end: usize,
    pub next: u64,
}

// A text from a place of the room on.
fn put_text(room: &mut [u8], at: usize, text: &[u8]) -> usize
    requires { at + length text.now ≤ length room.old }
    ensures { Stored room.old at text.now (length text.now) result room.new }
{
    text::put(room, at, text)
}

// A number in decimal.
fn put_number(room: &mut [u8], at: usize, n: u64) -> usize
    requires { at + 20 ≤ length room.old }
    ensures { Stored room.old at (numeral n) 20 result room.new }
{
    numerals::put_number(room, at, n)
}

// The bytes of a new record in hex.
fn hex_of(bytes: &[u8]) -> [u8; 30]
    requires { length bytes.now ≡ 15 }
    ensures { (result ≡ hex bytes.now) × (length result ≡ 30) }
{
    let mut text = [0u8; 30];
    for (i, byte) in bytes.iter().enumerate() {
        text[2 * i] = hex_digits::upper_digit(*byte);
        text[2 * i + 1] = hex_digits::lower_digit(*byte);
    }
    text
}

// The line of a record.
fn put_line(room: &mut [u8], at: usize, number: u64, old: &[u8]) -> usize
    requires { at + 54 ≤ length room.old }
    ensures { Stored room.old at (record_line number old.now) 54 result room.new }
{
    let mut new = [0u8; 15];
    let answer = import::import_record(old, &mut new);
    let at = put_number(room, at, number);
    match answer {
        Ok(()) => {
            let at = put_text(room, at, b" 0 ");
            let at = put_text(room, at, &hex_of(&new));
            put_text(room, at, b"\n")
        }
        Err(refusal) => {
            let at = put_text(room, at, b" ");
            let at = put_number(room, at, refusal.number() as u64);
            put_text(room, at, b"\n")
        }
    }
}

// The line of the record at a place: 20 bytes, or those that are left.
fn put_record(room: &mut [u8], at: usize, number: u64, input: &[u8], from: usize) -> usize
    requires { (at + 54 ≤ length room.old) × (from ≤ length input.now) }
    ensures { Stored room.old at (record_line number (take 20 (drop from input.now))) 54 result room.new }
{
    let end = input.len().min(from + OLD_LENGTH);
    put_line(room, at, number, &input[from..end])
}

// How many records so many bytes are.
fn records_in(bytes: usize) -> usize
    ensures { result ≡ records_in bytes }
{
    bytes / OLD_LENGTH + (bytes % OLD_LENGTH + 19) / OLD_LENGTH
}

// The lines of so many records, from the start of the room on.
fn put_records(room: &mut [u8], number: u64, input: &[u8], records: usize) -> usize
    requires { (54 * records ≤ length room.old) × (number + records ≤ 18446744073709551615) × (records ≡ records_in (length input.now)) }
    ensures { Stored room.old 0 (lines_in records number input.now) (54 * records) result room.new }
{
    let mut end: usize = 0;
    for i in 0..records {
        end = put_record(room, end, number + i as u64, input, OLD_LENGTH * i);
    }
    end
}

// The lines of all records, from the start of the room on, the first by the number given.
pub fn answer(input: &[u8], number: u64, room: &mut [u8]) -> Option<Answered>
    ensures { (result ≡ answered number input.now (length room.old))
        × (room.new ≡ room_after number input.now room.old) }
{
    let records = records_in(input.len());
    if room.len() / LONGEST < records {
        return None;
    }
    let next = number.checked_add(records as u64)?;
    let end = put_records(room, number, input, records);
    Some(Answered { end, next })
}
