// The values of a line of the transaction log, in hex, written into lent room from a place on; the
// place behind is returned. Without room for as many bytes as such a value may have nothing is
// written, and the place stays.
#![tactic(auto)]

ghost use Rattle.std.specs.Prelude.{◌≡◌, cond, [], ◌+◌, ◌*◌, ◌≤◌, length};
ghost use Rattle.text.specs.Text.{fits};
ghost use Rattle.text.specs.Stored.{Stored};
ghost use Rattle.hex_digits.specs.Hex.{hex_byte, hex};
ghost use Rattle.log_values.specs.LogValues.{purchase_text, answer_text, placed, place_behind};

use log_bytes::{date_of, five_bytes, low_byte, twelve_digits};
use ring::Record;

// The switches of Table L-10 that say what of an answer is logged.
const ATC: u8 = 0x10;

const CID: u8 = 0x08;

const CVR: u8 = 0x04;

fn store_hex_byte(room: &mut [u8], at: usize, value: u8) -> usize
    requires { at + 2 ≤ length room.old }
    ensures { Stored room.old at (hex_byte value) 2 result room.new }
{
    text::put(
        room,
        at,
        &[
            hex_digits::upper_digit(value),
            hex_digits::lower_digit(value),
        ],
    )
}

fn store_hex(room: &mut [u8], at: usize, values: &[u8]) -> usize
    requires { at + 2 * length values.now ≤ length room.old }
    ensures { Stored room.old at (hex values.now) (2 * length values.now) result room.new }
{
    let mut end = at;
    for value in values {
        end = store_hex_byte(room, end, *value);
    }
    end
}

// Where a switch is on.
fn store_hex_if(room: &mut [u8], at: usize, on: bool, values: &[u8]) -> usize
    requires { at + 2 * length values.now ≤ length room.old }
    ensures { Stored room.old at (hex (cond on values.now [])) (2 * length values.now) result room.new }
{
    if on { store_hex(room, at, values) } else { at }
}

fn store_purchase(room: &mut [u8], at: usize, first: &[u8], dated: bool) -> usize
    requires { at + 22 ≤ length room.old }
    ensures { Stored room.old at (purchase_text first.now dated) 22 result room.new }
{
    let amount = twelve_digits(wire::u64_at(first, 1));
    let at = store_hex(room, at, &amount);
    let currency = [wire::byte_at(first, 9), wire::byte_at(first, 10)];
    let at = store_hex(room, at, &currency);
    store_hex(room, at, &date_of(first, dated))
}

fn store_answer(room: &mut [u8], at: usize, switches: u8, kept: Record) -> usize
    requires { at + 16 ≤ length room.old }
    ensures { Stored room.old at (answer_text switches kept) 16 result room.new }
{
    let cvr = five_bytes(kept.cvr);
    let at = store_hex_if(room, at, switches / CVR % 2 == 1, &cvr);
    let atc = [low_byte(kept.atc / 256), low_byte(kept.atc)];
    let at = store_hex_if(room, at, switches / ATC % 2 == 1, &atc);
    let cid = [low_byte(kept.cid)];
    store_hex_if(room, at, switches / CID % 2 == 1, &cid)
}

// Whether so many bytes are left from a place on.
fn has_room(room: &[u8], at: usize, bytes: usize) -> bool
    ensures { result ≡ fits (length room.now) at bytes }
{
    at <= room.len() && bytes <= room.len() - at
}

// Bytes in hex.
pub fn put_hex(room: &mut [u8], at: usize, values: &[u8]) -> usize
    ensures { (result ≡ place_behind (2 * length values.now) (length room.old) at (hex values.now))
        × (room.new ≡ placed (2 * length values.now) room.old at (hex values.now))
        × (result ≤ at + 2 * length values.now) }
{
    if has_room(room, at, 2 * values.len()) {
        store_hex(room, at, values)
    } else {
        at
    }
}

// Amount, currency, date.
pub fn put_purchase(room: &mut [u8], at: usize, first: &[u8], dated: bool) -> usize
    ensures { (result ≡ place_behind 22 (length room.old) at (purchase_text first.now dated))
        × (room.new ≡ placed 22 room.old at (purchase_text first.now dated))
        × (result ≤ at + 22) }
{
    if has_room(room, at, 22) {
        store_purchase(room, at, first, dated)
    } else {
        at
    }
}

// CVR, ATC, CID, each where its switch is on.
pub fn put_answer(room: &mut [u8], at: usize, switches: u8, kept: Record) -> usize
    ensures { (result ≡ place_behind 16 (length room.old) at (answer_text switches kept))
        × (room.new ≡ placed 16 room.old at (answer_text switches kept))
        × (result ≤ at + 16) }
{
    if has_room(room, at, 16) {
        store_answer(room, at, switches, kept)
    } else {
        at
    }
}
