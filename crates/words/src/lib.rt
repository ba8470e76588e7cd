// Words put into lent room from a place on; the place behind is returned, and what does not fit is left out.
// What a word says: a number, bytes.
#![tactic(auto)]

ghost use Rattle.std.specs.Prelude.{◌≡◌, true, [], ◌∷◌, ◌<◌, replicate};
ghost use Rattle.hex_digits.specs.Hex.{hex_byte, hex};
ghost use Rattle.numerals.specs.Numeral.{numeral};
ghost use Rattle.words.specs.Words.{same, is_hex_digit, hex_value, is_hex, hex_said};
ghost use Rattle.words.specs.Put.{Put};
ghost use Rattle.words.specs.Number.{number_in};

pub fn put_byte(room: &mut [u8], at: usize, byte: u8) -> usize
    ensures { Put room.old at (byte ∷ []) result room.new }
{
    if at < room.len() {
        room[at] = byte;
        return at + 1;
    }
    at
}

// A byte, so many times.
pub fn put_times(room: &mut [u8], at: usize, byte: u8, count: usize) -> usize
    ensures { Put room.old at (replicate count byte) result room.new }
{
    let mut end = at;
    for _ in 0..count {
        end = put_byte(room, end, byte);
    }
    end
}

pub fn put_word(room: &mut [u8], at: usize, word: &[u8]) -> usize
    ensures { Put room.old at word.now result room.new }
{
    let mut end = at;
    for byte in word {
        end = put_byte(room, end, *byte);
    }
    end
}

pub fn put_decimal(room: &mut [u8], at: usize, n: u64) -> usize
    ensures { Put room.old at (numeral n) result room.new }
{
    if n < 10 {
        return put_byte(room, at, b'0' + n as u8);
    }
    let end = put_decimal(room, at, n / 10);
    put_byte(room, end, b'0' + (n % 10) as u8)
}

pub fn put_hex_byte(room: &mut [u8], at: usize, byte: u8) -> usize
    ensures { Put room.old at (hex_byte byte) result room.new }
{
    let end = put_byte(room, at, hex_digits::upper_digit(byte));
    put_byte(room, end, hex_digits::lower_digit(byte))
}

pub fn put_hex(room: &mut [u8], at: usize, bytes: &[u8]) -> usize
    ensures { Put room.old at (hex bytes.now) result room.new }
{
    let mut end = at;
    for byte in bytes {
        end = put_hex_byte(room, end, *byte);
    }
    end
}

pub fn number_in(word: &[u8]) -> Option<u64>
    ensures { result ≡ number_in word.now }
{
    if word.is_empty() {
        return None;
    }
    let mut n = 0u64;
    for c in word {
        if !c.is_ascii_digit() {
            return None;
        }
        n = n.checked_mul(10)?.checked_add(u64::from(*c - b'0'))?;
    }
    Some(n)
}

pub fn same_word(a: &[u8], b: &[u8]) -> bool
    ensures { result ≡ same a.now b.now }
{
    a == b
}

fn hex_value(c: u8) -> u8
    requires { is_hex_digit c ≡ true }
    ensures { (result ≡ hex_value c) × (result < 16) }
{
    if c <= b'9' {
        return c - b'0';
    }
    if c <= b'F' {
        return c - b'A' + 10;
    }
    c - b'a' + 10
}

// Whether a word is pairs of hex digits, in either case.
pub fn is_hex(word: &[u8]) -> bool
    ensures { result ≡ is_hex word.now }
{
    word.len() % 2 == 0 && word.iter().all(|c| c.is_ascii_hexdigit())
}

// The bytes that a word of hex digits says; none where it is not one.
pub fn put_hex_said(room: &mut [u8], at: usize, word: &[u8]) -> usize
    ensures { Put room.old at (hex_said word.now) result room.new }
{
    if !is_hex(word) {
        return at;
    }
    let mut end = at;
    for pair in word.chunks_exact(2) {
        end = put_byte(room, end, hex_value(pair[0]) * 16 + hex_value(pair[1]));
    }
    end
}
