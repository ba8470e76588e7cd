// What a word says of a part of a line, put into lent room from a place on: what does not fit is left out.
#![tactic(auto)]

ghost use Rattle.std.specs.Prelude.{◌≡◌, cond, ◌^◌, ltb};
ghost use Rattle.words.specs.Words.{all, same, is_digit, value};
ghost use Rattle.words.specs.Put.{Put};
ghost use Rattle.forms.specs.Form.{bytes, date, code, big_endian, is_date, date_digits};
ghost use Rattle.read_words.specs.Told.{Told, Says, is_count};

// The lowest so many bytes of a number.
pub fn put_number(room: &mut [u8], at: usize, n: u64, count: usize) -> usize
    ensures { Put room.old at (big_endian count n) result room.new }
{
    if count == 0 {
        return at;
    }
    let end = put_number(room, at, n / 256, count - 1);
    words::put_byte(room, end, (n % 256) as u8)
}

fn fits_bytes(n: u64, count: usize) -> bool
    ensures { result ≡ ltb n (256 ^ count) }
{
    let mut left = n;
    for _ in 0..count {
        left /= 256;
    }
    left == 0
}

// A number that fits so many bytes, and 64 bits.
pub fn read_number(word: &[u8], count: usize, room: &mut [u8], to: usize) -> Option<usize>
    ensures { Told (is_count count word.now) (big_endian count (value word.now)) room.old to result room.new }
{
    let n = words::number_in(word)?;
    if fits_bytes(n, count) {
        return Some(put_number(room, to, n, count));
    }
    None
}

// So many bytes, in hex.
pub fn read_bytes(word: &[u8], count: usize, room: &mut [u8], to: usize) -> Option<usize>
    ensures { Says (bytes count) word.now room.old to result room.new }
{
    if words::is_hex(word) & (word.len() / 2 == count) {
        return Some(words::put_hex_said(room, to, word));
    }
    None
}

// A response code: two letters or digits, or its bytes.
pub fn read_code(word: &[u8], room: &mut [u8], to: usize) -> Option<usize>
    ensures { Says code word.now room.old to result room.new }
{
    if word.len() != 2 {
        return read_bytes(word, 2, room, to);
    }
    if word[0].is_ascii_alphanumeric() & word[1].is_ascii_alphanumeric() {
        return Some(words::put_word(room, to, word));
    }
    None
}

// YYMMDD of 20_yy-MM-DD.
fn date_digits(word: &[u8]) -> [u8; 6]
    ensures { result ≡ date_digits word.now }
{
    [
        wire::byte_at(word, 2),
        wire::byte_at(word, 3),
        wire::byte_at(word, 5),
        wire::byte_at(word, 6),
        wire::byte_at(word, 8),
        wire::byte_at(word, 9),
    ]
}

fn are_digits(s: &[u8]) -> bool
    ensures { result ≡ all is_digit s.now }
{
    s.iter().all(|c| c.is_ascii_digit())
}

// 20_yy-MM-DD.
fn is_date(word: &[u8]) -> bool
    ensures { result ≡ is_date word.now }
{
    (word.len() == 10)
        & (wire::byte_at(word, 0) == b'2')
        & (wire::byte_at(word, 1) == b'0')
        & (wire::byte_at(word, 4) == b'-')
        & (wire::byte_at(word, 7) == b'-')
        & are_digits(&date_digits(word))
}

// A date, or its bytes.
pub fn read_date(word: &[u8], room: &mut [u8], to: usize) -> Option<usize>
    ensures { Says date word.now room.old to result room.new }
{
    if is_date(word) {
        let digits = date_digits(word);
        return Some(words::put_hex_said(room, to, &digits));
    }
    read_bytes(word, 3, room, to)
}

// The word itself, which says no byte.
pub fn read_same(word: &[u8], said: &[u8], to: usize) -> Option<usize>
    ensures { result ≡ cond (same word.now said.now) (Some to) None }
{
    words::same_word(word, said).then_some(to)
}
