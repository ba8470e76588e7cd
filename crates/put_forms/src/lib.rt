// What rows of the grammar say of bytes, put into lent room. What lies past the end of the bytes reads as 0.
#![tactic(auto)]

ghost use Rattle.std.specs.Prelude.{◌≡◌, ◌||◌, ◌&&◌, List, [], ◌∷◌, ℕ, ◌-◌, ◌*◌, ◌≤◌, ◌<◌, ◌^◌, ltb, length, drop, replicate};
ghost use Rattle.wire.specs.Wire.{number};
ghost use Rattle.numerals.specs.Numeral.{numeral};
ghost use Rattle.hex_digits.specs.Hex.{hex};
ghost use Rattle.words.specs.Words.{word, name_of, flags, up_to};
ghost use Rattle.words.specs.Put.{Put};
ghost use Rattle.words.specs.Lex.{behind, line_text, text_of};
ghost use Rattle.lexing.specs.Places.{word_at, words_at, after_word};
ghost use Rattle.walk.specs.Marks.{size_of};
ghost use Rattle.forms.specs.Form.{date, code, bytes_at, is_blank, is_letter, word_of, said, rest_words, bit_words, print_form};
ghost use Rattle.forms.specs.Grammar.{form_in};
ghost use Rattle.forms.specs.Table.{field_in, fields_in, widths, breadth, field_line, print_fields, print_groups};
ghost use Rattle.walk.specs.Walk.{table_at, group_at};
ghost use Rattle.put_forms.specs.Printed.{Printed, led, part_of, field_lines};

use lexing::{after_word, is_name, next_line, next_word};
use walk::{Grammar, Mark, behind_mark, ends_table, fits, mark_at, part_behind, size, width};

// How far a table is printed: the bytes that its rows say, and the place in the room.
#[derive(Drop)]
pub struct Step {
    pub taken: usize,
    pub end: usize,
}

// The bytes behind so many.
pub fn bytes_behind(bytes: &[u8], count: usize) -> &[u8]
    ensures { result.now ≡ drop count bytes.now }
{
    if bytes.len() < count {
        return &bytes[bytes.len()..];
    }
    &bytes[count..]
}

// Whether the first so many bytes are zeros.
fn are_zeros(bytes: &[u8], count: usize) -> bool
    ensures { result ≡ is_blank (bytes_at bytes.now 0 count) }
{
    (0..count).all(|i| wire::byte_at(bytes, i) == 0)
}

fn wide(byte: u8) -> u64
    ensures { (result ≡ byte) × (result < 256) }
{
    byte as u64
}

// The number in the first so many bytes.
fn number_in(bytes: &[u8], count: usize) -> u64
    requires { count ≤ 8 }
    ensures { result ≡ number bytes.now 0 count }
{
    let mut n: u64 = 0;
    for i in 0..count {
        n = n * 256 + wide(wire::byte_at(bytes, i));
    }
    n
}

// The first so many bytes, in hex.
fn put_bytes(room: &mut [u8], at: usize, bytes: &[u8], count: usize) -> usize
    ensures { Put room.old at (hex (bytes_at bytes.now 0 count)) result room.new }
{
    let mut end = at;
    for i in 0..count {
        end = words::put_hex_byte(room, end, wire::byte_at(bytes, i));
    }
    end
}

// The word at a place of the grammar.
pub fn put_same(room: &mut [u8], at: usize, grammar: &Grammar, t: usize) -> usize
    ensures { Put room.old at (word_at grammar.now t) result room.new }
{
    words::put_word(room, at, lexing::word_at(grammar, t))
}

// The name of a number among those from a place of the grammar on, or a byte in decimal where it has none.
fn put_name(room: &mut [u8], at: usize, grammar: &Grammar, t: usize, n: u8, byte: u8) -> usize
    ensures { Put room.old at (name_of (up_to (word "]") (words_at grammar.now t)) n (numeral byte)) result room.new }
{
    let name = next_word(grammar, t);
    if !is_name(grammar, name, b"]") {
        return words::put_decimal(room, at, wide(byte));
    }
    if n == 0 {
        return put_same(room, at, grammar, name);
    }
    put_name(room, at, grammar, after_word(grammar, name), n - 1, byte)
}

// A response code: two letters or digits, or its bytes.
fn put_code(room: &mut [u8], at: usize, bytes: &[u8]) -> usize
    ensures { Put room.old at (word_of code bytes.now 0) result room.new }
{
    let first = wire::byte_at(bytes, 0);
    let second = wire::byte_at(bytes, 1);
    if !(first.is_ascii_alphanumeric() & second.is_ascii_alphanumeric()) {
        return put_bytes(room, at, bytes, 2);
    }
    let end = words::put_byte(room, at, first);
    words::put_byte(room, end, second)
}

// A date, 20_yy-MM-DD, or its bytes where they are no decimal digits.
fn put_date(room: &mut [u8], at: usize, bytes: &[u8]) -> usize
    ensures { Put room.old at (word_of date bytes.now 0) result room.new }
{
    let year = wire::byte_at(bytes, 0);
    let month = wire::byte_at(bytes, 1);
    let day = wire::byte_at(bytes, 2);
    if !(wire::is_pair(year) & wire::is_pair(month) & wire::is_pair(day)) {
        return put_bytes(room, at, bytes, 3);
    }
    let end = words::put_word(room, at, b"20");
    let end = words::put_hex_byte(room, end, year);
    let end = words::put_byte(room, end, b'-');
    let end = words::put_hex_byte(room, end, month);
    let end = words::put_byte(room, end, b'-');
    words::put_hex_byte(room, end, day)
}

// Whether every bit that is set has a name among those from a place of the grammar on.
fn are_named(grammar: &Grammar, t: usize, bits: u64) -> bool
    ensures { result ≡ ltb bits (2 ^ length (up_to (word "}") (words_at grammar.now t))) }
{
    if bits == 0 {
        return true;
    }
    let name = next_word(grammar, t);
    if !is_name(grammar, name, b"}") {
        return false;
    }
    are_named(grammar, after_word(grammar, name), bits / 2)
}

// The names of the bits that are set, the lowest first, each behind a blank.
fn put_names(room: &mut [u8], at: usize, grammar: &Grammar, t: usize, bits: u64) -> usize
    ensures { Put room.old at (led (flags (up_to (word "}") (words_at grammar.now t)) bits)) result room.new }
{
    let name = next_word(grammar, t);
    if !is_name(grammar, name, b"}") {
        return at;
    }
    let next = after_word(grammar, name);
    if bits % 2 != 1 {
        return put_names(room, at, grammar, next, bits / 2);
    }
    let end = words::put_byte(room, at, b' ');
    let end = put_same(room, end, grammar, name);
    put_names(room, end, grammar, next, bits / 2)
}

// Flags: the names of the bits that are set, or their bytes where one has no name, each word behind a blank.
fn put_flags(
    room: &mut [u8],
    at: usize,
    grammar: &Grammar,
    t: usize,
    count: usize,
    bytes: &[u8],
) -> usize
    requires { count ≤ 8 }
    ensures { Put room.old at (led (bit_words count (up_to (word "}") (words_at grammar.now t)) bytes.now 0)) result room.new }
{
    let bits = number_in(bytes, count);
    if are_named(grammar, t, bits) {
        return put_names(room, at, grammar, t, bits);
    }
    let end = words::put_word(room, at, b" bits ");
    put_bytes(room, end, bytes, count)
}

// All the bytes, in one word behind a blank.
fn put_rest(room: &mut [u8], at: usize, bytes: &[u8]) -> usize
    ensures { Put room.old at (led (rest_words bytes.now)) result room.new }
{
    if bytes.is_empty() {
        return at;
    }
    let end = words::put_byte(room, at, b' ');
    words::put_hex(room, end, bytes)
}

// What one word says.
fn put_part(
    room: &mut [u8],
    at: usize,
    grammar: &Grammar,
    t: usize,
    mark: Mark,
    bytes: &[u8],
) -> usize
    requires { size_of mark ≤ 8 }
    ensures { Put room.old at (word_of (part_of mark (word_at grammar.now t) (words_at grammar.now (after_word grammar.now t))) bytes.now 0) result room.new }
{
    match mark {
        Mark::Number(count) => words::put_decimal(room, at, number_in(bytes, count)),
        Mark::Bytes(count) => put_bytes(room, at, bytes, count),
        Mark::Names => {
            let byte = wire::byte_at(bytes, 0);
            put_name(room, at, grammar, after_word(grammar, t), byte, byte)
        }
        Mark::Date => put_date(room, at, bytes),
        Mark::Code => put_code(room, at, bytes),
        _ => put_same(room, at, grammar, t),
    }
}

// Whether all that a row says of bytes from a part on is zeros.
fn is_blank(grammar: &Grammar, t: usize, bytes: &[u8]) -> bool
    ensures { result ≡ is_blank (said (form_in (words_at grammar.now t)) bytes.now 0) }
{
    let mark = mark_at(grammar, t);
    let next = part_behind(grammar, t, mark);
    match mark {
        Mark::End => true,
        Mark::Rest => are_zeros(bytes, bytes.len()),
        Mark::Opens => {
            if fits(grammar, next, bytes.len()) {
                return is_blank(grammar, next, bytes);
            }
            is_blank(grammar, behind_mark(grammar, next, b')'), bytes)
        }
        _ => {
            let count = size(mark);
            if !are_zeros(bytes, count) {
                return false;
            }
            is_blank(grammar, next, bytes_behind(bytes, count))
        }
    }
}

// The words of a row from a part on, each behind a blank, and the line feed.
pub fn put_form(room: &mut [u8], at: usize, grammar: &Grammar, t: usize, bytes: &[u8]) -> usize
    ensures { Put room.old at (behind (print_form (form_in (words_at grammar.now t)) bytes.now 0)) result room.new }
{
    let mark = mark_at(grammar, t);
    let next = part_behind(grammar, t, mark);
    match mark {
        Mark::End => words::put_byte(room, at, b'\n'),
        Mark::Rest => {
            let end = put_rest(room, at, bytes);
            words::put_byte(room, end, b'\n')
        }
        Mark::MayEnd => {
            if is_blank(grammar, next, bytes) {
                return words::put_byte(room, at, b'\n');
            }
            put_form(room, at, grammar, next, bytes)
        }
        Mark::Opens => {
            if fits(grammar, next, bytes.len()) {
                return put_form(room, at, grammar, next, bytes);
            }
            put_form(room, at, grammar, behind_mark(grammar, next, b')'), bytes)
        }
        Mark::Silent => put_form(room, at, grammar, next, bytes),
        Mark::Flags(count) => {
            let end = put_flags(room, at, grammar, after_word(grammar, t), count, bytes);
            put_form(room, end, grammar, next, bytes_behind(bytes, count))
        }
        _ => {
            let end = words::put_byte(room, at, b' ');
            let end = put_part(room, end, grammar, t, mark, bytes);
            put_form(room, end, grammar, next, bytes_behind(bytes, size(mark)))
        }
    }
}

// The line of a row.
pub fn put_line(
    room: &mut [u8],
    at: usize,
    grammar: &Grammar,
    row: usize,
    indent: usize,
    bytes: &[u8],
) -> usize
    ensures { Put room.old at (line_text (field_line indent (field_in (words_at grammar.now row)) bytes.now 0)) result room.new }
{
    let key = next_word(grammar, row);
    let end = words::put_times(room, at, b' ', indent);
    let end = put_same(room, end, grammar, key);
    put_form(room, end, grammar, after_word(grammar, key), bytes)
}

// The line of a field that is not zeros.
fn put_field(
    room: &mut [u8],
    at: usize,
    grammar: &Grammar,
    row: usize,
    indent: usize,
    bytes: &[u8],
) -> usize
    ensures { Put room.old at (text_of (field_lines indent (field_in (words_at grammar.now row)) bytes.now)) result room.new }
{
    let key = next_word(grammar, row);
    if is_blank(grammar, after_word(grammar, key), bytes) {
        return at;
    }
    put_line(room, at, grammar, row, indent, bytes)
}

// The fields of a table, a line to each that is not zeros.
pub fn put_fields(
    room: &mut [u8],
    at: usize,
    grammar: &Grammar,
    table: usize,
    indent: usize,
    bytes: &[u8],
) -> Step
    ensures { Printed room.old at (print_fields indent (fields_in (table_at grammar.now table)) bytes.now 0) (widths (fields_in (table_at grammar.now table))) (23272 * (2909 - table)) result room.new }
{
    if ends_table(grammar, table) {
        return Step { taken: 0, end: at };
    }
    let key = next_word(grammar, table);
    let count = width(grammar, after_word(grammar, key));
    let end = put_field(room, at, grammar, table, indent, bytes);
    let below = next_line(grammar, table);
    let others = put_fields(
        room,
        end,
        grammar,
        below,
        indent,
        bytes_behind(bytes, count),
    );
    Step {
        taken: count + others.taken,
        end: others.end,
    }
}

// So many groups: the row at a place always has its line, the fields below it have theirs.
pub fn put_groups(
    room: &mut [u8],
    at: usize,
    grammar: &Grammar,
    table: usize,
    indent: u8,
    count: u8,
    bytes: &[u8],
) -> Step
    ensures { Printed room.old at (print_groups indent (group_at grammar.now table) count bytes.now 0) (count * breadth (group_at grammar.now table)) (count * 67744792) result room.new }
{
    if count == 0 {
        return Step { taken: 0, end: at };
    }
    let key = next_word(grammar, table);
    let head = width(grammar, after_word(grammar, key));
    let end = put_line(room, at, grammar, table, indent as usize, bytes);
    let below = next_line(grammar, table);
    let fields = put_fields(
        room,
        end,
        grammar,
        below,
        indent as usize + 2,
        bytes_behind(bytes, head),
    );
    let breadth = head + fields.taken;
    let others = put_groups(
        room,
        fields.end,
        grammar,
        table,
        indent,
        count - 1,
        bytes_behind(bytes, breadth),
    );
    Step {
        taken: breadth + others.taken,
        end: others.end,
    }
}
