// Lines of a text read by rows of the grammar, and what they say put into lent room.
#![tactic(auto)]

ghost use Rattle.std.specs.Prelude.{◌≡◌, ℕ, ◌≤◌, true, [], ◌∷◌, length, if◌then◌else◌};
ghost use Rattle.words.specs.Words.{is_in, place_in, begins};
ghost use Rattle.lexing.specs.Places.{word_at, words_at, below_at, ends_line, next_word, after_word};
ghost use Rattle.forms.specs.Form.{named, bytes, fine_part, Want, a_part, hex_pairs, one, read_rest, read_form};
ghost use Rattle.forms.specs.Table.{leads as leadsLines, read_line};
ghost use Rattle.read_words.specs.Told.{Told, Says};
ghost use Rattle.read_forms.specs.Places.{behind_word};
ghost use Rattle.read_forms.specs.Reads.{is_row, form_at, want_at, Heard, Piece, names_at, flags_at, part_at, flags_then, Begins, Gathered, Met, reached, amiss};

use lexing::{after_word, ends_line, next_line, next_word, word_at, word_end};
use walk::{Grammar, Mark, is_mark, mark_at, part_behind};

// How far a text is read: the place behind its last word, and the end of what it says.
#[derive(Clone, Copy)]
pub struct Reached {
    pub at: usize,
    pub end: usize,
}

// Where a text is wrong, and the place in the grammar of what was expected there.
#[derive(Clone, Copy)]
pub struct Fault {
    pub at: usize,
    pub want: usize,
}

fn behind_word(text: &[u8], at: usize) -> usize
    ensures { result ≡ behind_word text.now at }
{
    word_end(text, next_word(text, at))
}

// Whether the next word of a line is a word of another text.
fn goes_on(text: &[u8], at: usize, other: &[u8], place: usize) -> bool
    ensures { result ≡ begins (word_at other.now place) (words_at text.now at) }
{
    let word = next_word(text, at);
    if ends_line(text, word) {
        return false;
    }
    words::same_word(word_at(text, word), word_at(other, place))
}

// A byte by its name among those from a place of the grammar on.
fn read_name(
    word: &[u8],
    grammar: &Grammar,
    names: usize,
    room: &mut [u8],
    to: usize,
) -> Option<usize>
    requires { Begins grammar.now names }
    ensures { length (names_at grammar.now names) ≤ 256 → Told (is_in word.now (names_at grammar.now names)) (place_in (names_at grammar.now names) word.now ∷ []) room.old to result room.new }
{
    let mut name = names;
    let mut byte: u8 = 0;
    while !(is_mark(grammar, name, b']') | ends_line(grammar, name)) {
        if words::same_word(word, word_at(grammar, name)) {
            return Some(words::put_byte(room, to, byte));
        }
        byte = std::num::wrapping_add_u8(byte, 1);
        name = after_word(grammar, name);
    }
    None
}

// A byte by its name or in decimal.
fn read_named(
    word: &[u8],
    grammar: &Grammar,
    names: usize,
    room: &mut [u8],
    to: usize,
) -> Option<usize>
    requires { Begins grammar.now names }
    ensures { fine_part (named (names_at grammar.now names)) ≡ true → Says (named (names_at grammar.now names)) word.now room.old to result room.new }
{
    let Some(n) = words::number_in(word) else {
        return read_name(word, grammar, names, room, to);
    };
    if n < 256 {
        return Some(words::put_byte(room, to, n as u8));
    }
    None
}

// What one word says.
fn read_part(
    word: &[u8],
    grammar: &Grammar,
    t: usize,
    mark: Mark,
    room: &mut [u8],
    to: usize,
) -> Option<usize>
    ensures { fine_part (part_at grammar.now t mark) ≡ true → Says (part_at grammar.now t mark) word.now room.old to result room.new }
{
    match mark {
        Mark::Number(count) => read_words::read_number(word, count, room, to),
        Mark::Bytes(count) => read_words::read_bytes(word, count, room, to),
        Mark::Names => read_named(word, grammar, after_word(grammar, t), room, to),
        Mark::Date => read_words::read_date(word, room, to),
        Mark::Code => read_words::read_code(word, room, to),
        _ => read_words::read_same(word, word_at(grammar, t), to),
    }
}

// The next word of a line, by a part of a row.
fn read_word(
    text: &[u8],
    at: usize,
    grammar: &Grammar,
    t: usize,
    mark: Mark,
    room: &mut [u8],
    to: usize,
) -> Result<Reached, Fault>
    ensures { fine_part (part_at grammar.now t mark) ≡ true → want_at grammar.now t ≡ a_part (part_at grammar.now t mark) → Piece (one (part_at grammar.now t mark) (words_at text.now at)) text.now at (want_at grammar.now) room.old to result room.new }
{
    let word = next_word(text, at);
    if ends_line(text, word) {
        return Err(Fault { at, want: t });
    }
    match read_part(word_at(text, word), grammar, t, mark, room, to) {
        Some(end) => Ok(Reached {
            at: word_end(text, word),
            end,
        }),
        None => Err(Fault { at: word, want: t }),
    }
}

// A line that must end here.
fn read_end(text: &[u8], at: usize, t: usize, end: usize) -> Result<Reached, Fault>
    ensures { result ≡ (if ends_line text.now (next_word text.now at) then reached at end else amiss (next_word text.now at) t) }
{
    let word = next_word(text, at);
    if ends_line(text, word) {
        return Ok(Reached { at, end });
    }
    Err(Fault { at: word, want: t })
}

// All that is left of a line: pairs of hex digits.
fn read_rest(
    text: &[u8],
    from: usize,
    t: usize,
    room: &mut [u8],
    to: usize,
) -> Result<Reached, Fault>
    ensures { (wants : ℕ → Want) → wants t ≡ hex_pairs → Heard text.now from wants room.old to (read_rest (words_at text.now from)) result room.new }
{
    let mut at = from;
    let mut end = to;
    let mut word = next_word(text, at);
    while !ends_line(text, word) {
        let pairs = word_at(text, word);
        if !words::is_hex(pairs) {
            return Err(Fault { at: word, want: t });
        }
        end = words::put_hex_said(room, end, pairs);
        at = word_end(text, word);
        word = next_word(text, at);
    }
    Ok(Reached { at, end })
}

// Bits by their names, and the place behind the names.
#[derive(Drop)]
struct Flags {
    bits: u64,
    at: usize,
}

// The names of bits that are set, in their order.
fn read_names(text: &[u8], at: usize, grammar: &Grammar, name: usize) -> Flags
    requires { Begins grammar.now name }
    ensures { Gathered text.now at (flags_at grammar.now name) result.bits result.at }
{
    if is_mark(grammar, name, b'}') | ends_line(grammar, name) {
        return Flags { bits: 0, at };
    }
    let next = after_word(grammar, name);
    if goes_on(text, at, grammar, name) {
        let above = read_names(text, behind_word(text, at), grammar, next);
        let doubled = std::num::wrapping_add_u64(above.bits, above.bits);
        return Flags {
            bits: std::num::wrapping_add_u64(doubled, 1),
            at: above.at,
        };
    }
    let above = read_names(text, at, grammar, next);
    Flags {
        bits: std::num::wrapping_add_u64(above.bits, above.bits),
        at: above.at,
    }
}

// Flags: names, or "bits" and the bytes.
fn read_flags(
    text: &[u8],
    at: usize,
    grammar: &Grammar,
    t: usize,
    count: usize,
    room: &mut [u8],
    to: usize,
) -> Result<Reached, Fault>
    ensures { fine_part (bytes count) ≡ true → length (flags_at grammar.now (after_word grammar.now t)) ≤ 64 → want_at grammar.now t ≡ a_part (bytes count) → Piece (flags_then count (flags_at grammar.now (after_word grammar.now t)) (words_at text.now at)) text.now at (want_at grammar.now) room.old to result room.new }
{
    if goes_on(text, at, b"bits", 0) {
        let behind = behind_word(text, at);
        return read_word(text, behind, grammar, t, Mark::Bytes(count), room, to);
    }
    let flags = read_names(text, at, grammar, after_word(grammar, t));
    Ok(Reached {
        at: flags.at,
        end: read_words::put_number(room, to, flags.bits, count),
    })
}

// A line from behind a word on, by a row of the grammar from a part on.
pub fn read_form(
    text: &[u8],
    at: usize,
    grammar: &Grammar,
    t: usize,
    room: &mut [u8],
    to: usize,
) -> Result<Reached, Fault>
    ensures { is_row (words_at grammar.now t) ≡ true → Heard text.now at (want_at grammar.now) room.old to (read_form (form_at grammar.now t) (words_at text.now at)) result room.new }
{
    let mark = mark_at(grammar, t);
    match mark {
        Mark::End => read_end(text, at, t, to),
        Mark::Rest => read_rest(text, at, t, room, to),
        Mark::MayEnd => {
            let next = after_word(grammar, t);
            if ends_line(text, next_word(text, at)) {
                return Ok(Reached {
                    at,
                    end: words::put_times(room, to, 0, walk::width(grammar, next)),
                });
            }
            read_form(text, at, grammar, next, room, to)
        }
        Mark::Opens => {
            let with = after_word(grammar, t);
            if goes_on(text, at, grammar, with) {
                return read_form(text, at, grammar, with, room, to);
            }
            let without = walk::behind_mark(grammar, with, b')');
            read_form(text, at, grammar, without, room, to)
        }
        Mark::Silent => read_form(text, at, grammar, after_word(grammar, t), room, to),
        Mark::Flags(count) => {
            let read = read_flags(text, at, grammar, t, count, room, to)?;
            let next = part_behind(grammar, t, mark);
            read_form(text, read.at, grammar, next, room, read.end)
        }
        _ => {
            let read = read_word(text, at, grammar, t, mark, room, to)?;
            let next = part_behind(grammar, t, mark);
            read_form(text, read.at, grammar, next, room, read.end)
        }
    }
}

// Whether the next line begins with the key of a row.
pub fn leads(text: &[u8], at: usize, grammar: &Grammar, row: usize) -> bool
    ensures { result ≡ leadsLines (word_at grammar.now (next_word grammar.now row)) (below_at text.now at) }
{
    let line = next_line(text, at);
    let key = next_word(grammar, row);
    goes_on(text, line, grammar, key)
}

// The next line, whose first word is known, by a row.
pub fn read_line(
    text: &[u8],
    at: usize,
    grammar: &Grammar,
    row: usize,
    room: &mut [u8],
    to: usize,
) -> Result<Reached, Fault>
    ensures { leadsLines (word_at grammar.now (next_word grammar.now row)) (below_at text.now at) ≡ true → is_row (words_at grammar.now (after_word grammar.now (next_word grammar.now row))) ≡ true → Met text.now (want_at grammar.now) room.old to (read_line (form_at grammar.now (after_word grammar.now (next_word grammar.now row))) (below_at text.now at)) result room.new }
{
    let behind = behind_word(text, next_line(text, at));
    let part = after_word(grammar, next_word(grammar, row));
    read_form(text, behind, grammar, part, room, to)
}
