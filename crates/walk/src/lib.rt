// The grammar of papers as text, walked word by word: a row is a line, its first word the key, and each word
// behind it a part, or a mark around parts. The rows of a table stand one below the other, and a line that begins
// with "-" below them.
#![tactic(auto)]

ghost use Rattle.std.specs.Prelude.{◌≡◌, List, [], ◌∷◌, ◌≤◌, ◌*◌, ◌-◌};
ghost use Rattle.words.specs.Words.{same};
ghost use Rattle.lexing.specs.Places.{word_at, words_at, after_word, lines_at};
ghost use Rattle.forms.specs.Form.{fits_length};
ghost use Rattle.forms.specs.Grammar.{form_in, past};
ghost use Rattle.walk.specs.Marks.{mark_of, size_of, behind_part};
ghost use Rattle.walk.specs.Walk.{Leads, Marked, Width, ends_table, past_rows};

use lexing::{after_word, ends_line, next_line, next_word, word_end};

pub type Grammar = [u8; 2909];

// What a word of a row says.
#[derive(Clone, Copy)]
pub enum Mark {
    // The row's end.
    End,
    // R: all the bytes that are left.
    Rest,
    // ?: the line may end where all that follows is zeros.
    MayEnd,
    // (: a clause that may be left out.
    Opens,
    // ): nothing, and so where no word begins.
    Silent,
    // [ a b ]: a byte by its name.
    Names,
    // {4 a b }: the bits that are set in so many bytes, by their names.
    Flags(usize),
    // N8: a number in so many bytes.
    Number(usize),
    // H2: so many bytes in hex.
    Bytes(usize),
    // D
    Date,
    // C
    Code,
    // The word itself.
    Word,
}

// The mark of a word of one byte.
fn letter_mark(letter: u8) -> Mark
    ensures { result ≡ mark_of (letter ∷ []) }
{
    match letter {
        b'R' => Mark::Rest,
        b'?' => Mark::MayEnd,
        b'(' => Mark::Opens,
        b')' => Mark::Silent,
        b'[' => Mark::Names,
        b'D' => Mark::Date,
        b'C' => Mark::Code,
        _ => Mark::Word,
    }
}

// The mark of a word of two bytes.
fn sized_mark(letter: u8, digit: u8) -> Mark
    ensures { result ≡ mark_of (letter ∷ digit ∷ []) }
{
    if (digit < b'1') | (b'8' < digit) {
        return Mark::Word;
    }
    let size = (digit - b'0') as usize;
    match letter {
        b'N' => Mark::Number(size),
        b'H' => Mark::Bytes(size),
        b'{' => Mark::Flags(size),
        _ => Mark::Word,
    }
}

pub fn mark_at(grammar: &Grammar, t: usize) -> Mark
    ensures { Marked grammar.now 2909 t result }
{
    if ends_line(grammar, t) {
        return Mark::End;
    }
    let first = wire::byte_at(grammar, t);
    match word_end(grammar, t) - t {
        0 => Mark::Silent,
        1 => letter_mark(first),
        2 => sized_mark(first, wire::byte_at(grammar, t + 1)),
        _ => Mark::Word,
    }
}

// Whether the word at a place is this byte.
pub fn is_mark(grammar: &Grammar, t: usize, mark: u8) -> bool
    ensures { result ≡ same (word_at grammar.now t) (mark ∷ []) }
{
    if word_end(grammar, t) - t != 1 {
        return false;
    }
    wire::byte_at(grammar, t) == mark
}

// The word behind the next one that is this mark, or the row's end.
pub fn behind_mark(grammar: &Grammar, t: usize, mark: u8) -> usize
    ensures { Leads grammar.now t (past (mark ∷ []) (words_at grammar.now t)) result }
{
    let mut word = t;
    while !ends_line(grammar, word) {
        let found = is_mark(grammar, word, mark);
        word = after_word(grammar, word);
        if found {
            return word;
        }
    }
    word
}

// The part behind a part.
pub fn part_behind(grammar: &Grammar, t: usize, mark: Mark) -> usize
    ensures { Leads grammar.now (after_word grammar.now t) (behind_part mark (words_at grammar.now (after_word grammar.now t))) result }
{
    let next = after_word(grammar, t);
    match mark {
        Mark::Names => behind_mark(grammar, next, b']'),
        Mark::Flags(_) => behind_mark(grammar, next, b'}'),
        _ => next,
    }
}

// So many bytes does a part say.
pub fn size(mark: Mark) -> usize
    ensures { result ≡ size_of mark }
{
    match mark {
        Mark::Flags(bytes) => bytes,
        Mark::Number(bytes) => bytes,
        Mark::Bytes(bytes) => bytes,
        Mark::Names => 1,
        Mark::Code => 2,
        Mark::Date => 3,
        _ => 0,
    }
}

// So many bytes does a row say from a part on, without its clauses and its rest.
pub fn width(grammar: &Grammar, t: usize) -> usize
    ensures { Width grammar.now 2909 t result }
{
    let mark = mark_at(grammar, t);
    let next = part_behind(grammar, t, mark);
    match mark {
        Mark::End => 0,
        Mark::Rest => 0,
        Mark::Opens => width(grammar, behind_mark(grammar, next, b')')),
        _ => size(mark) + width(grammar, next),
    }
}

// Whether a row says so many bytes from a part on.
pub fn fits(grammar: &Grammar, t: usize, bytes: usize) -> bool
    ensures { result ≡ fits_length (form_in (words_at grammar.now t)) bytes }
{
    let mark = mark_at(grammar, t);
    let next = part_behind(grammar, t, mark);
    match mark {
        Mark::End => bytes == 0,
        Mark::Rest => true,
        Mark::Opens => {
            if fits(grammar, next, bytes) {
                return true;
            }
            fits(grammar, behind_mark(grammar, next, b')'), bytes)
        }
        _ => {
            let count = size(mark);
            if bytes < count {
                return false;
            }
            fits(grammar, next, bytes - count)
        }
    }
}

// Whether a table ends here: at a line that begins with "-", or with the grammar.
pub fn ends_table(grammar: &Grammar, row: usize) -> bool
    ensures { result ≡ ends_table grammar.now row }
{
    let key = next_word(grammar, row);
    if grammar.len() <= key {
        return true;
    }
    grammar[key] == b'-'
}

// The line behind a table.
pub fn table_behind(grammar: &Grammar, table: usize) -> usize
    ensures { lines_at grammar.now result ≡ past_rows (lines_at grammar.now table) }
{
    let mut row = table;
    while !ends_table(grammar, row) {
        row = next_line(grammar, row);
    }
    row
}
