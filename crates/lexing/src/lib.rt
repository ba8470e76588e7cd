// A text place by place: its words and its lines. A place past the text's end says nothing and leads nowhere else.
#![tactic(auto)]

ghost use Rattle.std.specs.Prelude.{◌≡◌, length};
ghost use Rattle.words.specs.Words.{same};
ghost use Rattle.words.specs.Lex.{is_plain};
ghost use Rattle.lexing.specs.Places.{word_at, word_place, word_end, is_blank, line_end, next_word, after_word, ends_line, below_line, line_from, next_line};
ghost use Rattle.lexing.specs.Names.{is_name, name_at, names_end, place_of};

use words::same_word;

// A byte of a word.
fn is_plain(c: u8) -> bool
    ensures { result ≡ is_plain c }
{
    (b' ' < c) & (c != b'#')
}

fn is_blank(c: u8) -> bool
    ensures { result ≡ is_blank c }
{
    (c <= b' ') & (c != b'\n')
}

// The place behind the word that begins here.
pub fn word_end(text: &[u8], at: usize) -> usize
    ensures { result ≡ word_end text.now at }
{
    for end in at..text.len() {
        if !is_plain(text[end]) {
            return end;
        }
    }
    at.max(text.len())
}

// The word that begins here; none where no word does.
pub fn word_at(text: &[u8], at: usize) -> &[u8]
    ensures { (result.now ≡ word_at text.now at) × (result.ref_ptr ≡ word_place text.entry at) }
{
    if text.len() < at {
        return &text[..0];
    }
    let end = word_end(text, at);
    &text[at..end]
}

// Whether a word of a text is a word of a table.
pub fn same_words(text: &[u8], at: usize, table: &[u8], name: usize) -> bool
    ensures { result ≡ same (word_at text.now at) (word_at table.now name) }
{
    same_word(word_at(text, at), word_at(table, name))
}

// Whether the line ends here, at a line feed or with the text.
pub fn ends_line(text: &[u8], at: usize) -> bool
    ensures { result ≡ ends_line text.now at }
{
    text.len() <= at || text[at] == b'\n'
}

// The place of the line feed, or the text's end.
fn line_end(text: &[u8], at: usize) -> usize
    ensures { result ≡ line_end text.now at }
{
    for end in at..text.len() {
        if text[end] == b'\n' {
            return end;
        }
    }
    at.max(text.len())
}

// Past blanks and a comment: the next word of this line, or the line's end.
pub fn next_word(text: &[u8], at: usize) -> usize
    ensures { result ≡ next_word text.now at }
{
    for word in at..text.len() {
        if text[word] == b'#' {
            return line_end(text, word);
        }
        if !is_blank(text[word]) {
            return word;
        }
    }
    at.max(text.len())
}

// From a word to the next of this line, or to the line's end.
pub fn after_word(text: &[u8], at: usize) -> usize
    ensures { result ≡ after_word text.now at }
{
    next_word(text, word_end(text, at))
}

// The place behind the line feed, or the text's end.
fn below_line(text: &[u8], at: usize) -> usize
    ensures { result ≡ below_line text.now at }
{
    let end = line_end(text, at);
    if end < text.len() {
        return end + 1;
    }
    end
}

// From a line's begin, past lines without a word.
pub fn line_from(text: &[u8], at: usize) -> usize
    ensures { result ≡ line_from (length text.now) text.now at }
{
    let mut line = at;
    while line < text.len() {
        let word = next_word(text, line);
        if !ends_line(text, word) {
            return line;
        }
        line = below_line(text, word);
    }
    line
}

// From a place of a line to the next line that has a word, or to the text's end.
pub fn next_line(text: &[u8], at: usize) -> usize
    ensures { result ≡ next_line text.now at }
{
    line_from(text, below_line(text, at))
}

// Whether a name stands here: a word that is not the closing one.
pub fn is_name(table: &[u8], at: usize, close: &[u8]) -> bool
    ensures { result ≡ is_name close.now table.now at }
{
    !ends_line(table, at) && !same_word(word_at(table, at), close)
}

// The place of a number's name among the names from a place on, or of what ends them.
pub fn name_at(table: &[u8], at: usize, close: &[u8], n: usize) -> usize
    ensures { result ≡ name_at close.now n table.now at }
{
    let mut name = next_word(table, at);
    for _ in 0..n {
        if !is_name(table, name, close) {
            return name;
        }
        name = after_word(table, name);
    }
    name
}

// The place of what ends the names: the closing word, or the line's end.
pub fn names_end(table: &[u8], at: usize, close: &[u8]) -> usize
    ensures { result ≡ names_end close.now table.now at }
{
    name_at(table, at, close, table.len())
}

pub fn place_of(table: &[u8], at: usize, close: &[u8], word: &[u8]) -> Option<usize>
    ensures { result ≡ place_of close.now table.now at word.now }
{
    let mut name = next_word(table, at);
    let mut n = 0;
    while is_name(table, name, close) {
        if same_word(word, word_at(table, name)) {
            return Some(n);
        }
        name = after_word(table, name);
        n += 1;
    }
    None
}
