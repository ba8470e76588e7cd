// The sheet of a class as text, in lent room: for the board, in columns and without rows of zeros, or for
// machines, with every row and nothing padded.
#![tactic(auto)]

ghost use Rattle.std.specs.Prelude.{◌≡◌, [], ◌∷◌, ◌++◌, ◌+◌, ◌*◌, ◌-◌, ◌≤◌, ◌<◌, length, replicate};
ghost use Rattle.text.specs.Stored.{Stored};
ghost use Rattle.sheet_lines.specs.SheetLines.{padded, head_of, field_of, last_of, kinds_of, code_of, papers_line, profile_row, profile_rest, refusal_row, refusal_rest};
ghost use Rattle.sheet_lines.specs.SheetLines.{currency_row, line_at, sheet_text, sheet_placed, sheet_behind, refused_line, refused_placed, refused_behind, is_shown};

use sheet::Sheet;

const CURRENCIES: usize = 393;

const CODES: usize = 394;

const SUMS: usize = 426;

// The lines that a sheet may have, and the room that they are asked.
const LINES: usize = 178;

const LONGEST: usize = 19_602;

const LONGEST_REFUSED: usize = 78;

#[derive(Clone, Copy)]
pub enum Form {
    Report,
    Tally,
}

fn put_text(room: &mut [u8], at: usize, text: &[u8]) -> usize
    requires { at + length text.now ≤ length room.old }
    ensures { Stored room.old at text.now (length text.now) result room.new }
{
    text::put(room, at, text)
}

// What a column has more than the digits.
fn gap(width: usize, size: usize) -> usize
    ensures { result ≡ width - size }
{
    width.saturating_sub(size)
}

// So many of twenty spaces.
fn put_spaces(room: &mut [u8], at: usize, count: usize, spaces: &[u8]) -> usize
    requires { (count ≤ 20) × (at + count ≤ length room.old) × (spaces.now ≡ replicate 20 32) }
    ensures { Stored room.old at (replicate count 32) count result room.new }
{
    put_text(room, at, &spaces[..count])
}

// A number in a column: its digits, which tell how many there are, and then spaces and the digits.
fn put_padded(room: &mut [u8], at: usize, width: usize, n: u64) -> usize
    requires { (at + 40 ≤ length room.old) × (width ≤ 20) }
    ensures { Stored room.old at (padded width n) 20 result room.new }
{
    let size = numerals::put_number(room, at, n) - at;
    let at = put_spaces(room, at, gap(width, size), b"                    ");
    numerals::put_number(room, at, n)
}

// A word, and a number in a column.
fn put_item(room: &mut [u8], at: usize, word: &[u8], width: usize, n: u64) -> usize
    requires { (length word.now ≤ 9) × (at + 49 ≤ length room.old) × (width ≤ 20) }
    ensures { Stored room.old at (word.now ++ padded width n) (length word.now + 20) result room.new }
{
    let at = put_text(room, at, word);
    put_padded(room, at, width, n)
}

// The word that a line begins with, and a number.
fn put_head(room: &mut [u8], at: usize, form: Form, word: &[u8], n: u64) -> usize
    requires { (length word.now ≤ 8) × (at + 49 ≤ length room.old) }
    ensures { Stored room.old at (head_of form word.now n) 28 result room.new }
{
    match form {
        Form::Report => put_item(room, at, word, 4, n),
        Form::Tally => put_item(room, at, word, 0, n),
    }
}

// A further number.
fn put_field(room: &mut [u8], at: usize, form: Form, word: &[u8], width: usize, n: u64) -> usize
    requires { (length word.now ≤ 7) × (at + 49 ≤ length room.old) × (width ≤ 20) }
    ensures { Stored room.old at (field_of form word.now width n) 27 result room.new }
{
    match form {
        Form::Report => put_item(room, at, word, width, n),
        Form::Tally => put_item(room, at, b" ", 0, n),
    }
}

// The last number of a line.
fn put_last(room: &mut [u8], at: usize, form: Form, word: &[u8], width: usize, n: u64) -> usize
    requires { (length word.now ≤ 7) × (at + 50 ≤ length room.old) × (width ≤ 20) }
    ensures { Stored room.old at (last_of form word.now width n) 28 result room.new }
{
    let at = put_field(room, at, form, word, width, n);
    put_text(room, at, b"\n")
}

// How many answers of each kind.
fn put_kinds(room: &mut [u8], at: usize, form: Form, tc: u64, aac: u64, arqc: u64) -> usize
    requires { at + 104 ≤ length room.old }
    ensures { Stored room.old at (kinds_of form tc aac arqc) 82 result room.new }
{
    let at = put_field(room, at, form, b" TC ", 8, tc);
    let at = put_field(room, at, form, b" AAC ", 8, aac);
    put_last(room, at, form, b" ARQC ", 8, arqc)
}

fn put_papers(room: &mut [u8], at: usize, form: Form, sheet: &Sheet) -> usize
    requires { at + 130 ≤ length room.old }
    ensures { Stored room.old at (papers_line form sheet.now) 110 result room.new }
{
    let at = put_head(room, at, form, b"papers ", sheet[0]);
    put_text(room, at, b"\n")
}

// Whether a row is shown: for the board where something was counted.
fn is_shown(form: Form, counted: bool) -> bool
    ensures { result ≡ is_shown form counted }
{
    match form {
        Form::Report => counted,
        Form::Tally => true,
    }
}

fn put_profile(room: &mut [u8], at: usize, form: Form, sheet: &Sheet, number: usize) -> usize
    requires { (1 ≤ number) × (number ≤ 124) × (at + 132 ≤ length room.old) }
    ensures { Stored room.old at (profile_row form sheet.now number) 110 result room.new }
{
    let tc = sheet[number * 3 - 2];
    let aac = sheet[number * 3 - 1];
    let arqc = sheet[number * 3];
    if !is_shown(form, (tc != 0) | (aac != 0) | (arqc != 0)) {
        return at;
    }
    let at = put_head(room, at, form, b"profile ", number as u64);
    put_kinds(room, at, form, tc, aac, arqc)
}

// The other profiles, none of which answered.
fn put_profile_rest(room: &mut [u8], at: usize, form: Form) -> usize
    requires { at + 130 ≤ length room.old }
    ensures { Stored room.old at (profile_rest form) 110 result room.new }
{
    match form {
        Form::Report => {
            let at = put_text(room, at, b"profile rest");
            put_kinds(room, at, form, 0, 0, 0)
        }
        Form::Tally => at,
    }
}

fn put_refusal(room: &mut [u8], at: usize, form: Form, sheet: &Sheet, number: usize) -> usize
    requires { (number ≤ 19) × (at + 130 ≤ length room.old) }
    ensures { Stored room.old at (refusal_row form sheet.now number) 110 result room.new }
{
    let count = sheet[373 + number];
    if !is_shown(form, count != 0) {
        return at;
    }
    let at = put_head(room, at, form, b"refusal ", number as u64);
    put_last(room, at, form, b" ", 8, count)
}

fn put_refusal_rest(room: &mut [u8], at: usize, form: Form) -> usize
    requires { at + 130 ≤ length room.old }
    ensures { Stored room.old at (refusal_rest form) 110 result room.new }
{
    match form {
        Form::Report => {
            let at = put_text(room, at, b"refusal rest");
            put_last(room, at, form, b" ", 8, 0)
        }
        Form::Tally => at,
    }
}

// The word, and a currency's four digits.
fn put_code(room: &mut [u8], at: usize, code: u64) -> usize
    requires { at + 13 ≤ length room.old }
    ensures { Stored room.old at (code_of code) 13 result room.new }
{
    let high = (code / 256 % 256) as u8;
    let low = (code % 256) as u8;
    let at = put_text(room, at, b"currency ");
    put_text(
        room,
        at,
        &[
            hex_digits::upper_digit(high),
            hex_digits::lower_digit(high),
            hex_digits::upper_digit(low),
            hex_digits::lower_digit(low),
        ],
    )
}

fn put_currency(room: &mut [u8], at: usize, form: Form, sheet: &Sheet, place: usize) -> usize
    requires { (place < 32) × (at + 130 ≤ length room.old) }
    ensures { Stored room.old at (currency_row form sheet.now place) 110 result room.new }
{
    if sheet[CURRENCIES] <= place as u64 {
        return at;
    }
    let at = put_code(room, at, sheet[CODES + place]);
    put_last(room, at, form, b" ", 20, sheet[SUMS + place])
}

// A line of the sheet: the papers, the profiles, the refusals, the currencies.
fn put_line(room: &mut [u8], at: usize, form: Form, sheet: &Sheet, line: usize) -> usize
    requires { (line < 178) × (at + 132 ≤ length room.old) }
    ensures { Stored room.old at (line_at form sheet.now line) 110 result room.new }
{
    if line == 0 {
        return put_papers(room, at, form, sheet);
    }
    if line <= 124 {
        return put_profile(room, at, form, sheet, line);
    }
    if line == 125 {
        return put_profile_rest(room, at, form);
    }
    if line <= 144 {
        return put_refusal(room, at, form, sheet, line - 125);
    }
    if line == 145 {
        return put_refusal_rest(room, at, form);
    }
    put_currency(room, at, form, sheet, line - 146)
}

fn store(room: &mut [u8], at: usize, form: Form, sheet: &Sheet) -> usize
    requires { at + 19602 ≤ length room.old }
    ensures { Stored room.old at (sheet_text form sheet.now) 19580 result room.new }
{
    let mut end = at;
    for line in 0..LINES {
        end = put_line(room, end, form, sheet, line);
    }
    end
}

// The whole sheet. Without room for the longest nothing is written, and the place stays.
pub fn put_sheet(room: &mut [u8], at: usize, form: Form, sheet: &Sheet) -> usize
    ensures { (result ≡ sheet_behind (length room.old) at form sheet.now)
        × (room.new ≡ sheet_placed room.old at form sheet.now) }
{
    if room.len() < at {
        return at;
    }
    if room.len() - at < LONGEST {
        return at;
    }
    store(room, at, form, sheet)
}

fn store_refused(room: &mut [u8], at: usize, form: Form, refusal: u8, paper: u64) -> usize
    requires { at + 78 ≤ length room.old }
    ensures { Stored room.old at (refused_line form refusal paper) 56 result room.new }
{
    let at = put_item(room, at, b"refused ", 0, refusal as u64);
    put_last(room, at, form, b" paper ", 20, paper)
}

// That a paper, by its number in a stack, was refused. The same without room.
pub fn put_refused(room: &mut [u8], at: usize, form: Form, refusal: u8, paper: u64) -> usize
    ensures { (result ≡ refused_behind (length room.old) at form refusal paper)
        × (room.new ≡ refused_placed room.old at form refusal paper) }
{
    if room.len() < at {
        return at;
    }
    if room.len() - at < LONGEST_REFUSED {
        return at;
    }
    store_refused(room, at, form, refusal, paper)
}
