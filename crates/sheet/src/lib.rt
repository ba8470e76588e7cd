// The sheet of a class, in lent cells: how many papers were taken, how many answers of each kind each
// profile gave, how often each refusal was given; and the currencies with their sums, which the crate
// `sums` writes. Every number stops at the largest that a cell holds.
#![tactic(auto)]

ghost use Rattle.std.specs.Prelude.{◌≡◌, ◌+◌, ◌<◌};
ghost use Rattle.sheet.specs.Sheet.{blank_sheet, papers, stopped, counted, answer_counted, refusal_counted};

// 0 papers; 3 x profile - 2 to 3 x profile the TCs, AACs and ARQCs of a profile, 1 to 124; 373 + n
// refusal n, 1 to 19; 393 how many currencies; from 394 on their codes, from 426 on their sums.
pub type Sheet = [u64; 458];

const PAPERS: usize = 0;

const REFUSALS: usize = 373;

const LAST_PROFILE: u8 = 124;

const LAST_KIND: u8 = 2;

const LAST_REFUSAL: u8 = 19;

// A sheet before the first paper.
pub fn blank() -> Sheet
    ensures { result ≡ blank_sheet }
{
    [0; 458]
}

// A sum that stops.
pub fn plus(value: u64, more: u64) -> u64
    ensures { result ≡ stopped (value + more) }
{
    value.saturating_add(more)
}

// One more in a cell.
fn count(sheet: &mut Sheet, cell: usize)
    requires { cell < 458 }
    ensures { sheet.new ≡ counted sheet.old cell }
{
    sheet[cell] = plus(sheet[cell], 1);
}

// A paper taken.
pub fn count_paper(sheet: &mut Sheet)
    ensures { sheet.new ≡ counted sheet.old papers }
{
    count(sheet, PAPERS);
}

// A cryptogram of a profile: kind 0 a TC, 1 an AAC, 2 an ARQC. Other numbers count nowhere: `answer_counted`
// says so of every number, and so a kind is no enum here.
pub fn count_answer(sheet: &mut Sheet, profile: u8, kind: u8)
    ensures { sheet.new ≡ answer_counted sheet.old profile kind }
{
    if profile == 0 {
        return;
    }
    if LAST_PROFILE < profile {
        return;
    }
    if LAST_KIND < kind {
        return;
    }
    count(sheet, profile as usize * 3 - 2 + kind as usize);
}

// A refusal. Numbers that none has count nowhere.
pub fn count_refusal(sheet: &mut Sheet, number: u8)
    ensures { sheet.new ≡ refusal_counted sheet.old number }
{
    if number == 0 {
        return;
    }
    if LAST_REFUSAL < number {
        return;
    }
    count(sheet, REFUSALS + number as usize);
}
