// A paper taken into the sheet of a class, or refused.
#![tactic(auto)]

ghost use Rattle.std.specs.Prelude.{◌≡◌};
ghost use Rattle.rules.specs.Rules.{rules_of};
ghost use Rattle.tallies.specs.Tallies.{all_fit, all_tallied};
ghost use Rattle.class_sheet.specs.ClassSheet.{end_tallies, record_tallies, paper_tallies, taken_of, sheet_after};

use records::Event;
use refusal::Refusal;
use rules::Words;
use shape::Shape;
use sheet::Sheet;
use state::State;
use tallies::Sale;

// The most papers, and the most currencies, that a sheet has.
const MOST_PAPERS: u64 = 200;

const MOST_CURRENCIES: u64 = 32;

const PAPERS: usize = 0;

const CURRENCIES: usize = 393;

// The refusal that ends a paper.
fn take_end(sheet: &mut Sheet, event: Event)
    ensures { sheet.new ≡ all_tallied sheet.old (end_tallies event) }
{
    let Event::Refused(refusal) = event else {
        return;
    };
    sheet::count_refusal(sheet, refusal.number());
}

// The records from a place of the paper on. False where one would bring a thirty-third currency.
fn take_records(
    sheet: &mut Sheet,
    words: &mut Words,
    shape: Shape,
    fresh: State,
    paper: &[u8],
    start: usize,
) -> bool
    ensures { (result ≡ all_fit sheet.old (record_tallies (rules_of words.old) shape fresh paper.now start))
        × (sheet.new ≡ all_tallied sheet.old (record_tallies (rules_of words.old) shape fresh paper.now start)) }
{
    let mut state = fresh;
    let mut at = start;
    let mut sale = Sale {
        amount: 0,
        currency: 0,
    };
    let mut fits = true;
    while at < paper.len() {
        let taken = conversation::take(words, shape, state, paper, at);
        let event = taken.event;
        state = taken.state;
        at = taken.at;
        let Event::Answered { said, answer } = event else {
            take_end(sheet, event);
            return fits;
        };
        sale = sales::sale_by(said, answer, sale);
        let fit = tallies::take_answer(sheet, sales::is_offline(said), sale, answer);
        fits = fits & fit;
    }
    fits
}

// All that a paper adds.
fn take_events(sheet: &mut Sheet, paper: &[u8]) -> bool
    ensures { (result ≡ all_fit sheet.old (paper_tallies paper.now))
        × (sheet.new ≡ all_tallied sheet.old (paper_tallies paper.now)) }
{
    let mut words = rules::blank();
    let begun = opening::begin(paper, &mut words);
    let event = begun.event;
    let Event::SetUp = event else {
        take_end(sheet, event);
        return true;
    };
    let shape = begun.shape;
    let fresh = begun.state;
    take_records(sheet, &mut words, shape, fresh, paper, begun.at)
}

// A paper is taken, or refused: 16 where 200 are taken, then 15 where it would bring a thirty-third
// currency. Refused, the sheet stays as it was.
pub fn take_paper(sheet: &mut Sheet, paper: &[u8]) -> Result<(), Refusal>
    ensures { (result ≡ taken_of sheet.old paper.now)
        × (sheet.new ≡ sheet_after sheet.old paper.now) }
{
    if MOST_PAPERS <= sheet[PAPERS] {
        return Err(Refusal::TooManyPapers);
    }
    if MOST_CURRENCIES < sheet[CURRENCIES] {
        return Err(Refusal::TooManyCurrencies);
    }
    let mut after = *sheet;
    if !take_events(&mut after, paper) {
        return Err(Refusal::TooManyCurrencies);
    }
    sheet::count_paper(&mut after);
    *sheet = after;
    Ok(())
}
