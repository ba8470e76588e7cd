// A set-up's body, read into lent rules and what a fresh card starts from, or refused.
#![tactic(auto)]

ghost use Rattle.std.specs.Prelude.{◌≡◌, ◌<◌};
ghost use Rattle.setup.specs.Setup.{value_in, amount_in, is_accepted, fresh_in, no_card, read_setup, words_after};

use calendar::Date;
use money::AccumulatorAmount;
use refusal::Refusal;
use rules::{Values, Words};

// What a fresh card starts from: its values, its ATC, "go online next" and the last date.
#[derive(Drop)]
pub struct Fresh {
    pub values: Values,
    pub atc: u16,
    pub online: bool,
    pub last: Date,
}

#[derive(Drop)]
pub struct ReadSetup {
    pub fresh: Fresh,
    pub answer: Result<(), Refusal>,
}

// The value of accumulator i + 1.
fn read_value(s: &[u8], i: usize) -> AccumulatorAmount
    requires { i < 4 }
    ensures { result ≡ value_in s.now i }
{
    let at = layout::ACCUMULATORS + layout::ACCUMULATOR_LENGTH * i;
    AccumulatorAmount(wire::u64_at(s, at + layout::VALUE))
}

// The amount of cyclic accumulator i + 1.
fn read_amount(t: &[u8], i: usize) -> AccumulatorAmount
    requires { i < 2 }
    ensures { result ≡ amount_in t.now i }
{
    let at = layout::CYCLES + layout::CYCLE_LENGTH * i;
    AccumulatorAmount(wire::u64_at(t, at + layout::CYCLE_AMOUNT))
}

fn read_fresh(s: &[u8], t: &[u8]) -> Fresh
    ensures { result ≡ fresh_in s.now t.now }
{
    Fresh {
        values: Values {
            accumulators: [
                read_value(s, 0),
                read_value(s, 1),
                read_value(s, 2),
                read_value(s, 3),
            ],
            counters: [
                wire::byte_at(s, layout::COUNTERS),
                wire::byte_at(s, layout::COUNTERS + 1),
                wire::byte_at(s, layout::COUNTERS + 2),
                wire::byte_at(s, layout::COUNTERS + 3),
            ],
            cyclic: [read_amount(t, 0), read_amount(t, 1)],
        },
        atc: wire::u16_at(s, layout::ATC),
        online: wire::byte_at(s, layout::ONLINE_NEXT) == 1,
        last: calendar::date_at(t, layout::LAST_DATE),
    }
}

// What stands for a card where there is none.
pub fn no_card() -> Fresh
    ensures { result ≡ no_card }
{
    Fresh {
        values: Values {
            accumulators: [AccumulatorAmount(0); 4],
            counters: [0; 4],
            cyclic: [AccumulatorAmount(0); 2],
        },
        atc: 0,
        online: false,
        last: Date {
            year: 0,
            month: 0,
            day: 0,
        },
    }
}

// Whether a set-up is accepted: its base, and the tails of versions 04 and 05, are in range.
pub fn is_accepted(s: &[u8], t: &[u8], f: &[u8], unnamed: u32) -> bool
    ensures { result ≡ is_accepted s.now t.now f.now unnamed }
{
    ranges::is_setup(s, unnamed) & tails::are_cycles(t) & tails::is_family(f)
}

// The base of a set-up, the tail of version 04 where dates are on, that of version 05 of a CPACE card,
// and what the other tails say: the syllabus, and the first mask bit that is unnamed. Refusal 1 leaves
// the words as they were.
pub fn read_setup(
    s: &[u8],
    t: &[u8],
    f: &[u8],
    syllabus: u8,
    unnamed: u32,
    words: &mut Words,
) -> ReadSetup
    ensures { (result ≡ read_setup s.now t.now f.now unnamed)
        × (words.new ≡ words_after words.old s.now t.now f.now syllabus unnamed) }
{
    if !is_accepted(s, t, f, unnamed) {
        return ReadSetup {
            fresh: no_card(),
            answer: Err(Refusal::BadSetup),
        };
    }
    load::load(words, s, t, f, syllabus);
    ReadSetup {
        fresh: read_fresh(s, t),
        answer: Ok(()),
    }
}
