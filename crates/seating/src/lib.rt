// A card's state in cells, one cell to a field: its values, its phase and its marks, one behind the
// other. Whatever the cells hold, they are read as some state.
#![tactic(auto)]

ghost use Rattle.std.specs.Prelude.{◌≡◌, ◌≤◌};
ghost use Rattle.seating.specs.States.{value_cells, values_at, mark_cells, state_in, ValuesFit, MarksFit};

use cells::{cell, date_at, history_at, history_cells};
use marks::Scripts;
use money::AccumulatorAmount;
use phase_seat::{PHASE, phase_at};
use rules::Values;
use state::State;

// How many cells the values take, and the marks.
pub const VALUES: usize = 10;

pub const MARKS: usize = 10;

// The values: four accumulators, four counters, two cyclic accumulators.
pub fn value_cells(values: Values) -> [u64; VALUES]
    ensures { (result ≡ value_cells values) × ValuesFit values }
{
    let accumulators = values.accumulators;
    let counters = values.counters;
    let cyclic = values.cyclic;
    [
        accumulators[0].0,
        accumulators[1].0,
        accumulators[2].0,
        accumulators[3].0,
        counters[0] as u64,
        counters[1] as u64,
        counters[2] as u64,
        counters[3] as u64,
        cyclic[0].0,
        cyclic[1].0,
    ]
}

fn values_at(cells: &[u64], at: usize) -> Values
    requires { at ≤ 64 }
    ensures { result ≡ values_at cells.now at }
{
    Values {
        accumulators: [
            AccumulatorAmount(cell(cells, at)),
            AccumulatorAmount(cell(cells, at + 1)),
            AccumulatorAmount(cell(cells, at + 2)),
            AccumulatorAmount(cell(cells, at + 3)),
        ],
        counters: [
            (cell(cells, at + 4) % 256) as u8,
            (cell(cells, at + 5) % 256) as u8,
            (cell(cells, at + 6) % 256) as u8,
            (cell(cells, at + 7) % 256) as u8,
        ],
        cyclic: [
            AccumulatorAmount(cell(cells, at + 8)),
            AccumulatorAmount(cell(cells, at + 9)),
        ],
    }
}

// The marks of a state: ATC, last date, history, and what is kept of scripts.
pub fn mark_cells(state: State) -> [u64; MARKS]
    ensures { (result ≡ mark_cells state) × MarksFit state }
{
    let last = state.last;
    let scripts = state.scripts;
    let history = history_cells(state.history);
    [
        state.atc as u64,
        last.year as u64,
        last.month as u64,
        last.day as u64,
        history[0],
        history[1],
        history[2],
        history[3],
        history[4],
        scripts.0 as u64,
    ]
}

// A state: its values, its phase and its marks, one behind the other.
pub fn state_in(cells: &[u64]) -> State
    ensures { result ≡ state_in cells.now }
{
    State {
        values: values_at(cells, 0),
        phase: phase_at(cells, VALUES as u8),
        atc: (cell(cells, VALUES + PHASE) % 65_536) as u16,
        last: date_at(cells, VALUES + PHASE + 1),
        history: history_at(cells, VALUES + PHASE + 4),
        scripts: Scripts((cell(cells, VALUES + PHASE + 9) % 256) as u8),
    }
}
