// Cells of 64 bits, and what several parts of a card share in them, one cell to a field.
#![tactic(auto)]

ghost use Rattle.std.specs.Prelude.{◌≡◌, ◌+◌, get_or};
ghost use Rattle.cells.specs.Cells.{flag_of, date_at, history_cells, history_at};

use calendar::Date;
use state::History;

// A cell, 0 past the end.
pub fn cell(cells: &[u64], at: usize) -> u64
    ensures { result ≡ get_or cells.now at 0 }
{
    cells.get(at).copied().unwrap_or(0)
}

// The cell so many fields behind a place, 0 past the end.
pub fn cell_behind(cells: &[u64], at: usize, fields: u8) -> u64
    ensures { result ≡ get_or cells.now (at + fields) 0 }
{
    if cells.len() <= at {
        return 0;
    }
    cell(cells, at + fields as usize)
}

pub fn flag(on: bool) -> u64
    ensures { result ≡ flag_of on }
{
    u64::from(on)
}

pub fn date_at(cells: &[u64], at: usize) -> Date
    ensures { result ≡ date_at cells.now at }
{
    Date {
        year: (cell(cells, at) % 256) as u8,
        month: (cell_behind(cells, at, 1) % 256) as u8,
        day: (cell_behind(cells, at, 2) % 256) as u8,
    }
}

pub fn history_cells(history: History) -> [u64; 5]
    ensures { result ≡ history_cells history }
{
    [
        flag(history.uncompleted),
        flag(history.online),
        flag(history.failed),
        flag(history.unable),
        flag(history.missing),
    ]
}

pub fn history_at(cells: &[u64], at: usize) -> History
    ensures { result ≡ history_at cells.now at }
{
    History {
        uncompleted: cell(cells, at) == 1,
        online: cell_behind(cells, at, 1) == 1,
        failed: cell_behind(cells, at, 2) == 1,
        unable: cell_behind(cells, at, 3) == 1,
        missing: cell_behind(cells, at, 4) == 1,
    }
}
