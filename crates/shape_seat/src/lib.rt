// The shape of a card's paper in cells, one cell to a field. An enum's first cell says which case it
// is, and a field that the case lacks is 0. Whatever the cells hold, they are read as some shape.
#![tactic(auto)]

ghost use Rattle.std.specs.Prelude.{◌≡◌, ◌≤◌};
ghost use Rattle.shape_seat.specs.Shapes.{selecting_cells, selecting_at, span_cells, span_at, family_cells, family_at, shape_cells, shape_in};
ghost use Rattle.shape_seat.specs.Shapes.{SelectingFits, ShapeFits};

use cells::{cell, flag};
use shape::{Family, SelectionFile, Shape, Span};

// How many cells a shape takes.
pub const SHAPE: usize = 17;

fn selecting_cells(selecting: Option<SelectionFile>) -> [u64; 4]
    ensures { (result ≡ selecting_cells selecting) × SelectingFits selecting }
{
    match selecting {
        None => [0, 0, 0, 0],
        Some(
            SelectionFile {
                start,
                end,
                entries,
            },
        ) => [1, start as u64, end as u64, entries as u64],
    }
}

fn selecting_at(cells: &[u64], at: usize) -> Option<SelectionFile>
    requires { at ≤ 64 }
    ensures { result ≡ selecting_at cells.now at }
{
    if cell(cells, at) != 1 {
        return None;
    }
    Some(SelectionFile {
        start: cell(cells, at + 1) as usize,
        end: cell(cells, at + 2) as usize,
        entries: (cell(cells, at + 3) % 256) as u8,
    })
}

fn span_cells(tail: Option<Span>) -> [u64; 3]
    ensures { result ≡ span_cells tail }
{
    match tail {
        None => [0, 0, 0],
        Some(Span { start, end }) => [1, start as u64, end as u64],
    }
}

fn span_at(cells: &[u64], at: usize) -> Option<Span>
    requires { at ≤ 64 }
    ensures { result ≡ span_at cells.now at }
{
    if cell(cells, at) != 1 {
        return None;
    }
    Some(Span {
        start: cell(cells, at + 1) as usize,
        end: cell(cells, at + 2) as usize,
    })
}

fn family_cells(family: Family) -> [u64; 3]
    ensures { result ≡ family_cells family }
{
    match family {
        Family::Cpa => [0, 0, 0],
        Family::Cpace { start, end } => [1, start as u64, end as u64],
    }
}

fn family_at(cells: &[u64], at: usize) -> Family
    requires { at ≤ 64 }
    ensures { result ≡ family_at cells.now at }
{
    if cell(cells, at) != 1 {
        return Family::Cpa;
    }
    Family::Cpace {
        start: cell(cells, at + 1) as usize,
        end: cell(cells, at + 2) as usize,
    }
}

// A shape: base, selecting, syllabus, dating, family, scripting, logging, unnamed.
pub fn shape_cells(shape: Shape) -> [u64; SHAPE]
    ensures { (result ≡ shape_cells shape) × ShapeFits shape }
{
    let file = selecting_cells(shape.selecting);
    let dates = span_cells(shape.dating);
    let controls = family_cells(shape.family);
    let log = span_cells(shape.logging);
    [
        shape.base as u64,
        file[0],
        file[1],
        file[2],
        file[3],
        shape.syllabus as u64,
        dates[0],
        dates[1],
        dates[2],
        controls[0],
        controls[1],
        controls[2],
        flag(shape.scripting),
        log[0],
        log[1],
        log[2],
        shape.unnamed as u64,
    ]
}

pub fn shape_in(cells: &[u64]) -> Shape
    ensures { result ≡ shape_in cells.now }
{
    Shape {
        base: cell(cells, 0) as usize,
        selecting: selecting_at(cells, 1),
        syllabus: (cell(cells, 5) % 256) as u8,
        dating: span_at(cells, 6),
        family: family_at(cells, 9),
        scripting: cell(cells, 12) == 1,
        logging: span_at(cells, 13),
        unnamed: (cell(cells, 16) % 4_294_967_296) as u32,
    }
}
