// The phase of a card's state in cells, one cell to a field. An enum's first cell says which case it
// is, and a field that the case lacks is 0. Whatever the cells hold, they are read as some phase.
#![tactic(auto)]

ghost use Rattle.std.specs.Prelude.{◌≡◌, ◌≤◌};
ghost use Rattle.phase_seat.specs.Phases.{place_number, place_of, cvm_number, cvm_of, timing_cells, timing_at, purchase_at, pending_at, phase_cells, phase_at};
ghost use Rattle.phase_seat.specs.Phases.{TimingFits, PendingFits, PhaseFits};

use cells::{cell, date_at, flag, history_at, history_cells};
use cpace::Cvm;
use marks::Scripts;
use money::TransactionAmount;
use purchase::{Purchase, Timing};
use rules::Place;
use state::{Pending, Phase};

// How many cells a phase takes.
pub const PHASE: usize = 17;

fn place_number(place: Place) -> u64
    ensures { result ≡ place_number place }
{
    match place {
        Place::One => 0,
        Place::Two => 1,
        Place::Three => 2,
        Place::Four => 3,
    }
}

fn place_of(number: u64) -> Place
    ensures { result ≡ place_of number }
{
    match number {
        0 => Place::One,
        1 => Place::Two,
        2 => Place::Three,
        _ => Place::Four,
    }
}

fn cvm_number(cvm: Cvm) -> u64
    ensures { result ≡ cvm_number cvm }
{
    match cvm {
        Cvm::OnlinePin => 0,
        Cvm::Signature => 1,
        Cvm::NoCvm => 2,
    }
}

fn cvm_of(number: u64) -> Cvm
    ensures { result ≡ cvm_of number }
{
    match number {
        0 => Cvm::OnlinePin,
        1 => Cvm::Signature,
        _ => Cvm::NoCvm,
    }
}

fn timing_cells(timing: Timing) -> [u64; 4]
    ensures { (result ≡ timing_cells timing) × TimingFits timing }
{
    match timing {
        Timing::Undated => [0, 0, 0, 0],
        Timing::InOrder => [1, 0, 0, 0],
        Timing::DateError(date) => [2, date.year as u64, date.month as u64, date.day as u64],
    }
}

fn timing_at(cells: &[u64], at: usize) -> Timing
    requires { at ≤ 1024 }
    ensures { result ≡ timing_at cells.now at }
{
    match cell(cells, at) {
        0 => Timing::Undated,
        1 => Timing::InOrder,
        _ => Timing::DateError(date_at(cells, at + 1)),
    }
}

fn purchase_at(cells: &[u64], at: usize) -> Purchase
    requires { at ≤ 512 }
    ensures { result ≡ purchase_at cells.now at }
{
    Purchase {
        amount: TransactionAmount(cell(cells, at)),
        currency: (cell(cells, at + 1) % 65_536) as u16,
        timing: timing_at(cells, at + 2),
        cvm: cvm_of(cell(cells, at + 6)),
        cashback: cell(cells, at + 7) == 1,
    }
}

// What was asked, behind 2: the place; the purchase's amount, currency, timing, CVM and cashback; the
// limits, the history, and what is kept of scripts.
fn asked_cells(pending: Pending) -> [u64; PHASE]
    ensures { (result ≡ phase_cells (Phase.Asked pending)) × PendingFits pending }
{
    let purchase = pending.purchase;
    let amount = purchase.amount;
    let timing = purchase.timing;
    let cvm = purchase.cvm;
    let place = pending.place;
    let scripts = pending.scripts;
    let dates = timing_cells(timing);
    let history = history_cells(pending.history);
    [
        2,
        place_number(place),
        amount.0,
        purchase.currency as u64,
        dates[0],
        dates[1],
        dates[2],
        dates[3],
        cvm_number(cvm),
        flag(purchase.cashback),
        pending.limits as u64,
        history[0],
        history[1],
        history[2],
        history[3],
        history[4],
        scripts.0 as u64,
    ]
}

// A phase: 0 idle, 1 opened at a place, 2 asked.
pub fn phase_cells(phase: Phase) -> [u64; PHASE]
    ensures { (result ≡ phase_cells phase) × PhaseFits phase }
{
    match phase {
        Phase::Idle => [0; PHASE],
        Phase::Opened(place) => {
            let mut cells = [0; PHASE];
            cells[0] = 1;
            cells[1] = place_number(place);
            cells
        }
        Phase::Asked(pending) => asked_cells(pending),
    }
}

fn pending_at(cells: &[u64], at: usize) -> Pending
    requires { at ≤ 256 }
    ensures { result ≡ pending_at cells.now at }
{
    Pending {
        purchase: purchase_at(cells, at + 1),
        limits: (cell(cells, at + 9) % 256) as u8,
        place: place_of(cell(cells, at)),
        history: history_at(cells, at + 10),
        scripts: Scripts((cell(cells, at + 15) % 256) as u8),
    }
}

pub fn phase_at(cells: &[u64], at: u8) -> Phase
    ensures { result ≡ phase_at cells.now at }
{
    match cell(cells, at as usize) {
        0 => Phase::Idle,
        1 => Phase::Opened(place_of(cell(cells, at as usize + 1))),
        _ => Phase::Asked(pending_at(cells, at as usize + 1)),
    }
}
