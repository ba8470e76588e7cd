// The text of a log (request Eight): the lines of its records, the newest first, written into lent room
// from a place on; the place behind is returned.
#![tactic(auto)]

ghost use Rattle.std.specs.Prelude.{◌≡◌, ◌+◌, ◌≤◌, length};
ghost use Rattle.text.specs.Text.{joined};
ghost use Rattle.text.specs.Stored.{Stored};
ghost use Rattle.log_text.specs.LogText.{found_line, log_text, placed, place_behind, lines_up_to, longest};
ghost use Rattle.ring.specs.Ring.{count_in};

use log_fields::Form;
use paper_log::Log;
use ring::{Record, Ring};

// The most bytes that it has: 20 of the longest lines.
pub const LONGEST: usize = 245_740;

// The line of record k, where there is one.
fn put_found(
    room: &mut [u8],
    at: usize,
    paper: &[u8],
    tail: &[u8],
    form: Form,
    k: u8,
    found: Option<Record>,
) -> usize
    requires { at + 12287 ≤ length room.old }
    ensures { Stored room.old at (found_line paper.now tail.now form k found) 12287 result room.new }
{
    match found {
        Some(kept) => log_lines::put_line(room, at, k, paper, tail, form, kept),
        None => at,
    }
}

// The lines of all records of a ring.
fn put_lines(
    room: &mut [u8],
    at: usize,
    paper: &[u8],
    tail: &[u8],
    form: Form,
    ring: &Ring,
    size: u8,
) -> usize
    requires { at + longest ≤ length room.old }
    ensures { Stored room.old at (joined (lines_up_to paper.now tail.now form ring.now size (count_in ring.now size))) longest result room.new }
{
    let mut end = at;
    for i in 0..ring::count(ring, size) {
        let k = i + 1;
        let found = ring::find(ring, size, k);
        end = put_found(room, end, paper, tail, form, k as u8, found);
    }
    end
}

// The text of a paper's log. Without room for the longest nothing is written, and the place stays.
pub fn put_log(room: &mut [u8], at: usize, paper: &[u8], log: Log, ring: &Ring) -> usize
    ensures { (result ≡ place_behind (length room.old) at (log_text log paper.now ring.now))
        × (room.new ≡ placed room.old at (log_text log paper.now ring.now))
        × (result ≤ at + longest) }
{
    if room.len() < at || room.len() - at < LONGEST {
        return at;
    }
    let tail = paper_log::tail_at(paper, log.start, log.end);
    let form = log.form;
    let logging = log.logging;
    put_lines(room, at, paper, tail, form, ring, logging.size)
}
