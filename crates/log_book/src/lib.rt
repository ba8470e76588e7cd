// The log of a paper (request Eight), from the paper's bytes and the lines that were printed of it: it
// reads what was answered, and so it changes no answer.
#![tactic(auto)]

ghost use Rattle.std.specs.Prelude.{◌≡◌, ◌+◌, ◌≤◌, length};
ghost use Rattle.paper.specs.Paper.{place_after};
ghost use Rattle.rules.specs.Rules.{rules_of};
ghost use Rattle.paper_log.specs.Log.{tail_at};
ghost use Rattle.log_text.specs.LogText.{placed, place_behind, longest};
ghost use Rattle.log_book.specs.Logbook.{watched_line, ring_by, lines_in, shaped_behind};
ghost use Rattle.ring.specs.Ring.{no_records};

use journal::Logging;
use paper::Reader;
use ring::Ring;
use rules::Words;
use shape::Shape;

const LINE_FEED: u8 = b'\n';

// The record at a place was answered by a line.
fn watch_line(ring: &mut Ring, logging: Logging, paper: &[u8], at: usize, line: &[u8])
    requires { at ≤ length paper.now }
    ensures { ring.new ≡ watched_line logging paper.now at line.now ring.old }
{
    let Some(given) = replies::reply_in(line) else {
        return;
    };
    watching::watch(ring, logging, paper_log::heard(&paper[at..]), at + 3, given);
}

// The place behind the record at a place.
fn place_behind(paper: &[u8], at: usize) -> usize
    requires { at ≤ length paper.now }
    ensures { (result ≡ place_after paper.now at) × (result ≤ length paper.now) }
{
    paper::pass(Reader { paper, at }).at
}

// The ring after the lines of the records from a place on; a refusal that ends the paper leaves no log.
fn ring_of(logging: Logging, paper: &[u8], start: usize, text: &[u8]) -> Ring
    requires { start ≤ length paper.now }
    ensures { result ≡ ring_by logging paper.now start (lines_in text.now) no_records }
{
    let mut ring = ring::none();
    let mut at = start;
    let mut from: usize = 0;
    while from < text.len() {
        let rest = &text[from..];
        let line = pieces::before(rest, LINE_FEED);
        if replies::is_ending(line) {
            return ring::none();
        }
        watch_line(&mut ring, logging, paper, at, line);
        at = place_behind(paper, at);
        from = text.len() - pieces::behind(rest, LINE_FEED).len();
    }
    ring
}

// The lines of a paper's log behind its own, which stand in the room from a place up to another; its
// rules stand in the words, and its records in the paper from a place on. Without room for the longest
// log, and where no record could stand, nothing is written and the place stays.
pub fn put_behind(
    words: &Words,
    shape: Shape,
    paper: &[u8],
    start: usize,
    room: &mut [u8],
    from: usize,
    end: usize,
) -> usize
    ensures { (result ≡ place_behind (length room.old) end (shaped_behind (rules_of words.now) shape paper.now start (tail_at room.old from end)))
        × (room.new ≡ placed room.old end (shaped_behind (rules_of words.now) shape paper.now start (tail_at room.old from end)))
        × (result ≤ end + longest) }
{
    if paper.len() < start {
        return end;
    }
    let log = paper_log::log_of(words, shape, paper);
    let text = pieces::behind(paper_log::tail_at(room, from, end), LINE_FEED);
    let ring = ring_of(log.logging, paper, start, text);
    log_text::put_log(room, end, paper, log, &ring)
}
