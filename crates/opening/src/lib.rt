// The set-up of a paper, read into lent words: a fresh card, or a refusal.
#![tactic(auto)]

ghost use Rattle.std.specs.Prelude.{◌≡◌, ◌+◌, ◌<◌, ◌^◌, length, Ok};
ghost use Rattle.shape.specs.Shape.{tail_part, family_part, Lies, Spans, Holds, selecting_at, span_at, family_at, shape_at};
ghost use Rattle.shape.proofs.Inside.{Inside};
ghost use Rattle.opening.specs.Opening.{log_judged, shaped_begun, shaped_words, setup_begun, setup_words, begun_of, words_begun};

use begun::Begun;
use log_tail::Fault;
use paper::Opened;
use refusal::Refusal;
use rules::Words;
use shape::{Family, SelectionFile, Shape, Span};

// The file's places in the paper, where its body of so many bytes stands at a place of it.
fn select_in(selecting: Option<SelectionFile>, place: usize, bytes: usize) -> Option<SelectionFile>
    requires { Lies selecting bytes × (place + bytes < 2 ^ 63) }
    ensures { result ≡ selecting_at place selecting }
{
    let file = selecting?;
    Some(SelectionFile {
        start: place + file.start,
        end: place + file.end,
        ..file
    })
}

// The places of the tail with dates, or of the log's, likewise.
fn span_in(tail: Option<Span>, place: usize, bytes: usize) -> Option<Span>
    requires { Spans tail bytes × (place + bytes < 2 ^ 63) }
    ensures { result ≡ span_at place tail }
{
    let Span { start, end } = tail?;
    Some(Span {
        start: place + start,
        end: place + end,
    })
}

// And those of a CPACE card's tail.
fn family_in(family: Family, place: usize, bytes: usize) -> Family
    requires { Holds family bytes × (place + bytes < 2 ^ 63) }
    ensures { result ≡ family_at place family }
{
    match family {
        Family::Cpa => Family::Cpa,
        Family::Cpace { start, end } => Family::Cpace {
            start: place + start,
            end: place + end,
        },
    }
}

// A shape with its places in the paper.
fn place_in(shape: Shape, place: usize, bytes: usize) -> Shape
    requires { Inside shape bytes × (place + bytes < 2 ^ 63) }
    ensures { result ≡ shape_at place shape }
{
    Shape {
        selecting: select_in(shape.selecting, place, bytes),
        dating: span_in(shape.dating, place, bytes),
        family: family_in(shape.family, place, bytes),
        logging: span_in(shape.logging, place, bytes),
        ..shape
    }
}

// The tail with dates, no byte where they are off.
fn cycles_in(dating: Option<Span>, body: &[u8]) -> &[u8]
    requires { Spans dating (length body.now) }
    ensures { result.now ≡ tail_part dating body.now }
{
    match dating {
        None => &body[..0],
        Some(Span { start, end }) => &body[start..end],
    }
}

// A CPACE card's tail, no byte of a CPA one.
fn controls_in(family: Family, body: &[u8]) -> &[u8]
    requires { Holds family (length body.now) }
    ensures { result.now ≡ family_part family body.now }
{
    match family {
        Family::Cpa => &body[..0],
        Family::Cpace { start, end } => &body[start..end],
    }
}

// The log's settings and tables, where it is on; First's data is as long as the shape says.
fn judge_log(shape: Shape, body: &[u8]) -> Result<(), Fault>
    requires { Spans shape.logging (length body.now) }
    ensures { result ≡ log_judged shape body.now }
{
    let logging = shape.logging;
    let Some(Span { start, end }) = logging else {
        return Ok(());
    };
    let first = bodies::first_length(shape.dating, shape.family);
    log_tail::judge(
        &body[start..end],
        wire::byte_at(body, layout::PROFILES),
        first,
    )
}

// A set-up of this shape: its base, its tail with dates where there is one, a CPACE card's, and the
// log's.
fn take_shaped(shape: Shape, body: &[u8], place: usize, end: usize, words: &mut Words) -> Begun
    requires { Inside shape (length body.now) × (place + length body.now < 2 ^ 63) }
    ensures { (result ≡ shaped_begun body.now place end (Ok shape))
        × (words.new ≡ shaped_words words.old body.now (Ok shape)) }
{
    let placed = place_in(shape, place, body.len());
    let base = &body[..shape.base];
    let cycles = cycles_in(shape.dating, body);
    let controls = controls_in(shape.family, body);
    match judge_log(shape, body) {
        Ok(()) => begun::take_base(placed, base, cycles, controls, end, words),
        Err(Fault::Wrong) => begun::refuse(Refusal::BadSetup, end),
        Err(Fault::PastData) => begun::refuse_log(base, cycles, controls, shape.unnamed, end),
    }
}

// The set-up: its shape is read, and then what it says, or refused.
fn take_setup(version: u8, body: &[u8], place: usize, end: usize, words: &mut Words) -> Begun
    requires { place + length body.now < 2 ^ 63 }
    ensures { (result ≡ setup_begun version body.now place end)
        × (words.new ≡ setup_words words.old version body.now) }
{
    match additions::read_shape(version, body) {
        Err(refusal) => begun::refuse(refusal, end),
        Ok(shape) => take_shaped(shape, body, place, end, words),
    }
}

// The paper is opened and its set-up read into lent words, or refused.
pub fn begin(paper: &[u8], words: &mut Words) -> Begun
    ensures { (result ≡ begun_of paper.now) × (words.new ≡ words_begun words.old paper.now) }
{
    match paper::open_paper(paper) {
        Err(refusal) => begun::refuse(refusal, 0),
        Ok(
            Opened {
                version,
                start,
                end,
            },
        ) => take_setup(version, &paper[start..end], start, end, words),
    }
}
