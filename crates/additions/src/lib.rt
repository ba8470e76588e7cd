// What the versions add to a set-up's body: a tail for each, in the order of the versions, behind the base.
// No crate above knows a version.
#![tactic(auto)]

ghost use Rattle.std.specs.Prelude.{◌≡◌, ℕ, List, Option};
ghost use Rattle.shape.specs.declared.Shape.{Shape};
ghost use Rattle.shape.specs.declared.Tails.{Tails};
ghost use Rattle.shape.specs.Shape.{selection_tail, syllabus_tail, dating_tail, family_tail, scripting_tail, logging_tail, since, tails_of, shape_of};

use early_tails::{read_base, read_selection, read_syllabus};
use later_tails::{read_dating, read_family, read_scripting};
use log_place::read_logging;
use refusal::Refusal;
use shape::{Shape, Tails};

// The first version with a tail that selects profiles, with a syllabus, with dates, with a card family,
// with issuer scripts, and with a log.
const SELECTION: u8 = 2;

const SYLLABUS: u8 = 3;

const DATES: u8 = 4;

const FAMILY: u8 = 5;

const SCRIPTS: u8 = 6;

const LOG: u8 = 7;

// A tail behind the others, that of a version; above the paper's version it is off and has no bytes.
fn add<F: Fn(&[u8], Shape, usize) -> Option<Tails>>(
    version: u8,
    first: u8,
    body: &[u8],
    tails: Option<Tails>,
    read: F,
) -> Option<Tails>
    ghost tail: { List ℕ → Shape → ℕ → Option Tails }
    requires callable { F.IsAlwaysCallable read }
    requires reads { (body : _) (shape : Shape) (at : ℕ) (found : Option Tails)
        → F.post read body shape at found → found ≡ tail body.now shape at }
    ensures { result ≡ since first version tails (tail body.now) }
{
    let Tails { shape, at } = tails?;
    if version < first {
        return tails;
    }
    read(body, shape, at)
}

// The base and the tails of a version, one behind the other.
#[tactic(auto, unfolding(shape::specs::Shape::tails_of))]
fn read_tails(version: u8, body: &[u8]) -> Option<Tails>
    ensures { result ≡ tails_of version body.now }
{
    let base = read_base(body);
    let selecting = add(version, SELECTION, body, base, read_selection);
    let rounding = add(version, SYLLABUS, body, selecting, read_syllabus);
    let dating = add(version, DATES, body, rounding, read_dating);
    let family = add(version, FAMILY, body, dating, read_family);
    let scripting = add(version, SCRIPTS, body, family, read_scripting);
    add(version, LOG, body, scripting, read_logging)
}

// The shape of a body, or refusal 1 where bytes are missing or left over, or a tail is out of range.
#[tactic(auto, unfolding(shape::specs::Shape::shape_of))]
pub fn read_shape(version: u8, body: &[u8]) -> Result<Shape, Refusal>
    ensures { result ≡ shape_of version body.now }
{
    let Tails { shape, at } = read_tails(version, body).ok_or(Refusal::BadSetup)?;
    if at == body.len() {
        return Ok(shape);
    }
    Err(Refusal::BadSetup)
}
