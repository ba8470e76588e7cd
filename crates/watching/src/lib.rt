// After each cryptogram, the transaction that it closed is added to the log (request Eight), if it is logged.
#![tactic(auto)]

ghost use Rattle.std.specs.Prelude.{◌≡◌};
ghost use Rattle.journal.specs.Journal.{closed_by, noted, watched};

use journal::{Cryptogram, Heard, Logging};
use ring::{Record, Ring};

// The record of a transaction whose First's body and, if there was one, Second's lie at these places.
fn closed_by(first: u64, second: u64, given: Cryptogram) -> Record
    ensures { result ≡ closed_by first second given }
{
    let kind = given.kind;
    Record {
        first,
        second,
        cvr: given.cvr,
        atc: given.atc,
        cid: kind.cid() as u64,
    }
}

// The record of a transaction that a cryptogram may have closed is added, if it is logged.
fn note(ring: &mut Ring, logging: Logging, said: Heard, given: Cryptogram, closed: Record)
    ensures { ring.new ≡ noted logging said given closed ring.old }
{
    let kind = given.kind;
    if journal::is_wanted(logging.switches, said, kind)
        & journal::is_logging(logging, given.profile)
    {
        ring::add(ring, logging.size, closed);
    }
}

// After a cryptogram, the body of its record lying at a place.
pub fn watch(ring: &mut Ring, logging: Logging, said: Heard, at: usize, given: Cryptogram)
    ensures { ring.new ≡ watched logging said at given ring.old }
{
    let place = at as u64;
    match said {
        Heard::First => {
            ring::open_first(ring, place);
            let closed = closed_by(place, 0, given);
            note(ring, logging, said, given, closed);
        }
        Heard::Second { .. } => {
            let closed = closed_by(ring::first_place(ring), place, given);
            note(ring, logging, said, given, closed);
        }
        Heard::Other => {}
    }
}
