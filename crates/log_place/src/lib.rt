// The tail of version 07, the log's: where it stands and ends.
#![tactic(auto)]

ghost use Rattle.std.specs.Prelude.{◌≡◌, ◌+◌, ◌^◌, ◌<◌};
ghost use Rattle.shape.specs.Shape.{table_end, log_end, logging_tail};

use shape::{Shape, Span, Tails};

// Where a table of the log at a place ends: the number of its entries, and 3 bytes for each.
fn table_end(body: &[u8], at: usize) -> usize
    requires { at < 2 ^ 63 + 2048 }
    ensures { (result ≡ table_end body.now at) × (result < at + 1024) }
{
    at + 1 + 3 * wire::byte_at(body, at) as usize
}

// Where the log's tail at a place ends: switch, ring's size, switches, a byte for each profile, and two
// tables.
fn log_end(body: &[u8], at: usize) -> usize
    requires { at < 2 ^ 63 }
    ensures { result ≡ log_end body.now at }
{
    let first = at + 3 + wire::byte_at(body, layout::PROFILES) as usize;
    table_end(body, table_end(body, first))
}

// Version 07's tail at a place: the log, 0 off or 1 on; where it is on, its settings and two tables.
#[tactic(auto, unfolding(shape::specs::Shape::logging_tail))]
pub fn read_logging(body: &[u8], shape: Shape, at: usize) -> Option<Tails>
    ensures { result ≡ logging_tail body.now shape at }
{
    match *body.get(at)? {
        0 => Some(Tails { shape, at: at + 1 }),
        1 => {
            let end = log_end(body, at);
            if body.len() < end {
                return None;
            }
            let logging = Some(Span { start: at, end });
            Some(Tails {
                shape: Shape { logging, ..shape },
                at: end,
            })
        }
        _ => None,
    }
}
