// A set-up's base, and the tails of versions 02 and 03 behind it: what each says, and where it ends.
#![tactic(auto)]

ghost use Rattle.std.specs.Prelude.{◌≡◌, ◌+◌, ◌≤◌, length};
ghost use Rattle.shape.specs.Shape.{base_tail, entries_end, selection_tail, syllabus_tail};

use shape::{Family, SelectionFile, Shape, Tails};

// The first mask bit without a name, up to version 03.
const UNNAMED: u32 = 4_194_304;

// The base, which is whole.
#[tactic(auto, unfolding(shape::specs::Shape::base_tail))]
pub fn read_base(body: &[u8]) -> Option<Tails>
    ensures { result ≡ base_tail body.now }
{
    let base = layout::base_length(body);
    if body.len() < base {
        return None;
    }
    Some(Tails {
        shape: Shape {
            base,
            selecting: None,
            syllabus: 0,
            dating: None,
            family: Family::Cpa,
            scripting: false,
            logging: None,
            unnamed: UNNAMED,
        },
        at: base,
    })
}

// Where so many entries from a place on end. An entry that is cut short ends past the body.
fn entries_end(body: &[u8], at: usize, entries: u8) -> usize
    requires { at ≤ length body.now + 2 }
    ensures { result ≡ entries_end body.now at entries }
{
    let mut end = at;
    for _ in 0..entries {
        end = end + 1 + wire::byte_at(body, end) as usize;
    }
    end
}

// Version 02's tail at a place: the switch; where it is on, the number of entries and the entries.
#[tactic(auto, unfolding(shape::specs::Shape::selection_tail))]
pub fn read_selection(body: &[u8], shape: Shape, at: usize) -> Option<Tails>
    ensures { result ≡ selection_tail body.now shape at }
{
    match *body.get(at)? {
        0 => Some(Tails { shape, at: at + 1 }),
        1 => {
            let start = at + 2;
            let entries = wire::byte_at(body, at + 1);
            let end = entries_end(body, start, entries);
            if body.len() < end {
                return None;
            }
            let selecting = Some(SelectionFile {
                start,
                end,
                entries,
            });
            Some(Tails {
                shape: Shape { selecting, ..shape },
                at: end,
            })
        }
        _ => None,
    }
}

// Version 03's tail at a place: the syllabus, 0 or 1.
#[tactic(auto, unfolding(shape::specs::Shape::syllabus_tail))]
pub fn read_syllabus(body: &[u8], shape: Shape, at: usize) -> Option<Tails>
    ensures { result ≡ syllabus_tail body.now shape at }
{
    let syllabus = *body.get(at)?;
    if 1 < syllabus {
        return None;
    }
    Some(Tails {
        shape: Shape { syllabus, ..shape },
        at: at + 1,
    })
}
