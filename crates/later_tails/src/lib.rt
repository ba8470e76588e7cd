// The tails of versions 04 to 06, dates, the card family and scripts: what each says, and where it ends.
#![tactic(auto)]

ghost use Rattle.std.specs.Prelude.{◌≡◌};
ghost use Rattle.shape.specs.Shape.{dating_tail, family_tail, scripting_tail};

use shape::{Family, Shape, Span, Tails};

// The first mask bit without a name: 25 from version 04 on, and 26 from version 05 on.
const UNNAMED_DATED: u32 = 33_554_432;

const UNNAMED_FAMILY: u32 = 67_108_864;

// Version 04's tail at a place: dated, 0 or 1; where it is on, 28 + 18p bytes in all. On or off, the masks
// then have names for three bits more.
#[tactic(auto, unfolding(shape::specs::Shape::dating_tail))]
pub fn read_dating(body: &[u8], shape: Shape, at: usize) -> Option<Tails>
    ensures { result ≡ dating_tail body.now shape at }
{
    let shape = Shape {
        dating: None,
        unnamed: UNNAMED_DATED,
        ..shape
    };
    let dated = *body.get(at)?;
    match dated {
        0 => Some(Tails { shape, at: at + 1 }),
        1 => {
            let end = at + layout::cycles_length(body);
            if body.len() < end {
                return None;
            }
            let dating = Some(Span { start: at, end });
            Some(Tails {
                shape: Shape { dating, ..shape },
                at: end,
            })
        }
        _ => None,
    }
}

// Version 05's tail at a place: the family, 0 CPA or 1 CPACE; for CPACE 9 + p bytes in all. Whichever it is,
// the masks then have a name for one bit more.
#[tactic(auto, unfolding(shape::specs::Shape::family_tail))]
pub fn read_family(body: &[u8], shape: Shape, at: usize) -> Option<Tails>
    ensures { result ≡ family_tail body.now shape at }
{
    let shape = Shape {
        family: Family::Cpa,
        unnamed: UNNAMED_FAMILY,
        ..shape
    };
    let kind = *body.get(at)?;
    match kind {
        0 => Some(Tails { shape, at: at + 1 }),
        1 => {
            let end = at + layout::family_length(body);
            if body.len() < end {
                return None;
            }
            let family = Family::Cpace { start: at, end };
            Some(Tails {
                shape: Shape { family, ..shape },
                at: end,
            })
        }
        _ => None,
    }
}

// Version 06's tail at a place: scripts, 0 off or 1 on.
#[tactic(auto, unfolding(shape::specs::Shape::scripting_tail))]
pub fn read_scripting(body: &[u8], shape: Shape, at: usize) -> Option<Tails>
    ensures { result ≡ scripting_tail body.now shape at }
{
    let scripts = *body.get(at)?;
    if 1 < scripts {
        return None;
    }
    Some(Tails {
        shape: Shape {
            scripting: scripts == 1,
            ..shape
        },
        at: at + 1,
    })
}
