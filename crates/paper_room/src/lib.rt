// The room that a paper's text is asked.
#![tactic(auto)]

ghost use Rattle.std.specs.Prelude.{◌≡◌};
ghost use Rattle.paper_room.specs.PaperRoom.{has_room};

// The bytes of one line more.
const LINE: usize = 82;

// Whether from a place on there is room for 8 bytes of each byte of a paper and for one line more.
pub fn has_room(room: usize, at: usize, paper: usize) -> bool
    ensures { result ≡ has_room room at paper }
{
    if room < at {
        return false;
    }
    let left = room - at;
    if left < LINE {
        return false;
    }
    paper <= (left - LINE) / 8
}
