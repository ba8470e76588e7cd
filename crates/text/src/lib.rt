// Bytes put into lent room.
#![tactic(auto)]

ghost use Rattle.std.specs.Prelude.{◌≡◌, length};
ghost use Rattle.text.specs.Text.{placed, place_behind};

// A text from a place of the room on, and the place behind it; where there is no room for all of it
// nothing is written.
pub fn put(room: &mut [u8], at: usize, text: &[u8]) -> usize
    ensures { (result ≡ place_behind (length room.old) at text.now)
        × (room.new ≡ placed room.old at text.now) }
{
    if room.len() < at || room.len() - at < text.len() {
        return at;
    }
    let end = at + text.len();
    room[at..end].copy_from_slice(text);
    end
}
