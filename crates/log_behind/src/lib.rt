// The lines of a paper's log behind its own, in lent room, and the room that both are asked.
#![tactic(auto)]

ghost use Rattle.std.specs.Prelude.{◌≡◌, ◌+◌, ◌≤◌, length};
ghost use Rattle.paper_log.specs.Log.{tail_at};
ghost use Rattle.log_text.specs.LogText.{placed, place_behind, longest};
ghost use Rattle.log_behind.specs.LogBehind.{has_text_room, log_behind};

// The first version with a log.
pub const LOG: u8 = 7;

// Whether from a place on there is room for a paper's lines and for the longest log behind them.
pub fn has_room(room: usize, at: usize, paper: usize) -> bool
    ensures { result ≡ has_text_room room at paper }
{
    if room < log_text::LONGEST {
        return false;
    }
    paper_room::has_room(room - log_text::LONGEST, at, paper)
}

// The lines of the paper's log behind its own, which stand in the room from a place up to another. Its
// set-up is read once more, so that a paper without a log carries nothing for it.
pub fn put_log(paper: &[u8], room: &mut [u8], from: usize, end: usize) -> usize
    ensures { (result ≡ place_behind (length room.old) end (log_behind paper.now (tail_at room.old from end)))
        × (room.new ≡ placed room.old end (log_behind paper.now (tail_at room.old from end)))
        × (result ≤ end + longest) }
{
    if wire::byte_at(paper, 0) < LOG {
        return end;
    }
    let mut words = rules::blank();
    let begun = opening::begin(paper, &mut words);
    let shape = begun.shape;
    log_book::put_behind(&words, shape, paper, begun.at, room, from, end)
}
