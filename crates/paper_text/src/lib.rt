// The text of a whole paper, in lent room: its lines, and behind them those of its log.
#![tactic(auto)]

ghost use Rattle.std.specs.Prelude.{◌≡◌, length};
ghost use Rattle.rules.specs.Rules.{blank_words};
ghost use Rattle.transcript.specs.Transcript.{transcript_of};
ghost use Rattle.paper_text.specs.PaperText.{log_behind, parts_put, text_put, room_put, words_put, PartsIn, EndsIn};
ghost use Rattle.paper_text.specs.PaperText.{log_put, room_logged, Stands};

use rules::Words;

// A paper's lines end at a place of the room and its log, which stands behind them, at another.
#[derive(Clone, Copy)]
pub struct Parts {
    pub lines: usize,
    pub end: usize,
}

// A paper's lines from a place of the room on, and its log's behind them; or the room is too small and
// nothing is written.
fn put_parts(paper: &[u8], words: &mut Words, room: &mut [u8], at: usize) -> Option<Parts>
    ensures { (result ≡ parts_put words.old paper.now (length room.old) at)
        × (room.new ≡ room_put words.old paper.now room.old at)
        × (words.new ≡ words_put words.old paper.now room.old at)
        × PartsIn at (length paper.now) result }
{
    if !log_behind::has_room(room.len(), at, paper.len()) {
        return None;
    }
    let end = transcript::transcribe(paper, words, room, at)?;
    Some(Parts {
        lines: end,
        end: log_behind::put_log(paper, room, at, end),
    })
}

// The text of a paper, from a place of the room on, or that there is no room for it.
pub fn put_text(paper: &[u8], words: &mut Words, room: &mut [u8], at: usize) -> Option<usize>
    ensures { (result ≡ text_put words.old paper.now room.old at)
        × (room.new ≡ room_put words.old paper.now room.old at)
        × (words.new ≡ words_put words.old paper.now room.old at)
        × EndsIn at (length paper.now) result }
{
    Some(put_parts(paper, words, room, at)?.end)
}

// The paper answered for its log alone, whose text stands behind the lines; a paper below version 07
// has none, and is not answered.
pub fn put_for_log(paper: &[u8], room: &mut [u8]) -> Option<Parts>
    ensures { (result ≡ log_put paper.now (length room.old)) × (room.new ≡ room_logged paper.now room.old)
        × Stands room.new (log_behind paper.now (transcript_of blank_words paper.now)) result }
{
    if wire::byte_at(paper, 0) < log_behind::LOG {
        return Some(Parts { lines: 0, end: 0 });
    }
    let mut words = rules::blank();
    put_parts(paper, &mut words, room, 0)
}
