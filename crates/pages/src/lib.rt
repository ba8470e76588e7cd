// A stack of papers, taken block by block from the bytes at hand. The page of a paper is its lines and
// an empty one.
#![tactic(auto)]

ghost use Rattle.std.specs.Prelude.{◌≡◌, length};
ghost use Rattle.paper_text.specs.PaperText.{words_put};
ghost use Rattle.pages.specs.Turn.{page_put, page_room, deal_of, said_by, room_by, words_by};

use blocks::{Front, Turned};
use rules::Words;

// The page of a paper.
fn put_page(paper: &[u8], words: &mut Words, room: &mut [u8], at: usize) -> Option<usize>
    ensures { (result ≡ page_put words.old paper.now (length room.old) at) × (room.new ≡ page_room words.old paper.now room.old at) × (words.new ≡ words_put words.old paper.now room.old at) }
{
    let end = paper_text::put_text(paper, words, room, at)?;
    room[end] = b'\n';
    Some(end + 1)
}

// The block at the front of the bytes at hand.
pub fn turn(input: &[u8], skip: usize, words: &mut Words, room: &mut [u8], to: usize) -> Turned
    ensures { (result ≡ said_by (length room.old) to skip (deal_of skip words.old input.now)) × (room.new ≡ room_by room.old to (deal_of skip words.old input.now)) × (words.new ≡ words_by (length room.old) to words.old (deal_of skip words.old input.now)) }
{
    match blocks::take_front(input, skip, room, to) {
        Front::Done(turned) => turned,
        Front::Paper { end } => {
            blocks::turn_over(put_page(&input[4..end], words, room, to), end, 0, to)
        }
    }
}
