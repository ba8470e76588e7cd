// What stands in a text before its first mark, and what behind it.
#![tactic(auto)]

ghost use Rattle.std.specs.Prelude.{◌≡◌, ◌≤◌, ◌<◌, length};
ghost use Rattle.pieces.specs.Pieces.{place_of, before, behind, behind_place};

// The place of the first mark; the end where there is none.
fn place_of(text: &[u8], mark: u8) -> usize
    ensures { (result ≡ place_of mark text.now) × (result ≤ length text.now) }
{
    text.iter().position(|c| *c == mark).unwrap_or(text.len())
}

// The text up to the first mark, or all of it.
pub fn before(text: &[u8], mark: u8) -> &[u8]
    ensures { (result.now ≡ before mark text.now) × (result.ref_ptr ≡ text.entry.ref_ptr) }
{
    let at = place_of(text, mark);
    &text[..at]
}

// The text behind the first mark, or nothing of it.
pub fn behind(text: &[u8], mark: u8) -> &[u8]
    ensures { (result.now ≡ behind mark text.now) × (result.ref_ptr ≡ behind_place mark text.entry) }
{
    let at = place_of(text, mark);
    if at == text.len() {
        return &text[at..];
    }
    &text[at + 1..]
}
