// The Profile Selection File of CPA Annex A: its entries, and the walk over them to a profile.
#![tactic(auto)]

ghost use Rattle.std.specs.Prelude.{◌≡◌};
ghost use Rattle.selection.specs.Selection.{first_entry, below, skipped, is_file, selection_of};

use entry::Action;
use slot::Slots;
use wire::byte_at;

#[derive(Clone, Copy)]
pub struct Selected {
    pub profile: u8,
    pub visits: u8,
}

// The first entry, with its length byte. One that is cut short is what there is of it.
fn first_entry(file: &[u8]) -> &[u8]
    ensures { result.now ≡ first_entry file.now }
{
    let end = byte_at(file, 0) as usize + 1;
    if end <= file.len() {
        return &file[..end];
    }
    file
}

// The entries below the first.
fn entries_below(file: &[u8]) -> &[u8]
    ensures { result.now ≡ below file.now }
{
    let end = byte_at(file, 0) as usize + 1;
    if end <= file.len() {
        return &file[end..];
    }
    &file[..0]
}

// The file from some entries down: only their length bytes are read.
fn move_down(file: &[u8], entries: u8) -> &[u8]
    ensures { result.now ≡ skipped file.now entries }
{
    if entries == 0 {
        return file;
    }
    move_down(entries_below(file), entries - 1)
}

// Whether a file is so many entries, each its length byte and as many bytes, and nothing more.
pub fn is_file(file: &[u8], entries: u8) -> bool
    ensures { result ≡ is_file file.now entries }
{
    if entries == 0 {
        return file.len() == 0;
    }
    if file.len() <= byte_at(file, 0) as usize {
        return false;
    }
    is_file(entries_below(file), entries - 1)
}

// The profile that a file's entries select for the terminal's data and the card's slots, and how many of
// them were visited.
pub fn select(file: &[u8], entries: u8, data: &[u8], slots: Slots) -> Option<Selected>
    ensures { result ≡ selection_of file.now entries «data».now slots }
{
    if entries == 0 {
        return None;
    }
    match entry::take_action(first_entry(file), data, slots) {
        Action::Profile(profile) => Some(Selected { profile, visits: 1 }),
        Action::Move(down) => {
            if entries <= down {
                return None;
            }
            let chosen = select(move_down(file, down), entries - down, data, slots)?;
            Some(Selected {
                visits: chosen.visits + 1,
                ..chosen
            })
        }
        Action::Refused => None,
    }
}
