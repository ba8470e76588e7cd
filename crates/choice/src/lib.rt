// The profile that a paper's file selects.
#![tactic(auto)]

ghost use Rattle.std.specs.Prelude.{◌≡◌};
ghost use Rattle.choice.specs.Choice.{slots_of, selected_in};

use bodies::is_cpace;
use rules::Values;
use selection::Selected;
use shape::{Family, SelectionFile};
use slot::Slots;

// What the file's entries may test: a CPACE card's accumulators and counters, as they are.
pub fn slots_of(family: Family, values: Values) -> Slots
    ensures { result ≡ slots_of family values }
{
    let amounts = values.accumulators;
    let counts = values.counters;
    Slots {
        testable: is_cpace(family),
        amounts: [amounts[0].0, amounts[1].0, amounts[2].0, amounts[3].0],
        counts,
    }
}

// What the paper's file selects for the terminal's data. A file that does not lie in the paper is
// empty.
pub fn select_profile(
    selecting: Option<SelectionFile>,
    slots: Slots,
    paper: &[u8],
    data: &[u8],
) -> Option<Selected>
    ensures { result ≡ selected_in selecting slots paper.now «data».now }
{
    let SelectionFile {
        start,
        end,
        entries,
    } = selecting?;
    let file = paper.get(start..end).unwrap_or(&[]);
    selection::select(file, entries, data, slots)
}
