// The fresh card of a set-up.
#![tactic(auto)]

ghost use Rattle.std.specs.Prelude.{◌≡◌};
ghost use Rattle.fresh.specs.Fresh.{fresh_state};

use marks::Scripts;
use setup::Fresh;
use state::{History, Phase, State};

// A fresh card's history is clear but for "go online next", and no transaction is open.
pub fn fresh_card(fresh: Fresh) -> State
    ensures { result ≡ fresh_state fresh }
{
    let values = fresh.values;
    let last = fresh.last;
    State {
        values,
        phase: Phase::Idle,
        atc: fresh.atc,
        last,
        history: History {
            uncompleted: false,
            online: fresh.online,
            failed: false,
            unable: false,
            missing: false,
        },
        scripts: Scripts::fresh(),
    }
}
