// What stands where in the bodies of Start and First, by the paper's dates and the card's family.
#![tactic(auto)]

ghost use Rattle.std.specs.Prelude.{◌≡◌, ◌≤◌};
ghost use Rattle.bodies.specs.Bodies.{is_cpace, interface_of, start_length, profile_named, plain_length, first_length, cvm_of, cashback_of};

use cpace::Cvm;
use shape::{Family, Span};

pub fn is_cpace(family: Family) -> bool
    ensures { result ≡ is_cpace family }
{
    matches!(family, Family::Cpace { .. })
}

// The interface, a CPACE Start's first byte.
pub fn interface_of(family: Family, body: &[u8]) -> u8
    ensures { result ≡ interface_of family body.now }
{
    match family {
        Family::Cpa => 0,
        Family::Cpace { .. } => wire::byte_at(body, 0),
    }
}

// The profile, and before it a CPACE card's interface.
pub fn start_length(family: Family) -> usize
    ensures { result ≡ start_length family }
{
    match family {
        Family::Cpa => 1,
        Family::Cpace { .. } => 2,
    }
}

// The profile, behind a CPACE card's interface.
pub fn profile_named(family: Family, body: &[u8]) -> u8
    ensures { result ≡ profile_named family body.now }
{
    match family {
        Family::Cpa => wire::byte_at(body, 0),
        Family::Cpace { .. } => wire::byte_at(body, 1),
    }
}

// 12 bytes, and the date's 3 where the paper is dated.
fn plain_length(dating: Option<Span>) -> usize
    ensures { (result ≡ plain_length dating) × (result ≤ 15) }
{
    match dating {
        None => 12,
        Some(_) => 15,
    }
}

// These, and the 9 bytes of a CPACE card's CVM results and cashback.
pub fn first_length(dating: Option<Span>, family: Family) -> usize
    ensures { result ≡ first_length dating family }
{
    let plain = plain_length(dating);
    if is_cpace(family) { plain + 9 } else { plain }
}

pub fn read_cvm(dating: Option<Span>, family: Family, body: &[u8]) -> Cvm
    ensures { result ≡ cvm_of dating family body.now }
{
    if is_cpace(family) {
        return cpace::cvm_at(body, plain_length(dating));
    }
    Cvm::NoCvm
}

pub fn read_cashback(dating: Option<Span>, family: Family, body: &[u8]) -> bool
    ensures { result ≡ cashback_of dating family body.now }
{
    if is_cpace(family) {
        return cpace::has_cashback(body, plain_length(dating) + 3);
    }
    false
}
