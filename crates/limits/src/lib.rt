// What it is to exceed a limit, and flags as bits (document 01, "Start and the checks").
#![tactic(auto)]

ghost use Rattle.std.specs.Prelude.{◌≡◌, ◌≤◌};
ghost use Rattle.limits.specs.Limits.{bit};

pub fn bit(flag: bool) -> u8
    ensures { (result ≡ bit flag) × (result ≤ 1) }
{
    u8::from(flag)
}
