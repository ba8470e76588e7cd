// An amount in six bytes of decimal digits, two to a byte.
#![tactic(auto)]

ghost use Rattle.std.specs.Prelude.{◌≡◌};
ghost use Rattle.digits.specs.Digits.{are_pairs, pairs_value};

// No digit of the amount at a place is above 9.
pub fn are_pairs(s: &[u8], at: u8) -> bool
    ensures { result ≡ are_pairs s.now at 6 }
{
    (0..6).all(|i| wire::is_pair(wire::byte_at(s, at as usize + i)))
}

// The amount that the digits at a place write. By a place's number: what lies past the end reads as
// 0, so there is no slice to go over.
pub fn pairs_value(s: &[u8], at: u8) -> u64
    ensures { result ≡ pairs_value s.now at 6 }
{
    let mut amount: u64 = 0;
    for i in 0..6 {
        amount = amount * 100 + wire::pair_value(wire::byte_at(s, at as usize + i)) as u64;
    }
    amount
}
