// What CPACE asks of a transaction (document 02, Thirteen): its cardholder verification method (CVM),
// the control that closes an accumulator or a counter to it, and its cashback.
#![tactic(auto)]

ghost use Rattle.std.specs.Prelude.{◌≡◌};
ghost use Rattle.cpace.specs.Cpace.{method_of, cvm_at, closes, cashback_at};

// The transaction's CVM. Offline PIN is none of ours: no command of this card verifies one.
#[derive(Clone, Copy)]
pub enum Cvm {
    OnlinePin,
    Signature,
    NoCvm,
}

// The CVM that was carried out, by the low six bits of its code.
fn method_of(code: u8) -> Cvm
    ensures { result ≡ method_of code }
{
    let method = code % 64;
    match method {
        0x02 => Cvm::OnlinePin,
        0x1E => Cvm::Signature,
        _ => Cvm::NoCvm,
    }
}

// The transaction's CVM by the three bytes of CVM results at a place, the last of which is then 0.
pub fn cvm_at(s: &[u8], at: usize) -> Cvm
    ensures { result ≡ cvm_at s.now at }
{
    if s.len() <= at {
        return Cvm::NoCvm;
    }
    if wire::byte_at(s, at + 2) == 0 {
        return method_of(wire::byte_at(s, at));
    }
    Cvm::NoCvm
}

// Whether a control has the bit of a CVM, and so closes its slot to the transaction.
pub fn closes(control: u8, cvm: Cvm) -> bool
    ensures { result ≡ closes control cvm }
{
    match cvm {
        Cvm::OnlinePin => control / 4 % 2 == 1,
        Cvm::Signature => control / 2 % 2 == 1,
        Cvm::NoCvm => control % 2 == 1,
    }
}

// Whether any of the six bytes of the cashback amount at a place is not 0.
pub fn has_cashback(s: &[u8], at: usize) -> bool
    ensures { result ≡ cashback_at s.now at }
{
    if s.len() <= at {
        return false;
    }
    wire::u16_at(s, at) as u64 * 4_294_967_296 + wire::u32_at(s, at + 2) as u64 != 0
}
