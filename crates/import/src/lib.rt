// Records of version one's papers: 20 bytes, with a rate and an MTA that are floats, become the 15
// bytes of a conversion and an MTA.
#![tactic(auto)]

ghost use Rattle.std.specs.Prelude.{◌≡◌};
ghost use Rattle.std.specs.Float.{binary64};
ghost use Rattle.std.specs.Float.Ieee.{of_bits};
ghost use Rattle.import.specs.Import.{old_record, are_currencies, with_mta, take_over, new_bytes, import_record, imported};
ghost use Rattle.mta.specs.Mta.{mta_of};

use money::{AccumulatorAmount, Rate};
use rate::Pair;
use refusal::Refusal;

const OLD_LENGTH: usize = 20;

const NEW_LENGTH: usize = 15;

// What an old record says: both codes, a rate and an MTA.
#[derive(Drop)]
pub struct OldRecord {
    pub rate: f64,
    pub mta: f64,
    pub from: u16,
    pub to: u16,
}

// What it becomes: a conversion and an MTA of a set-up.
#[derive(Drop)]
pub struct NewRecord {
    pub mta: AccumulatorAmount,
    pub conversion: Rate,
}

// The float of eight bytes. Patterns above the infinities', their signs apart, are not-a-number.
fn float_of(bits: u64) -> f64
    ensures { result ≡ of_bits binary64 bits }
{
    if bits % 0x8000_0000_0000_0000 <= 0x7FF0_0000_0000_0000 {
        f64::from_bits(bits)
    } else {
        0.0 / 0.0
    }
}

// From and to (2 each), rate, MTA (8 each).
fn old_record(old: &[u8]) -> OldRecord
    ensures { result ≡ old_record old.now }
{
    OldRecord {
        rate: float_of(wire::u64_at(old, 4)),
        mta: float_of(wire::u64_at(old, 12)),
        from: wire::u16_at(old, 0),
        to: wire::u16_at(old, 2),
    }
}

// Both codes are three digits, and from is not to.
fn are_currencies(from: u16, to: u16) -> bool
    ensures { result ≡ are_currencies from to }
{
    wire::is_currency(from) & wire::is_currency(to) & (from != to)
}

// The new record, if its MTA is taken.
fn with_mta(conversion: Rate, mta: f64) -> Result<NewRecord, Refusal>
    ensures { result ≡ with_mta conversion (mta_of mta) }
{
    let mta = mta::mta_of(mta).ok_or(Refusal::BadMta)?;
    Ok(NewRecord { mta, conversion })
}

// The new record of an old one: the codes are tested first, then the rate, then the MTA.
pub fn take_over(old: OldRecord) -> Result<NewRecord, Refusal>
    ensures { result ≡ take_over old }
{
    if !are_currencies(old.from, old.to) {
        return Err(Refusal::OutOfRange);
    }
    let Pair { digits, shift } = rate::rate_of(old.rate).ok_or(Refusal::BadRate)?;
    let conversion = Rate {
        from: old.from,
        to: old.to,
        digits,
        shift,
    };
    with_mta(conversion, old.mta)
}

// The bytes of a new record: a conversion (7), an MTA (8).
fn encode(new: NewRecord) -> [u8; NEW_LENGTH]
    ensures { result ≡ new_bytes new }
{
    let conversion = new.conversion;
    let mut bytes = [0u8; NEW_LENGTH];
    bytes[..2].copy_from_slice(&conversion.from.to_be_bytes());
    bytes[2..4].copy_from_slice(&conversion.to.to_be_bytes());
    bytes[4..6].copy_from_slice(&conversion.digits.to_be_bytes());
    bytes[6] = conversion.shift;
    bytes[7..].copy_from_slice(&new.mta.0.to_be_bytes());
    bytes
}

// Sets the first 15 bytes of the room to an old record's new bytes, or refuses and sets none.
pub fn import_record(old: &[u8], room: &mut [u8]) -> Result<(), Refusal>
    ensures { (result ≡ import_record old.now room.old)
        × (room.new ≡ imported old.now room.old) }
{
    if old.len() != OLD_LENGTH {
        return Err(Refusal::Unreadable);
    }
    let new = take_over(old_record(old))?;
    if room.len() < NEW_LENGTH {
        return Err(Refusal::RoomTooSmall);
    }
    room[..NEW_LENGTH].copy_from_slice(&encode(new));
    Ok(())
}
