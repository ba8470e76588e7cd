// The Issuer Application Data: 32 bytes from its fields, and back.
#![tactic(auto)]

ghost use Rattle.std.specs.Prelude.{◌≡◌, ◌<◌, length, replicate};
ghost use Rattle.wire.specs.Wire.{pair_of};
ghost use Rattle.iad.specs.Iad.{iad_bytes, cvr_of, pairs_value, iad_of, are_zeros, has_fixed_bytes, is_cvr, are_pairs, is_profile};
ghost use Rattle.iad.specs.Iad.{is_iad, read_iad, is_writable, write_iad, written};

use money::AccumulatorAmount;
use refusal::Refusal;

const LENGTH: usize = 32;

// The Card Verification Results, byte by byte.
#[derive(Clone, Copy)]
pub struct Cvr {
    pub byte1: u8,
    pub byte2: u8,
    pub byte3: u8,
    pub byte4: u8,
    pub byte5: u8,
}

// What an IAD says: accumulator and counters are the values sent, 0 where none is.
#[derive(Clone, Copy)]
pub struct Iad {
    pub accumulator: AccumulatorAmount,
    pub key: u8,
    pub cvr: Cvr,
    pub first: u8,
    pub second: u8,
    pub profile: u8,
}

// Neither type field is 11, and byte 5 is zero.
fn is_cvr(cvr: Cvr) -> bool
    ensures { result ≡ is_cvr cvr }
{
    (cvr.byte1 / 64 != 0b11) & (cvr.byte1 / 16 % 4 != 0b11) & (cvr.byte5 == 0)
}

fn is_profile(profile: u8) -> bool
    ensures { result ≡ is_profile profile }
{
    (1 <= profile) & (profile <= 124)
}

// An accumulator of at most MAX, and fields whose bytes reading takes.
fn is_writable(iad: Iad) -> bool
    ensures { result ≡ is_writable iad }
{
    (iad.accumulator.0 <= money::MAX) & is_cvr(iad.cvr) & is_profile(iad.profile)
}

// A number below 100 as two decimal digits, one to a half of a byte.
fn pair(n: u32) -> u8
    requires { n < 100 }
    ensures { result ≡ pair_of n }
{
    (n + n / 10 * 6) as u8
}

// The bytes of an IAD; the last 14 stay zeros. Its 12 digits are two halves of six.
fn encode(iad: Iad) -> [u8; LENGTH]
    ensures { result ≡ iad_bytes iad }
{
    let amount = iad.accumulator.0;
    let high = (amount / 1_000_000 % 1_000_000) as u32;
    let low = (amount % 1_000_000) as u32;
    let mut bytes = [0u8; LENGTH];
    bytes[0] = 0x0F;
    bytes[1] = 0xA5;
    bytes[2] = iad.key;
    bytes[3] = iad.cvr.byte1;
    bytes[4] = iad.cvr.byte2;
    bytes[5] = iad.cvr.byte3;
    bytes[6] = iad.cvr.byte4;
    bytes[7] = iad.cvr.byte5;
    bytes[8] = pair(high / 10_000);
    bytes[9] = pair(high / 100 % 100);
    bytes[10] = pair(high % 100);
    bytes[11] = pair(low / 10_000);
    bytes[12] = pair(low / 100 % 100);
    bytes[13] = pair(low % 100);
    bytes[14] = iad.first;
    bytes[15] = iad.second;
    bytes[16] = 0x0F;
    bytes[17] = iad.profile;
    bytes
}

// Sets the first 32 bytes of the room, or refuses and sets none.
pub fn write(iad: Iad, room: &mut [u8]) -> Result<(), Refusal>
    ensures { (result ≡ write_iad iad room.old) × (room.new ≡ written iad room.old) }
{
    if !is_writable(iad) {
        return Err(Refusal::OutOfRange);
    }
    if room.len() < LENGTH {
        return Err(Refusal::RoomTooSmall);
    }
    let bytes = encode(iad);
    room[..LENGTH].copy_from_slice(&bytes);
    Ok(())
}

// The bytes that an IAD is written as; zeros for one that is out of range.
pub fn bytes_of(iad: Iad) -> [u8; LENGTH]
    ensures { (result ≡ written iad (replicate 32 0)) × (length result ≡ 32) }
{
    let mut room = [0u8; LENGTH];
    let _ = write(iad, &mut room);
    room
}

// The 14 bytes behind the profile are zeros.
fn are_zeros(s: &[u8]) -> bool
    ensures { result ≡ are_zeros s.now 18 14 }
{
    (wire::u64_at(s, 18) == 0) & (wire::u32_at(s, 26) == 0) & (wire::u16_at(s, 30) == 0)
}

fn has_fixed_bytes(s: &[u8]) -> bool
    ensures { result ≡ has_fixed_bytes s.now }
{
    (wire::byte_at(s, 0) == 0x0F)
        & (wire::byte_at(s, 1) == 0xA5)
        & (wire::byte_at(s, 16) == 0x0F)
        & are_zeros(s)
}

fn cvr_of(s: &[u8]) -> Cvr
    ensures { result ≡ cvr_of s.now }
{
    Cvr {
        byte1: wire::byte_at(s, 3),
        byte2: wire::byte_at(s, 4),
        byte3: wire::byte_at(s, 5),
        byte4: wire::byte_at(s, 6),
        byte5: wire::byte_at(s, 7),
    }
}

// No digit of the accumulator is above 9.
fn are_pairs(s: &[u8]) -> bool
    ensures { result ≡ are_pairs s.now 8 6 }
{
    let mut all = true;
    for i in 0..6 {
        all = all & wire::is_pair(wire::byte_at(s, 8 + i));
    }
    all
}

// The amount that the digits of the accumulator write.
fn pairs_value(s: &[u8]) -> u64
    ensures { result ≡ pairs_value s.now 8 6 }
{
    let mut amount: u64 = 0;
    for i in 0..6 {
        amount = amount * 100 + wire::pair_value(wire::byte_at(s, 8 + i)) as u64;
    }
    amount
}

fn is_iad(s: &[u8]) -> bool
    ensures { result ≡ is_iad s.now }
{
    if s.len() != LENGTH {
        return false;
    }
    has_fixed_bytes(s) & is_cvr(cvr_of(s)) & are_pairs(s) & is_profile(wire::byte_at(s, 17))
}

fn iad_of(s: &[u8]) -> Iad
    ensures { result ≡ iad_of s.now }
{
    Iad {
        accumulator: AccumulatorAmount(pairs_value(s)),
        key: wire::byte_at(s, 2),
        cvr: cvr_of(s),
        first: wire::byte_at(s, 14),
        second: wire::byte_at(s, 15),
        profile: wire::byte_at(s, 17),
    }
}

// The fields of an IAD, or that the bytes are none.
pub fn read(s: &[u8]) -> Result<Iad, Refusal>
    ensures { result ≡ read_iad s.now }
{
    if is_iad(s) {
        Ok(iad_of(s))
    } else {
        Err(Refusal::NotAnIad)
    }
}
