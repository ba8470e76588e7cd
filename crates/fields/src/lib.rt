// The fields of one entry of the Profile Selection File of CPA Annex A, by TABLE A-1: its length, the
// position P and the length L of a stretch of the data, n blocks of L bytes, the check type, two actions.
#![tactic(auto)]

ghost use Rattle.std.specs.Prelude.{◌≡◌, ◌<◌};
ghost use Rattle.fields.specs.Fields.{block_place, blocks_end, check_type, positive_action, negative_action};

use wire::byte_at;

// Where block i starts.
pub fn block_place(entry: &[u8], i: u8) -> usize
    ensures { (result ≡ block_place entry.now i) × (result < 65536) }
{
    4 + i as usize * byte_at(entry, 2) as usize
}

// Where the blocks end, and the check type and the two actions stand.
pub fn blocks_end(entry: &[u8]) -> usize
    ensures { (result ≡ blocks_end entry.now) × (result < 65536) }
{
    block_place(entry, byte_at(entry, 3))
}

pub fn check_type(entry: &[u8]) -> u8
    ensures { result ≡ check_type entry.now }
{
    byte_at(entry, blocks_end(entry))
}

pub fn positive_action(entry: &[u8]) -> u8
    ensures { result ≡ positive_action entry.now }
{
    byte_at(entry, blocks_end(entry) + 1)
}

pub fn negative_action(entry: &[u8]) -> u8
    ensures { result ≡ negative_action entry.now }
{
    byte_at(entry, blocks_end(entry) + 2)
}
