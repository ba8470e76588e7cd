// A block of a stack that is a run: the size of the room to lend, in 4 bytes, and the records; and the room as it
// is lent.
#![tactic(auto)]

ghost use Rattle.std.specs.Prelude.{◌≡◌, ◌≤◌, length, drop, replicate};
ghost use Rattle.run_block.specs.RunBlock.{filler, size_in, records_in, head_in};

// The largest room that is lent.
const LARGEST_ROOM: usize = 65_536;
// What the room holds before the run.
const FILLER: u8 = 0xAA;

// Nothing of an earlier run is left in the room.
pub fn fill(room: &mut [u8])
    ensures { room.new ≡ replicate (length room.old) filler }
{
    room.fill(FILLER);
}

// The size of the room that a block asks: its first 4 bytes, those that are missing being 0, and never
// more than the largest.
pub fn size_in(block: &[u8]) -> usize
    ensures { (result ≡ size_in block.now) × (result ≤ 65536) }
{
    (wire::u32_at(block, 0) as usize).min(LARGEST_ROOM)
}

// Where a block's records begin.
pub fn head_in(block: &[u8]) -> usize
    ensures { (result ≡ head_in block.now) × (result ≤ length block.now) × (drop result block.now ≡ records_in block.now) }
{
    block.len().min(4)
}
