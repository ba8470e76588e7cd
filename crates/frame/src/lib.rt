// The frame of a PUT DATA command, by CPA 18.8: what stands before its elements and behind them.
#![tactic(auto)]

ghost use Rattle.std.specs.Prelude.{◌≡◌, ◌<◌, ◌≤◌};
ghost use Rattle.frame.specs.Frame.{is_put_data, list_place, mac_place, is_secured};

use element::{ACCUMULATORS, COUNTERS, is_length, length_at, length_size};
use wire::{byte_at, u16_at};

// CLA 0C, INS DA, P1 P2, and Lc, behind which stand exactly Lc bytes.
pub fn is_put_data(command: &[u8]) -> bool
    ensures { result ≡ is_put_data command.now }
{
    let object = u16_at(command, 2);
    (byte_at(command, 0) == 0x0C)
        & (byte_at(command, 1) == 0xDA)
        & ((object == ACCUMULATORS) | (object == COUNTERS))
        & (command.len() == 5 + byte_at(command, 4) as usize)
}

// Where the elements begin.
pub fn list_place(command: &[u8]) -> usize
    ensures { (result ≡ list_place command.now) × (result ≤ 8) }
{
    6 + length_size(command, 6)
}

// Where the elements end and the MAC begins.
pub fn mac_place(command: &[u8]) -> usize
    ensures { (result ≡ mac_place command.now) × (result < 264) }
{
    list_place(command) + length_at(command, 6)
}

// The secured command data: 81, a length, the elements, and 8E 04 before the MAC, which is not
// looked at.
pub fn is_secured(command: &[u8]) -> bool
    ensures { result ≡ is_secured command.now }
{
    let mac = mac_place(command);
    (byte_at(command, 5) == 0x81)
        & is_length(byte_at(command, 6))
        & (byte_at(command, mac) == 0x8E)
        & (byte_at(command, mac + 1) == 4)
        & (command.len() == mac + 6)
}
