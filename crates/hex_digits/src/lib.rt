// The two hex digits of a byte.
#![tactic(auto)]

ghost use Rattle.std.specs.Prelude.{◌≡◌, ◌/◌, ◌%◌, ◌<◌};
ghost use Rattle.hex_digits.specs.Hex.{hex_digit};

// "0" to "9", then "A" to "F", whose codes begin 7 further on.
fn hex_digit(n: u8) -> u8
    requires { n < 16 }
    ensures { result ≡ hex_digit n }
{
    b'0' + n + n / 10 * 7
}

// The hex digit of a byte's upper half.
pub fn upper_digit(byte: u8) -> u8
    ensures { result ≡ hex_digit (byte / 16) }
{
    hex_digit(byte / 16)
}

// The hex digit of a byte's lower half.
pub fn lower_digit(byte: u8) -> u8
    ensures { result ≡ hex_digit (byte % 16) }
{
    hex_digit(byte % 16)
}
