// A number in decimal, written into lent room from a place on; the place behind is returned.
#![tactic(auto)]

ghost use Rattle.std.specs.Prelude.{◌≡◌, [], ◌∷◌, ◌+◌, ◌≤◌, ◌<◌, length};
ghost use Rattle.text.specs.Stored.{Stored};
ghost use Rattle.numerals.specs.Numeral.{numeral, number_placed, number_behind, field_placed, field_behind};

// The most digits that a number has.
pub const LONGEST: usize = 20;

fn put_digit(room: &mut [u8], at: usize, digit: u64) -> usize
    requires { (at + 1 ≤ length room.old) × (digit < 10) }
    ensures { Stored room.old at ((48 + digit) ∷ []) 1 result room.new }
{
    room[at] = b'0' + digit as u8;
    at + 1
}

// The digits of the tens, and the one that they leave.
fn put_digits(room: &mut [u8], at: usize, n: u64) -> usize
    requires { at + length (numeral n) ≤ length room.old }
    ensures { Stored room.old at (numeral n) (length (numeral n)) result room.new }
{
    if n < 10 {
        return put_digit(room, at, n);
    }
    let tens = n / 10;
    let at = put_digits(room, at, tens);
    put_digit(room, at, n - tens * 10)
}

// Where the longest number fits.
pub fn put_number(room: &mut [u8], at: usize, n: u64) -> usize
    ensures { (result ≡ number_behind (length room.old) at n)
        × (room.new ≡ number_placed room.old at n) }
{
    if room.len() < at {
        return at;
    }
    if room.len() - at < LONGEST {
        return at;
    }
    put_digits(room, at, n)
}

// A number and the mark behind it, where the longest fits with its mark.
pub fn put_field(room: &mut [u8], at: usize, n: u64, mark: u8) -> usize
    ensures { (result ≡ field_behind (length room.old) at n mark)
        × (room.new ≡ field_placed room.old at n mark) }
{
    if room.len() < at {
        return at;
    }
    if room.len() - at <= LONGEST {
        return at;
    }
    let end = put_digits(room, at, n);
    room[end] = mark;
    end + 1
}
