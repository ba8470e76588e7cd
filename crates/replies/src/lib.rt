// What a printed line of a sitting says, read back from its bytes: words with one space between them.
#![tactic(auto)]

ghost use Rattle.std.specs.Prelude.{◌≡◌, ◌<◌};
ghost use Rattle.replies.specs.Replies.{before, behind, digit_value, pair_at, decimal_in, kind_in, cvr_in, reply_in, is_ending};

use journal::Cryptogram;
use state::Kind;

const SPACE: u8 = b' ';

// The hex digits of an IAD, and where those of its CVR and its profile stand among them.
const IAD: usize = 64;

const CVR: usize = 6;

const PROFILE: usize = 34;

// The value of a hex digit: "0" is 30 and "A" 41.
fn digit_value(digit: u8) -> u64
    ensures { (result ≡ digit_value digit) × (result < 25) }
{
    if digit <= b'9' {
        digit as u64 % 16
    } else {
        digit as u64 % 16 + 9
    }
}

// The byte whose two hex digits stand at a place.
fn pair_at(digits: &[u8], at: usize) -> u64
    requires { at < 64 }
    ensures { (result ≡ pair_at digits.now at) × (result < 409) }
{
    digit_value(wire::byte_at(digits, at)) * 16 + digit_value(wire::byte_at(digits, at + 1))
}

// The number that a decimal's last five digits write.
fn decimal_in(digits: &[u8]) -> u64
    ensures { result ≡ decimal_in digits.now }
{
    let mut number: u64 = 0;
    for digit in digits {
        number = (number * 10 + *digit as u64 % 16) % 100_000;
    }
    number
}

// A CID's first digit tells an AAC (00), a TC (40) and an ARQC (80).
fn kind_in(cid: &[u8]) -> Kind
    ensures { result ≡ kind_in cid.now }
{
    match wire::byte_at(cid, 0) {
        b'0' => Kind::Aac,
        b'4' => Kind::Tc,
        _ => Kind::Arqc,
    }
}

// The five bytes of an IAD's CVR as one number.
fn cvr_in(iad: &[u8]) -> u64
    ensures { result ≡ cvr_in iad.now }
{
    let upper = (pair_at(iad, CVR) * 256 + pair_at(iad, CVR + 2)) * 256 + pair_at(iad, CVR + 4);
    (upper * 256 + pair_at(iad, CVR + 6)) * 256 + pair_at(iad, CVR + 8)
}

// What a line says of a cryptogram. The line of one has five words: number, 0, CID, ATC and IAD.
pub fn reply_in(line: &[u8]) -> Option<Cryptogram>
    ensures { result ≡ reply_in line.now }
{
    let cid = pieces::behind(pieces::behind(line, SPACE), SPACE);
    let atc = pieces::behind(cid, SPACE);
    let iad = pieces::behind(atc, SPACE);
    if iad.len() < IAD {
        return None;
    }
    Some(Cryptogram {
        kind: kind_in(cid),
        atc: decimal_in(pieces::before(atc, SPACE)),
        profile: (pair_at(iad, PROFILE) % 256) as u8,
        cvr: cvr_in(iad),
    })
}

// Whether it says refusal 9, which ends a paper.
pub fn is_ending(line: &[u8]) -> bool
    ensures { result ≡ is_ending line.now }
{
    wire::byte_at(pieces::behind(line, SPACE), 0) == b'9'
}
