// The bytes of a log record's values: the last ones of a number, an amount in digits, a First's date.
#![tactic(auto)]

ghost use Rattle.std.specs.Prelude.{◌≡◌, ◌%◌, length};
ghost use Rattle.iad.specs.Iad.{pairs_of};
ghost use Rattle.log_bytes.specs.LogBytes.{octets, date_bytes};

// The last byte of a number.
pub fn low_byte(n: u64) -> u8
    ensures { result ≡ n % 256 }
{
    (n % 256) as u8
}

// The last five bytes of a number.
pub fn five_bytes(n: u64) -> [u8; 5]
    ensures { (result ≡ octets 5 n) × (length result ≡ 5) }
{
    let n1 = n / 256;
    let n2 = n1 / 256;
    let n3 = n2 / 256;
    [
        low_byte(n3 / 256),
        low_byte(n3),
        low_byte(n2),
        low_byte(n1),
        low_byte(n),
    ]
}

// The last twelve digits of an amount, two to a byte.
pub fn twelve_digits(amount: u64) -> [u8; 6]
    ensures { (result ≡ pairs_of amount 6) × (length result ≡ 6) }
{
    let a1 = amount / 100;
    let a2 = a1 / 100;
    let a3 = a2 / 100;
    let a4 = a3 / 100;
    [
        wire::pair_of(a4 / 100),
        wire::pair_of(a4),
        wire::pair_of(a3),
        wire::pair_of(a2),
        wire::pair_of(a1),
        wire::pair_of(amount),
    ]
}

// The date of a First; zeros in a paper without dates.
pub fn date_of(first: &[u8], dated: bool) -> [u8; 3]
    ensures { (result ≡ date_bytes first.now dated) × (length result ≡ 3) }
{
    if dated {
        return [
            wire::byte_at(first, 12),
            wire::byte_at(first, 13),
            wire::byte_at(first, 14),
        ];
    }
    [0, 0, 0]
}
