// Amounts of two kinds, and the conversion that alone leads from one to the other.
#![tactic(auto)]

ghost use Rattle.std.specs.Prelude.{◌≡◌, ◌+◌, ◌≤◌, ◌<◌, ◌^◌};
ghost use Rattle.money.specs.Money.{max, stopped, is_for, rate_for, is_rate, rounded, scaled, amount_or_over, convert_of};

pub const MAX: u64 = 999_999_999_999;

// An amount in the transaction's currency.
#[derive(Clone, Copy)]
pub struct TransactionAmount(pub u64);

// An amount in the currency of an accumulator, of a limit or of the maximum transaction amount.
#[derive(Clone, Copy)]
pub struct AccumulatorAmount(pub u64);

// One entry of the conversion table: digits d, and shift, the paper's s + 9. A blank one has d 0.
#[derive(Clone, Copy)]
pub struct Rate {
    pub from: u16,
    pub to: u16,
    pub digits: u16,
    pub shift: u8,
}

// The conversion table, and what becomes of a fraction: by syllabus 0 it is dropped, by syllabus 1
// rounded up to a whole unit.
#[derive(Clone, Copy)]
pub struct Rates {
    pub entries: [Rate; 5],
    pub up: bool,
}

// What an amount comes to in another currency: an amount, over (above MAX), or nothing where the
// table has no entry. Three ways: a Result with an error of two kinds would be no plainer.
#[derive(Drop)]
pub enum Converted {
    Amount(AccumulatorAmount),
    Over,
    NoEntry,
}

// MAX if larger.
pub fn stop(n: u64) -> u64
    ensures { result ≡ stopped n }
{
    n.min(MAX)
}

// The sum of two amounts, stopping at MAX.
pub fn plus(value: AccumulatorAmount, more: AccumulatorAmount) -> AccumulatorAmount
    ensures { result.0 ≡ stopped (value.0 + more.0) }
{
    AccumulatorAmount(stop(value.0.saturating_add(more.0)))
}

fn is_for(rate: Rate, from: u16, to: u16) -> bool
    ensures { result ≡ is_for rate from to }
{
    (rate.from == from) & (rate.to == to)
}

// The entry for a pair, or a blank one.
fn rate_for(rates: Rates, from: u16, to: u16) -> Rate
    ensures { result ≡ rate_for rates.entries from to 0 5 }
{
    for rate in &rates.entries {
        if is_for(*rate, from, to) {
            return *rate;
        }
    }
    Rate {
        from: 0,
        to: 0,
        digits: 0,
        shift: 0,
    }
}

// Digits and shift within their ranges.
fn is_rate(rate: Rate) -> bool
    ensures { result ≡ is_rate rate }
{
    (1 <= rate.digits) & (rate.digits <= 9_999) & (rate.shift <= 12)
}

// n / k, its fraction dropped or rounded up.
fn divide(n: u64, k: u64, up: bool) -> u64
    requires { (0 < k) × (n + k < 2 ^ 64) }
    ensures { result ≡ rounded up n k }
{
    if up {
        return (n + (k - 1)) / k;
    }
    n / k
}

// amount x d x 10^s, its fraction dropped or rounded up.
fn scale(amount: u64, rate: Rate, up: bool) -> u64
    requires { (amount ≤ max) × (rate.digits ≤ 9999) × (rate.shift ≤ 12) }
    ensures { result ≡ scaled up amount rate }
{
    let product = amount * rate.digits as u64;
    let exponent = rate.shift.abs_diff(9);
    // Worked out, so that the rule shows: no `pow`.
    let mut power: u64 = 1;
    for _ in 0..exponent {
        power *= 10;
    }
    if rate.shift < 9 {
        divide(product, power, up)
    } else {
        product * power
    }
}

// An amount, or over if it is larger than MAX.
fn amount_or_over(n: u64) -> Converted
    ensures { result ≡ amount_or_over n }
{
    if MAX < n {
        return Converted::Over;
    }
    Converted::Amount(AccumulatorAmount(n))
}

// An amount in a currency, as an amount in another. An amount above MAX reads as MAX.
pub fn convert(amount: TransactionAmount, from: u16, to: u16, rates: Rates) -> Converted
    ensures { result ≡ convert_of amount from to rates }
{
    let spent = stop(amount.0);
    if from == to {
        return Converted::Amount(AccumulatorAmount(spent));
    }
    let rate = rate_for(rates, from, to);
    if is_rate(rate) {
        amount_or_over(scale(spent, rate, rates.up))
    } else {
        Converted::NoEntry
    }
}
