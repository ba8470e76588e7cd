// What goes into a transaction log (request Eight): after each cryptogram, whether it closed a
// transaction, and whether that is logged.
#![tactic(auto)]

ghost use Rattle.std.specs.Prelude.{◌≡◌};
ghost use Rattle.journal.specs.Journal.{heard_as, is_offline, is_wanted, is_logging};

use state::Kind;

// The kinds of a paper's records that a log listens to.
const FIRST: u8 = 3;

const SECOND: u8 = 4;

const Y3: u32 = 0x5933;

const Z3: u32 = 0x5A33;

// The switches of Table L-10 that say what is logged.
const DECLINED: u8 = 0x80;

const APPROVED: u8 = 0x40;

const OFFLINE_ONLY: u8 = 0x20;

// What a set-up says of its log: the ring's size, the switches, the profiles' numbers, 0 where there is
// none, and whether each of them logs.
#[derive(Clone, Copy)]
pub struct Logging {
    pub size: u8,
    pub switches: u8,
    pub numbers: [u8; 4],
    pub logs: [bool; 4],
}

// What was said, as far as a log listens.
#[derive(Drop)]
pub enum Heard {
    First,
    Second { code: u32 },
    Other,
}

// A cryptogram, as far as a log listens: the CVR is its five bytes as one number.
#[derive(Clone, Copy)]
pub struct Cryptogram {
    pub kind: Kind,
    pub atc: u64,
    pub profile: u8,
    pub cvr: u64,
}

// What is heard of a record of a kind; where it is a Second, its response code.
pub fn heard_as(kind: u8, code: u16) -> Heard
    ensures { result ≡ heard_as kind code }
{
    match kind {
        FIRST => Heard::First,
        SECOND => Heard::Second { code: code as u32 },
        _ => Heard::Other,
    }
}

// Whether an approval is one that was given offline: at First, and at Second after Y3 or Z3.
fn is_offline(said: Heard) -> bool
    ensures { result ≡ is_offline said }
{
    match said {
        Heard::First => true,
        Heard::Second { code } => (code == Y3) | (code == Z3),
        Heard::Other => false,
    }
}

// Whether the switches ask for a transaction that such an answer closes.
pub fn is_wanted(switches: u8, said: Heard, kind: Kind) -> bool
    ensures { result ≡ is_wanted switches said kind }
{
    match kind {
        Kind::Aac => switches / DECLINED % 2 == 1,
        Kind::Tc => {
            (switches / APPROVED % 2 == 1) & ((switches / OFFLINE_ONLY % 2 == 0) | is_offline(said))
        }
        Kind::Arqc => false,
    }
}

// Whether the profile of a number logs.
pub fn is_logging(logging: Logging, profile: u8) -> bool
    ensures { result ≡ is_logging logging profile }
{
    let numbers = logging.numbers;
    let logs = logging.logs;
    ((numbers[0] == profile) & logs[0])
        | ((numbers[1] == profile) & logs[1])
        | ((numbers[2] == profile) & logs[2])
        | ((numbers[3] == profile) & logs[3])
}
