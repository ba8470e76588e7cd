// The card's state, and what a command comes to.
#![tactic(auto)]

ghost use Rattle.std.specs.Prelude.{◌≡◌};
ghost use Rattle.state.specs.State.{cid_of, uncompleted_in, failed_in, unable_in, missing_in};
ghost use Rattle.state.specs.Ruling.{refused};

use calendar::Date;
use iad::Iad;
use marks::Scripts;
use purchase::Purchase;
use refusal::Refusal;
use rules::{Place, Values};

// The previous transactions: last online not completed, go online next, issuer authentication
// failed, unable to go online, issuer data not received.
#[derive(Clone, Copy)]
pub struct History {
    pub uncompleted: bool,
    pub online: bool,
    pub failed: bool,
    pub unable: bool,
    pub missing: bool,
}

// The history with one of them set.
impl History {
    pub fn with_uncompleted(mut self) -> History
        ensures { result ≡ uncompleted_in self }
    {
        self.uncompleted = true;
        self
    }

    pub fn with_failed(mut self) -> History
        ensures { result ≡ failed_in self }
    {
        self.failed = true;
        self
    }

    pub fn with_unable(mut self) -> History
        ensures { result ≡ unable_in self }
    {
        self.unable = true;
        self
    }

    pub fn with_missing(mut self) -> History
        ensures { result ≡ missing_in self }
    {
        self.missing = true;
        self
    }
}

// What a Second needs of its First: the purchase, CVR byte 3, the profile, and the history and what is
// kept of scripts as the First found them.
#[derive(Clone, Copy)]
pub struct Pending {
    pub purchase: Purchase,
    pub limits: u8,
    pub place: Place,
    pub history: History,
    pub scripts: Scripts,
}

#[derive(Clone, Copy)]
pub enum Phase {
    Idle,
    Opened(Place),
    Asked(Pending),
}

// The last date is that of the last First without a date error.
#[derive(Clone, Copy)]
pub struct State {
    pub values: Values,
    pub phase: Phase,
    pub atc: u16,
    pub last: Date,
    pub history: History,
    pub scripts: Scripts,
}

// A cryptogram's type.
#[derive(Clone, Copy)]
pub enum Kind {
    Aac,
    Tc,
    Arqc,
}

impl Kind {
    // The Cryptogram Information Data.
    pub fn cid(self) -> u8
        ensures { result ≡ cid_of self }
    {
        match self {
            Kind::Aac => 0x00,
            Kind::Tc => 0x40,
            Kind::Arqc => 0x80,
        }
    }
}

// The list of answers that document 01 names, a refusal among them: no Result.
#[derive(Clone, Copy)]
pub enum Answer {
    Refused(Refusal),
    // The entries visited, none where the profile was named.
    Started { atc: u16, visits: u8 },
    Given { kind: Kind, atc: u16, iad: Iad },
    // A script was read, and its commands tried.
    Done,
}

#[derive(Drop)]
pub struct Outcome {
    pub state: State,
    pub answer: Answer,
}

// A refusal leaves the card as it was.
pub fn refuse(state: State, refusal: Refusal) -> Outcome
    ensures { result ≡ refused state refusal }
{
    Outcome {
        state,
        answer: Answer::Refused(refusal),
    }
}
