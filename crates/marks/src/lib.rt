// What a card keeps of issuer scripts, in one byte.
#![tactic(auto)]

ghost use Rattle.std.specs.Prelude.{◌≡◌};
ghost use Rattle.marks.specs.Marks.{fresh_scripts, marks_of, has_failed_here, started, heard, one_done, one_failed};

use std::num::wrapping_add_u8;

// As CVR byte 4 shows it: b8 to b5 count the commands done,
// modulo 16, b4 says whether one failed. Not shown: b1, whether one failed since the last accepted
// Start. b3 and b2 are 0.
#[derive(Clone, Copy)]
pub struct Scripts(pub u8);

// One command, in the count.
const DONE: u8 = 0x10;

// b4: one failed.
const FAILED: u8 = 0x08;

// b1: one failed since the last accepted Start.
const HERE: u8 = 0x01;

// The count and b4.
const SHOWN: u8 = 0xF8;

impl Scripts {
    // A fresh card's.
    pub fn fresh() -> Scripts
        ensures { result ≡ fresh_scripts }
    {
        Scripts(0)
    }

    // What CVR byte 4 shows of it.
    pub fn marks(self) -> u8
        ensures { result ≡ marks_of self }
    {
        self.0 & SHOWN
    }

    // Whether a command failed since the last accepted Start.
    pub fn is_failed_here(self) -> bool
        ensures { result ≡ has_failed_here self }
    {
        self.0 & HERE != 0
    }

    // After an accepted Start: none has failed since.
    pub fn started(self) -> Scripts
        ensures { result ≡ started self }
    {
        Scripts(self.0 & !HERE)
    }

    // After a Second that verified, or whose data were absent where authentication is not required:
    // the failure of an earlier transaction is forgotten.
    pub fn heard(self) -> Scripts
        ensures { result ≡ heard self }
    {
        if self.is_failed_here() {
            return self;
        }
        Scripts(self.0 & !FAILED)
    }

    // One more command done.
    pub fn with_done(self) -> Scripts
        ensures { result ≡ one_done self }
    {
        Scripts(wrapping_add_u8(self.0, DONE))
    }

    // A command failed.
    pub fn with_failure(self) -> Scripts
        ensures { result ≡ one_failed self }
    {
        Scripts(self.0 | FAILED | HERE)
    }
}
