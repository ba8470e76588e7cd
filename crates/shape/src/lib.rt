// The shape of a paper: what its version adds to a set-up's body. Behind the base stands a tail for
// each addition, in the order of the versions, each beginning with a byte that can say "off". A
// tail tells where it ends; the last one ends where the body does.
#![tactic(auto)]

use refusal::Refusal;

// A Profile Selection File of so many entries stands in the body from start up to end.
#[derive(Clone, Copy)]
pub struct SelectionFile {
    pub start: usize,
    pub end: usize,
    pub entries: u8,
}

// A part of the body, from start up to end.
#[derive(Clone, Copy)]
pub struct Span {
    pub start: usize,
    pub end: usize,
}

// The card family. The tail with a CPACE card's controls and cashback checks stands from start up to end.
// CPA is a family and not the absence of one, so this is no Option.
#[derive(Clone, Copy)]
pub enum Family {
    Cpa,
    Cpace { start: usize, end: usize },
}

// The base's length, what the tails say, an older paper's being off, and the first mask bit that is
// unnamed.
#[derive(Clone, Copy)]
pub struct Shape {
    pub base: usize,
    pub selecting: Option<SelectionFile>,
    pub syllabus: u8,
    pub dating: Option<Span>,
    pub family: Family,
    pub scripting: bool,
    pub logging: Option<Span>,
    pub unnamed: u32,
}

// What tails come to, and where the last of them ends.
#[derive(Clone, Copy)]
pub struct Tails {
    pub shape: Shape,
    pub at: usize,
}
