// The fields of a log record (request Eight): stretches of its First's body and its Second's, where they
// lie in the paper.
#![tactic(auto)]

ghost use Rattle.std.specs.Prelude.{◌≡◌, cond, ◌≤◌};
ghost use Rattle.log_fields.specs.LogFields.{first_length, part_of, part_place, first_data, first_data_place, second_data, second_data_place};
ghost use Rattle.log_fields.specs.LogFields.{is_of_second, field_count, field_in, field_place_in};

use ring::Record;

// The bytes of a Second's body.
const SECOND: usize = 8;

// What a log must know of a paper: how many profiles its set-up has, whether its Firsts are dated, and
// whether its card is a CPACE one.
#[derive(Clone, Copy)]
pub struct Form {
    pub profiles: u8,
    pub dated: bool,
    pub cpace: bool,
}

// So many bytes where something is on.
fn bytes_if(on: bool, bytes: usize) -> usize
    ensures { (result ≡ cond on bytes 0) × (result ≤ bytes) }
{
    if on { bytes } else { 0 }
}

// The bytes of a First's body: 12, 3 more for a date, 9 more for CVM results and cashback.
fn first_length(form: Form) -> usize
    ensures { (result ≡ first_length form) × (result ≤ 24) }
{
    12 + bytes_if(form.dated, 3) + bytes_if(form.cpace, 9)
}

// So many bytes of the paper from a place on, or as many of them as there are.
fn part(paper: &[u8], at: u64, bytes: usize) -> &[u8]
    ensures { (result.now ≡ part_of paper.now at bytes) × (result.ref_ptr ≡ part_place paper.entry at) }
{
    let start = at as usize;
    if paper.len() < start {
        return &paper[..0];
    }
    if paper.len() - start < bytes {
        return &paper[start..];
    }
    let end = start + bytes;
    &paper[start..end]
}

// Where a record's First lies.
pub fn first_data(paper: &[u8], form: Form, kept: Record) -> &[u8]
    ensures { (result.now ≡ first_data paper.now form kept) × (result.ref_ptr ≡ first_data_place paper.entry kept) }
{
    part(paper, kept.first, first_length(form))
}

// Whether a Second closed the transaction.
pub fn is_of_second(kept: Record) -> bool
    ensures { result ≡ is_of_second kept }
{
    kept.second != 0
}

// Where its Second lies; nothing where there was none.
pub fn second_data(paper: &[u8], kept: Record) -> &[u8]
    ensures { (result.now ≡ second_data paper.now kept) × (result.ref_ptr ≡ second_data_place paper.entry kept) }
{
    part(paper, kept.second, bytes_if(is_of_second(kept), SECOND))
}

// How many fields a record has.
pub fn field_count(tail: &[u8], form: Form, kept: Record) -> u8
    ensures { result ≡ field_count tail.now form kept }
{
    log_tail::entry_count(tail, form.profiles, is_of_second(kept))
}

// Its field i + 1, a stretch of the paper itself.
pub fn field_at<'a>(paper: &'a [u8], tail: &[u8], form: Form, kept: Record, i: u8) -> &'a [u8]
    ensures { (result.now ≡ field_in paper.now tail.now form kept i)
        × (result.ref_ptr ≡ field_place_in paper.entry tail.now form kept i) }
{
    let entry = log_tail::entry_at(tail, form.profiles, is_of_second(kept), i);
    let first = first_data(paper, form, kept);
    let second = second_data(paper, kept);
    field::field(first, second, entry.source, entry.position, entry.length)
}
