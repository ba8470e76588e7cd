// What a set-up says of its log (request Eight): the tail of version 07 where it is on. It has the
// ring's size, the switches, whether each profile logs, and two tables, First's and Second's.
#![tactic(auto)]

ghost use Rattle.std.specs.Prelude.{◌≡◌, ◌≤◌, ◌<◌};
ghost use Rattle.log_tail.specs.LogTail.{size_in, switches_in, logs_in, first_table, second_table, table_of, entry_in, entry_count, entry_at, data_of};
ghost use Rattle.log_tail.specs.LogTail.{reaches_past, are_flags, are_sources, are_within, is_in_range, is_within, judged};

// The most records of a ring.
pub const MOST: u8 = 20;

// The bytes of Second's data.
pub const SECOND: usize = 8;

// Where the fields stand: behind the switch that is on.
const SIZE: usize = 1;

const SWITCHES: usize = 2;

const PROFILES: usize = 3;

// The bytes of an entry.
const ENTRY: usize = 3;

// A stretch of First's data (source 0) or Second's (1). The data's first byte has position 1; with
// position 0 nothing is logged. The source is the paper's byte, since `judge` refuses other sources.
#[derive(Drop)]
pub struct Entry {
    pub source: u8,
    pub position: u8,
    pub length: u8,
}

#[derive(Clone, Copy)]
pub enum Fault {
    Wrong,
    PastData,
}

// Where First's table stands, behind the profiles.
pub fn first_table(profiles: u8) -> usize
    ensures { (result ≡ first_table profiles) × (result ≤ 1024) }
{
    PROFILES + profiles as usize
}

// Where Second's does, behind it.
pub fn second_table(tail: &[u8], profiles: u8) -> usize
    ensures { (result ≡ second_table tail.now profiles) × (result ≤ 1024) }
{
    let first = first_table(profiles);
    first + 1 + ENTRY * wire::byte_at(tail, first) as usize
}

// The ring's size.
pub fn size(tail: &[u8]) -> u8
    ensures { result ≡ size_in tail.now }
{
    wire::byte_at(tail, SIZE)
}

pub fn switches(tail: &[u8]) -> u8
    ensures { result ≡ switches_in tail.now }
{
    wire::byte_at(tail, SWITCHES)
}

// Whether profile i + 1 logs.
pub fn logs(tail: &[u8], i: u8) -> bool
    ensures { result ≡ logs_in tail.now i }
{
    wire::byte_at(tail, PROFILES + i as usize) == 1
}

// Where the table stands by which a First, or a Second, is logged.
fn table_of(tail: &[u8], profiles: u8, second: bool) -> usize
    ensures { (result ≡ table_of tail.now profiles second) × (result ≤ 1024) }
{
    if second {
        second_table(tail, profiles)
    } else {
        first_table(profiles)
    }
}

// Entry i + 1 of the table at a place.
fn read_entry(tail: &[u8], table: usize, i: usize) -> Entry
    requires { (table ≤ 1024) × (i < 256) }
    ensures { result ≡ entry_in tail.now table i }
{
    let at = table + 1 + ENTRY * i;
    Entry {
        source: wire::byte_at(tail, at),
        position: wire::byte_at(tail, at + 1),
        length: wire::byte_at(tail, at + 2),
    }
}

// The number of entries of the table by which a First, or a Second, is logged.
pub fn entry_count(tail: &[u8], profiles: u8, second: bool) -> u8
    ensures { result ≡ entry_count tail.now profiles second }
{
    wire::byte_at(tail, table_of(tail, profiles, second))
}

// Its entry i + 1.
pub fn entry_at(tail: &[u8], profiles: u8, second: bool, i: u8) -> Entry
    ensures { result ≡ entry_at tail.now profiles second i }
{
    read_entry(tail, table_of(tail, profiles, second), i as usize)
}

// The bytes of an entry's source, First's data having so many.
fn data_length(entry: Entry, first: usize) -> usize
    ensures { result ≡ data_of entry first }
{
    if entry.source == 0 { first } else { SECOND }
}

// Whether an entry reaches past its source.
pub fn reaches_past(entry: Entry, first: usize) -> bool
    ensures { result ≡ reaches_past entry first }
{
    if entry.position == 0 {
        return false;
    }
    let end = entry.position as usize - 1 + entry.length as usize;
    data_length(entry, first) < end
}

// Whether each profile logs or does not.
fn are_flags(tail: &[u8], profiles: u8) -> bool
    ensures { result ≡ are_flags tail.now profiles }
{
    (0..profiles).all(|i| wire::byte_at(tail, PROFILES + i as usize) <= 1)
}

// Whether the sources of a table go up to a number at most.
fn are_sources(tail: &[u8], table: usize, highest: u8) -> bool
    requires { table ≤ 1024 }
    ensures { result ≡ are_sources tail.now table highest }
{
    let entries = wire::byte_at(tail, table);
    (0..entries).all(|i| read_entry(tail, table, i as usize).source <= highest)
}

// Whether no entry of a table reaches past its source.
fn are_within(tail: &[u8], table: usize, first: usize) -> bool
    requires { table ≤ 1024 }
    ensures { result ≡ are_within tail.now table first }
{
    let entries = wire::byte_at(tail, table);
    (0..entries).all(|i| !reaches_past(read_entry(tail, table, i as usize), first))
}

// Whether every field of a tail of so many profiles is in range.
fn is_in_range(tail: &[u8], profiles: u8) -> bool
    ensures { result ≡ is_in_range tail.now profiles }
{
    (wire::byte_at(tail, SIZE) <= MOST)
        & (wire::byte_at(tail, SWITCHES) % 4 == 0)
        & are_flags(tail, profiles)
        & (are_sources(tail, first_table(profiles), 0)
            & are_sources(tail, second_table(tail, profiles), 1))
}

// Whether no entry of either table reaches past its source.
fn is_within(tail: &[u8], profiles: u8, first: usize) -> bool
    ensures { result ≡ is_within tail.now profiles first }
{
    are_within(tail, first_table(profiles), first)
        & are_within(tail, second_table(tail, profiles), first)
}

// A tail of so many profiles, First's data having so many bytes.
pub fn judge(tail: &[u8], profiles: u8, first: usize) -> Result<(), Fault>
    ensures { result ≡ judged tail.now profiles first }
{
    if !is_in_range(tail, profiles) {
        return Err(Fault::Wrong);
    }
    if !is_within(tail, profiles, first) {
        return Err(Fault::PastData);
    }
    Ok(())
}
