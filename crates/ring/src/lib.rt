// The ring of a transaction log (request Eight), in lent cells: the newest records, 20 at most. A new
// record takes the oldest one's slot, and no other record moves.
#![tactic(auto)]

ghost use Rattle.std.specs.Prelude.{◌≡◌, ◌-◌, ◌≤◌, ◌<◌};
ghost use Rattle.ring.specs.Ring.{most, no_records, slots_of, slot_named, count_kept, slot_back, record_in, record_put, added_in};
ghost use Rattle.ring.specs.Ring.{added, count_in, found, first_opened, first_place};

// The place of the First that a Second may close, the slot that the next record takes, the number of
// records, and five cells for each slot.
pub type Ring = [u64; 103];

// The most records of a ring.
const MOST: u8 = 20;

const FIRST: usize = 0;

const NEXT: usize = 1;

const COUNT: usize = 2;

const RECORDS: u64 = 3;

// The cells of a slot.
const CELLS: u64 = 5;

// A logged transaction: where its First's body lies and where its Second's does, 0 for none; the CVR,
// its five bytes as one number, ATC and CID of the answer that closed it.
#[derive(Clone, Copy)]
pub struct Record {
    pub first: u64,
    pub second: u64,
    pub cvr: u64,
    pub atc: u64,
    pub cid: u64,
}

// Cells to lend, before anything is logged.
pub fn none() -> Ring
    ensures { result ≡ no_records }
{
    [0; 103]
}

// The slots of a ring of a size: 20 at most.
fn slots_of(size: u8) -> u64
    ensures { (result ≡ slots_of size) × (result ≤ most) }
{
    size.min(MOST) as u64
}

// The slot that a cell names. Behind the last one comes the first.
fn slot_named(next: u64, slots: u64) -> u64
    ensures { (result ≡ slot_named next slots) × (result ≤ slots - 1) }
{
    if next < slots { next } else { 0 }
}

// The number of records that a cell says, no more than there are slots.
fn count_kept(count: u64, slots: u64) -> u64
    ensures { (result ≡ count_kept count slots) × (result ≤ slots) }
{
    count.min(slots)
}

// The slot of the record so many before the newest, the next one going into a slot.
fn slot_back(next: u64, slots: u64, back: u64) -> u64
    requires { (next ≤ slots) × (back < slots) × (slots ≤ most) }
    ensures { (result ≡ slot_back next slots back) × (result < slots) }
{
    if back < next {
        next - 1 - back
    } else {
        next + slots - 1 - back
    }
}

// The record in a slot.
fn record_in(ring: &Ring, slot: u64) -> Record
    requires { slot < most }
    ensures { result ≡ record_in ring.now slot }
{
    let at = (RECORDS + CELLS * slot) as usize;
    Record {
        first: ring[at],
        second: ring[at + 1],
        cvr: ring[at + 2],
        atc: ring[at + 3],
        cid: ring[at + 4],
    }
}

// A record into a slot.
fn put_record(ring: &mut Ring, slot: u64, logged: Record)
    requires { slot < most }
    ensures { ring.new ≡ record_put ring.old slot logged }
{
    let at = (RECORDS + CELLS * slot) as usize;
    ring[at] = logged.first;
    ring[at + 1] = logged.second;
    ring[at + 2] = logged.cvr;
    ring[at + 3] = logged.atc;
    ring[at + 4] = logged.cid;
}

// A record into a ring of so many slots.
fn add_in(ring: &mut Ring, slots: u64, logged: Record)
    requires { (1 ≤ slots) × (slots ≤ most) }
    ensures { ring.new ≡ added_in slots logged ring.old }
{
    let slot = slot_named(ring[NEXT], slots);
    let others = count_kept(ring[COUNT], slots - 1);
    put_record(ring, slot, logged);
    ring[NEXT] = slot + 1;
    ring[COUNT] = others + 1;
}

// A new record. A ring of size 0 keeps none.
pub fn add(ring: &mut Ring, size: u8, logged: Record)
    ensures { ring.new ≡ added size logged ring.old }
{
    let slots = slots_of(size);
    if slots == 0 {
        return;
    }
    add_in(ring, slots, logged);
}

// How many records there are.
pub fn count(ring: &Ring, size: u8) -> u64
    ensures { (result ≡ count_in ring.now size) × (result ≤ most) }
{
    count_kept(ring[COUNT], slots_of(size))
}

// Record k, 1 being the newest.
pub fn find(ring: &Ring, size: u8, k: u64) -> Option<Record>
    ensures { result ≡ found ring.now size k }
{
    if k == 0 {
        return None;
    }
    let slots = slots_of(size);
    if count_kept(ring[COUNT], slots) < k {
        return None;
    }
    let next = slot_named(ring[NEXT], slots);
    Some(record_in(ring, slot_back(next, slots, k - 1)))
}

// The First at a place is the one that a Second may close.
pub fn open_first(ring: &mut Ring, at: u64)
    ensures { ring.new ≡ first_opened ring.old at }
{
    ring[FIRST] = at;
}

// Where it lies.
pub fn first_place(ring: &Ring) -> u64
    ensures { result ≡ first_place ring.now }
{
    ring[FIRST]
}
