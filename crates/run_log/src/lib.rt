// What a run of commands logs (requests Eight and Eleven): behind the run, from its records, which lie at
// a place of the buffer that the log points into, and their answers, 36 bytes each. What reads the answers
// changes none.
#![tactic(auto)]

ghost use Rattle.std.specs.Prelude.{◌≡◌};
ghost use Rattle.run_log.specs.RunLog.{heard_by, kind_by, given_by, watched_answer, ring_run};

use journal::{Cryptogram, Heard, Logging};
use paper::Next;
use ring::Ring;
use state::Kind;

// The response code in the body of a Second.
const CODE: usize = 1;

// What stands in an answer behind its refusal: the CID, the ATC, and the IAD with its CVR and its profile.
const CID: usize = 1;

const ATC: usize = 2;

const CVR: usize = 7;

const PROFILE: usize = 21;

// What is heard of a record.
fn heard_by(kind: u8, body: &[u8]) -> Heard
    ensures { result ≡ heard_by kind body.now }
{
    journal::heard_as(kind, wire::u16_at(body, CODE))
}

// A CID tells an AAC (00), a TC (40) and an ARQC (80).
fn kind_by(cid: u8) -> Kind
    ensures { result ≡ kind_by cid }
{
    match cid {
        0x00 => Kind::Aac,
        0x40 => Kind::Tc,
        _ => Kind::Arqc,
    }
}

// The cryptogram of an answer.
fn given_by(answer: &[u8]) -> Cryptogram
    ensures { result ≡ given_by answer.now }
{
    let upper = wire::byte_at(answer, CVR) as u64;
    Cryptogram {
        kind: kind_by(wire::byte_at(answer, CID)),
        atc: wire::u16_at(answer, ATC) as u64,
        profile: wire::byte_at(answer, PROFILE),
        cvr: upper * 4_294_967_296 + wire::u32_at(answer, CVR + 1) as u64,
    }
}

// A record was answered, its body lying at a place. A refused one closes nothing.
fn watch_answer(ring: &mut Ring, logging: Logging, said: Heard, at: usize, answer: &[u8])
    ensures { ring.new ≡ watched_answer logging said at answer.now ring.old }
{
    if wire::byte_at(answer, 0) == 0 {
        watching::watch(ring, logging, said, at, given_by(answer));
    }
}

// A run was answered: what each of its records closes goes into the ring, record by record. The records
// lie in the log's buffer from a place on. Where an answer is missing there is nothing to watch.
pub fn watch_run(ring: &mut Ring, logging: Logging, records: &[u8], place: u32, answers: &[u8])
    ensures { ring.new ≡ ring_run logging records.now place answers.now ring.old }
{
    let mut at: usize = 0;
    let mut from: usize = 0;
    while at < records.len() {
        let Next::Record { kind, start, end } = paper::record_at(records, at) else {
            return;
        };
        if answers.len() - from < answers::SIZE {
            return;
        }
        let said = heard_by(kind, &records[start..end]);
        watch_answer(
            ring,
            logging,
            said,
            place as usize + start,
            &answers[from..],
        );
        at = end;
        from += answers::SIZE;
    }
}
