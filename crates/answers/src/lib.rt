// The answers of a run, 36 bytes each: refusal (1), CID (1), ATC (2), IAD (32). A field that is not
// given is zero.
#![tactic(auto)]

ghost use Rattle.std.specs.Prelude.{◌≡◌, ◌++◌, ◌+◌, ◌≤◌, length};
ghost use Rattle.std.proofs.lemmas.List.Edits.{sets};
ghost use Rattle.answers.specs.Answers.{size, head_of, answer_bytes, placed};

use state::Answer;

pub const SIZE: usize = 36;

// The fields of an answer, from a place of the room on.
fn put_fields(room: &mut [u8], at: usize, refusal: u8, cid: u8, atc: u16, iad: &[u8])
    requires { at + 4 + length iad.now ≤ length room.old }
    ensures { room.new ≡ sets room.old at (head_of refusal cid atc ++ iad.now) }
{
    text::put(
        room,
        at,
        &[refusal, cid, (atc / 256) as u8, (atc % 256) as u8],
    );
    text::put(room, at + 4, iad);
}

// An answer, where its bytes fit.
fn store(room: &mut [u8], at: usize, answer: Answer)
    requires { at + size ≤ length room.old }
    ensures { room.new ≡ sets room.old at (answer_bytes answer) }
{
    match answer {
        Answer::Refused(refusal) => put_fields(room, at, refusal.number(), 0, 0, &[0; 32]),
        Answer::Started { atc, .. } => put_fields(room, at, 0, 0, atc, &[0; 32]),
        Answer::Given { kind, atc, iad } => {
            put_fields(room, at, 0, kind.cid(), atc, &iad::bytes_of(iad))
        }
        Answer::Done => put_fields(room, at, 0, 0, 0, &[0; 32]),
    }
}

// An answer from a place of the room on; without 36 bytes there nothing is written.
pub fn put(room: &mut [u8], at: usize, answer: Answer)
    ensures { room.new ≡ placed room.old at (answer_bytes answer) }
{
    if room.len() < at || room.len() - at < SIZE {
        return;
    }
    store(room, at, answer);
}
