// What is ruled of a run before anything of it is run: whether its bytes are records that can be read,
// and whether the lent room has the bytes for all answers.
#![tactic(auto)]

ghost use Rattle.std.specs.Prelude.{◌≡◌};
ghost use Rattle.run_rule.specs.Ruling.{count_of, ruled_run};

use paper::Next;
use refusal::Refusal;
use shape::Shape;

// The records of a run are counted, where each of them can be read.
fn count_records(shape: Shape, records: &[u8]) -> Option<usize>
    ensures { result ≡ count_of shape records.now }
{
    let mut at = 0;
    let mut count = 0;
    while at < records.len() {
        let Next::Record { kind, start, end } = paper::record_at(records, at) else {
            return None;
        };
        if !records::can_be_read(shape, kind, end - start) {
            return None;
        }
        at = end;
        count += 1;
    }
    Some(count)
}

// Refusal 9 for a run that is not made of records that can be read, then 17 for room of so many bytes
// that is too small for all answers.
pub fn rule(shape: Shape, records: &[u8], room: usize) -> Result<usize, Refusal>
    ensures { result ≡ ruled_run shape records.now room }
{
    let count = count_records(shape, records).ok_or(Refusal::Unreadable)?;
    if room / answers::SIZE < count {
        return Err(Refusal::NoRoomForAnswers);
    }
    Ok(count)
}
