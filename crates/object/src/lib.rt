// The objects of an issuer's template, by EMV Book 3 Annex B: each has a tag, a length and a value,
// and the value of a constructed object is a list of objects. `read_template` says whether a template
// is sound.
#![tactic(auto)]

ghost use Rattle.std.specs.Prelude.{◌≡◌, ◌≤◌, Some};
ghost use Rattle.object.specs.Object.{read_object, read_list, read_template};
ghost use Rattle.head.specs.Head.{head_of};

use head::{Head, is_constructed, read_head};
use wire::byte_at;

// The first fault of a template, in reading order.
#[derive(Clone, Copy)]
pub enum Fault {
    // Refusal 18: a malformed object, or bytes that are not one template.
    Malformed,
    // Refusal 19: an object constructed at a depth above 4.
    TooDeep,
}

// The object with which the bytes begin, its head being right; `depths` more may be opened.
#[cycle(read_list_read_object)]
fn read_object(s: &[u8], head: Head, depths: usize) -> Result<(), Fault>
    requires { head_of s.now ≡ Some head }
    ensures { result ≡ read_object (read_list depths) s.now }
{
    if !is_constructed(byte_at(s, 0)) {
        return Ok(());
    }
    if depths == 0 {
        return Err(Fault::TooDeep);
    }
    read_list(&s[head.size..head.size + head.length], depths)
}

// A list of objects, with fillers 00 between them; `depths` may be opened, its own among them.
#[cycle(read_list_read_object)]
fn read_list(s: &[u8], depths: usize) -> Result<(), Fault>
    requires { 1 ≤ depths }
    ensures { result ≡ read_list depths s.now }
{
    let mut at = 0;
    while at < s.len() {
        if byte_at(s, at) == 0 {
            at += 1;
            continue;
        }
        let head = read_head(&s[at..]).ok_or(Fault::Malformed)?;
        read_object(&s[at..], head, depths - 1)?;
        at += head.size + head.length;
    }
    Ok(())
}

// Whether a template is one object 71 or 72 that ends where the bytes end, with every object in it
// well formed and not too deep.
pub fn read_template(template: &[u8]) -> Result<(), Fault>
    ensures { result ≡ read_template template.now }
{
    let tag = byte_at(template, 0);
    if (tag != 0x71) & (tag != 0x72) {
        return Err(Fault::Malformed);
    }
    let head = read_head(template).ok_or(Fault::Malformed)?;
    if head.size + head.length != template.len() {
        return Err(Fault::Malformed);
    }
    read_list(&template[head.size..], 4)
}
