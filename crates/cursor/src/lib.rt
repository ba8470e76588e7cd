// A cursor over the commands of a sound template: from command to command, by places in its bytes.
#![tactic(auto)]

ghost use Rattle.std.specs.Prelude.{◌≡◌};
ghost use Rattle.cursor.specs.Cursor.{next_command};

use head::{is_constructed, read_head};
use wire::byte_at;

// A command is the value of an object 86.
#[derive(Clone, Copy)]
pub struct Span {
    pub start: usize,
    pub size: usize,
}

// The first command at or behind a place of a sound template: 0, or the end of a command. The objects
// of a constructed one stand behind its head and end where it ends.
pub fn next_command(template: &[u8], from: usize) -> Option<Span>
    ensures { result ≡ next_command template.now from }
{
    let mut at = from;
    while at < template.len() {
        let tag = byte_at(template, at);
        if tag == 0 {
            at += 1;
            continue;
        }
        let head = read_head(&template[at..])?;
        if is_constructed(tag) {
            at += head.size;
            continue;
        }
        if tag == 0x86 {
            return Some(Span {
                start: at + head.size,
                size: head.length,
            });
        }
        at += head.size + head.length;
    }
    None
}
