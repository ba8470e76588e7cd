// A field of a log record (request Eight): a stretch of First's data or of Second's, in the very
// buffer it was found in. Nothing is copied.
#![tactic(auto)]

ghost use Rattle.std.specs.Prelude.{◌≡◌, length};
ghost use Rattle.field.specs.Field.{stretch_of, stretch_place, field_of, field_place};

// So many bytes from a position on, the first byte having position 1. Position 0 says that nothing is
// logged; then, and where the stretch does not lie within the bytes, it is the empty one at their start.
fn stretch(s: &[u8], position: u8, length: u8) -> &[u8]
    ensures { (result.now ≡ stretch_of s.now position length)
        × (result.ref_ptr ≡ stretch_place s.entry position length) }
{
    if position == 0 {
        return &s[..0];
    }
    let start = position as usize - 1;
    let end = start + length as usize;
    if s.len() < end {
        return &s[..0];
    }
    &s[start..end]
}

// Source 0 is First's data, any other Second's: it is the byte of the paper's table, and `field_of` of
// specs/ promises for each.
pub fn field<'a>(
    first: &'a [u8],
    second: &'a [u8],
    source: u8,
    position: u8,
    length: u8,
) -> &'a [u8]
    ensures { (result.now ≡ field_of first.now second.now source position length)
        × (result.ref_ptr ≡ field_place first.entry second.entry source position length) }
{
    if source == 0 {
        stretch(first, position, length)
    } else {
        stretch(second, position, length)
    }
}

// The second slice for as long as the first.
fn beside<'a, 'b: 'a>(first: &'a [u8], second: &'b [u8]) -> &'a [u8]
    ensures { result ≡ second.entry }
{
    second
}

// The same where each of the two slices has a lifetime of its own.
pub fn field_of<'a, 'b: 'a>(
    first: &'a [u8],
    second: &'b [u8],
    source: u8,
    position: u8,
    length: u8,
) -> &'a [u8]
    ensures { (result.now ≡ field_of first.now second.now source position length)
        × (result.ref_ptr ≡ field_place first.entry second.entry source position length) }
{
    let other = beside(first, second);
    field(first, other, source, position, length)
}
