// Text laid into a lent line: a byte or a text at the front of a part, and whether a text has room. Refuses nothing itself: what has no
// room changes nothing.
#![tactic(auto)]

ghost use Rattle.std.specs.Prelude.{◌≡◌, ◌∷◌, []};
ghost use Rattle.lent.specs.Line.{laid, has_room};

// One byte at the front of a part; every other byte stays. In a part of no bytes nothing changes.
#[tactic(auto, unfolding(crate::specs::Line::laid, crate::specs::Line::front))]
pub fn put_byte(part: &mut [u8], b: u8)
    ensures { part.new ≡ laid part.old (b ∷ []) }
{
    if let Some(first) = part.first_mut() {
        *first = b;
    }
}

// A text at the front of a part, copied byte by byte (a library's copy would need a name from outside, which an archive for C is not to);
// every other byte stays. Where it has no room nothing changes.
pub fn put_text(part: &mut [u8], text: &[u8])
    ensures { part.new ≡ laid part.old text.now }
{
    if part.len() < text.len() {
        return;
    }
    for i in 0..text.len() {
        part[i] = text[i];
    }
}

// Do `need` bytes from `place` on lie within a line of `total` bytes? No place, however large, wraps.
pub fn room(total: usize, place: usize, need: usize) -> bool
    ensures { result ≡ has_room total place need }
{
    place <= total && need <= total - place
}
