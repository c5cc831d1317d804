// What a writer into the caller's line answers: how many bytes it laid down, or why none; and the parts that texts share: a
// number behind its sign or behind a mark. Refuses 8, after all that speaks against a text.
#![tactic(auto)]

ghost use Rattle.std.specs.Prelude.{ℕ, List, ◌≡◌, ◌∷◌, ◌+◌, ◌≤◌, length};
ghost use Rattle.lent.specs.Line.{laid};
ghost use Rattle.digits.specs.Digits.{digits_of, decimal};
ghost use Rattle.written.specs.Written.{Text, answer_to, line_to, length_of};
ghost use Rattle.written.specs.Parts.{sign_text, padded_text, signed_text, field_text};
ghost use Rattle.written.specs.Clock.{clock_text};

use answers::{Cause, Refusal};

// How many bytes were laid down; 0 where a refusal was given.
pub fn length(w: Result<usize, Refusal>) -> usize
    ensures { result ≡ length_of w }
{
    w.unwrap_or(0)
}

// A text that can be laid into a line: how many bytes it has, and the bytes at the front of a part that has room for them.
pub trait Writable {
    ghost text: { Self → List ℕ };

    fn length(&self) -> usize
        ensures { result ≡ length (text self.now) };

    fn put(&self, part: &mut [u8])
        requires { length (text self.now) ≤ length part.old }
        ensures { part.new ≡ laid part.old (text self.now) };
}

// A text laid down from `place` on, whole: its length first, one test of room, then the rest of the line is lent on. Refuses 8: place
// plus text length exceeds the line's length.
pub fn write<T: Writable>(text: &T, line: &mut [u8], place: usize) -> Result<usize, Refusal>
    ensures answer { result ≡ answer_to line.old place (Text (T.text text.now)) }
    ensures line { line.new ≡ line_to line.old place (Text (T.text text.now)) }
{
    let need = text.length();
    if lent::room(line.len(), place, need) {
        text.put(&mut line[place..]);
        return Ok(need);
    }
    Err(Cause::NoRoom.into())
}

impl<'a> Writable for &'a [u8] {
    ghost text = { λ bytes. bytes.now };

    fn length(&self) -> usize {
        self.len()
    }

    fn put(&self, part: &mut [u8]) {
        lent::put_text(part, self);
    }
}

// A text of bytes laid down from `place` on, whole. Refuses 8: place plus text length exceeds the line's length.
pub fn write_text(text: &[u8], line: &mut [u8], place: usize) -> Result<usize, Refusal>
    ensures answer { result ≡ answer_to line.old place (Text text.now) }
    ensures line { line.new ≡ line_to line.old place (Text text.now) }
{
    write(&text, line, place)
}

// How many bytes a sign takes: one for '-', else none.
fn sign_length(minus: bool) -> usize
    ensures { result ≡ length (sign_text minus) }
{
    if minus { 1 } else { 0 }
}

// The sign at the front of a part; every other byte stays. Where it has no room nothing changes.
fn put_sign(part: &mut [u8], minus: bool)
    ensures { part.new ≡ laid part.old (sign_text minus) }
{
    if minus {
        lent::put_byte(part, b'-');
    }
}

// A mark and the last k digits of n behind it, at the front of a part; every other byte stays. Where they have no room nothing changes.
pub fn put_marked(part: &mut [u8], mark: u8, k: usize, n: u64)
    ensures { part.new ≡ laid part.old (mark ∷ digits_of k n) }
{
    if k < part.len() {
        lent::put_byte(part, mark);
        digits::put_digits(&mut part[1..], k, n);
    }
}

// How many bytes a number has in `least` digits at least, its sign with it. Asks no more than 20.
fn padded_length(minus: bool, least: usize, m: u64) -> usize
    requires { least ≤ 20 }
    ensures { result ≡ length (padded_text minus least m) }
{
    sign_length(minus) + digits::width_of(least, m)
}

// A number in `least` digits at least, its sign with it, at the front of a part; every other byte stays. Asks room.
fn put_padded(part: &mut [u8], minus: bool, least: usize, m: u64)
    requires { length (padded_text minus least m) ≤ length part.old }
    ensures { part.new ≡ laid part.old (padded_text minus least m) }
{
    let at = sign_length(minus);
    let w = digits::width_of(least, m);
    put_sign(part, minus);
    digits::put_digits(&mut part[at..], w, m);
}

// How many bytes a number has, its sign with it.
pub fn signed_length(minus: bool, m: u64) -> usize
    ensures { result ≡ length (signed_text minus m) }
{
    padded_length(minus, 1, m)
}

// A number at the front of a part, its sign with it; every other byte stays. Where it has no room nothing changes.
pub fn put_signed(part: &mut [u8], minus: bool, m: u64)
    ensures { part.new ≡ laid part.old (signed_text minus m) }
{
    if signed_length(minus, m) <= part.len() {
        put_padded(part, minus, 1, m);
    }
}

// How many bytes a field of two digits at least has, the mark before it with it.
pub fn field_length(n: u64) -> usize
    ensures { result ≡ 1 + length (decimal 2 n) }
{
    digits::width_of(2, n) + 1
}

// A field of two digits at least behind its mark, at the front of a part; every other byte stays. Where it has no room nothing changes.
pub fn put_field(part: &mut [u8], mark: u8, n: u64)
    ensures { part.new ≡ laid part.old (field_text mark n) }
{
    put_marked(part, mark, digits::width_of(2, n), n);
}

// How many bytes hours, minutes and seconds have, two digits at least each and `:` between them, the sign with them.
pub fn clock_length(minus: bool, hours: u64, minutes: u64, seconds: u64) -> usize
    ensures { result ≡ length (clock_text minus hours minutes seconds) }
{
    padded_length(minus, 2, hours) + field_length(minutes) + field_length(seconds)
}

// Hours, minutes and seconds at the front of a part, two digits at least each and `:` between them, the sign with them; every other
// byte stays. Where they have no room nothing changes.
pub fn put_clock(part: &mut [u8], minus: bool, hours: u64, minutes: u64, seconds: u64)
    ensures { part.new ≡ laid part.old (clock_text minus hours minutes seconds) }
{
    if clock_length(minus, hours, minutes, seconds) <= part.len() {
        let first = padded_length(minus, 2, hours);
        let second = first + field_length(minutes);
        put_padded(part, minus, 2, hours);
        put_field(&mut part[first..], b':', minutes);
        put_field(&mut part[second..], b':', seconds);
    }
}
