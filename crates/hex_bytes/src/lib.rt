// Bytes as HEX, both ways: two digits a byte, the high one first, lower case shown and either case taken, `-` for none at all. Refuses
// nothing itself: a text that is no HEX says so, and what has no room changes nothing.
#![tactic(auto)]

ghost use Rattle.std.specs.Prelude.{◌≡◌, true, ◌+◌, ◌*◌, ◌/◌, ◌<◌, ◌≤◌, length};
ghost use Rattle.lent.specs.Line.{laid};
ghost use Rattle.streams.specs.Sheet.{put_on};
ghost use Rattle.hex_bytes.specs.Digits.{hex_value, all_hex_digits, lower_digit};
ghost use Rattle.hex_bytes.specs.Hex.{is_hex, pair_bytes, bytes_of_hex, hexed_of, digit_pairs, hex_text};

use streams::Page;
use written::Writable;

// Bytes that are laid down as HEX.
#[derive(Clone, Copy)]
pub struct Hex<'a> {
    pub bytes: &'a [u8],
}

// What a digit is worth, in either case; 16 where it is none.
#[tactic(auto, unfolding(crate::specs::Digits::hex_value), using(std::proofs::lemmas::Bool::Decides::nat_tests))]
fn hex_value(b: u8) -> u8
    ensures { result ≡ hex_value b }
{
    match b {
        b'0'..=b'9' => b - b'0',
        b'a'..=b'f' => 10 + (b - b'a'),
        b'A'..=b'F' => 10 + (b - b'A'),
        _ => 16,
    }
}

// Is every byte of a text a digit?
fn all_hex_digits(text: &[u8]) -> bool
    ensures { result ≡ all_hex_digits text.now }
{
    text.iter().all(|b| hex_value(*b) < 16)
}

// Is a text HEX?
fn is_hex(text: &[u8]) -> bool
    ensures { result ≡ is_hex text.now }
{
    match text {
        [] => false,
        [b] => *b == b'-',
        _ => text.len() % 2 == 0 && all_hex_digits(text),
    }
}

// The byte of two digits. Asks values below 16.
fn byte_of(high: u8, low: u8) -> u8
    requires high { high < 16 }
    requires low { low < 16 }
    ensures { result ≡ 16 * high + low }
{
    16 * high + low
}

// The bytes of HEX at the front of a part; every other byte stays. Asks HEX, and room.
fn fill(text: &[u8], into: &mut [u8])
    requires hex { is_hex text.now ≡ true }
    requires room { length text.now / 2 ≤ length into.old }
    ensures { into.new ≡ laid into.old (pair_bytes text.now) }
{
    for i in 0..text.len() / 2 {
        let high = hex_value(text[2 * i]);
        let low = hex_value(text[2 * i + 1]);
        into[i] = byte_of(high, low);
    }
}

// The bytes of a text at the front of a buffer, where the text is HEX and they have room; every other byte stays. Else nothing changes.
// The answer: how many bytes, where it is so.
pub fn read(text: &[u8], into: &mut [u8]) -> Option<usize>
    ensures answer { result ≡ hexed_of text.now (length into.old) }
    ensures bytes { into.new ≡ laid into.old (bytes_of_hex text.now) }
{
    let count = text.len() / 2;
    if is_hex(text) && count <= into.len() {
        fill(text, into);
        return Some(count);
    }
    None
}

// The digit of a value, in lower case. Asks a value below 16.
#[tactic(auto, unfolding(crate::specs::Digits::lower_digit), using(std::proofs::lemmas::Bool::Decides::nat_tests))]
fn lower_digit(n: u8) -> u8
    requires { n < 16 }
    ensures { result ≡ lower_digit n }
{
    if n < 10 { b'0' + n } else { b'a' + (n - 10) }
}

// Two digits for each byte at the front of a part; every other byte stays. Asks room.
fn put_pairs(part: &mut [u8], bytes: &[u8])
    requires { 2 * length bytes.now ≤ length part.old }
    ensures { part.new ≡ laid part.old (digit_pairs bytes.now) }
{
    for (i, b) in bytes.iter().enumerate() {
        part[2 * i] = lower_digit(*b / 16);
        part[2 * i + 1] = lower_digit(*b % 16);
    }
}

// The HEX of bytes put on a sheet; where it has no room nothing changes.
pub fn put<P: Page>(sheet: &mut P, bytes: &[u8])
    ensures { P.seen sheet.new ≡ put_on (P.seen sheet.old) (hex_text bytes.now) }
{
    sheet.put(&Hex { bytes });
}

impl<'a> Writable for Hex<'a> {
    ghost text = { λ hex. hex_text hex.bytes.now };

    fn length(&self) -> usize {
        if self.bytes.is_empty() {
            1
        } else {
            2 * self.bytes.len()
        }
    }

    fn put(&self, part: &mut [u8]) {
        if self.bytes.is_empty() {
            lent::put_byte(part, b'-');
        } else {
            put_pairs(part, self.bytes);
        }
    }
}
