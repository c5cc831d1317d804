// Numbers as bytes, low byte first: what bytes are worth, unsigned and signed (two's complement), and a number's bytes. Refuses nothing
// itself: bytes that are not there count nothing, and what has no room changes nothing.
#![tactic(auto)]

ghost use Rattle.std.specs.Prelude.{◌≡◌, ◌-◌, min, take, drop};
ghost use Rattle.lent.specs.Line.{laid};
ghost use Rattle.low_bytes.specs.LowBytes.{worth, low_bytes, signed_of, twos_of, signed_bytes};

// What the bytes from a place on are worth: `width` of them, eight at most, and those that are not there count nothing.
pub fn number_at(s: &[u8], at: usize, width: usize) -> u64
    ensures { result ≡ worth (take (min width 8) (drop at s.now)) }
{
    let Some(rest) = s.get(at..) else {
        return 0;
    };
    let bytes = &rest[..width.min(8).min(rest.len())];
    let mut n = 0;
    for b in bytes.iter().rev() {
        n = n * 256 + u64::from(*b);
    }
    n
}

// The signed number in the four bytes from a place on; those that are not there count nothing.
pub fn signed_at(s: &[u8], at: usize) -> i64
    ensures { result ≡ signed_of 4 (worth (take 4 (drop at s.now))) }
{
    let n = number_at(s, at, 4) as u32;
    i64::from(n.cast_signed())
}

// The `width` lowest bytes of n at the front of a part; every other byte stays. Where they have no room nothing changes.
pub fn put_number(part: &mut [u8], width: usize, n: u64)
    ensures { part.new ≡ laid part.old (low_bytes width n) }
{
    let mut rest = n;
    if width <= part.len() {
        for byte in &mut part[..width] {
            *byte = (rest % 256) as u8;
            rest /= 256;
        }
    }
}

// The number that stands for a signed one in four bytes, where they hold it.
fn twos_of(z: i64) -> u64
    ensures { result ≡ twos_of 4 z }
{
    let m = numbers::magnitude(z);
    if numbers::below_zero(z) {
        4_294_967_296u64.saturating_sub(m)
    } else {
        m
    }
}

// The four bytes of a signed number that they hold at the front of a part; every other byte stays. Where they have no room nothing changes.
pub fn put_signed(part: &mut [u8], z: i64)
    ensures { part.new ≡ laid part.old (signed_bytes 4 z) }
{
    put_number(part, 4, twos_of(z));
}
