// A number in a line: behind a space an optional `-` and one or more digits, within 64 bits signed.
ghost use Rattle.std.specs.Prelude.{◌≡◌, true, drop};
ghost use Rattle.digits.specs.Digits.{is_byte, all_digits, value_of, first_is};
ghost use Rattle.asking.specs.Table.{word_first, is_over};
ghost use Rattle.asking.specs.Numbers.{Held, signed_word, digits_at, signed_at, number_at};

// A number and the place past it.
#[derive(Clone, Copy)]
pub struct Word {
    pub number: i64,
    pub next: usize,
}

// The value of digits, or some number past 2^63 where it is past it. Asks digits.
fn magnitude(d: &[u8]) -> u64
    requires { all_digits d.now ≡ true }
    ensures { Held (value_of d.now) result }
{
    let mut m = 0u64;
    for b in d {
        m = m.saturating_mul(10).saturating_add((*b - b'0') as u64);
    }
    m
}

// The number of a sign and a magnitude, where it is within 64 bits.
fn signed(minus: bool, m: u64, next: usize) -> Option<Word>
    ensures { result ≡ signed_word minus m next }
{
    let number = if minus {
        0i64.checked_sub_unsigned(m)?
    } else {
        i64::try_from(m).ok()?
    };
    Some(Word { number, next })
}

// The digits at a place, behind their sign.
fn digits_at(line: &[u8], at: usize, minus: bool) -> Option<Word>
    ensures { result ≡ digits_at minus at (drop at line.now) }
{
    let n = digits::run_at(line, at).count;
    if n == 0 {
        return None;
    }
    let end = at + n;
    signed(minus, magnitude(&line[at..end]), end)
}

// Does this byte stand at a place of the line?
pub fn stands(line: &[u8], at: usize, b: u8) -> bool
    ensures { result ≡ first_is (is_byte b) (drop at line.now) }
{
    line.get(at) == Some(&b)
}

// Is a word over at a place of the line? A space stands there, or the line has ended.
pub(crate) fn is_over(line: &[u8], at: usize) -> bool
    ensures { result ≡ is_over (drop at line.now) }
{
    line.get(at).is_none_or(|b| *b == b' ')
}

// Does this word stand at a place of the line?
pub fn word_stands(line: &[u8], at: usize, word: &[u8]) -> bool
    ensures { result ≡ word_first word.now (drop at line.now) }
{
    line[at.min(line.len())..].starts_with(word)
}

// An optional `-` at a place, and the digits behind it.
pub fn signed_at(line: &[u8], at: usize) -> Option<Word>
    ensures { result ≡ signed_at at (drop at line.now) }
{
    if stands(line, at, b'-') {
        digits_at(line, at + 1, true)
    } else {
        digits_at(line, at, false)
    }
}

// A space at a place of the line, and the number behind it.
pub fn number(line: &[u8], at: usize) -> Option<Word>
    ensures { result ≡ number_at at (drop at line.now) }
{
    if stands(line, at, b' ') {
        signed_at(line, at + 1)
    } else {
        None
    }
}
