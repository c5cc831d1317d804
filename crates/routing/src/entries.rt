// A line of a directory file: nothing, or two numbers; blanks around them and between them, and a comment behind them.
ghost use Rattle.std.specs.Prelude.{◌≡◌, drop};
ghost use Rattle.routing.specs.Entries.{is_blank, is_over, past_blanks, found_at, entry_of};

use crate::loading::Flaw;

// The two numbers of a line.
#[derive(Clone, Copy)]
pub struct Pair {
    pub first: u64,
    pub second: u64,
}

// A number, and the place past it.
#[derive(Clone, Copy)]
struct Numeral {
    value: u64,
    next: usize,
}

// Is this byte a space, a tab or a carriage return?
fn is_blank(b: u8) -> bool
    ensures { result ≡ is_blank b }
{
    matches!(b, b' ' | b'\t' | b'\r')
}

// The place past the blanks that stand at a place.
fn past_blanks(line: &[u8], at: usize) -> usize
    ensures { drop result line.now ≡ past_blanks (drop at line.now) }
{
    for i in at..line.len() {
        if !is_blank(line[i]) {
            return i;
        }
    }
    line.len()
}

// Is the line over at a place? It ends there, or a comment begins.
fn is_over(line: &[u8], at: usize) -> bool
    ensures { result ≡ is_over (drop at line.now) }
{
    line.get(at).is_none_or(|b| *b == b'#')
}

// The number that stands at a place: digits, with no sign.
fn number_at(line: &[u8], at: usize) -> Result<Numeral, Flaw>
    ensures { result ≡ found_at at (drop at line.now) }
{
    match asking::signed_at(line, at) {
        Some(word) if !asking::stands(line, at, b'-') => Ok(Numeral {
            value: word.number.unsigned_abs(),
            next: word.next,
        }),
        _ => Err(Flaw::NotTwoNumbers),
    }
}

// What a line of a directory file says, if anything.
pub fn entry_of(line: &[u8]) -> Result<Option<Pair>, Flaw>
    ensures { result ≡ entry_of line.now }
{
    let at = past_blanks(line, 0);
    if is_over(line, at) {
        return Ok(None);
    }
    let first = number_at(line, at)?;
    let second = number_at(line, past_blanks(line, first.next))?;
    if !is_over(line, past_blanks(line, second.next)) {
        return Err(Flaw::NotTwoNumbers);
    }
    Ok(Some(Pair {
        first: first.value,
        second: second.value,
    }))
}
