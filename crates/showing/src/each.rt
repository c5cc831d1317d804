// What is shown of each kind of answer: its numbers, or its refusal.
ghost use Rattle.std.specs.Prelude.{◌≡◌};
ghost use Rattle.showing.specs.Each.{of_refusal, of_text_refusal, of_answer, of_converted, of_number, of_timed, of_read};

use crate::{Shown, Word, count_and, one_count, one_number, two_numbers};
use answers::Refusal;
use reading::Read;
use time::Fraction;
use timecodes::Timecode;

// A refusal: `refused` and its number.
pub(crate) fn of_refusal(e: Refusal) -> Shown
    ensures { result ≡ of_refusal e }
{
    one_number(Some(Word::Refused), e.cause.number() as i64)
}

// The refusal of a text: `refused`, its number and its place.
pub(crate) fn of_text_refusal(e: Refusal) -> Shown
    ensures { result ≡ of_text_refusal e }
{
    two_numbers(
        Some(Word::Refused),
        e.cause.number() as i64,
        b' ',
        e.place as u64,
    )
}

// A timecode: its count.
pub fn of_answer(a: Result<Timecode, Refusal>) -> Shown
    ensures { result ≡ of_answer a }
{
    match a {
        Ok(tc) => one_count(None, tc),
        Err(e) => of_refusal(e),
    }
}

// A timecode at the rate that it came to: `COUNT RATE`.
pub fn of_converted(a: Result<Timecode, Refusal>) -> Shown
    ensures { result ≡ of_converted a }
{
    match a {
        Ok(tc) => count_and(None, tc, tc.rate),
        Err(e) => of_refusal(e),
    }
}

// A number: a count, ticks, or an order (-1, 0 or 1).
pub fn of_number(a: Result<i64, Refusal>) -> Shown
    ensures { result ≡ of_number a }
{
    match a {
        Ok(z) => one_number(None, z),
        Err(e) => of_refusal(e),
    }
}

// Seconds: `P/Q`.
pub fn of_timed(a: Result<Fraction, Refusal>) -> Shown
    ensures { result ≡ of_timed a }
{
    match a {
        Ok(f) => two_numbers(None, f.p, b'/', f.q),
        Err(e) => of_refusal(e),
    }
}

// A text's timecode: `label COUNT` or `footage COUNT FORMAT`; or its refusal and where.
pub fn of_read(a: Result<Read, Refusal>) -> Shown
    ensures { result ≡ of_read a }
{
    match a {
        Ok(Read::Label(tc)) => one_count(Some(Word::Label), tc),
        Ok(Read::Footage(tc, format)) => count_and(Some(Word::Footage), tc, format.number()),
        Err(e) => of_text_refusal(e),
    }
}
