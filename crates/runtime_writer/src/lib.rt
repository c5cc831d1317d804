// The runtime of a timecode to a precision, its text laid into the caller's line. Refuses 6, 5 and, where the text has no room, 8.
#![tactic(auto)]

ghost use Rattle.std.specs.Prelude.{◌≡◌, true, ◌≤◌, length};
ghost use Rattle.digits.specs.Digits.{digits_of};
ghost use Rattle.answers.specs.Refusals.{most_count};
ghost use Rattle.rates.specs.Rates.{is_rate};
ghost use Rattle.timecodes.specs.Admitted.{Valid};
ghost use Rattle.written.specs.Written.{answer_to, line_to};
ghost use Rattle.runtime_writer.specs.Fraction.{fraction_text};
ghost use Rattle.runtime_writer.specs.RuntimeText.{runtime_units, seconds_text, tail_text, runtime_text, runtime_draft};

use answers::{Cause, Refusal};
use timecodes::Timecode;
use written::Writable;

// The digits of a fraction that are written: how many, and the number that they make.
#[derive(Clone, Copy)]
struct Tail {
    width: usize,
    value: u64,
}

// A runtime as it is written: whole seconds behind the sign, and the digits of the fraction.
#[derive(Clone, Copy)]
struct RuntimeText {
    negative: bool,
    seconds: u64,
    tail: Tail,
    ghost few_digits: { tail.width ≤ 6 },
}

// The runtime of a timecode, laid down from `place` on (vtc's `runtime`): its length, and every byte of the line afterwards.
// Refuses 6: no such rate; 5: a count out of its bounds, or a precision above 6; 8: place plus text length exceeds the line's length.
#[tactic(auto, unfolding(crate::specs::RuntimeText::runtime_draft, written::specs::Written::answer_to, written::specs::Written::line_to))]
pub fn write_runtime(
    tc: Timecode,
    precision: u64,
    line: &mut [u8],
    place: usize,
) -> Result<usize, Refusal>
    ensures answer { result ≡ answer_to line.old place (runtime_draft tc precision) }
    ensures line { line.new ≡ line_to line.old place (runtime_draft tc precision) }
{
    timecodes::admit(tc)?;
    if precision > 6 {
        return Err(Cause::OutOfBounds.into());
    }
    written::write(&runtime_of(tc, precision), line, place)
}

// The runtime of a timecode. Asks a timecode that is admitted, and a precision of at most 6.
fn runtime_of(tc: Timecode, precision: u64) -> RuntimeText
    requires timecode { Valid tc }
    requires precision { precision ≤ 6 }
    ensures { tail_text result.negative result.seconds result.tail ≡ runtime_text tc.rate precision tc.count }
{
    let units = units_of(tc.rate, precision, tc.count.unsigned_abs());
    let unit = 10u64.pow(precision as u32);
    RuntimeText {
        negative: tc.count < 0,
        seconds: units / unit,
        tail: shortest(precision as usize, units % unit),
    }
}

// The time of f frames at a rate, rounded once, in units of the precision. Asks a rate, and f and precision within their bounds.
fn units_of(rate: u64, precision: u64, f: u64) -> u64
    requires rate { is_rate rate ≡ true }
    requires precision { precision ≤ 6 }
    requires count { f ≤ most_count }
    ensures { result ≡ runtime_units rate precision f }
{
    let row = rates::row(rate);
    numbers::nearest(
        f * row.denominator * 10u64.pow(precision as u32),
        row.numerator,
    )
}

// The digits of a fraction that are written: those of n in k digits, trailing zeros dropped but one digit kept.
fn shortest(k: usize, n: u64) -> Tail
    ensures { digits_of result.width result.value ≡ fraction_text k n }
{
    if k == 0 {
        return Tail { width: 1, value: 0 };
    }
    let mut tail = Tail { width: k, value: n };
    while tail.width > 1 && tail.value % 10 == 0 {
        tail.width -= 1;
        tail.value /= 10;
    }
    tail
}

impl Writable for RuntimeText {
    ghost text = { λ t. tail_text t.negative t.seconds t.tail };

    // How many bytes hours, minutes, seconds and the fraction have.
    fn length(&self) -> usize {
        self.clock_length() + 1 + self.tail.width
    }

    // Hours, minutes and seconds, and behind them the fraction, at the front of a part; every other byte stays.
    fn put(&self, part: &mut [u8]) {
        let s = self.seconds;
        let at = self.clock_length();
        written::put_clock(part, self.negative, s / 3600, s / 60 % 60, s % 60);
        written::put_marked(&mut part[at..], b'.', self.tail.width, self.tail.value);
    }
}

impl RuntimeText {
    // How many bytes hours, minutes and seconds have.
    fn clock_length(&self) -> usize
        ensures { result ≡ length (seconds_text self.now.negative self.now.seconds) }
    {
        let s = self.seconds;
        written::clock_length(self.negative, s / 3600, s / 60 % 60, s % 60)
    }
}
