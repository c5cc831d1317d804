// The twelve rates by number: one constant table. A number that is no rate is refused 6.
#![tactic(auto)]

ghost use Rattle.std.specs.Prelude.{◌≡◌, true};
ghost use Rattle.rates.specs.Rates.{is_rate, rate_row, rate_at, drop_frames, is_drop};
ghost use Rattle.rates.specs.Day.{day_frames};

use answers::{Cause, Refusal};

// A row of the table: frames a second as a fraction in lowest terms, frames a second of the labels, ticks a frame.
#[derive(Clone, Copy)]
pub struct Framerate {
    pub numerator: u64,
    pub denominator: u64,
    pub timebase: u64,
    pub ticks: u64,
}

// A second has so many ticks.
pub const SECOND_TICKS: u64 = 254_016_000_000;

// The row of a number that is no rate.
const NO_ROW: Framerate = Framerate {
    numerator: 0,
    denominator: 0,
    timebase: 0,
    ticks: 0,
};

// Rates 1 to 12, in order. A whole rate has denominator 1.
const RATES: [Framerate; 12] = [
    Framerate {
        numerator: 24_000,
        denominator: 1001,
        timebase: 24,
        ticks: 10_594_584_000,
    },
    Framerate {
        numerator: 24,
        denominator: 1,
        timebase: 24,
        ticks: 10_584_000_000,
    },
    Framerate {
        numerator: 25,
        denominator: 1,
        timebase: 25,
        ticks: 10_160_640_000,
    },
    Framerate {
        numerator: 30_000,
        denominator: 1001,
        timebase: 30,
        ticks: 8_475_667_200,
    },
    Framerate {
        numerator: 30_000,
        denominator: 1001,
        timebase: 30,
        ticks: 8_475_667_200,
    },
    Framerate {
        numerator: 30,
        denominator: 1,
        timebase: 30,
        ticks: 8_467_200_000,
    },
    Framerate {
        numerator: 48_000,
        denominator: 1001,
        timebase: 48,
        ticks: 5_297_292_000,
    },
    Framerate {
        numerator: 48,
        denominator: 1,
        timebase: 48,
        ticks: 5_292_000_000,
    },
    Framerate {
        numerator: 50,
        denominator: 1,
        timebase: 50,
        ticks: 5_080_320_000,
    },
    Framerate {
        numerator: 60_000,
        denominator: 1001,
        timebase: 60,
        ticks: 4_237_833_600,
    },
    Framerate {
        numerator: 60_000,
        denominator: 1001,
        timebase: 60,
        ticks: 4_237_833_600,
    },
    Framerate {
        numerator: 60,
        denominator: 1,
        timebase: 60,
        ticks: 4_233_600_000,
    },
];

// Whether there is a rate of this number: 1 to 12.
#[tactic(auto, unfolding(crate::specs::Rates::is_rate))]
pub fn is_rate(no: u64) -> bool
    ensures { result ≡ is_rate no }
{
    matches!(no, 1..=12)
}

// The entry of a rate. Asks that the number is one.
#[inline(always)]
fn entry(no: u64) -> Framerate
    requires { is_rate no ≡ true }
    ensures { result ≡ rate_row no }
{
    RATES[(no - 1) as usize]
}

// The row of a rate. Refuses 6: no such rate.
#[inline(always)]
pub fn framerate_at(no: u64) -> Result<Framerate, Refusal>
    ensures { result ≡ rate_at no }
{
    if !is_rate(no) {
        return Err(Cause::NoSuch.into());
    }
    Ok(entry(no))
}

// The row of a rate; of a number that is no rate, zeros.
#[inline(always)]
pub fn row(no: u64) -> Framerate
    ensures { result ≡ rate_row no }
{
    if is_rate(no) { entry(no) } else { NO_ROW }
}

// How many labels a minute drops, but each tenth: 2 at rate 5, 4 at rate 11, else 0 (vtc's word).
#[tactic(auto, unfolding(crate::specs::Rates::drop_frames))]
pub fn drop_frames_per_minute(no: u64) -> u64
    ensures { result ≡ drop_frames no }
{
    match no {
        5 => 2,
        11 => 4,
        _ => 0,
    }
}

// The frames of a rate's day: 24 hours of the timebase, less the labels that 1,296 of its 1,440 minutes drop; of a number that is no rate, 0.
pub fn day(no: u64) -> u64
    ensures { result ≡ day_frames no }
{
    86_400 * row(no).timebase - 1_296 * drop_frames_per_minute(no)
}

// Whether the rate drops labels: rates 5 and 11.
#[tactic(auto, unfolding(crate::specs::Rates::is_drop, crate::specs::Rates::drop_frames))]
pub fn is_drop(no: u64) -> bool
    ensures { result ≡ is_drop no }
{
    drop_frames_per_minute(no) > 0
}
