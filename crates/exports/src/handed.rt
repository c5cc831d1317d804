// What is handed to C: a struct of numbers for each kind of answer, the refusal's number first.
ghost use Rattle.std.specs.Prelude.{◌≡◌};
ghost use Rattle.answers.specs.Causes.{refusal_number};
ghost use Rattle.exports.specs.Handed.{timecode_from, handed_count, handed_answer, handed_read, handed_order, handed_ticks, handed_seconds, handed_timecode, handed_sections, handed_length, handed_rate, handed_format};

use answers::Refusal;
use film::FilmFormat;
use label_writer::TimecodeSections;
use rates::Framerate;
use reading::Read;
use time::Fraction;
use timecodes::{Kind, Timecode};

// A count and a rate; a position, or else a length.
#[repr(C)]
#[derive(Clone, Copy)]
pub struct TzqTimecode {
    pub count: i64,
    pub rate: u64,
    pub position: bool,
}

// A count, and whether it is that of a position. Refused: count 0, no position.
#[repr(C)]
#[derive(Clone, Copy)]
pub struct TzqCount {
    pub refused: u64,
    pub count: i64,
    pub position: bool,
}

// What a text reads as: its count, a footage's film format (a label's is 0), and whether it is a position. Refused: count 0, format 0, no
// position, and the place in the text (0 for any other number than 1 and 2).
#[repr(C)]
#[derive(Clone, Copy)]
pub struct TzqRead {
    pub refused: u64,
    pub count: i64,
    pub format: u64,
    pub place: usize,
    pub position: bool,
}

// How two timecodes compare: -1, 0 or 1. Refused: order 0.
#[repr(C)]
#[derive(Clone, Copy)]
pub struct TzqOrder {
    pub refused: u64,
    pub order: i64,
}

// Ticks. Refused: ticks 0.
#[repr(C)]
#[derive(Clone, Copy)]
pub struct TzqTicks {
    pub refused: u64,
    pub ticks: i64,
}

// Seconds as a fraction. Refused: 0/1.
#[repr(C)]
#[derive(Clone, Copy)]
pub struct TzqSeconds {
    pub refused: u64,
    pub numerator: i64,
    pub denominator: u64,
}

// A count at the rate where a conversion ends. Refused: both 0.
#[repr(C)]
#[derive(Clone, Copy)]
pub struct TzqConverted {
    pub refused: u64,
    pub count: i64,
    pub rate: u64,
}

// The fields of a label. Refused: not negative, all 0.
#[repr(C)]
#[derive(Clone, Copy)]
pub struct TzqSections {
    pub refused: u64,
    pub negative: bool,
    pub hours: u64,
    pub minutes: u64,
    pub seconds: u64,
    pub frames: u64,
}

// The length of a text laid down. Refused: length 0.
#[repr(C)]
#[derive(Clone, Copy)]
pub struct TzqLength {
    pub refused: u64,
    pub length: usize,
}

// A row of the table of rates. Refused: all 0.
#[repr(C)]
#[derive(Clone, Copy)]
pub struct TzqRate {
    pub refused: u64,
    pub numerator: u64,
    pub denominator: u64,
    pub timebase: u64,
    pub ticks: u64,
}

// A film format's perfs, and whether its footage may have a perf field. Refused: all 0 and false.
#[repr(C)]
#[derive(Clone, Copy)]
pub struct TzqFormat {
    pub refused: u64,
    pub perfs_per_frame: u64,
    pub perfs_per_foot: u64,
    pub perf_field: bool,
}

// The number of a refusal among C's numbers.
pub(crate) fn number_of(e: Refusal) -> u64
    ensures { result ≡ refusal_number e }
{
    u64::from(e.cause.number())
}

// The timecode that C handed over.
impl From<TzqTimecode> for Timecode {
    ghost from_gives = { λ t tc. tc ≡ timecode_from t };

    fn from(t: TzqTimecode) -> Timecode {
        timecodes::new(t.count, t.rate, Kind::from(t.position))
    }
}

// A count or its refusal.
impl From<Result<i64, Refusal>> for TzqCount {
    ghost from_gives = { λ a t. t ≡ handed_count a };

    fn from(a: Result<i64, Refusal>) -> TzqCount {
        match a {
            Ok(count) => TzqCount {
                refused: 0,
                count,
                position: false,
            },
            Err(e) => TzqCount {
                refused: number_of(e),
                count: 0,
                position: false,
            },
        }
    }
}

// A timecode's count and kind, or its refusal: the rate is the caller's own.
impl From<Result<Timecode, Refusal>> for TzqCount {
    ghost from_gives = { λ a t. t ≡ handed_answer a };

    fn from(a: Result<Timecode, Refusal>) -> TzqCount {
        match a {
            Ok(tc) => TzqCount {
                refused: 0,
                count: tc.count,
                position: tc.kind.is_position(),
            },
            Err(e) => TzqCount {
                refused: number_of(e),
                count: 0,
                position: false,
            },
        }
    }
}

// What a text reads as, or its refusal.
impl From<Result<Read, Refusal>> for TzqRead {
    ghost from_gives = { λ a t. t ≡ handed_read a };

    fn from(a: Result<Read, Refusal>) -> TzqRead {
        match a {
            Ok(Read::Label(tc)) => TzqRead {
                refused: 0,
                count: tc.count,
                format: 0,
                place: 0,
                position: tc.kind.is_position(),
            },
            Ok(Read::Footage(tc, format)) => TzqRead {
                refused: 0,
                count: tc.count,
                format: format.number(),
                place: 0,
                position: tc.kind.is_position(),
            },
            Err(e) => TzqRead {
                refused: number_of(e),
                count: 0,
                format: 0,
                place: e.place,
                position: false,
            },
        }
    }
}

// An order or its refusal.
impl From<Result<i64, Refusal>> for TzqOrder {
    ghost from_gives = { λ a t. t ≡ handed_order a };

    fn from(a: Result<i64, Refusal>) -> TzqOrder {
        match a {
            Ok(order) => TzqOrder { refused: 0, order },
            Err(e) => TzqOrder {
                refused: number_of(e),
                order: 0,
            },
        }
    }
}

// Ticks or their refusal.
impl From<Result<i64, Refusal>> for TzqTicks {
    ghost from_gives = { λ a t. t ≡ handed_ticks a };

    fn from(a: Result<i64, Refusal>) -> TzqTicks {
        match a {
            Ok(ticks) => TzqTicks { refused: 0, ticks },
            Err(e) => TzqTicks {
                refused: number_of(e),
                ticks: 0,
            },
        }
    }
}

// Seconds or their refusal.
impl From<Result<Fraction, Refusal>> for TzqSeconds {
    ghost from_gives = { λ a t. t ≡ handed_seconds a };

    fn from(a: Result<Fraction, Refusal>) -> TzqSeconds {
        match a {
            Ok(f) => TzqSeconds {
                refused: 0,
                numerator: f.p,
                denominator: f.q,
            },
            Err(e) => TzqSeconds {
                refused: number_of(e),
                numerator: 0,
                denominator: 1,
            },
        }
    }
}

// A timecode at the end of a conversion, or its refusal.
impl From<Result<Timecode, Refusal>> for TzqConverted {
    ghost from_gives = { λ a t. t ≡ handed_timecode a };

    fn from(a: Result<Timecode, Refusal>) -> TzqConverted {
        match a {
            Ok(tc) => TzqConverted {
                refused: 0,
                count: tc.count,
                rate: tc.rate,
            },
            Err(e) => TzqConverted {
                refused: number_of(e),
                count: 0,
                rate: 0,
            },
        }
    }
}

// Sections or their refusal.
impl From<Result<TimecodeSections, Refusal>> for TzqSections {
    ghost from_gives = { λ a t. t ≡ handed_sections a };

    fn from(a: Result<TimecodeSections, Refusal>) -> TzqSections {
        match a {
            Ok(s) => TzqSections {
                refused: 0,
                negative: s.negative,
                hours: s.hours,
                minutes: s.minutes,
                seconds: s.seconds,
                frames: s.frames,
            },
            Err(e) => TzqSections {
                refused: number_of(e),
                negative: false,
                hours: 0,
                minutes: 0,
                seconds: 0,
                frames: 0,
            },
        }
    }
}

// A length or its refusal.
impl From<Result<usize, Refusal>> for TzqLength {
    ghost from_gives = { λ a t. t ≡ handed_length a };

    fn from(a: Result<usize, Refusal>) -> TzqLength {
        match a {
            Ok(length) => TzqLength { refused: 0, length },
            Err(e) => TzqLength {
                refused: number_of(e),
                length: 0,
            },
        }
    }
}

// A row or its refusal.
impl From<Result<Framerate, Refusal>> for TzqRate {
    ghost from_gives = { λ a t. t ≡ handed_rate a };

    fn from(a: Result<Framerate, Refusal>) -> TzqRate {
        match a {
            Ok(row) => TzqRate {
                refused: 0,
                numerator: row.numerator,
                denominator: row.denominator,
                timebase: row.timebase,
                ticks: row.ticks,
            },
            Err(e) => TzqRate {
                refused: number_of(e),
                numerator: 0,
                denominator: 0,
                timebase: 0,
                ticks: 0,
            },
        }
    }
}

// What is known of a film format, or its refusal.
impl From<Result<FilmFormat, Refusal>> for TzqFormat {
    ghost from_gives = { λ a t. t ≡ handed_format a };

    fn from(a: Result<FilmFormat, Refusal>) -> TzqFormat {
        match a {
            Ok(format) => TzqFormat {
                refused: 0,
                perfs_per_frame: format.perfs_per_frame(),
                perfs_per_foot: format.perfs_per_foot(),
                perf_field: format.allows_perf_field(),
            },
            Err(e) => TzqFormat {
                refused: number_of(e),
                perfs_per_frame: 0,
                perfs_per_foot: 0,
                perf_field: false,
            },
        }
    }
}
