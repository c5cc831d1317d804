// Counts, ticks and seconds: in, out, and through a list of rates.
ghost use Rattle.std.specs.Prelude.{◌≡◌};
ghost use Rattle.timecodes.specs.Kinds.{kind_from};
ghost use Rattle.timecodes.specs.Made.{settled};
ghost use Rattle.time.specs.Frames.{frames_at, ticks_at, seconds_at};
ghost use Rattle.time.specs.Ticks.{ticks_of};
ghost use Rattle.chains.specs.Chain.{convert_of};
ghost use Rattle.exports.specs.Handed.{timecode_from, handed_answer, handed_ticks, handed_timecode, SecondsHanded};

use crate::handed::{TzqConverted, TzqCount, TzqSeconds, TzqTicks, TzqTimecode};
use timecodes::Kind;

// A count at a rate, a length or a position. Refuses 6: no such rate; 5: the count is out of bounds.
#[unsafe(no_mangle)]
pub extern "C" fn tzq_with_frames(count: i64, rate: u64, position: bool) -> TzqCount
    ensures { result ≡ handed_answer (settled (kind_from position) (frames_at count rate)) }
{
    time::with_frames(count, rate, Kind::from(position)).into()
}

// The frame nearest to a number of ticks, a length or a position. Refuses 6: no such rate; 5: the resulting count is out of bounds.
#[unsafe(no_mangle)]
pub extern "C" fn tzq_with_premiere_ticks(ticks: i64, rate: u64, position: bool) -> TzqCount
    ensures { result ≡ handed_answer (settled (kind_from position) (ticks_at ticks rate)) }
{
    time::with_premiere_ticks(ticks, rate, Kind::from(position)).into()
}

// The frame nearest to p/q seconds, a length or a position. Refuses 6: no such rate; 5: p or q, or then the resulting count, is out of bounds.
#[unsafe(no_mangle)]
pub extern "C" fn tzq_with_seconds(p: i64, q: u64, rate: u64, position: bool) -> TzqCount
    ensures { result ≡ handed_answer (settled (kind_from position) (seconds_at p q rate)) }
{
    time::with_seconds(p, q, rate, Kind::from(position)).into()
}

// The ticks of a timecode, exactly. Refuses 6: no such rate; 5: the count is out of bounds.
#[unsafe(no_mangle)]
pub extern "C" fn tzq_premiere_ticks(tc: TzqTimecode) -> TzqTicks
    ensures { result ≡ handed_ticks (ticks_of (timecode_from tc)) }
{
    time::premiere_ticks(tc.into()).into()
}

// The seconds of a timecode, exactly, in lowest terms. Refuses 6: no such rate; 5: the count is out of bounds.
#[unsafe(no_mangle)]
pub extern "C" fn tzq_seconds(tc: TzqTimecode) -> TzqSeconds
    ensures { SecondsHanded (timecode_from tc) result }
{
    time::seconds(tc.into()).into()
}

// The timecode through a list of rates, the nearest frame at each in turn. Refuses 6: its own rate or any listed number is no rate;
// 15: it is a position; 5: its own count, or that after any step, is out of bounds.
#[unsafe(no_mangle)]
pub extern "C" fn tzq_convert(tc: TzqTimecode, list: &[u64]) -> TzqConverted
    ensures { result ≡ handed_timecode (convert_of (timecode_from tc) list.now) }
{
    chains::convert(tc.into(), list).into()
}
