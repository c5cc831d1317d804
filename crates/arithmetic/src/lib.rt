// Sums, products, divisions and comparison of timecodes, each rounded once. Each operation admits its timecodes, then works on counts.
// Refuses 6, then 15: a position where it may not be; then 5 of an input, then 7, then 5 of the result.
#![tactic(auto)]

ghost use Rattle.std.specs.Prelude.{◌≡◌};
ghost use Rattle.numbers.specs.Nearest.{nearest_z};
ghost use Rattle.answers.specs.Refusals.{held};
ghost use Rattle.rates.specs.Rates.{frame_ticks};
ghost use Rattle.timecodes.specs.Timecode.{placed};
ghost use Rattle.timecodes.specs.Made.{settled};
ghost use Rattle.arithmetic.specs.Sum.{add_of, sub_of};
ghost use Rattle.arithmetic.specs.Product.{mul_of};
ghost use Rattle.arithmetic.specs.Truncating.{div_of, rem_of};
ghost use Rattle.arithmetic.specs.Flooring.{divq_of};
ghost use Rattle.arithmetic.specs.Remainder.{remq_of};
ghost use Rattle.arithmetic.specs.Compare.{compare_of};
ghost use Rattle.arithmetic.specs.Count.{neg_of, abs_of, rebase_of};

use answers::{Cause, Refusal};
use timecodes::{Joining, Kind, Timecode};

mod counts;

use counts::Count;

// The frame of a rate nearest to a number of ticks, made a timecode of a kind. Refuses 5: the count is out of bounds.
fn nearest(ticks: i64, rate: u64, kind: Kind) -> Result<Timecode, Refusal>
    ensures { result ≡ settled kind (placed rate (held (nearest_z ticks (frame_ticks rate)))) }
{
    let count = answers::nearest_count(ticks, rates::row(rate).ticks)?;
    Ok(timecodes::made(count, rate, kind))
}

// The sum at the left one's rate (vtc's `+`): of two lengths a length, of a position and a length a position, reduced by whole days.
// Refuses 6: no such rate; 15: two positions; 5: a count, or the resulting count, is out of bounds.
pub fn add(a: Timecode, b: Timecode) -> Result<Timecode, Refusal>
    ensures { result ≡ add_of a b }
{
    let kind = timecodes::admit_both(a, b, Joining::Sum)?;
    let ticks = timecodes::instant_of(a) + timecodes::instant_of(b);
    nearest(ticks, a.rate, kind)
}

// The difference at the left one's rate (vtc's `-`): of two lengths a length, of a position and a length a position, reduced by whole
// days; of two positions a length, not reduced. Refuses 6: no such rate; 15: a length minus a position; 5: as `add` does.
pub fn sub(a: Timecode, b: Timecode) -> Result<Timecode, Refusal>
    ensures { result ≡ sub_of a b }
{
    let kind = timecodes::admit_both(a, b, Joining::Difference)?;
    let ticks = timecodes::instant_of(a) - timecodes::instant_of(b);
    nearest(ticks, a.rate, kind)
}

// The product with p/q (vtc's `*`); with a whole number it is that with p/1. Refuses 6: no such rate; 15: it is a position; 5: the count or
// the factor, or then the resulting count, is out of bounds.
pub fn mul(tc: Timecode, p: i64, q: u64) -> Result<Timecode, Refusal>
    ensures { result ≡ mul_of tc p q }
{
    timecodes::admit_length(tc)?;
    timecodes::moved(tc, Count::new(tc.count).product(p, q), tc.rate)
}

// The quotient by a whole number, cut off toward zero (vtc's `/` of an i64). Refuses 6: no such rate; 15: it is a position; 5: the count is
// out of bounds; 7: the divisor is zero.
pub fn div(tc: Timecode, n: i64) -> Result<Timecode, Refusal>
    ensures { result ≡ div_of tc n }
{
    timecodes::admit_length(tc)?;
    timecodes::moved(tc, Count::new(tc.count).quotient(n), tc.rate)
}

// What `div` leaves, with the dividend's sign (vtc's `%` of an i64). Refuses as `div` does.
pub fn rem(tc: Timecode, n: i64) -> Result<Timecode, Refusal>
    ensures { result ≡ rem_of tc n }
{
    timecodes::admit_length(tc)?;
    timecodes::moved(tc, Count::new(tc.count).remainder(n), tc.rate)
}

// The quotient by p/q, rounded down (vtc's `/` of a rational). Refuses 6: no such rate; 15: it is a position; 5: the count or the divisor is
// out of bounds; 7: the divisor is zero; 5: the resulting count is out of bounds.
pub fn divq(tc: Timecode, p: i64, q: u64) -> Result<Timecode, Refusal>
    ensures { result ≡ divq_of tc p q }
{
    timecodes::admit_length(tc)?;
    timecodes::moved(tc, Count::new(tc.count).quotient_by(p, q), tc.rate)
}

// The remainder by p/q, with the dividend's sign, rounded (vtc's `%` of a rational). Refuses as `divq` does.
pub fn remq(tc: Timecode, p: i64, q: u64) -> Result<Timecode, Refusal>
    ensures { result ≡ remq_of tc p q }
{
    timecodes::admit_length(tc)?;
    timecodes::moved(tc, Count::new(tc.count).remainder_by(p, q), tc.rate)
}

// How two timecodes compare, by instant (vtc's `cmp`). Refuses 6: no such rate; 15: a length and a position; 5: a count is out of bounds.
pub fn cmp(a: Timecode, b: Timecode) -> Result<i64, Refusal>
    ensures { result ≡ compare_of a b }
{
    timecodes::admit_both(a, b, Joining::Comparison)?;
    Ok(counts::order(timecodes::instant_of(a), timecodes::instant_of(b)))
}

// The negated count (vtc's `-`). Refuses 6: no such rate; 15: it is a position; 5: the count is out of bounds.
pub fn neg(tc: Timecode) -> Result<Timecode, Refusal>
    ensures { result ≡ neg_of tc }
{
    timecodes::admit_length(tc)?;
    timecodes::moved(tc, Ok(-tc.count), tc.rate)
}

// The absolute count (vtc's `abs`). Refuses as `neg` does.
pub fn abs(tc: Timecode) -> Result<Timecode, Refusal>
    ensures { result ≡ abs_of tc }
{
    timecodes::admit_length(tc)?;
    timecodes::moved(tc, Ok(tc.count.abs()), tc.rate)
}

// The same count at another rate (vtc's `rebase`). Refuses 6: either rate is none; 15: it is a position; 5: the count is out of bounds.
pub fn rebase(tc: Timecode, rate: u64) -> Result<Timecode, Refusal>
    ensures { result ≡ rebase_of tc rate }
{
    if !rates::is_rate(rate) {
        return Err(Cause::NoSuch.into());
    }
    timecodes::admit_length(tc)?;
    timecodes::moved(tc, Ok(tc.count), rate)
}
