// What the operations do to counts and instants: no timecode stands here.
ghost use Rattle.std.specs.Prelude.{◌≡◌, true, ◌+◌, ◌≤◌, ◌<◌, ◌^◌, pos, nat_abs, ◌*ℤ◌};
ghost use Rattle.numbers.specs.Nearest.{nearest_z};
ghost use Rattle.answers.specs.Order.{judged};
ghost use Rattle.answers.specs.Refusals.{most_count, held};
ghost use Rattle.rates.specs.Rates.{frame_ticks};
ghost use Rattle.time.specs.Bounds.{most_denominator};
ghost use Rattle.arithmetic.specs.Sum.{sum_or};
ghost use Rattle.arithmetic.specs.Divisor.{divisor_when};
ghost use Rattle.arithmetic.specs.Product.{product_counted};
ghost use Rattle.arithmetic.specs.Truncating.{quotient_counted, remainder_counted};
ghost use Rattle.arithmetic.specs.Flooring.{floored_counted};
ghost use Rattle.arithmetic.specs.Remainder.{left_counted};
ghost use Rattle.arithmetic.specs.Compare.{order_of};

use answers::{Cause, Refusal};
use std::cmp::Ordering;

// Factors and rational divisors p/q: |p| is at most this.
const MOST_FACTOR: u64 = 1_000_000;

// A count within its bounds.
#[derive(Clone, Copy)]
pub(crate) struct Count {
    n: i64,
    ghost within: { nat_abs n ≤ most_count },
}

impl Count {
    // That of a number. Asks that it is within the bounds of a count.
    pub(crate) fn new(n: i64) -> Count
        requires { nat_abs n ≤ most_count }
        ensures { result.n ≡ n }
    {
        Count { n }
    }

    // The product of a count with p/q, rounded. Refuses 5: the factor, or then the count, is out of bounds.
    pub(crate) fn product(self, p: i64, q: u64) -> Result<i64, Refusal>
        ensures { result ≡ product_counted self.n p q }
    {
        if !time::is_fraction(MOST_FACTOR, p, q) {
            return Err(Cause::OutOfBounds.into());
        }
        answers::nearest_count(numbers::product(self.n, p), q)
    }

    // The truncated quotient of a count. Refuses 7: the divisor is zero.
    #[tactic(auto, unfolding(crate::specs::Truncating::quotient_counted))]
    pub(crate) fn quotient(self, n: i64) -> Result<i64, Refusal>
        ensures { result ≡ quotient_counted self.n n }
    {
        if n == 0 {
            return Err(Cause::ZeroDivisor.into());
        }
        Ok(self.n / n)
    }

    // What the truncated quotient leaves of a count. Refuses 7: the divisor is zero.
    #[tactic(auto, unfolding(crate::specs::Truncating::remainder_counted))]
    pub(crate) fn remainder(self, n: i64) -> Result<i64, Refusal>
        ensures { result ≡ remainder_counted self.n n }
    {
        if n == 0 {
            return Err(Cause::ZeroDivisor.into());
        }
        Ok(self.n % n)
    }

    // A count times q.
    fn scaled(self, q: u64) -> i64
        requires { q ≤ most_denominator }
        ensures { result ≡ self.n *ℤ pos q }
    {
        numbers::product(self.n, numbers::with_sign(false, q))
    }

    // The quotient of a count by p/q, rounded down. Refuses as `divisor` does, then 5: the count is out of bounds.
    pub(crate) fn quotient_by(self, p: i64, q: u64) -> Result<i64, Refusal>
        ensures { result ≡ floored_counted self.n p q }
    {
        divisor(p, q)?;
        let z = numbers::floor(self.scaled(q), p);
        answers::held(z < 0, z.unsigned_abs())
    }

    // The remainder of a count by p/q, rounded. Refuses as `divisor` does, then 5: the count is out of bounds.
    pub(crate) fn remainder_by(self, p: i64, q: u64) -> Result<i64, Refusal>
        ensures { result ≡ left_counted self.n p q }
    {
        divisor(p, q)?;
        answers::nearest_count(numbers::remainder(self.scaled(q), p), q)
    }
}

// Whether p/q may divide. Refuses 5: it is out of bounds; 7: it is zero.
fn divisor(p: i64, q: u64) -> Result<(), Refusal>
    ensures { result ≡ judged (divisor_when p q) }
{
    if !time::is_fraction(MOST_FACTOR, p, q) {
        return Err(Cause::OutOfBounds.into());
    }
    if p == 0 {
        return Err(Cause::ZeroDivisor.into());
    }
    Ok(())
}

// -1, 0 or 1, as x is below, at or above y.
#[tactic(auto, unfolding(crate::specs::Compare::order_of))]
pub(crate) fn order(x: i64, y: i64) -> i64
    ensures { result ≡ order_of x y }
{
    match x.cmp(&y) {
        Ordering::Less => -1,
        Ordering::Equal => 0,
        Ordering::Greater => 1,
    }
}
