// Whether an answer fits: the tests before the operations that ask. Nothing wraps in them.
ghost use Rattle.std.specs.Prelude.{◌≡◌, ◌&&◌, ◌+◌, ◌*◌, ◌^◌, ltb};

// 2 ^ 63: a magnitude below it fits under either sign.
pub(crate) const LIMIT: u64 = 9_223_372_036_854_775_808;

// Whether the sum of two magnitudes fits.
pub(crate) fn sum(a: u64, b: u64) -> bool
    ensures { result ≡ ltb (a + b) (2 ^ 63) }
{
    a.checked_add(b).is_some_and(|s| s < LIMIT)
}

// Whether the product of two magnitudes fits.
pub(crate) fn product(a: u64, b: u64) -> bool
    ensures { result ≡ ltb (a * b) (2 ^ 63) }
{
    a.checked_mul(b).is_some_and(|p| p < LIMIT)
}

// Whether a number of the first magnitude can be divided by one of the second: it is not the least, the divisor is not 0.
pub(crate) fn division(a: u64, b: u64) -> bool
    ensures { result ≡ ltb a (2 ^ 63) && ltb 0 b }
{
    a < LIMIT && b > 0
}
