// Signed numbers by sign and magnitude, exact sums and products, nearest, truncated and floored division, what is left by whole steps, and lowest terms.
// Each function answers for every argument: 0 where the magnitudes do not fit, or the divisor is 0.
#![tactic(auto)]

ghost use Rattle.std.specs.Prelude.{◌≡◌, ◌+◌, ◌*◌, nat_abs, ◌+ℤ◌, ◌-ℤ◌, ◌*ℤ◌};
ghost use Rattle.std.specs.Int.Signed.{quot_z, rem_z};
ghost use Rattle.numbers.specs.Sign.{is_neg, signed, up_from};
ghost use Rattle.numbers.specs.Nearest.{nearest_n};
ghost use Rattle.numbers.specs.Floor.{floor_z};
ghost use Rattle.numbers.specs.Modulo.{reduced_z};
ghost use Rattle.numbers.specs.Total.{fitted, divided, LowestOr};

mod exact;
mod fits;

// Whether x is below zero.
pub fn below_zero(x: i64) -> bool
    ensures { result ≡ is_neg x }
{
    x < 0
}

// The magnitude of any i64, the least one too.
pub fn magnitude(x: i64) -> u64
    ensures { result ≡ nat_abs x }
{
    x.unsigned_abs()
}

// A number where only those from 0 on have a meaning: a negative one becomes a number that no bound allows.
pub fn up_from(x: i64) -> u64
    ensures { result ≡ up_from x }
{
    if below_zero(x) {
        u64::MAX
    } else {
        magnitude(x)
    }
}

// The number with this sign and magnitude; 0 where the magnitude is 2 ^ 63 or more.
#[tactic(auto, unfolding(crate::specs::Total::fitted))]
pub fn with_sign(minus: bool, m: u64) -> i64
    ensures { result ≡ fitted m (signed minus m) }
{
    if m < fits::LIMIT {
        exact::with_sign(minus, m)
    } else {
        0
    }
}

// The sum; 0 where the magnitudes' sum is 2 ^ 63 or more.
#[tactic(auto, unfolding(crate::specs::Total::fitted))]
pub fn sum(x: i64, y: i64) -> i64
    ensures { result ≡ fitted (nat_abs x + nat_abs y) (x +ℤ y) }
{
    if fits::sum(magnitude(x), magnitude(y)) {
        x + y
    } else {
        0
    }
}

// The difference; 0 where the magnitudes' sum is 2 ^ 63 or more.
#[tactic(auto, unfolding(crate::specs::Total::fitted))]
pub fn difference(x: i64, y: i64) -> i64
    ensures { result ≡ fitted (nat_abs x + nat_abs y) (x -ℤ y) }
{
    if fits::sum(magnitude(x), magnitude(y)) {
        x - y
    } else {
        0
    }
}

// The product; 0 where the magnitudes' product is 2 ^ 63 or more.
#[tactic(auto, unfolding(crate::specs::Total::fitted))]
pub fn product(x: i64, y: i64) -> i64
    ensures { result ≡ fitted (nat_abs x * nat_abs y) (x *ℤ y) }
{
    if fits::product(magnitude(x), magnitude(y)) {
        x * y
    } else {
        0
    }
}

// The nearest whole number of a/n, halves up; 0 where n is 0.
#[tactic(auto, unfolding(crate::specs::Nearest::nearest_n))]
pub fn nearest(a: u64, n: u64) -> u64
    ensures { result ≡ nearest_n a n }
{
    if n == 0 { 0 } else { exact::nearest(a, n) }
}

// x over d, cut off toward zero; 0 where x is the least i64 or d is 0.
#[tactic(auto, unfolding(crate::specs::Total::divided))]
pub fn quotient(x: i64, d: i64) -> i64
    ensures { result ≡ divided x d (quot_z x d) }
{
    if fits::division(magnitude(x), magnitude(d)) {
        x / d
    } else {
        0
    }
}

// What the truncated quotient leaves, with the dividend's sign; 0 where `quotient` gives 0 without dividing.
#[tactic(auto, unfolding(crate::specs::Total::divided))]
pub fn remainder(x: i64, d: i64) -> i64
    ensures { result ≡ divided x d (rem_z x d) }
{
    if fits::division(magnitude(x), magnitude(d)) {
        x % d
    } else {
        0
    }
}

// x over d, rounded down; 0 where `quotient` gives 0 without dividing.
#[tactic(auto, unfolding(crate::specs::Total::divided))]
pub fn floor(x: i64, d: i64) -> i64
    ensures { result ≡ divided x d (floor_z x d) }
{
    if fits::division(magnitude(x), magnitude(d)) {
        exact::floor(x, d)
    } else {
        0
    }
}

// x reduced by whole n's, so that it lies from 0 up to n, which is not included; 0 where n is 0.
#[tactic(auto, unfolding(crate::specs::Modulo::reduced_z))]
pub fn reduced(x: i64, n: u64) -> u64
    ensures { result ≡ reduced_z x n }
{
    if n == 0 {
        0
    } else {
        exact::reduced(below_zero(x), magnitude(x), n)
    }
}

// A fraction, numerator over denominator.
#[derive(Clone, Copy)]
pub struct Ratio {
    pub num: u64,
    pub den: u64,
}

// p/q in lowest terms; 0/1 where q is 0.
pub fn lowest(p: u64, q: u64) -> Ratio
    ensures { LowestOr p q result.num result.den }
{
    if q == 0 {
        Ratio { num: 0, den: 1 }
    } else {
        exact::lowest(p, q)
    }
}
