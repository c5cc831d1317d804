// Operations where the answer fits: each asks for that, and only the total function of its name calls it, behind the test.
ghost use Rattle.std.specs.Prelude.{◌≡◌, ◌^◌, ◌<◌, nat_abs};
ghost use Rattle.numbers.specs.Sign.{signed};
ghost use Rattle.numbers.specs.Nearest.{nearest_n};
ghost use Rattle.numbers.specs.Floor.{floor_z};
ghost use Rattle.numbers.specs.Modulo.{reduced_z};
ghost use Rattle.numbers.specs.Lowest.{Gcd, Lowest};

use crate::Ratio;

// The number with this sign and magnitude.
pub(crate) fn with_sign(minus: bool, m: u64) -> i64
    requires { m < 2 ^ 63 }
    ensures { result ≡ signed minus m }
{
    let p = m as i64;
    if minus { 0 - p } else { p }
}

// The nearest whole number of a/n, halves up; nothing is doubled, so any a is taken.
pub(crate) fn nearest(a: u64, n: u64) -> u64
    requires { 0 < n }
    ensures { result ≡ nearest_n a n }
{
    let q = a / n;
    let r = a % n;
    if n - r <= r { q + 1 } else { q }
}

// x over d, rounded down.
pub(crate) fn floor(x: i64, d: i64) -> i64
    requires { (nat_abs x < 2 ^ 63) × (0 < nat_abs d) }
    ensures { result ≡ floor_z x d }
{
    let m = crate::magnitude(x);
    let n = crate::magnitude(d);
    if crate::below_zero(x) == crate::below_zero(d) {
        with_sign(false, m / n)
    } else {
        with_sign(true, m.div_ceil(n))
    }
}

// The number with this sign and magnitude, reduced by whole n's: below zero it is n less what is left.
pub(crate) fn reduced(minus: bool, m: u64, n: u64) -> u64
    requires { 0 < n }
    ensures { result ≡ reduced_z (signed minus m) n }
{
    let r = m % n;
    if r == 0 {
        return 0;
    }
    if minus { n - r } else { r }
}

// The greatest common divisor, by Euclid's loop.
fn gcd(a: u64, b: u64) -> u64
    ensures { Gcd a b result }
{
    let mut x = a;
    let mut y = b;
    while y != 0 {
        let r = x % y;
        x = y;
        y = r;
    }
    x
}

// p/q in lowest terms.
pub(crate) fn lowest(p: u64, q: u64) -> Ratio
    requires { 0 < q }
    ensures { Lowest p q result.num result.den }
{
    let g = gcd(p, q);
    Ratio {
        num: p / g,
        den: q / g,
    }
}
