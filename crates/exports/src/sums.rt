// Sums, products, divisions and comparison of timecodes.
ghost use Rattle.std.specs.Prelude.{◌≡◌};
ghost use Rattle.arithmetic.specs.Sum.{add_of, sub_of};
ghost use Rattle.arithmetic.specs.Product.{mul_of};
ghost use Rattle.arithmetic.specs.Truncating.{div_of, rem_of};
ghost use Rattle.arithmetic.specs.Flooring.{divq_of};
ghost use Rattle.arithmetic.specs.Remainder.{remq_of};
ghost use Rattle.arithmetic.specs.Compare.{compare_of};
ghost use Rattle.arithmetic.specs.Count.{neg_of, abs_of, rebase_of};
ghost use Rattle.exports.specs.Handed.{timecode_from, handed_answer, handed_order};

use crate::handed::{TzqCount, TzqOrder, TzqTimecode};

// The sum at the left one's rate; a position with a length is a position, reduced by whole days. Refuses 6: no such rate; 15: two positions;
// 5: a count, or the resulting count, is out of bounds.
#[unsafe(no_mangle)]
pub extern "C" fn tzq_add(a: TzqTimecode, b: TzqTimecode) -> TzqCount
    ensures { result ≡ handed_answer (add_of (timecode_from a) (timecode_from b)) }
{
    arithmetic::add(a.into(), b.into()).into()
}

// The difference at the left one's rate; a position less a length is a position, reduced by whole days, and less a position a length. Refuses
// 6: no such rate; 15: a position taken from a length; 5: a count, or the resulting count, is out of bounds.
#[unsafe(no_mangle)]
pub extern "C" fn tzq_sub(a: TzqTimecode, b: TzqTimecode) -> TzqCount
    ensures { result ≡ handed_answer (sub_of (timecode_from a) (timecode_from b)) }
{
    arithmetic::sub(a.into(), b.into()).into()
}

// How two timecodes compare, by instant. Refuses 6: no such rate; 15: a position and a length; 5: a count is out of bounds.
#[unsafe(no_mangle)]
pub extern "C" fn tzq_cmp(a: TzqTimecode, b: TzqTimecode) -> TzqOrder
    ensures { result ≡ handed_order (compare_of (timecode_from a) (timecode_from b)) }
{
    arithmetic::cmp(a.into(), b.into()).into()
}

// The product of a length with p/q, rounded. Refuses 6: no such rate; 15: a position; 5: the count or the factor, or then the resulting count,
// is out of bounds.
#[unsafe(no_mangle)]
pub extern "C" fn tzq_mul(tc: TzqTimecode, p: i64, q: u64) -> TzqCount
    ensures { result ≡ handed_answer (mul_of (timecode_from tc) p q) }
{
    arithmetic::mul(tc.into(), p, q).into()
}

// The quotient of a length by a whole number, cut off toward zero. Refuses 6: no such rate; 15: a position; 5: the count is out of bounds;
// 7: the divisor is zero.
#[unsafe(no_mangle)]
pub extern "C" fn tzq_div(tc: TzqTimecode, n: i64) -> TzqCount
    ensures { result ≡ handed_answer (div_of (timecode_from tc) n) }
{
    arithmetic::div(tc.into(), n).into()
}

// What `tzq_div` leaves, with the dividend's sign. Refuses as `tzq_div` does.
#[unsafe(no_mangle)]
pub extern "C" fn tzq_rem(tc: TzqTimecode, n: i64) -> TzqCount
    ensures { result ≡ handed_answer (rem_of (timecode_from tc) n) }
{
    arithmetic::rem(tc.into(), n).into()
}

// The quotient of a length by p/q, rounded down. Refuses 6: no such rate; 15: a position; 5: the count or the divisor is out of bounds;
// 7: the divisor is zero; 5: the resulting count is out of bounds.
#[unsafe(no_mangle)]
pub extern "C" fn tzq_divq(tc: TzqTimecode, p: i64, q: u64) -> TzqCount
    ensures { result ≡ handed_answer (divq_of (timecode_from tc) p q) }
{
    arithmetic::divq(tc.into(), p, q).into()
}

// The remainder by p/q, with the dividend's sign, rounded. Refuses as `tzq_divq` does.
#[unsafe(no_mangle)]
pub extern "C" fn tzq_remq(tc: TzqTimecode, p: i64, q: u64) -> TzqCount
    ensures { result ≡ handed_answer (remq_of (timecode_from tc) p q) }
{
    arithmetic::remq(tc.into(), p, q).into()
}

// The negated count of a length. Refuses 6: no such rate; 15: a position; 5: the count is out of bounds.
#[unsafe(no_mangle)]
pub extern "C" fn tzq_neg(tc: TzqTimecode) -> TzqCount
    ensures { result ≡ handed_answer (neg_of (timecode_from tc)) }
{
    arithmetic::neg(tc.into()).into()
}

// The absolute count of a length. Refuses 6: no such rate; 15: a position; 5: the count is out of bounds.
#[unsafe(no_mangle)]
pub extern "C" fn tzq_abs(tc: TzqTimecode) -> TzqCount
    ensures { result ≡ handed_answer (abs_of (timecode_from tc)) }
{
    arithmetic::abs(tc.into()).into()
}

// A length's count at another rate. Refuses 6: either rate is none; 15: a position; 5: the count is out of bounds.
#[unsafe(no_mangle)]
pub extern "C" fn tzq_rebase(tc: TzqTimecode, rate: u64) -> TzqCount
    ensures { result ≡ handed_answer (rebase_of (timecode_from tc) rate) }
{
    arithmetic::rebase(tc.into(), rate).into()
}
