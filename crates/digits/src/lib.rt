// Decimal digits both ways: a run of them read as its value and count, a number laid down at least so many wide. Refuses nothing
// itself.
#![tactic(auto)]

ghost use Rattle.std.specs.Prelude.{◌≡◌, true, ◌∷◌, [], ◌-◌, ◌<◌, ◌^◌, min, max, take, drop};
ghost use Rattle.lent.specs.Line.{laid};
ghost use Rattle.digits.specs.Digits.{is_digit, value_from, digit_first, run_of, digits_of, width};

mod pairs;

// The digits that stand at a place: the value of at most the first nine of them, and how many there are.
#[derive(Clone, Copy)]
pub struct Run {
    pub value: u64,
    pub count: usize,
}

// Is this byte one of '0' to '9'?
pub fn is_digit(b: u8) -> bool
    ensures { result ≡ is_digit b }
{
    b.is_ascii_digit()
}

// The value of count digits with one more behind them, which from the tenth on is not taken. Asks a value of so many digits, and a digit.
fn push(value: u64, count: usize, b: u8) -> u64
    requires value { value < 10 ^ min count 9 }
    requires digit { is_digit b ≡ true }
    ensures { result ≡ value_from value (take (9 - count) (b ∷ [])) }
{
    if count < 9 {
        value * 10 + u64::from(b - b'0')
    } else {
        value
    }
}

// The run of digits at a place of the text, the empty one past its end too.
pub fn run_at(s: &[u8], at: usize) -> Run
    ensures { result ≡ run_of (drop at s.now) }
{
    let mut value = 0;
    let Some(rest) = s.get(at..) else {
        return Run { value, count: 0 };
    };
    for (count, b) in rest.iter().enumerate() {
        if !is_digit(*b) {
            return Run { value, count };
        }
        value = push(value, count, *b);
    }
    Run {
        value,
        count: rest.len(),
    }
}

// How many digits n is written with, where there are to be `least` of them at least.
pub fn width_of(least: usize, n: u64) -> usize
    ensures { result ≡ max least (width n) }
{
    // two digits are enough: nothing is counted
    if n < 100 && 1 < least {
        return least;
    }
    least.max(n.max(1).ilog10() as usize + 1)
}

// The last k digits of n at the front of a part; every other byte stays. Where they have no room nothing changes.
pub fn put_digits(part: &mut [u8], k: usize, n: u64)
    ensures { part.new ≡ laid part.old (digits_of k n) }
{
    if part.len() < k {
        return;
    }
    let mut rest = n;
    for j in 0..k / 2 {
        let i = k - 2 * j;
        let pair = pairs::entry((rest % 100) as u8);
        part[i - 1] = pair.1;
        part[i - 2] = pair.0;
        rest /= 100;
    }
    if k % 2 == 1 {
        part[0] = 48 + (rest % 10) as u8;
    }
}
