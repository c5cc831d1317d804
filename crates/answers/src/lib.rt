// Refusals by number, and the answer that is a count or a refusal: a number held to the bounds of a count, or refusal 5.
#![tactic(auto)]

ghost use Rattle.std.specs.Prelude.{◌≡◌};
ghost use Rattle.numbers.specs.Sign.{signed};
ghost use Rattle.numbers.specs.Nearest.{nearest_z};
ghost use Rattle.answers.specs.Causes.{cause_number, without_place};
ghost use Rattle.answers.specs.Refusals.{at_place, is_count, held, number_of, count_of};

// Why a call was refused, in the order of the numbers.
#[derive(Clone, Copy, PartialEq, Eq)]
pub enum Cause {
    // The text has no shape.
    NoShape,
    // The shape fits, but a field has over 9 digits or a fraction over 6.
    TooLong,
    // A dropped label at rate 5 or 11.
    DroppedLabel,
    // A perf field with a stated format that has none.
    NoPerfField,
    // An input number or the resulting count is outside its bounds.
    OutOfBounds,
    // No such rate or film format.
    NoSuch,
    // The divisor is zero.
    ZeroDivisor,
    // Place plus text length exceeds the buffer's length.
    NoRoom,
    // A record of a shot list has no such kind.
    NoSuchKind,
    // The body of a record of a shot list is cut short.
    CutShort,
    // A shot before any rate.
    NoRateYet,
    // A shot's end before its first frame.
    EndBeforeFirst,
    // A footage that cannot be on the film.
    NotOnFilm,
    // A label of a position that is not strict or has a sign.
    NotStrict,
    // A position where only a length may be, or one of each compared.
    WrongKind,
    // A directory of shards that breaks a rule.
    BrokenDirectory,
    // A query that ends past the day.
    PastDay,
}

impl Cause {
    // Its number: 1 to 17.
    pub fn number(self) -> u8
        ensures { result ≡ cause_number self }
    {
        match self {
            Cause::NoShape => 1,
            Cause::TooLong => 2,
            Cause::DroppedLabel => 3,
            Cause::NoPerfField => 4,
            Cause::OutOfBounds => 5,
            Cause::NoSuch => 6,
            Cause::ZeroDivisor => 7,
            Cause::NoRoom => 8,
            Cause::NoSuchKind => 9,
            Cause::CutShort => 10,
            Cause::NoRateYet => 11,
            Cause::EndBeforeFirst => 12,
            Cause::NotOnFilm => 13,
            Cause::NotStrict => 14,
            Cause::WrongKind => 15,
            Cause::BrokenDirectory => 16,
            Cause::PastDay => 17,
        }
    }
}

// A refusal: its cause, and its place in the text that was read (0, where it has none). Handed on whole.
#[derive(Clone, Copy)]
pub struct Refusal {
    pub cause: Cause,
    pub place: usize,
}

impl From<Cause> for Refusal {
    ghost from_gives = { λ cause e. e ≡ without_place cause };

    // Without a place.
    fn from(cause: Cause) -> Refusal {
        Refusal { cause, place: 0 }
    }
}

// The refusal with the place that a scanner says.
pub fn at_place(e: Refusal, place: usize) -> Refusal
    ensures { result ≡ at_place e place }
{
    Refusal { place, ..e }
}

// Counts run from -400,000,000 to this.
pub const MOST_COUNT: u64 = 400_000_000;

// A number above every count within its bounds, and one more than nine digits make.
pub const BEYOND: u64 = 1_000_000_000;

// Whether x is within the bounds of a count.
pub fn is_count(x: i64) -> bool
    ensures { result ≡ is_count x }
{
    x.unsigned_abs() <= MOST_COUNT
}

// The count with this sign and magnitude. Refuses 5: it is outside its bounds.
pub fn held(minus: bool, m: u64) -> Result<i64, Refusal>
    ensures { result ≡ held (signed minus m) }
{
    if m > MOST_COUNT {
        return Err(Cause::OutOfBounds.into());
    }
    Ok(numbers::with_sign(minus, m))
}

// The nearest count of x/n, halves away from zero; x is any i64, and of n = 0 it is 0. Refuses 5: it is outside its bounds.
pub fn nearest_count(x: i64, n: u64) -> Result<i64, Refusal>
    ensures { result ≡ held (nearest_z x n) }
{
    let m = x.unsigned_abs();
    let k = numbers::nearest(m, n);
    held(x < 0, k)
}

// The number of an answer; 0: not refused.
pub fn number<T>(a: &Result<T, Refusal>) -> u8
    ensures { result ≡ number_of a.now }
{
    match a {
        Ok(_) => 0,
        Err(e) => e.cause.number(),
    }
}

// The count of an answer; a refusal's is 0.
pub fn count(a: Result<i64, Refusal>) -> i64
    ensures { result ≡ count_of a }
{
    a.unwrap_or(0)
}
