// The minute table: the first frame number of each minute of a 29.97 drop day; a minute past 1439 is refused 5.
#![tactic(auto)]

ghost use Rattle.std.specs.Prelude.{◌≡◌};
ghost use Rattle.minutes.specs.Minutes.{minute_at};

use answers::{Cause, Refusal};

mod table;

// The first frame number of a minute of the day, 0 to 1439; any other minute is out of bounds.
pub fn minute_start(minute: u64) -> Result<i64, Refusal>
    ensures { result ≡ minute_at minute }
{
    if minute > 1439 {
        return Err(Cause::OutOfBounds.into());
    }
    let start = table::entry(minute as usize);
    Ok(start as i64)
}
