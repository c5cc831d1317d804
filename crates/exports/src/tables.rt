// The constant tables: rates, film formats, the minutes of a 29.97 drop day.
ghost use Rattle.std.specs.Prelude.{◌≡◌};
ghost use Rattle.rates.specs.Rates.{rate_at, drop_frames};
ghost use Rattle.film.specs.Film.{format_at};
ghost use Rattle.minutes.specs.Minutes.{minute_at};
ghost use Rattle.exports.specs.Handed.{handed_count, handed_rate, handed_format};

use crate::handed::{TzqCount, TzqFormat, TzqRate};

// The row of a rate. Refuses 6: no such rate.
#[unsafe(no_mangle)]
pub extern "C" fn tzq_rate(no: u64) -> TzqRate
    ensures { result ≡ handed_rate (rate_at no) }
{
    rates::framerate_at(no).into()
}

// How many labels a minute drops, but each tenth: 2 at rate 5, 4 at rate 11, else 0.
#[unsafe(no_mangle)]
pub extern "C" fn tzq_drop_frames_per_minute(no: u64) -> u64
    ensures { result ≡ drop_frames no }
{
    rates::drop_frames_per_minute(no)
}

// What is known of a film format. Refuses 6: no such film format.
#[unsafe(no_mangle)]
pub extern "C" fn tzq_format(no: u64) -> TzqFormat
    ensures { result ≡ handed_format (format_at no) }
{
    film::format_at(no).into()
}

// The first frame number of a minute of a 29.97 drop day, 0 to 1439. Refuses 5: any other minute.
#[unsafe(no_mangle)]
pub extern "C" fn tzq_minute_start(minute: u64) -> TzqCount
    ensures { result ≡ handed_count (minute_at minute) }
{
    minutes::minute_start(minute).into()
}
