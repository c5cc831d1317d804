// The four film formats by number, and footage: the count of feet and frames, the feet and frames of a count, and which can be on the film.
// A number that is no film format is refused 6, a count outside its bounds 5.
#![tactic(auto)]

ghost use Rattle.std.specs.Prelude.{◌≡◌, ◌≤◌, ◌<◌};
ghost use Rattle.numbers.specs.Sign.{signed};
ghost use Rattle.answers.specs.Refusals.{most_count, beyond, held};
ghost use Rattle.film.specs.Film.{format_number, perfs_per_frame_of, perfs_per_foot_of, allows_perf_field, format_at};
ghost use Rattle.film.specs.Footage.{footage_count, footage_or, footage_of, footage_in};
ghost use Rattle.film.specs.OnFilm.{frames_in_foot, on_film};
ghost use Rattle.film.specs.Faults.{marker_fault, film_fault};

use answers::{Cause, Refusal};
use faults::{Fault, Field};

// vtc's film formats: 4-perf, 3-perf and 2-perf on 35 mm, and 16 mm.
#[derive(Clone, Copy, PartialEq, Eq)]
pub enum FilmFormat {
    FF35mm4perf,
    FF35mm3perf,
    FF35mm2perf,
    FF16mm,
}

// What is written of a count: whole feet, frames of the foot begun, and the marker that 3-perf writes.
#[derive(Clone, Copy, Default)]
pub struct Footage {
    pub feet: u64,
    pub frames: u64,
    pub perf: u64,
}

impl TryFrom<u64> for FilmFormat {
    type Error = Refusal;

    ghost try_from_gives = { λ no made. made ≡ format_at no };

    // The format of a number. Refuses 6: no such film format.
    #[tactic(auto, unfolding(crate::specs::Film::format_at, crate::specs::Film::is_format))]
    fn try_from(no: u64) -> Result<FilmFormat, Refusal> {
        match no {
            1 => Ok(FilmFormat::FF35mm4perf),
            2 => Ok(FilmFormat::FF35mm3perf),
            3 => Ok(FilmFormat::FF35mm2perf),
            4 => Ok(FilmFormat::FF16mm),
            _ => Err(Cause::NoSuch.into()),
        }
    }
}

impl FilmFormat {
    // The number of a format: 1 to 4.
    pub fn number(self) -> u64
        ensures { result ≡ format_number self }
    {
        match self {
            FilmFormat::FF35mm4perf => 1,
            FilmFormat::FF35mm3perf => 2,
            FilmFormat::FF35mm2perf => 3,
            FilmFormat::FF16mm => 4,
        }
    }

    // The perfs a frame.
    pub fn perfs_per_frame(self) -> u64
        ensures { result ≡ perfs_per_frame_of self }
    {
        match self {
            FilmFormat::FF35mm4perf => 4,
            FilmFormat::FF35mm3perf => 3,
            FilmFormat::FF35mm2perf => 2,
            FilmFormat::FF16mm => 1,
        }
    }

    // The perfs a (logical) foot.
    pub fn perfs_per_foot(self) -> u64
        ensures { result ≡ perfs_per_foot_of self }
    {
        match self {
            FilmFormat::FF35mm4perf | FilmFormat::FF35mm3perf | FilmFormat::FF35mm2perf => 64,
            FilmFormat::FF16mm => 20,
        }
    }

    // Whether a footage of this format may have a perf field: where a foot is no whole number of frames.
    pub fn allows_perf_field(self) -> bool
        ensures { result ≡ allows_perf_field self }
    {
        self.perfs_per_foot() % self.perfs_per_frame() != 0
    }

    // How many frames a foot has: those whose last perf lies in it.
    fn frames_in_foot(self, feet: u64) -> u64
        ensures { result ≡ frames_in_foot self feet }
    {
        match self {
            FilmFormat::FF35mm4perf => 16,
            FilmFormat::FF35mm3perf if feet % 3 == 2 => 22,
            FilmFormat::FF35mm3perf => 21,
            FilmFormat::FF35mm2perf => 32,
            FilmFormat::FF16mm => 20,
        }
    }
}

// The marker of a footage, if it is marked: feet modulo 3.
#[tactic(auto, unfolding(crate::specs::Faults::marker_fault))]
fn marker_fault(feet: u64, marked: bool, marker: u64) -> Option<Fault>
    ensures { result ≡ marker_fault feet marked marker }
{
    if marked {
        faults::exactly(Field::Marker, feet % 3, marker)
    } else {
        None
    }
}

// The first field from the left that no footage of that foot has: a frames number that does not occur in it, or a marker that is not feet
// modulo 3.
#[tactic(auto, unfolding(crate::specs::Faults::film_fault))]
pub fn film_fault(
    format: FilmFormat,
    feet: u64,
    frames: u64,
    marked: bool,
    marker: u64,
) -> Option<Fault>
    ensures { result ≡ film_fault format feet frames marked marker }
{
    faults::under(Field::Frames, format.frames_in_foot(feet), frames).or(marker_fault(
        feet, marked, marker,
    ))
}

// Whether a footage can be on the film: none of its fields is at fault.
pub fn on_film(format: FilmFormat, feet: u64, frames: u64, marked: bool, marker: u64) -> bool
    ensures { result ≡ on_film format feet frames marked marker }
{
    film_fault(format, feet, frames, marked, marker).is_none()
}

// The film format of a number. Refuses 6: no such film format.
pub fn format_at(no: u64) -> Result<FilmFormat, Refusal>
    ensures { result ≡ format_at no }
{
    FilmFormat::try_from(no)
}

// The count of feet and frames that were read, with this sign. Refuses 5: it is outside its bounds.
pub fn footage_count(
    format: FilmFormat,
    minus: bool,
    feet: u64,
    frames: u64,
) -> Result<i64, Refusal>
    ensures { result ≡ held (signed minus (footage_count format feet frames)) }
{
    answers::held(minus, footage_frames(format, feet, frames))
}

// The exact count of feet and frames, where each has at most 9 digits; a number beyond all bounds for others, whose count is no less.
#[tactic(auto, unfolding(crate::specs::Footage::footage_or))]
pub fn footage_frames(format: FilmFormat, feet: u64, frames: u64) -> u64
    ensures { result ≡ footage_or format feet frames }
{
    if feet >= answers::BEYOND || frames >= answers::BEYOND {
        return answers::BEYOND;
    }
    count_of(format, feet, frames)
}

// The count of feet and frames. Asks at most 9 digits of each.
#[tactic(auto, unfolding(crate::specs::Footage::footage_count))]
fn count_of(format: FilmFormat, feet: u64, frames: u64) -> u64
    requires { (feet < beyond) × (frames < beyond) }
    ensures { result ≡ footage_count format feet frames }
{
    match format {
        FilmFormat::FF35mm4perf => 16 * feet + frames,
        FilmFormat::FF35mm3perf => 64 * (feet / 3) + 21 * (feet % 3) + frames,
        FilmFormat::FF35mm2perf => 32 * feet + frames,
        FilmFormat::FF16mm => 20 * feet + frames,
    }
}

// The feet and frames that are written of an absolute count; zeros for one outside its bounds.
#[tactic(auto, unfolding(crate::specs::Footage::footage_in))]
pub fn feet_and_frames(format: FilmFormat, f: u64) -> Footage
    ensures { result ≡ footage_in format f }
{
    if f > answers::MOST_COUNT {
        return Footage::default();
    }
    footage_of(format, f)
}

// The feet and frames of an absolute count. Asks a count within its bounds.
fn footage_of(format: FilmFormat, f: u64) -> Footage
    requires { f ≤ most_count }
    ensures { result ≡ footage_of format f }
{
    let per_frame = format.perfs_per_frame();
    let per_foot = format.perfs_per_foot();
    let last_perf = f * per_frame + per_frame - 1;
    let feet = last_perf / per_foot;
    Footage {
        feet,
        frames: last_perf % per_foot / per_frame,
        perf: feet % 3,
    }
}
