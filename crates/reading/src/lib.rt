// A text read as a timecode at a rate, a length or a position: that of a label or of a footage, but with a stated film format only of a
// footage. Refuses 6: no such rate or film format; 1: no shape; 2: a field of over 9 digits; 4: a perf field with a stated format that has
// none; 13: a footage that cannot be on the film; 14: a label of a position that is not strict or has a sign; 3: a dropped label; 5: the
// count is out of bounds; in this order. The place of 1 and 2 is the one that the scanners say.
#![tactic(auto)]

ghost use Rattle.std.specs.Prelude.{◌≡◌, true};
ghost use Rattle.rates.specs.Rates.{is_rate};
ghost use Rattle.reading.specs.Answer.{as_label, as_footage};
ghost use Rattle.reading.specs.Shaped.{is_stated, format_for, label};
ghost use Rattle.reading.specs.Taken.{shaped_in};
ghost use Rattle.reading.specs.Reading.{takes_perf, label_read, footage_read};
ghost use Rattle.reading.specs.For.{settled_read, position_fault, is_label_of, shaped_for, read_by, read_for, label_for};

use answers::{Cause, Refusal};
use faults::Fault;
use film::FilmFormat;
use footage_scan::FootageScan;
use timecodes::{Kind, Timecode};

mod taking;

pub use taking::{Taken, take_label, take_text};

// What a text reads as: a label's timecode, or a footage's timecode and film format.
#[derive(Clone, Copy)]
pub enum Read {
    Label(Timecode),
    Footage(Timecode, FilmFormat),
}

// What was read as a length, made a timecode of a kind: a position is reduced by whole days.
fn settled(read: Result<Read, Refusal>, kind: Kind) -> Result<Read, Refusal>
    ensures { result ≡ settled_read kind read }
{
    match read? {
        Read::Label(tc) => Ok(Read::Label(timecodes::made(tc.count, tc.rate, kind))),
        Read::Footage(tc, format) => Ok(Read::Footage(
            timecodes::made(tc.count, tc.rate, kind),
            format,
        )),
    }
}

// A count at a rate as the answer to a label.
fn as_label(rate: u64, counted: Result<i64, Refusal>) -> Result<Read, Refusal>
    ensures { result ≡ as_label rate counted }
{
    let count = counted?;
    Ok(Read::Label(timecodes::new(count, rate, Kind::Length)))
}

// A count at a rate as the answer to a footage.
fn as_footage(rate: u64, format: FilmFormat, counted: Result<i64, Refusal>) -> Result<Read, Refusal>
    ensures { result ≡ as_footage rate format counted }
{
    let count = counted?;
    Ok(Read::Footage(timecodes::new(count, rate, Kind::Length), format))
}

// Whether what is stated is no number, or that of a film format.
fn is_stated(stated: Option<u64>) -> bool
    ensures { result ≡ is_stated stated }
{
    match stated {
        Some(n) => film::format_at(n).is_ok(),
        None => true,
    }
}

// The film format of a footage: the stated one, or that which the perf field chooses.
pub fn format_for(stated: Option<u64>, perf: bool) -> FilmFormat
    ensures { result ≡ format_for stated perf }
{
    match stated {
        Some(n) => film::format_at(n).unwrap_or(FilmFormat::FF35mm4perf),
        None => {
            if perf {
                FilmFormat::FF35mm3perf
            } else {
                FilmFormat::FF35mm4perf
            }
        }
    }
}

// Whether a footage of this format may have the perf field that it has, or has none.
fn takes_perf(format: FilmFormat, perf: bool) -> bool
    ensures { result ≡ takes_perf format perf }
{
    !perf || format.allows_perf_field()
}

// The answer to a label's sign and fields. Asks a rate.
fn read_label(rate: u64, minus: bool, fields: [u64; 4]) -> Result<Read, Refusal>
    requires { is_rate rate ≡ true }
    ensures { result ≡ label_read rate minus fields }
{
    let d = rates::drop_frames_per_minute(rate);
    if labels::is_dropped(fields, d) {
        return Err(Cause::DroppedLabel.into());
    }
    as_label(rate, labels::label_count(fields, rate, minus))
}

// What is at fault in the label of a position: its sign, or else the leftmost field that is not strict.
#[tactic(auto, unfolding(crate::specs::For::position_fault))]
pub fn position_fault(rate: u64, minus: bool, fields: [u64; 4]) -> Option<Fault>
    ensures { result ≡ position_fault rate minus fields }
{
    let timebase = rates::row(rate).timebase;
    faults::sign_fault(minus).or(labels::strict_fault(fields, timebase))
}

// Whether a label's sign and fields may be those of this kind: in the label of a position nothing is at fault.
fn is_label_of(kind: Kind, rate: u64, minus: bool, fields: [u64; 4]) -> bool
    ensures { result ≡ is_label_of kind rate minus fields }
{
    if !kind.is_position() {
        return true;
    }
    position_fault(rate, minus, fields).is_none()
}

// The answer to a label's sign and fields, as a timecode of a kind. Asks a rate.
fn label_for(rate: u64, minus: bool, fields: [u64; 4], kind: Kind) -> Result<Read, Refusal>
    requires { is_rate rate ≡ true }
    ensures { result ≡ shaped_for kind rate None (label minus fields) }
{
    if !is_label_of(kind, rate, minus, fields) {
        return Err(Cause::NotStrict.into());
    }
    settled(read_label(rate, minus, fields), kind)
}

// The answer to a footage in a format.
fn read_footage(rate: u64, format: FilmFormat, scan: FootageScan) -> Result<Read, Refusal>
    ensures { result ≡ footage_read rate format scan.minus scan.feet scan.frames scan.perf scan.marker }
{
    if !takes_perf(format, scan.perf) {
        return Err(Cause::NoPerfField.into());
    }
    if !film::on_film(format, scan.feet, scan.frames, scan.perf, scan.marker) {
        return Err(Cause::NotOnFilm.into());
    }
    let counted = film::footage_count(format, scan.minus, scan.feet, scan.frames);
    as_footage(rate, format, counted)
}

// What a text that was taken by its shape reads as at a rate, a length or a position.
pub fn read_taken(
    taken: Result<Taken, Refusal>,
    stated: Option<u64>,
    rate: u64,
    kind: Kind,
) -> Result<Read, Refusal>
    ensures { result ≡ read_by kind stated rate (shaped_in taken) }
{
    if !rates::is_rate(rate) {
        return Err(Cause::NoSuch.into());
    }
    if !is_stated(stated) {
        return Err(Cause::NoSuch.into());
    }
    match taken? {
        Taken::Label(scan) => label_for(rate, scan.minus, scan.fields, kind),
        Taken::Footage(scan) => {
            let format = format_for(stated, scan.perf);
            settled(read_footage(rate, format, scan), kind)
        }
    }
}

// What a text reads as at a rate, a length or a position (vtc's `parse_timecode_string` and `parse_feet_and_frames_str`, which read
// lengths): it is taken by its shape, and that is read.
pub fn read_text(text: &[u8], stated: Option<u64>, rate: u64, kind: Kind) -> Result<Read, Refusal>
    ensures { result ≡ read_for kind text.now stated rate }
{
    read_taken(take_text(text, stated), stated, rate, kind)
}

// What a text reads as where only a label may stand: a label as `read_text` reads it; any other text has no shape.
pub fn read_label_only(text: &[u8], rate: u64, kind: Kind) -> Result<Read, Refusal>
    ensures { result ≡ label_for kind text.now rate }
{
    read_taken(take_label(text), None, rate, kind)
}
