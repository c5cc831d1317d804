// A text taken by its shape, whatever the rate: for a label or for a footage, but with a stated film format only for a footage. Refuses 1: no
// shape; 2: a field of over 9 digits; each with the place that the scanners say.
ghost use Rattle.std.specs.Prelude.{◌≡◌, Err};
ghost use Rattle.footage_scan.specs.Footage.{footage_scan};
ghost use Rattle.reading.specs.Shaped.{footage_shaped, shape_of, label_only, refused_by};
ghost use Rattle.reading.specs.Taken.{taken_of};

use answers::{Cause, Refusal};
use footage_scan::FootageScan;
use label_scan::LabelScan;
use scanner::Misfit;

// What a text was taken for: a label or a footage, as it was scanned.
#[derive(Clone, Copy)]
pub enum Taken {
    Label(LabelScan),
    Footage(FootageScan),
}

// Why a text does not fit, as a refusal with its place.
fn refused(misfit: Misfit) -> Refusal
    ensures { result ≡ refused_by misfit }
{
    match misfit {
        Misfit::TooLong(place) => answers::at_place(Cause::TooLong.into(), place),
        Misfit::NoShape(stop) => answers::at_place(Cause::NoShape.into(), stop),
    }
}

// What a text is taken for that can be a footage only, where the scanner of another shape stopped at a place (0, where no other is allowed).
fn footage_or_neither(text: &[u8], stopped: usize) -> Result<Taken, Refusal>
    ensures { result ≡ taken_of (footage_shaped stopped (footage_scan text.now)) }
{
    match footage_scan::scan_footage(text) {
        Ok(scan) => Ok(Taken::Footage(scan)),
        Err(Misfit::NoShape(stop)) => Err(refused(Misfit::NoShape(stopped.max(stop)))),
        Err(misfit) => Err(refused(misfit)),
    }
}

// What a text is taken for where only a label may stand.
pub fn take_label(text: &[u8]) -> Result<Taken, Refusal>
    ensures { result ≡ taken_of (label_only text.now) }
{
    match label_scan::scan_label(text) {
        Ok(scan) => Ok(Taken::Label(scan)),
        Err(misfit) => Err(refused(misfit)),
    }
}

// A text is taken for a label, or else for what it is as a footage.
fn label_or_footage(text: &[u8]) -> Result<Taken, Refusal>
    ensures { result ≡ taken_of (shape_of None text.now) }
{
    match label_scan::scan_label(text) {
        Ok(scan) => Ok(Taken::Label(scan)),
        Err(Misfit::NoShape(stop)) => footage_or_neither(text, stop),
        Err(misfit) => Err(refused(misfit)),
    }
}

// What a text is taken for, by its shape.
pub fn take_text(text: &[u8], stated: Option<u64>) -> Result<Taken, Refusal>
    ensures { result ≡ taken_of (shape_of stated text.now) }
{
    match stated {
        Some(_) => footage_or_neither(text, 0),
        None => label_or_footage(text),
    }
}
