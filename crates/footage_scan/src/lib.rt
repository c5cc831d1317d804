// A footage's text taken apart: its sign, its feet and frames, whether it has a perf field and its marker, or why it is none.
#![tactic(auto)]

ghost use Rattle.std.specs.Prelude.{◌≡◌};
ghost use Rattle.footage_scan.specs.Footage.{footage_scan};

use scanner::{Dividers, Grammar, Misfit};

// Optional `-`, feet, `+`, frames, optionally `.` and a perf field of 9 digits at most.
const FOOTAGE: Grammar = Grammar {
    dividers: Dividers::Plus,
    least: 2,
    most: 2,
    tail: 9,
};

// A footage's sign, its feet and frames, each below 10^9, whether a perf field stands behind them, and the value of that field, below
// 10^9, its marker: 0 where it has none.
#[derive(Clone, Copy)]
pub struct FootageScan {
    pub minus: bool,
    pub feet: u64,
    pub frames: u64,
    pub perf: bool,
    pub marker: u64,
}

// The sign and the fields of a footage; the crate's feet and frames regex and what it captures.
#[tactic(auto, unfolding(crate::specs::Footage::footage_scan))]
pub fn scan_footage(text: &[u8]) -> Result<FootageScan, Misfit>
    ensures { result ≡ footage_scan text.now }
{
    let scan = scanner::scan_text(text, FOOTAGE)?;
    Ok(FootageScan {
        minus: scan.minus,
        feet: scan.fields[2],
        frames: scan.fields[3],
        perf: 0 < scan.digits,
        marker: scan.tail,
    })
}
