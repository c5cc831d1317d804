// A runtime's text taken apart: its sign, its fields, and its fraction in millionths, or why it is none.
#![tactic(auto)]

ghost use Rattle.std.specs.Prelude.{◌≡◌, ◌-◌, ◌^◌};
ghost use Rattle.runtime_scan.specs.Runtime.{runtime_scan};

use scanner::{Dividers, Grammar, Misfit};

// Optional `-`, one to three fields divided by `:`, optionally `.` and a fraction of 6 digits at most.
const RUNTIME: Grammar = Grammar {
    dividers: Dividers::Colon,
    least: 1,
    most: 3,
    tail: 6,
};

// A runtime's sign, its hours, minutes and seconds behind a first field that is 0, each below 10^9, absent ones 0, and its millionths of a
// second, below 10^6.
#[derive(Clone, Copy)]
pub struct RuntimeScan {
    pub minus: bool,
    pub fields: [u64; 4],
    pub millionths: u64,
}

// What a fraction of count digits is multiplied by to be in millionths.
fn scale(count: usize) -> u64
    ensures { result ≡ 10 ^ (6 - count) }
{
    10u64.pow(6usize.saturating_sub(count) as u32)
}

// The sign, the fields and the fraction of a runtime; the crate's runtime regex and what it captures.
#[tactic(auto, unfolding(crate::specs::Runtime::runtime_scan))]
pub fn scan_runtime(text: &[u8]) -> Result<RuntimeScan, Misfit>
    ensures { result ≡ runtime_scan text.now }
{
    let scan = scanner::scan_text(text, RUNTIME)?;
    let fields = scan.fields;
    let power = scale(scan.digits);
    Ok(RuntimeScan {
        minus: scan.minus,
        fields,
        millionths: scan.tail * power,
    })
}
