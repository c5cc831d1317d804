// A label's text taken apart: its sign and its four fields, or why it is none.
#![tactic(auto)]

ghost use Rattle.std.specs.Prelude.{◌≡◌};
ghost use Rattle.label_scan.specs.Label.{label_scan};

use scanner::{Dividers, Grammar, Misfit};

// Optional `-`, then one to four fields, each two divided by `:` or `;`.
const LABEL: Grammar = Grammar {
    dividers: Dividers::ColonOrSemicolon,
    least: 1,
    most: 4,
    tail: 0,
};

// A label's sign and its hours, minutes, seconds and frames, each below 10^9; absent ones are 0.
#[derive(Clone, Copy)]
pub struct LabelScan {
    pub minus: bool,
    pub fields: [u64; 4],
}

// The sign and the fields of a label: what the crate takes by TIMECODE_REGEX and the sections of `parse_timecode_string`.
#[tactic(auto, unfolding(crate::specs::Label::label_scan))]
pub fn scan_label(text: &[u8]) -> Result<LabelScan, Misfit>
    ensures { result ≡ label_scan text.now }
{
    let scan = scanner::scan_text(text, LABEL)?;
    let fields = scan.fields;
    Ok(LabelScan {
        minus: scan.minus,
        fields,
    })
}
