// A whole text taken apart by a grammar: optional `-`, divided fields, an optional tail behind `.`, and nothing else.
ghost use Rattle.std.specs.Prelude.{◌≡◌};
ghost use Rattle.scanner.specs.Text.{text_scan};

use crate::cursor::Cursor;
use crate::fields;
use crate::fields::Dividers;

// Why a text does not fit: it has the shape, but a field or the tail has too many digits, the first such at this place; or it has not, and
// the scan stopped at this place.
#[derive(Clone, Copy, PartialEq, Eq)]
pub enum Misfit {
    TooLong(usize),
    NoShape(usize),
}

// The shape of a text: what divides its fields, how many there are at least and at most, and how many digits may stand behind a `.`
// (0: no `.` may stand).
#[derive(Clone, Copy)]
pub struct Grammar {
    pub dividers: Dividers,
    pub least: usize,
    pub most: usize,
    pub tail: usize,
}

// A text's sign, its fields' values, each below 10^9 and right-justified, absent ones 0, what its tail is read as, and how many digits
// that has.
#[derive(Clone, Copy)]
pub struct TextScan {
    pub minus: bool,
    pub fields: [u64; 4],
    pub tail: u64,
    pub digits: usize,
}

// A text taken apart by a grammar.
#[tactic(auto, unfolding(crate::specs::Text::text_scan))]
pub fn scan_text(text: &[u8], grammar: Grammar) -> Result<TextScan, Misfit>
    ensures { result ≡ text_scan grammar text.now }
{
    let start = Cursor { at: 0 };
    let sign = start.sign(text);
    let fields = sign.next.fields(text, grammar.dividers, grammar.most)?;
    if fields.count < grammar.least {
        return Err(Misfit::NoShape(fields.next.at));
    }
    let tail = fields.next.tail(text, grammar.tail)?;
    if !tail.next.at_end(text) {
        return Err(Misfit::NoShape(tail.next.at));
    }
    let long = fields::or_long(fields.long, tail.first.at, grammar.tail, tail.count);
    if let Some(place) = long {
        return Err(Misfit::TooLong(place));
    }
    let values = fields.values;
    Ok(TextScan {
        minus: sign.minus,
        fields: values,
        tail: tail.value,
        digits: tail.count,
    })
}
