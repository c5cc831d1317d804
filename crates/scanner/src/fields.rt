// Divided fields, one after the other from a cursor on: one to so many, their values right-justified in four places.
ghost use Rattle.std.specs.Prelude.{◌≡◌, ◌-◌, ◌^◌, ◌<◌, drop};
ghost use Rattle.scanner.specs.Long.{long_field, or_long};
ghost use Rattle.scanner.specs.Scan.{past_if, divider_of, looked_for};
ghost use Rattle.scanner.specs.Justified.{shift};
ghost use Rattle.scanner.specs.Fields.{none_taken, with_field, field_begun, fields_found};

use crate::cursor::{Cursor, Field};
use crate::text::Misfit;

// The bytes that divide two fields.
#[derive(Clone, Copy)]
pub enum Dividers {
    Colon,
    ColonOrSemicolon,
    Plus,
}

// The fields taken: the first of over 9 digits, how many they are, their values, right-justified in four places, and the cursor behind them.
#[derive(Clone, Copy)]
pub(crate) struct Scanned {
    pub(crate) long: Option<usize>,
    pub(crate) count: usize,
    pub(crate) values: [u64; 4],
    pub(crate) next: Cursor,
}

// Does this byte divide two fields?
fn divides(dividers: Dividers, b: u8) -> bool
    ensures { result ≡ divider_of dividers b }
{
    match dividers {
        Dividers::Colon => b == b':',
        Dividers::ColonOrSemicolon => b == b':' || b == b';',
        Dividers::Plus => b == b'+',
    }
}

// The values moved one place left, with a new last.
fn shifted(values: [u64; 4], value: u64) -> [u64; 4]
    ensures { result ≡ shift values value }
{
    [values[1], values[2], values[3], value]
}

// The one found before, or else a field of so many digits at this place, if these are over the most allowed.
pub(crate) fn or_long(
    earlier: Option<usize>,
    place: usize,
    most: usize,
    count: usize,
) -> Option<usize>
    ensures { result ≡ or_long earlier (long_field place most count) }
{
    earlier.or((most < count).then_some(place))
}

impl Scanned {
    // No field yet.
    fn new(first: Cursor) -> Scanned
        ensures { result ≡ none_taken first }
    {
        Scanned {
            long: None,
            count: 0,
            values: [0; 4],
            next: first,
        }
    }

    // A field more. Asks that they can be counted.
    fn keep(self, field: Field) -> Scanned
        requires { self.count < 2 ^ 64 - 1 }
        ensures { result ≡ with_field self field }
    {
        let before = self.values;
        let values = shifted(before, field.value);
        Scanned {
            long: or_long(self.long, self.next.at, 9, field.count),
            count: self.count + 1,
            values,
            next: field.next,
        }
    }

    // A field is begun behind a divider.
    fn begin(self, next: Cursor) -> Scanned
        ensures { result ≡ field_begun self next }
    {
        Scanned { next, ..self }
    }
}

impl Cursor {
    // Past a divider at the cursor; where no field may come, none is looked for.
    fn divider(self, s: &[u8], dividers: Dividers, left: usize) -> Option<Cursor>
        ensures { result ≡ past_if (looked_for left (divider_of dividers)) self.at (drop self.at s.now) }
    {
        let at = self.at;
        if 0 < left && at < s.len() && divides(dividers, s[at]) {
            Some(Cursor { at: at + 1 })
        } else {
            None
        }
    }

    // One to so many fields from the cursor on, each two divided; where the last one begun is missing, the scan stops there.
    pub(crate) fn fields(self, s: &[u8], dividers: Dividers, most: usize) -> Result<Scanned, Misfit>
        ensures { result ≡ fields_found dividers most s.now self.at }
    {
        let mut taken = Scanned::new(self);
        for left in (0..most).rev() {
            let field = taken.next.field(s);
            if field.count == 0 {
                return Err(Misfit::NoShape(taken.next.at));
            }
            taken = taken.keep(field);
            let Some(next) = taken.next.divider(s, dividers, left) else {
                return Ok(taken);
            };
            taken = taken.begin(next);
        }
        Err(Misfit::NoShape(taken.next.at))
    }
}
