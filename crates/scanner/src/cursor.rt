// A cursor by value, handed on past each byte taken: what stands in a text at its place.
ghost use Rattle.std.specs.Prelude.{◌≡◌, drop};
ghost use Rattle.digits.specs.Digits.{is_byte};
ghost use Rattle.scanner.specs.Scan.{field_of, past_if, is_end, sign_of, no_tail, tail_of};

use crate::text::Misfit;

// A place in a text. The text is handed to each step beside it.
#[derive(Clone, Copy)]
pub struct Cursor {
    pub at: usize,
}

// The digits that stand at a cursor: what they are read as (at most the first nine), how many they are, and the cursor past them.
#[derive(Clone, Copy)]
pub(crate) struct Field {
    pub(crate) value: u64,
    pub(crate) count: usize,
    pub(crate) next: Cursor,
}

// Whether a text begins with `-`, and the cursor where it goes on.
#[derive(Clone, Copy)]
pub(crate) struct Sign {
    pub(crate) minus: bool,
    pub(crate) next: Cursor,
}

// The digits behind a `.`, none where no `.` stands: what they are read as, how many they are, the cursor where they begin, and the one
// past them.
#[derive(Clone, Copy)]
pub(crate) struct Tail {
    pub(crate) value: u64,
    pub(crate) count: usize,
    pub(crate) first: Cursor,
    pub(crate) next: Cursor,
}

impl Tail {
    // No `.` at this cursor.
    fn none(at: Cursor) -> Tail
        ensures { result ≡ no_tail at.at }
    {
        Tail {
            value: 0,
            count: 0,
            first: at,
            next: at,
        }
    }
}

impl Cursor {
    // Past the byte b, where it stands at the cursor.
    pub(crate) fn past(self, s: &[u8], b: u8) -> Option<Cursor>
        ensures { result ≡ past_if (is_byte b) self.at (drop self.at s.now) }
    {
        let at = self.at;
        if at < s.len() && s[at] == b {
            Some(Cursor { at: at + 1 })
        } else {
            None
        }
    }

    // Is nothing left of the text?
    pub(crate) fn at_end(self, s: &[u8]) -> bool
        ensures { result ≡ is_end (drop self.at s.now) }
    {
        s.len() <= self.at
    }

    // The digits at the cursor.
    pub(crate) fn field(self, s: &[u8]) -> Field
        ensures { result ≡ field_of self.at (drop self.at s.now) }
    {
        let run = digits::run_at(s, self.at);
        Field {
            value: run.value,
            count: run.count,
            next: Cursor {
                at: self.at + run.count,
            },
        }
    }

    // An optional `-` at the cursor.
    pub(crate) fn sign(self, s: &[u8]) -> Sign
        ensures { result ≡ sign_of self.at (drop self.at s.now) }
    {
        match self.past(s, b'-') {
            Some(next) => Sign { minus: true, next },
            None => Sign {
                minus: false,
                next: self,
            },
        }
    }

    // An optional `.` at the cursor and the digits behind it, one at least; with 0 digits allowed no `.` is looked for.
    pub(crate) fn tail(self, s: &[u8], most: usize) -> Result<Tail, Misfit>
        ensures { result ≡ tail_of most self.at (drop self.at s.now) }
    {
        if most == 0 {
            return Ok(Tail::none(self));
        }
        let Some(first) = self.past(s, b'.') else {
            return Ok(Tail::none(self));
        };
        let field = first.field(s);
        if field.count == 0 {
            return Err(Misfit::NoShape(first.at));
        }
        Ok(Tail {
            value: field.value,
            count: field.count,
            first,
            next: field.next,
        })
    }
}
