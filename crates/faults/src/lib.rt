// What is at fault in a text: which field, its value, and the nearest value that is allowed there. What decides that a text is refused and
// what tells why are then one test. Refuses nothing itself.
#![tactic(auto)]

ghost use Rattle.std.specs.Prelude.{◌≡◌};
ghost use Rattle.faults.specs.Faults.{under, exactly, sign_fault, count_fault};

// A field of a text, or the count that it comes to.
#[derive(Clone, Copy, PartialEq, Eq)]
pub enum Field {
    Count,
    Sign,
    Hours,
    Minutes,
    Seconds,
    Frames,
    Marker,
}

// A field at fault: its value, which is not allowed, and the limit, the nearest value that is; by magnitude, with the sign of both. Of a
// sign that must not be, both are 0.
#[derive(Clone, Copy, PartialEq, Eq)]
pub struct Fault {
    pub field: Field,
    pub minus: bool,
    pub limit: u64,
    pub value: u64,
}

// A field whose values lie under a bound.
#[tactic(auto, unfolding(crate::specs::Faults::under))]
pub fn under(field: Field, bound: u64, value: u64) -> Option<Fault>
    ensures { result ≡ under field bound value }
{
    if value < bound {
        return None;
    }
    Some(Fault {
        field,
        minus: false,
        limit: bound.saturating_sub(1),
        value,
    })
}

// A field that has one value only.
#[tactic(auto, unfolding(crate::specs::Faults::exactly))]
pub fn exactly(field: Field, only: u64, value: u64) -> Option<Fault>
    ensures { result ≡ exactly field only value }
{
    if value == only {
        return None;
    }
    Some(Fault {
        field,
        minus: false,
        limit: only,
        value,
    })
}

// A sign where none may be.
pub fn sign_fault(minus: bool) -> Option<Fault>
    ensures { result ≡ sign_fault minus }
{
    if !minus {
        return None;
    }
    Some(Fault {
        field: Field::Sign,
        minus: false,
        limit: 0,
        value: 0,
    })
}

// A count by sign and magnitude, outside its bounds.
#[tactic(auto, unfolding(crate::specs::Faults::count_fault))]
pub fn count_fault(minus: bool, m: u64) -> Option<Fault>
    ensures { result ≡ count_fault minus m }
{
    if m <= answers::MOST_COUNT {
        return None;
    }
    Some(Fault {
        field: Field::Count,
        minus,
        limit: answers::MOST_COUNT,
        value: m,
    })
}
