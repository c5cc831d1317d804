// Whether a timecode is a length or a position, and what two of them come to by kind.
ghost use Rattle.std.specs.Prelude.{◌≡◌};
ghost use Rattle.timecodes.specs.Kinds.{kind_from, is_position, mixed_kinds};

// A length, or a position: a time of day.
#[derive(Clone, Copy, PartialEq, Eq)]
pub enum Kind {
    Length,
    Position,
}

// What is done with two timecodes.
#[derive(Clone, Copy, PartialEq, Eq)]
pub enum Joining {
    Sum,
    Difference,
    Comparison,
}

impl From<bool> for Kind {
    ghost from_gives = { λ position kind. kind ≡ kind_from position };

    fn from(position: bool) -> Kind {
        Kind::from(position)
    }
}

impl Kind {
    // A position, or else a length.
    pub fn from(position: bool) -> Kind
        ensures { result ≡ kind_from position }
    {
        if position {
            Kind::Position
        } else {
            Kind::Length
        }
    }

    // Whether it is that of a position.
    pub fn is_position(self) -> bool
        ensures { result ≡ is_position self }
    {
        matches!(self, Kind::Position)
    }
}

// What two timecodes come to: the one place that decides whether their kinds are taken.
pub(crate) fn mix(joining: Joining, a: Kind, b: Kind) -> Option<Kind>
    ensures { result ≡ mixed_kinds joining a b }
{
    match (joining, a, b) {
        // A length adds to what the other is; two positions are not added.
        (Joining::Sum, Kind::Length, kind) | (Joining::Sum, kind, Kind::Length) => Some(kind),
        (Joining::Sum, Kind::Position, Kind::Position) => None,
        // A length taken away leaves what the other is; two positions are a length apart.
        (Joining::Difference, kind, Kind::Length) => Some(kind),
        (Joining::Difference, Kind::Position, Kind::Position) => Some(Kind::Length),
        (Joining::Difference, Kind::Length, Kind::Position) => None,
        // Two of one kind compare.
        (Joining::Comparison, _, _) => (a == b).then_some(a),
    }
}
