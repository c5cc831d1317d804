// A shot list as a caller hands it over to be written: numbers, and for each record its kind and then its own, one for a rate, two for a
// shot, one for a reel.
ghost use Rattle.std.specs.Prelude.{◌≡◌, drop};
ghost use Rattle.shot_lists.specs.Entries.{in_numbers, entry_of};
ghost use Rattle.shot_lists.specs.KindLaws.{fixed-known, fixed-unknown};

use crate::entries;
use crate::entries::Element;
use crate::records::{Record, RecordKind, Taken};
use answers::Refusal;

impl Element for i64 {
    ghost layout = { in_numbers };

    fn kind(&self) -> u64 {
        numbers::up_from(*self)
    }

    #[tactic(auto, unfolding(crate::specs::Entries::body_fixed))]
    fn body(kind: RecordKind) -> usize {
        match kind {
            RecordKind::Rate => 1,
            RecordKind::Shot => 2,
            RecordKind::Reel => 1,
        }
    }

    #[tactic(auto, unfolding(crate::specs::Entries::body_fixed, crate::specs::Entries::of_kind))]
    fn record(kind: RecordKind, rest: &[i64]) -> Record {
        match kind {
            RecordKind::Rate => Record::Rate(numbers::up_from(rest[0])),
            RecordKind::Shot => Record::Shot {
                first: rest[0],
                end: rest[1],
            },
            RecordKind::Reel => Record::Reel(numbers::up_from(rest[0])),
        }
    }

    ghost known = { fixed-known 0 1 0 };

    ghost unknown = { fixed-unknown 1 2 1 };
}

// The record at a place of the numbers, given the rate held (any number that is no rate: none is).
pub fn given_at(given: &[i64], at: usize, held: u64) -> Result<Option<Taken>, Refusal>
    ensures { result ≡ entry_of in_numbers held (drop at given.now) }
{
    entries::entry_at(given, at, held)
}
