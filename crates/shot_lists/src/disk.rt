// A shot list on disk: a record's kind is a byte, and its body so many bytes as the kind fixes.
ghost use Rattle.std.specs.Prelude.{◌≡◌, drop};
ghost use Rattle.shot_lists.specs.Entries.{on_disk, entry_of};
ghost use Rattle.shot_lists.specs.KindLaws.{fixed-known, fixed-unknown};
ghost use Rattle.shot_lists.specs.Reading.{checked_of, read_of};

use crate::entries;
use crate::entries::Element;
use crate::records::{Record, RecordKind, Taken};
use answers::Refusal;

impl Element for u8 {
    ghost layout = { on_disk };

    fn kind(&self) -> u64 {
        u64::from(*self)
    }

    #[tactic(auto, unfolding(crate::specs::Entries::body_fixed))]
    fn body(kind: RecordKind) -> usize {
        match kind {
            RecordKind::Rate => 1,
            RecordKind::Shot => 8,
            RecordKind::Reel => 4,
        }
    }

    #[tactic(auto, unfolding(crate::specs::Entries::body_fixed, crate::specs::Entries::of_kind))]
    fn record(kind: RecordKind, rest: &[u8]) -> Record {
        match kind {
            RecordKind::Rate => Record::Rate(low_bytes::number_at(rest, 0, 1)),
            RecordKind::Shot => Record::Shot {
                first: low_bytes::signed_at(rest, 0),
                end: low_bytes::signed_at(rest, 4),
            },
            RecordKind::Reel => Record::Reel(low_bytes::number_at(rest, 0, 4)),
        }
    }

    ghost known = { fixed-known 0 7 3 };

    ghost unknown = { fixed-unknown 1 8 4 };
}

// The record at a byte of a list, given the rate held (any number that is no rate: none is).
pub fn record_at(list: &[u8], at: usize, held: u64) -> Result<Option<Taken>, Refusal>
    ensures { result ≡ entry_of on_disk held (drop at list.now) }
{
    entries::entry_at(list, at, held)
}

// A whole list, tested record by record.
pub fn check_list(list: &[u8]) -> Result<usize, Refusal>
    ensures { result ≡ checked_of (read_of on_disk list.now) }
{
    let mut at = 0;
    let mut held = 0;
    let mut n = 0;
    while let Some(record) = record_at(list, at, held)? {
        at += record.size;
        held = record.held;
        n += 1;
    }
    Ok(n)
}
