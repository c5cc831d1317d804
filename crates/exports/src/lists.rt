// Shot lists: walked record by record, tested as a whole, and written.
ghost use Rattle.std.specs.Prelude.{◌≡◌, drop};
ghost use Rattle.written.specs.Written.{answer_to, line_to};
ghost use Rattle.shot_lists.specs.Entries.{on_disk, entry_of};
ghost use Rattle.shot_lists.specs.Reading.{checked_of, read_of};
ghost use Rattle.shot_writer.specs.ListText.{list_draft};
ghost use Rattle.exports.specs.Handed.{handed_length};
ghost use Rattle.exports.specs.HandedLists.{handed_record, handed_entry, handed_checked};

use crate::handed;
use crate::handed::TzqLength;
use answers::Refusal;
use shot_lists::{Record, Taken};

// A record: its kind (1 rate, 2 shot, 3 reel), its numbers by name (those of another kind are 0), the rate held behind it, and how many
// bytes it has. At the list's end all 0; refused: its number, all others 0.
#[repr(C)]
#[derive(Clone, Copy, Default)]
pub struct TzqRecord {
    pub refused: u64,
    pub kind: u64,
    pub rate: u64,
    pub first: i64,
    pub end: i64,
    pub reel: u64,
    pub held: u64,
    pub size: usize,
}

// How many records a list has. Refused: 0.
#[repr(C)]
#[derive(Clone, Copy)]
pub struct TzqChecked {
    pub refused: u64,
    pub records: usize,
}

// A record's kind and numbers, with what is held behind it and its size.
impl From<Taken> for TzqRecord {
    ghost from_gives = { λ taken t. t ≡ handed_record taken.found taken.held taken.size };

    fn from(taken: Taken) -> TzqRecord {
        let none = TzqRecord {
            held: taken.held,
            size: taken.size,
            ..TzqRecord::default()
        };
        match taken.found {
            Record::Rate(rate) => TzqRecord {
                kind: 1,
                rate,
                ..none
            },
            Record::Shot { first, end } => TzqRecord {
                kind: 2,
                first,
                end,
                ..none
            },
            Record::Reel(reel) => TzqRecord {
                kind: 3,
                reel,
                ..none
            },
        }
    }
}

// A record, its refusal, or the end.
impl From<Result<Option<Taken>, Refusal>> for TzqRecord {
    ghost from_gives = { λ a t. t ≡ handed_entry a };

    fn from(a: Result<Option<Taken>, Refusal>) -> TzqRecord {
        match a {
            Ok(Some(taken)) => taken.into(),
            Ok(None) => TzqRecord::default(),
            Err(e) => TzqRecord {
                refused: handed::number_of(e),
                ..TzqRecord::default()
            },
        }
    }
}

// The number of records, or the list's refusal.
impl From<Result<usize, Refusal>> for TzqChecked {
    ghost from_gives = { λ a t. t ≡ handed_checked a };

    fn from(a: Result<usize, Refusal>) -> TzqChecked {
        match a {
            Ok(records) => TzqChecked {
                refused: 0,
                records,
            },
            Err(e) => TzqChecked {
                refused: handed::number_of(e),
                records: 0,
            },
        }
    }
}

// The record at a byte of a list, given the rate held (0: none). Refuses 9: no such kind; 10: its body is cut short; 6: no such rate; 5: a
// frame out of bounds; 11: a shot before any rate; 12: its end before its first frame.
#[unsafe(no_mangle)]
pub extern "C" fn tzq_record_at(list: &[u8], at: usize, held: u64) -> TzqRecord
    ensures { result ≡ handed_entry (entry_of on_disk held (drop at list.now)) }
{
    shot_lists::record_at(list, at, held).into()
}

// A whole list, tested. Refuses what its earliest record at fault is refused.
#[unsafe(no_mangle)]
pub extern "C" fn tzq_check_list(list: &[u8]) -> TzqChecked
    ensures { result ≡ handed_checked (checked_of (read_of on_disk list.now)) }
{
    shot_lists::check_list(list).into()
}

// A list that is handed over in numbers, for each record its kind and its own, laid down from `place` on. Refuses what its earliest record
// at fault is refused; 8: no room.
#[unsafe(no_mangle)]
pub extern "C" fn tzq_write_list(given: &[i64], line: &mut [u8], place: usize) -> TzqLength
    ensures answer { result ≡ handed_length (answer_to line.old place (list_draft given.now)) }
    ensures line { line.new ≡ line_to line.old place (list_draft given.now) }
{
    shot_writer::write_list(given, line, place).into()
}
