// Shot lists: walked record by record, tested as a whole, and written.
ghost use Rattle.std.specs.Prelude.{◌≡◌, drop};
ghost use Rattle.written.specs.Written.{answer_to, line_to};
ghost use Rattle.shot_lists.specs.Entries.{on_disk, entry_of};
ghost use Rattle.shot_lists.specs.Reading.{checked_of, read_of};
ghost use Rattle.shot_writer.specs.ListText.{list_draft};
ghost use Rattle.exports.specs.Handed.{handed_length};
ghost use Rattle.exports.specs.HandedLists.{handed_entry, handed_checked};

use exports::handed::TzqLength;
use exports::lists::{TzqChecked, TzqRecord};

// The record at a byte of a list, given the rate held (0: none). Refuses 9: no such kind; 10: its body is cut short; 6: no such rate; 5: a
// frame out of bounds; 11: a shot before any rate; 12: its end before its first frame.
#[unsafe(no_mangle)]
pub extern "C" fn tzq_record_at(list: &[u8], at: usize, held: u64) -> TzqRecord
    ensures { result ≡ handed_entry (entry_of on_disk held (drop at list.now)) }
{
    exports::lists::tzq_record_at(list, at, held)
}

// A whole list, tested. Refuses what its earliest record at fault is refused.
#[unsafe(no_mangle)]
pub extern "C" fn tzq_check_list(list: &[u8]) -> TzqChecked
    ensures { result ≡ handed_checked (checked_of (read_of on_disk list.now)) }
{
    exports::lists::tzq_check_list(list)
}

// A list that is handed over in numbers, for each record its kind and its own, laid down from `place` on. Refuses what its earliest record
// at fault is refused; 8: no room.
#[unsafe(no_mangle)]
pub extern "C" fn tzq_write_list(given: &[i64], line: &mut [u8], place: usize) -> TzqLength
    ensures answer { result ≡ handed_length (answer_to line.old place (list_draft given.now)) }
    ensures line { line.new ≡ line_to line.old place (list_draft given.now) }
{
    exports::lists::tzq_write_list(given, line, place)
}
