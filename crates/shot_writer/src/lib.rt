// Shot lists written into the caller's line from a stated place: the records are handed over in numbers, and nothing is written before the
// whole list is known to be without fault and to have room. Refuses what the earliest record at fault is refused (9, 10, 6, 5, 11, 12),
// then 8: place plus the list's length exceeds the line's length.
#![tactic(auto)]

ghost use Rattle.std.specs.Prelude.{◌≡◌, ◌∷◌, true, ◌≤◌, length};
ghost use Rattle.lent.specs.Line.{laid};
ghost use Rattle.low_bytes.specs.LowBytes.{low_bytes};
ghost use Rattle.written.specs.Written.{answer_to, line_to};
ghost use Rattle.shot_lists.specs.declared.records.Record.TheVariants.{Shot};
ghost use Rattle.shot_lists.specs.Entries.{in_numbers, kind_number};
ghost use Rattle.shot_lists.specs.Reading.{read_of, is_faultless};
ghost use Rattle.shot_writer.specs.ListText.{record_bytes, list_bytes, records_in, measured_of, list_draft};

use answers::Refusal;
use shot_lists::{Record, RecordKind};
use written::Writable;

// How many bytes a record has on disk.
fn record_length(found: Record) -> usize
    ensures { result ≡ length (record_bytes found) }
{
    match found {
        Record::Rate(_) => 2,
        Record::Shot { .. } => 9,
        Record::Reel(_) => 5,
    }
}

// The whole list that is handed over, tested and measured record by record.
fn measure(given: &[i64]) -> Result<usize, Refusal>
    ensures { result ≡ measured_of (read_of in_numbers given.now) }
{
    let mut at = 0;
    let mut held = 0;
    let mut n = 0;
    while let Some(record) = shot_lists::given_at(given, at, held)? {
        n += record_length(record.found);
        at += record.size;
        held = record.held;
    }
    Ok(n)
}

// A shot's kind and frames at the front of a part; every other byte stays. Where they have no room nothing changes.
fn put_shot(part: &mut [u8], first: i64, end: i64)
    ensures { part.new ≡ laid part.old (record_bytes (Shot first end)) }
{
    if part.len() < 9 {
        return;
    }
    lent::put_byte(part, RecordKind::Shot as u8);
    low_bytes::put_signed(&mut part[1..], first);
    low_bytes::put_signed(&mut part[5..], end);
}

// The byte of a kind.
fn kind_byte(kind: RecordKind) -> u8
    ensures { result ≡ kind_number kind }
{
    kind as u8
}

// A kind and a number of so many bytes at the front of a part; every other byte stays. Where they have no room nothing changes.
fn put_kind(part: &mut [u8], kind: RecordKind, width: usize, n: u64)
    ensures { part.new ≡ laid part.old (kind_number kind ∷ low_bytes width n) }
{
    if width < part.len() {
        lent::put_byte(part, kind_byte(kind));
        low_bytes::put_number(&mut part[1..], width, n);
    }
}

// A record's bytes at the front of a part; every other byte stays. Where they have no room nothing changes.
#[tactic(auto, unfolding(crate::specs::ListText::record_bytes))]
fn put_record(part: &mut [u8], found: Record)
    ensures { part.new ≡ laid part.old (record_bytes found) }
{
    match found {
        Record::Rate(n) => put_kind(part, RecordKind::Rate, 1, n),
        Record::Shot { first, end } => put_shot(part, first, end),
        Record::Reel(n) => put_kind(part, RecordKind::Reel, 4, n),
    }
}

// A list that is handed over without fault, as it is written, and how many bytes it has.
#[derive(Clone, Copy)]
struct ListText<'a> {
    given: &'a [i64],
    size: usize,
    ghost sound: { is_faultless (read_of in_numbers given.now) ≡ true },
    ghost long: { size ≡ length (list_bytes (records_in (read_of in_numbers given.now))) },
}

impl<'a> Writable for ListText<'a> {
    ghost text = { λ list. list_bytes (records_in (read_of in_numbers list.given.now)) };

    fn length(&self) -> usize {
        self.size
    }

    // The records one after the other, each behind the bytes of those before it.
    fn put(&self, part: &mut [u8]) {
        let mut at = 0;
        let mut held = 0;
        let mut to = 0;
        while let Ok(Some(record)) = shot_lists::given_at(self.given, at, held) {
            put_record(&mut part[to..], record.found);
            to += record_length(record.found);
            at += record.size;
            held = record.held;
        }
    }
}

// The list that is handed over, laid down from `place` on.
pub fn write_list(given: &[i64], line: &mut [u8], place: usize) -> Result<usize, Refusal>
    ensures answer { result ≡ answer_to line.old place (list_draft given.now) }
    ensures line { line.new ≡ line_to line.old place (list_draft given.now) }
{
    let list = ListText {
        given,
        size: measure(given)?,
    };
    written::write(&list, line, place)
}
