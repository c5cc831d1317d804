// The fact behind a number as a line on a sheet; of an accepted text its count, label and ticks.
ghost use Rattle.std.specs.Prelude.{◌≡◌};
ghost use Rattle.streams.specs.Sheet.{put_on};
ghost use Rattle.streams.specs.Pieces.{all_on};
ghost use Rattle.label_writer.specs.Sections.{sectioned};
ghost use Rattle.time.specs.Ticks.{ticks_of};
ghost use Rattle.telling.specs.Facts.{field_word, label_in, ticks_text, limit_pieces, first_pieces, counted_pieces, accepted_pieces, fact_pieces};

use answers::Refusal;
use faults::{Fault, Field};
use label_writer::{Label, TimecodeSections};
use reading::Read;
use reasons::Fact;
use streams::Page;
use timecodes::Timecode;

// The word of a field.
fn put_field<P: Page>(sheet: &mut P, field: Field)
    ensures { P.seen sheet.new ≡ put_on (P.seen sheet.old) (field_word field) }
{
    sheet.put_text(match field {
        Field::Count => b"count of frames: ",
        Field::Sign => b"sign: ",
        Field::Hours => b"hours: ",
        Field::Minutes => b"minutes: ",
        Field::Seconds => b"seconds: ",
        Field::Frames => b"frames: ",
        Field::Marker => b"marker: ",
    });
}

// A field, its value and the nearest value that is allowed.
#[tactic(auto, unfolding(crate::specs::Facts::limit_pieces))]
fn put_limit<P: Page>(sheet: &mut P, f: Fault)
    ensures { P.seen sheet.new ≡ all_on (P.seen sheet.old) (limit_pieces f) }
{
    if f.field == Field::Sign {
        sheet.put_text(b"a time of day has no sign\n");
        return;
    }
    put_field(sheet, f.field);
    sheet.put_signed(f.minus, f.value);
    sheet.put_text(b", nearest allowed: ");
    sheet.put_signed(f.minus, f.limit);
    sheet.put_byte(b'\n');
}

// The first label of a minute.
#[tactic(auto, unfolding(crate::specs::Facts::first_pieces))]
fn put_first<P: Page>(sheet: &mut P, sections: TimecodeSections, rate: u64)
    ensures { P.seen sheet.new ≡ all_on (P.seen sheet.old) (first_pieces rate sections) }
{
    sheet.put_text(b"first label of this minute: ");
    sheet.put(&Label { sections, rate });
    sheet.put_byte(b'\n');
}

// A timecode's label, where it has one.
#[tactic(auto, using(crate::proofs::Cases::put_none))]
fn put_label<P: Page>(sheet: &mut P, tc: Timecode)
    ensures { P.seen sheet.new ≡ put_on (P.seen sheet.old) (label_in tc.rate (sectioned tc)) }
{
    let rate = tc.rate;
    if let Ok(sections) = label_writer::sections(tc) {
        sheet.put(&Label { sections, rate });
    }
}

// A timecode's ticks, where it has them.
#[tactic(auto, using(crate::proofs::Cases::put_none))]
fn put_ticks<P: Page>(sheet: &mut P, tc: Timecode)
    ensures { P.seen sheet.new ≡ put_on (P.seen sheet.old) (ticks_text (ticks_of tc)) }
{
    if let Ok(ticks) = time::premiere_ticks(tc) {
        sheet.put_number(ticks);
    }
}

// The count of a timecode, its label and its ticks.
#[tactic(auto, unfolding(crate::specs::Facts::counted_pieces))]
fn put_counted<P: Page>(sheet: &mut P, tc: Timecode)
    ensures { P.seen sheet.new ≡ all_on (P.seen sheet.old) (counted_pieces tc) }
{
    sheet.put_text(b"count ");
    sheet.put_number(tc.count);
    sheet.put_text(b", label ");
    put_label(sheet, tc);
    sheet.put_text(b", ticks ");
    put_ticks(sheet, tc);
    sheet.put_byte(b'\n');
}

// Of what was read its count, label and ticks; nothing of a refusal.
fn put_accepted<P: Page>(sheet: &mut P, read: Result<Read, Refusal>)
    ensures { P.seen sheet.new ≡ all_on (P.seen sheet.old) (accepted_pieces read) }
{
    if let Ok(Read::Label(tc) | Read::Footage(tc, _)) = read {
        put_counted(sheet, tc);
    }
}

// The fact as a line, where there is one.
pub(crate) fn put_fact<P: Page>(
    sheet: &mut P,
    rate: u64,
    read: Result<Read, Refusal>,
    fact: Option<Fact>,
)
    ensures { P.seen sheet.new ≡ all_on (P.seen sheet.old) (fact_pieces rate read fact) }
{
    match fact {
        Some(Fact::First(sections)) => put_first(sheet, sections, rate),
        Some(Fact::Limit(fault)) => put_limit(sheet, fault),
        None => put_accepted(sheet, read),
    }
}
