// Texts laid into the caller's line, and the sections of a label.
ghost use Rattle.std.specs.Prelude.{◌≡◌};
ghost use Rattle.written.specs.Written.{answer_to, line_to};
ghost use Rattle.label_writer.specs.Sections.{sectioned};
ghost use Rattle.label_writer.specs.LabelText.{label_draft};
ghost use Rattle.footage_writer.specs.FootageText.{footage_draft};
ghost use Rattle.runtime_writer.specs.RuntimeText.{runtime_draft};
ghost use Rattle.exports.specs.Handed.{timecode_from, handed_sections, handed_length};

use crate::handed::{TzqLength, TzqSections, TzqTimecode};

// The sections of a timecode's label. Refuses 6: no such rate; 5: the count is out of bounds.
#[unsafe(no_mangle)]
pub extern "C" fn tzq_sections(tc: TzqTimecode) -> TzqSections
    ensures { result ≡ handed_sections (sectioned (timecode_from tc)) }
{
    label_writer::sections(tc.into()).into()
}

// The label of a timecode, laid down from `place` on. Refuses 6: no such rate; 5: the count is out of bounds; 8: no room.
#[unsafe(no_mangle)]
pub extern "C" fn tzq_write_label(tc: TzqTimecode, line: &mut [u8], place: usize) -> TzqLength
    ensures answer { result ≡ handed_length (answer_to line.old place (label_draft (timecode_from tc))) }
    ensures line { line.new ≡ line_to line.old place (label_draft (timecode_from tc)) }
{
    label_writer::write_label(tc.into(), line, place).into()
}

// The footage of a timecode in a film format, laid down from `place` on. Refuses 6: no such rate, or no such film format; 5: the
// count is out of bounds; 8: no room.
#[unsafe(no_mangle)]
pub extern "C" fn tzq_write_footage(
    tc: TzqTimecode,
    format: u64,
    line: &mut [u8],
    place: usize,
) -> TzqLength
    ensures answer { result ≡ handed_length (answer_to line.old place (footage_draft (timecode_from tc) format)) }
    ensures line { line.new ≡ line_to line.old place (footage_draft (timecode_from tc) format) }
{
    footage_writer::write_footage(tc.into(), format, line, place).into()
}

// The runtime of a timecode to a precision, laid down from `place` on. Refuses 6: no such rate; 5: the count is out of bounds, or
// the precision is above 6; 8: no room.
#[unsafe(no_mangle)]
pub extern "C" fn tzq_write_runtime(
    tc: TzqTimecode,
    precision: u64,
    line: &mut [u8],
    place: usize,
) -> TzqLength
    ensures answer { result ≡ handed_length (answer_to line.old place (runtime_draft (timecode_from tc) precision)) }
    ensures line { line.new ≡ line_to line.old place (runtime_draft (timecode_from tc) precision) }
{
    runtime_writer::write_runtime(tc.into(), precision, line, place).into()
}
