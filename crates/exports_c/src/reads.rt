// Texts read as a count.
ghost use Rattle.std.specs.Prelude.{◌≡◌};
ghost use Rattle.timecodes.specs.Kinds.{kind_from};
ghost use Rattle.timecodes.specs.Made.{settled};
ghost use Rattle.reading.specs.For.{read_for};
ghost use Rattle.runtime_reading.specs.Reading.{read_runtime};
ghost use Rattle.exports.specs.Handed.{handed_answer, handed_read};

use exports::handed::{TzqCount, TzqRead};

// What a text reads as at a rate, a length or a position, with no film format stated: a label or a footage. Refuses 6: no such rate; 1: no
// shape; 2: a field of over 9 digits; 13: a footage that cannot be on the film; 14: a label of a position that is not strict or has a sign;
// 3: a dropped label; 5: the count is out of bounds.
#[unsafe(no_mangle)]
pub extern "C" fn tzq_read(text: &[u8], rate: u64, position: bool) -> TzqRead
    ensures { result ≡ handed_read (read_for (kind_from position) text.now None rate) }
{
    exports::reads::tzq_read(text, rate, position)
}

// What a text reads as at a rate, a length or a position, with a film format stated: a footage only. Refuses 6: no such rate or film format; 1: no shape; 2: a
// field of over 9 digits; 4: a perf field with a format that has none; 13: a footage that cannot be on the film; 5: the count is out of
// bounds.
#[unsafe(no_mangle)]
pub extern "C" fn tzq_read_as(text: &[u8], format: u64, rate: u64, position: bool) -> TzqRead
    ensures { result ≡ handed_read (read_for (kind_from position) text.now (Some format) rate) }
{
    exports::reads::tzq_read_as(text, format, rate, position)
}

// What a runtime's text reads as at a rate, a length or a position. Refuses 6: no such rate; 1: no shape; 2: a field of over 9 digits or a fraction of over 6;
// 5: the count is out of bounds.
#[unsafe(no_mangle)]
pub extern "C" fn tzq_read_runtime(text: &[u8], rate: u64, position: bool) -> TzqCount
    ensures { result ≡ handed_answer (settled (kind_from position) (read_runtime text.now rate)) }
{
    exports::reads::tzq_read_runtime(text, rate, position)
}
