// Why a text is read as it is: the numbers of what the reader answers, and of the fact behind it.
ghost use Rattle.std.specs.Prelude.{◌≡◌};
ghost use Rattle.timecodes.specs.Kinds.{kind_from};
ghost use Rattle.written.specs.Written.{Text, line_to};
ghost use Rattle.reasons.specs.Why.{phrase_for, why_of};
ghost use Rattle.exports.specs.HandedWhy.{stated_from, handed_reason};

use exports::why::TzqReason;

// Why a text is read as it is at a rate, a length or a position, with a film format stated or none: its phrase is laid down from `place` on.
// Refuses 8: no room.
#[unsafe(no_mangle)]
pub extern "C" fn tzq_why(
    text: &[u8],
    stated: bool,
    format: u64,
    rate: u64,
    position: bool,
    line: &mut [u8],
    place: usize,
) -> TzqReason
    ensures answer { result ≡ handed_reason (why_of (kind_from position) text.now (stated_from stated format) rate line.old place) }
    ensures line { line.new ≡ line_to line.old place (Text (phrase_for (kind_from position) text.now (stated_from stated format) rate)) }
{
    exports::why::tzq_why(text, stated, format, rate, position, line, place)
}
