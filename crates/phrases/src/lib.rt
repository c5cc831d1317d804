// The phrase of a refusal, in words that can be read out: one fixed text for each number, 0 being nothing refused. Refuses 8, where it
// has no room.
#![tactic(auto)]

ghost use Rattle.std.specs.Prelude.{◌≡◌};
ghost use Rattle.written.specs.Written.{Text, answer_to, line_to};
ghost use Rattle.phrases.specs.Phrases.{phrase_of};

use answers::Refusal;

// The phrase of a number; that of a number that no refusal has is empty.
fn phrase(number: u8) -> &'static [u8]
    ensures { result.now ≡ phrase_of number }
{
    match number {
        0 => b"accepted",
        1 => b"not in a form that can be read",
        2 => b"a number has too many digits",
        3 => b"a dropped label, which no frame has",
        4 => b"a perf field, which this film format does not have",
        5 => b"the count of frames is out of bounds",
        6 => b"no such rate or film format",
        7 => b"a division by zero",
        8 => b"no room for what is to be written",
        9 => b"no such kind of record",
        10 => b"a record is cut short",
        11 => b"a shot before any rate",
        12 => b"a shot ends before it begins",
        13 => b"no such place on the film",
        14 => b"not a time of day",
        15 => b"a position where only a length may be",
        16 => b"a directory that breaks its rules",
        17 => b"a query that ends past the day",
        18.. => b"",
    }
}

// The phrase of a number, laid down from `place` on; that of a number that no refusal has is empty. Refuses 8: no room.
pub fn write_phrase(number: u8, line: &mut [u8], place: usize) -> Result<usize, Refusal>
    ensures answer { result ≡ answer_to line.old place (Text (phrase_of number)) }
    ensures line { line.new ≡ line_to line.old place (Text (phrase_of number)) }
{
    written::write_text(phrase(number), line, place)
}
