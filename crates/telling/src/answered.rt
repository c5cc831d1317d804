// What is answered to a line of input: a question's or a text's answer, and an empty line.
ghost use Rattle.std.specs.Prelude.{◌≡◌};
ghost use Rattle.streams.specs.Pieces.{all_on};
ghost use Rattle.telling.specs.Question.{question_of};
ghost use Rattle.telling.specs.Answered.{other_pieces, asked_pieces, answer_pieces};

use crate::{Question, Way, pieces, tell, understand};
use streams::Page;

// A line that is no question, and what a question is.
fn put_other<P: Page>(sheet: &mut P, line: &[u8])
    ensures { P.seen sheet.new ≡ all_on (P.seen sheet.old) (other_pieces line.now) }
{
    pieces::put_shown(sheet, line);
    sheet.put_text(b"not understood: a question is [-p] [-f FORMAT] RATE TEXT\n");
}

// What is told of a question's text.
#[tactic(auto, using(crate::proofs::Asked::text_within))]
fn put_asked<P: Page>(sheet: &mut P, line: &[u8])
    ensures { P.seen sheet.new ≡ all_on (P.seen sheet.old) (asked_pieces line.now (question_of line.now)) }
{
    match understand(line) {
        Some(Question { way, text }) => match text {
            Some(at) => tell(sheet, way, &line[at..]),
            None => put_other(sheet, line),
        },
        None => put_other(sheet, line),
    }
}

// The answer to a line, and an empty line: a text where the way to read it is given, else a question; `over` where it has more bytes than
// are kept.
pub fn answer<P: Page>(sheet: &mut P, way: Option<Way>, line: &[u8], over: bool)
    ensures { P.seen sheet.new ≡ all_on (P.seen sheet.old) (answer_pieces way line.now over) }
{
    match way {
        _ if over => put_other(sheet, line),
        Some(way) => tell(sheet, way, line),
        None => put_asked(sheet, line),
    }
    sheet.put_byte(b'\n');
}
