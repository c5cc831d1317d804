// What is told of a text that is read in a way: the text, a caret where it has a place, the number with its phrase, and the fact.
ghost use Rattle.std.specs.Prelude.{◌≡◌};
ghost use Rattle.streams.specs.Pieces.{all_on};
ghost use Rattle.reading.specs.Answer.{number_of, place_of};
ghost use Rattle.answers.specs.Causes.{cause_number};
ghost use Rattle.telling.specs.Shown.{has_place, place_pieces};
ghost use Rattle.telling.specs.Told.{front_pieces, reason_pieces, told_pieces};

use crate::{facts, pieces};
use answers::{Cause, Refusal};
use reading::Read;
use reasons::Reason;
use streams::Page;
use timecodes::Kind;

// How a text is read at any rate: as a length or a position, with a film format stated or none.
#[derive(Clone, Copy)]
pub struct Options {
    pub kind: Kind,
    pub format: Option<u64>,
}

// How a text is read.
#[derive(Clone, Copy)]
pub struct Way {
    pub options: Options,
    pub rate: u64,
}

// Has a refusal of this cause a place?
fn has_place(cause: Cause) -> bool
    ensures { result ≡ has_place (cause_number cause) }
{
    matches!(cause, Cause::NoShape | Cause::TooLong)
}

// A caret under the place of a refusal, where it has one.
#[tactic(auto, unfolding(crate::specs::Shown::place_pieces))]
fn put_place<P: Page>(sheet: &mut P, read: Result<Read, Refusal>)
    ensures { P.seen sheet.new ≡ all_on (P.seen sheet.old) (place_pieces (number_of read) (place_of read)) }
{
    match read {
        Err(e) if has_place(e.cause) => pieces::put_caret(sheet, e.place),
        _ => {}
    }
}

// What stands before the phrase of a refusal: its number.
#[tactic(auto, unfolding(crate::specs::Told::front_pieces))]
fn put_front<P: Page>(sheet: &mut P, read: Result<Read, Refusal>)
    ensures { P.seen sheet.new ≡ all_on (P.seen sheet.old) (front_pieces (number_of read)) }
{
    if let Err(e) = read {
        sheet.put_text(b"refused ");
        sheet.put_signed(false, u64::from(e.cause.number()));
        sheet.put_text(b": ");
    }
}

// The answer to a text, by its parts.
#[tactic(auto, unfolding(crate::specs::Told::reason_pieces), using(crate::proofs::Cases::all_behind))]
fn put_reason<P: Page>(sheet: &mut P, rate: u64, text: &[u8], reason: Reason, phrase: &[u8])
    ensures { P.seen sheet.new ≡ all_on (P.seen sheet.old) (reason_pieces rate text.now reason.read reason.fact phrase.now) }
{
    pieces::put_shown(sheet, text);
    put_place(sheet, reason.read);
    put_front(sheet, reason.read);
    sheet.put_text(phrase);
    sheet.put_byte(b'\n');
    facts::put_fact(sheet, rate, reason.read, reason.fact);
}

// What is told of a text, behind what the sheet has. (That a phrase has over 128 bytes cannot be.)
pub fn tell<P: Page>(sheet: &mut P, way: Way, text: &[u8])
    ensures { P.seen sheet.new ≡ all_on (P.seen sheet.old) (told_pieces way text.now) }
{
    let mut line = [0; 128];
    let Options { kind, format } = way.options;
    if let Ok(reason) = reasons::why(text, format, way.rate, kind, &mut line, 0) {
        let phrase = &line[..reason.length];
        put_reason(sheet, way.rate, text, reason, phrase);
    }
}
