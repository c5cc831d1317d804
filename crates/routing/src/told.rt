// What is told of a query: the shards to ask, or the refusal, behind what the sheet has.
ghost use Rattle.std.specs.Prelude.{◌≡◌};
ghost use Rattle.streams.specs.Pieces.{all_on};
ghost use Rattle.routing.specs.Told.{which_pieces, found_pieces, reason_pieces, refused_pieces, routed_pieces, answer_pieces};

use crate::queries;
use answers::Refusal;
use router::{Directory, Shards};
use streams::Page;

// Which shards: from the first up to the one after the last.
#[tactic(auto, unfolding(crate::specs::Told::which_pieces))]
fn put_which<P: Page>(sheet: &mut P, shards: Shards)
    ensures { P.seen sheet.new ≡ all_on (P.seen sheet.old) (which_pieces shards.first shards.after) }
{
    let Shards { first, after } = shards;
    if after <= first {
        sheet.put_text(b"no shard");
    } else if after - first == 1 {
        sheet.put_text(b"shard ");
        sheet.put_signed(false, first as u64);
    } else {
        sheet.put_text(b"shards ");
        sheet.put_signed(false, first as u64);
        sheet.put_text(b" to ");
        sheet.put_signed(false, (after - 1) as u64);
    }
}

// Which shards of the reel.
fn put_found<P: Page>(sheet: &mut P, reel: u64, shards: Shards)
    ensures { P.seen sheet.new ≡ all_on (P.seen sheet.old) (found_pieces reel shards.first shards.after) }
{
    put_which(sheet, shards);
    sheet.put_text(b" of reel ");
    sheet.put_signed(false, reel);
    sheet.put_byte(b'\n');
}

// A refusal's number, its place in the label, and its phrase.
#[tactic(auto, unfolding(crate::specs::Told::reason_pieces))]
fn put_reason<P: Page>(sheet: &mut P, e: Refusal, phrase: &[u8])
    ensures { P.seen sheet.new ≡ all_on (P.seen sheet.old) (reason_pieces e phrase.now) }
{
    sheet.put_text(b"refused ");
    sheet.put_signed(false, u64::from(e.cause.number()));
    sheet.put_byte(b' ');
    sheet.put_signed(false, e.place as u64);
    sheet.put_text(b": ");
    sheet.put_text(phrase);
    sheet.put_byte(b'\n');
}

// A refusal. (That a phrase has over 128 bytes cannot be.)
fn put_refused<P: Page>(sheet: &mut P, e: Refusal)
    ensures { P.seen sheet.new ≡ all_on (P.seen sheet.old) (refused_pieces e) }
{
    let mut line = [0; 128];
    if let Ok(n) = phrases::write_phrase(e.cause.number(), &mut line, 0) {
        let phrase = &line[..n];
        put_reason(sheet, e, phrase);
    }
}

// What the router answers.
fn put_routed<P: Page>(sheet: &mut P, reel: u64, routed: Result<Shards, Refusal>)
    ensures { P.seen sheet.new ≡ all_on (P.seen sheet.old) (routed_pieces reel routed) }
{
    match routed {
        Ok(shards) => put_found(sheet, reel, shards),
        Err(e) => put_refused(sheet, e),
    }
}

// The answer to a line, asked of a directory of a reel; `over` where the line has more bytes than are kept.
pub fn answer<P: Page>(sheet: &mut P, d: Directory, reel: u64, line: &[u8], over: bool)
    ensures { P.seen sheet.new ≡ all_on (P.seen sheet.old) (answer_pieces d reel line.now over) }
{
    match queries::query_of(line) {
        Some(query) if !over => {
            let label = &line[query.label..];
            put_routed(sheet, reel, router::route_tested(d, query.length, label));
        }
        _ => sheet.put_text(b"not understood: a query is LENGTH LABEL\n"),
    }
}
