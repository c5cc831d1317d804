// What is wrong with a line of a directory file, in words, behind what the sheet has.
ghost use Rattle.std.specs.Prelude.{◌≡◌};
ghost use Rattle.streams.specs.Sheet.{put_on};
ghost use Rattle.streams.specs.Pieces.{all_on};
ghost use Rattle.routing.specs.Flaws.{flaw_text, flaw_pieces};

use crate::loading::Flaw;
use streams::Page;

// The words of a flaw; with the number that the router refuses such a directory.
fn put_flaw<P: Page>(sheet: &mut P, flaw: Flaw)
    ensures { P.seen sheet.new ≡ put_on (P.seen sheet.old) (flaw_text flaw) }
{
    match flaw {
        Flaw::TooLong => sheet.put_text(b"too long"),
        Flaw::NotTwoNumbers => sheet.put_text(b"not two numbers"),
        Flaw::NoSuchRate => sheet.put_text(b"no such rate (refused 6)"),
        Flaw::NoSuchReel => sheet.put_text(b"no such reel"),
        Flaw::ManyShards => sheet.put_text(b"more than 256 shards (refused 16)"),
        Flaw::EmptyShard => {
            sheet.put_text(b"the shard's end is not after its first frame (refused 16)")
        }
        Flaw::EarlyShard => {
            sheet.put_text(b"the shard begins before the one before it ends (refused 16)")
        }
        Flaw::PastDay => sheet.put_text(b"the shard ends past the day (refused 16)"),
    }
}

// A line of the file by its number, and what is wrong with it.
#[tactic(auto, unfolding(crate::specs::Flaws::flaw_pieces))]
pub fn tell_flaw<P: Page>(sheet: &mut P, line: u64, flaw: Flaw)
    ensures { P.seen sheet.new ≡ all_on (P.seen sheet.old) (flaw_pieces line flaw) }
{
    sheet.put_text(b"line ");
    sheet.put_signed(false, line);
    sheet.put_text(b": ");
    put_flaw(sheet, flaw);
    sheet.put_byte(b'\n');
}
