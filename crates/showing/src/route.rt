// What is shown of the shards that a query asks: `FIRST AFTER`, or the refusal and where. Refuses nothing itself.
ghost use Rattle.std.specs.Prelude.{◌≡◌};
ghost use Rattle.showing.specs.Why.{puts_on};
ghost use Rattle.showing.specs.Routes.{shards_parts, routed_parts, routed_on};

use answers::Refusal;
use router::Shards;
use streams::Page;

// Two numbers from 0 on, and a space between them.
#[tactic(auto, unfolding(crate::specs::Why::puts_on, crate::specs::Routes::shards_parts))]
fn put_shards<P: Page>(sheet: &mut P, first: u64, after: u64)
    ensures { P.seen sheet.new ≡ puts_on (P.seen sheet.old) (shards_parts first after) }
{
    sheet.put_signed(false, first);
    crate::why::put_spaced(sheet, false, after);
}

// The shards, or why there are none.
fn put_routed<P: Page>(sheet: &mut P, a: Result<Shards, Refusal>)
    ensures { P.seen sheet.new ≡ puts_on (P.seen sheet.old) (routed_parts a) }
{
    match a {
        Ok(shards) => put_shards(sheet, shards.first as u64, shards.after as u64),
        Err(e) => crate::put_shown(sheet, crate::each::of_text_refusal(e)),
    }
}

// The shards that a query asks as a line behind what the sheet has.
pub fn show_routed<P: Page>(sheet: &mut P, a: Result<Shards, Refusal>)
    ensures { P.seen sheet.new ≡ routed_on (P.seen sheet.old) a }
{
    put_routed(sheet, a);
    sheet.put_byte(b'\n');
}
