// The line program's answers: a chunk of input, of any size, goes through a buffer for the line and a sheet, and each line that ends
// is answered. It reads and writes nothing itself, and asks nothing of its caller: where the sheet has no room for another answer it
// stops, and says how far it came.
#![tactic(auto)]

ghost use Rattle.std.specs.Prelude.{◌≡◌, ◌&&◌, cond, ltb, length};
ghost use Rattle.streams.specs.Sheet.{lent_by};
ghost use Rattle.feeding.specs.Feeding.{answered, goes_on, fed_answer, fed_of, finished};

use streams::{Gathered, Page, Step};

// After a chunk: what is gathered of the next line, and how many bytes of the chunk were taken.
#[derive(Clone, Copy)]
pub struct Fed {
    pub gathered: Gathered,
    pub eaten: usize,
}

// The answer to what is kept of a line, behind what the sheet has.
fn answer<P: Page>(buffer: &[u8], g: Gathered, sheet: &mut P)
    ensures { P.seen sheet.new ≡ answered buffer.now g (P.seen sheet.old) }
{
    let line = &buffer[..g.len.min(buffer.len())];
    sheet.put(&lines::answer_to_line(line));
}

// The answer where a line has ended.
fn answer_ended<P: Page>(step: Step, buffer: &[u8], sheet: &mut P)
    ensures { P.seen sheet.new ≡ cond step.ended (answered buffer.now step.gathered (P.seen sheet.old)) (P.seen sheet.old) }
{
    if step.ended {
        answer(buffer, step.gathered, sheet);
    }
}

// Is there a byte more of the chunk, and room on the sheet for the longest answer?
fn goes_on<P: Page>(chunk: &[u8], eaten: usize, sheet: &P) -> bool
    ensures { result ≡ ltb eaten (length chunk.now) && goes_on (length (P.seen sheet.now).bytes) (P.seen sheet.now).used }
{
    eaten < chunk.len() && sheet.has_room(47)
}

// A chunk, onto the sheet without what it had; the buffer and the sheet afterwards.
pub fn feed<P: Page>(chunk: &[u8], buffer: &mut [u8], sheet: &mut P, g: Gathered) -> Fed
    ensures answer { result ≡ fed_answer (fed_of buffer.old (P.seen sheet.old).bytes g chunk.now) }
    ensures buffer { buffer.new ≡ (fed_of buffer.old (P.seen sheet.old).bytes g chunk.now).machine.buffer }
    ensures sheet { P.seen sheet.new ≡ lent_by (P.seen sheet.old).lender (fed_of buffer.old (P.seen sheet.old).bytes g chunk.now).machine.sheet }
{
    sheet.clear();
    let mut gathered = g;
    let mut eaten = 0;
    while goes_on(chunk, eaten, sheet) {
        let step = streams::gather(chunk, eaten, buffer, gathered);
        answer_ended(step, buffer, sheet);
        gathered = step.gone_on();
        eaten = step.next;
    }
    Fed { gathered, eaten }
}

// The end of the input: a last line without its newline is answered, onto the sheet without what it had.
pub fn finish<P: Page>(buffer: &[u8], sheet: &mut P, g: Gathered)
    ensures { P.seen sheet.new ≡ lent_by (P.seen sheet.old).lender (finished buffer.now (P.seen sheet.old).bytes g) }
{
    sheet.clear();
    if !g.is_empty() {
        answer(buffer, g, sheet);
    }
}
