// The line program: reads lines, two digits of rate, a space and a text, and writes for each its count, label and ticks, or why it is refused.
// All that it decides is feeding's, for input of any size and any chunks; here are the buffers, and inputs' reads and writes.
#![tactic(auto)]

ghost use Rattle.std.specs.Prelude.{◌≡◌, ◌*◌, ◌≤◌, length};
ghost use Rattle.feeding.specs.Feeding.{fed_of};

use inputs::{TakeChunk, UntilUnread, Waiting};
use std::io;
use std::io::Read;
use streams::Sheet;

// A chunk that the sheet can answer whole: none of it is left. Asks 47 bytes of sheet for each of the chunk's, and that 65 bytes of a line
// are kept: one of over 64 is refused whatever it says.
#[tactic(auto, using(feeding::proofs::Statements::taken_whole))]
fn pour<const B: usize, const N: usize>(
    rt: &impl Print,
    chunk: &[u8],
    line: &mut Waiting<B>,
    sheet: &mut Sheet<N>,
) -> io::Result<()>
    requires line { 65 ≤ B }
    requires sheet { 47 * length chunk.now ≤ N }
    ensures whole { (fed_of line.old.buffer sheet.old.bytes line.old.gathered chunk.now).eaten ≡ length chunk.now }
    ensures gathered { line.new.gathered ≡ (fed_of line.old.buffer sheet.old.bytes line.old.gathered chunk.now).machine.gathered }
    ensures buffer { line.new.buffer ≡ (fed_of line.old.buffer sheet.old.bytes line.old.gathered chunk.now).machine.buffer }
{
    let _ = &sheet.bytes; // the check knows from here that they are N
    let fed = feeding::feed(chunk, &mut line.buffer, sheet, line.gathered);
    line.gathered = fed.gathered;
    inputs::write_out(rt, sheet)
}

// What is read: the line that waits for its end, and the sheet of the answers.
#[derive(Drop)]
struct Poured<'a, P: Print> {
    rt: &'a P,
    line: Waiting<65>,
    sheet: Sheet<192512>,
}

impl<P: Print> TakeChunk<4096, io::Error> for Poured<'_, P> {
    fn take_chunk(&mut self, chunk: &[u8]) -> io::Result<()>
        requires { length chunk.now ≤ 4096 }
    {
        pour(self.rt, chunk, &mut self.line, &mut self.sheet)
    }
}

// All chunks, of 4096 bytes at most, whose answers have 192,512; a last line without its newline counts.
fn run(rt: &impl Print, input: &mut impl Read) -> io::Result<()> {
    let mut poured = Poured {
        rt,
        line: Waiting::new(),
        sheet: Sheet::<192512>::new(),
    };
    inputs::each_chunk(input, &mut [0; 4096], &mut poured)?;
    let left = &mut poured;
    feeding::finish(&left.line.buffer, &mut left.sheet, left.line.gathered);
    inputs::write_out(rt, &mut left.sheet)
}

fn main(rt: HostRuntime) -> io::Result<()> {
    inputs::unless_gone(run(&rt, &mut UntilUnread { input: rt.stdin() }))
}
