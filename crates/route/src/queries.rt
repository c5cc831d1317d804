// The lines of standard input, each a query of one reel.
ghost use Rattle.inputs.specs.Lines.{Leaves};

use inputs::{TakeChunk, TakeLine, Waiting};
use router::Directory;
use std::io;
use std::io::Read;
use streams::Sheet;

// A reel by its number, and the directory of its shards.
#[derive(Clone, Copy)]
pub(crate) struct Reel {
    pub(crate) number: u64,
    pub(crate) shards: Directory,
}

// The answers to queries of a reel, behind those that are kept on the sheet.
#[derive(Drop)]
struct Answers<'a, P: Print> {
    rt: &'a P,
    reel: Reel,
    sheet: Sheet<65536>,
}

impl<P: Print> TakeLine<io::Error> for Answers<'_, P> {
    fn take_line(&mut self, line: &[u8], over: bool) -> io::Result<()> {
        inputs::make_room(self.rt, &mut self.sheet, 256)?;
        routing::answer(
            &mut self.sheet,
            self.reel.shards,
            self.reel.number,
            line,
            over,
        );
        Ok(())
    }
}

// A chunk of input, line by line; its answers are written before the next one is read.
// Where a write fails the buffer has what waits behind some beginning of the chunk.
fn feed<P: Print>(
    chunk: &[u8],
    waiting: &mut Waiting<4096>,
    answers: &mut Answers<P>,
) -> io::Result<()>
    ensures { Leaves result waiting.old.buffer waiting.old.gathered chunk.now waiting.new.buffer waiting.new.gathered }
{
    waiting.each_line(chunk, answers)?;
    inputs::write_out(answers.rt, &mut answers.sheet)
}

// What is read: the line that waits for its end, and the answers to those that have ended.
#[derive(Drop)]
struct Asking<'a, P: Print> {
    waiting: Waiting<4096>,
    answers: Answers<'a, P>,
}

impl<P: Print> TakeChunk<65536, io::Error> for Asking<'_, P> {
    fn take_chunk(&mut self, chunk: &[u8]) -> io::Result<()> {
        feed(chunk, &mut self.waiting, &mut self.answers)
    }
}

// All lines; a last one without its newline counts.
pub(crate) fn answer_all(rt: &impl Print, input: &mut impl Read, reel: &Reel) -> io::Result<()> {
    let mut asking = Asking {
        waiting: Waiting::<4096>::new(),
        answers: Answers {
            rt,
            reel: *reel,
            sheet: Sheet::<65536>::new(),
        },
    };
    inputs::each_chunk(input, &mut [0; 65536], &mut asking)?;
    let left = &mut asking;
    left.waiting.last_line(&mut left.answers)?;
    inputs::write_out(rt, &mut left.answers.sheet)
}
