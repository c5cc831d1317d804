// The lines of standard input, each a question, or each a text that is read in one way.
ghost use Rattle.inputs.specs.Lines.{Leaves};

use inputs::{TakeChunk, TakeLine, Waiting};
use std::io;
use std::io::Read;
use streams::Sheet;
use telling::Way;

// The answers to lines, behind those that are kept on the sheet: each a text that is read in this way, or a question.
#[derive(Drop)]
struct Answers<'a, P: Print> {
    rt: &'a P,
    way: Option<Way>,
    sheet: Sheet<65536>,
}

impl<P: Print> TakeLine<io::Error> for Answers<'_, P> {
    fn take_line(&mut self, line: &[u8], over: bool) -> io::Result<()> {
        inputs::make_room(self.rt, &mut self.sheet, 16384)?;
        telling::answer(&mut self.sheet, self.way, line, over);
        Ok(())
    }
}

// A chunk of input, line by line; its answers are written before the next one is read.
// Where a write fails the buffer has what waits behind some beginning of the chunk.
fn feed<P: Print>(
    chunk: &[u8],
    waiting: &mut Waiting<4096>,
    answers: &mut Answers<P>,
) -> io::Result<()>
    ensures { Leaves result waiting.old.buffer waiting.old.gathered chunk.now waiting.new.buffer waiting.new.gathered }
{
    waiting.each_line(chunk, answers)?;
    inputs::write_out(answers.rt, &mut answers.sheet)
}

// What is read: the line that waits for its end, and the answers to those that have ended.
#[derive(Drop)]
struct Asked<'a, P: Print> {
    waiting: Waiting<4096>,
    answers: Answers<'a, P>,
}

impl<P: Print> TakeChunk<65536, io::Error> for Asked<'_, P> {
    fn take_chunk(&mut self, chunk: &[u8]) -> io::Result<()> {
        feed(chunk, &mut self.waiting, &mut self.answers)
    }
}

// All lines, each a text where the way to read it is given, else a question; a last one without its newline counts.
pub(crate) fn answer_all(
    rt: &impl Print,
    input: &mut impl Read,
    way: Option<Way>,
) -> io::Result<()> {
    let mut asked = Asked {
        waiting: Waiting::<4096>::new(),
        answers: Answers {
            rt,
            way,
            sheet: Sheet::<65536>::new(),
        },
    };
    inputs::each_chunk(input, &mut [0; 65536], &mut asked)?;
    let left = &mut asked;
    left.waiting.last_line(&mut left.answers)?;
    inputs::write_out(rt, &mut left.answers.sheet)
}
