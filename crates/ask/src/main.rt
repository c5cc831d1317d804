// A calculator over every public operation: reads commands, one a line, and writes an answer for each (docs/ASK.md).
// What a line is, and what it asks, is decided by streams and asking; here are the commands and the buffers, and inputs' reads and writes.
#![tactic(auto)]

ghost use Rattle.inputs.specs.Lines.{Leaves};

use inputs::{TakeChunk, TakeLine, UntilUnread, Waiting};
use std::io;
use std::io::Read;
use streams::Sheet;

mod command;
mod lists;
mod read;
mod work;
mod write;

// The answers to commands, behind those that are kept on the sheet.
#[derive(Drop)]
struct Answers<'a, P: Print> {
    rt: &'a P,
    sheet: Sheet<65536>,
}

// The answer to a line; one that the buffer could not hold is answered as one without a word.
// Room for it: the longest is that of `read_list` to a line of 8192 bytes: 2045 records `rate 12`, 8 bytes each, behind their number, `2045`,
// and with the line's end: 16,365 bytes.
impl<P: Print> TakeLine<io::Error> for Answers<'_, P> {
    fn take_line(&mut self, line: &[u8], over: bool) -> io::Result<()> {
        inputs::make_room(self.rt, &mut self.sheet, 16384)?;
        command::answer(if over { &[] } else { line }, &mut self.sheet);
        Ok(())
    }
}

// A chunk of input, line by line; its answers are written before the next one is read.
// Where a write fails the buffer has what waits behind some beginning of the chunk.
fn feed<P: Print>(
    chunk: &[u8],
    waiting: &mut Waiting<8192>,
    answers: &mut Answers<P>,
) -> io::Result<()>
    ensures { Leaves result waiting.old.buffer waiting.old.gathered chunk.now waiting.new.buffer waiting.new.gathered }
{
    waiting.each_line(chunk, answers)?;
    inputs::write_out(answers.rt, &mut answers.sheet)
}

// What is read: the line that waits for its end, and the answers to those that have ended.
#[derive(Drop)]
struct Asked<'a, P: Print> {
    waiting: Waiting<8192>,
    answers: Answers<'a, P>,
}

impl<P: Print> TakeChunk<65536, io::Error> for Asked<'_, P> {
    fn take_chunk(&mut self, chunk: &[u8]) -> io::Result<()> {
        feed(chunk, &mut self.waiting, &mut self.answers)
    }
}

// All lines, of up to 8192 bytes; of a longer one the rest is not kept, and it is not understood. A last one without its newline counts.
fn answer_all(rt: &impl Print, input: &mut impl Read) -> io::Result<()> {
    let mut asked = Asked {
        waiting: Waiting::<8192>::new(),
        answers: Answers {
            rt,
            sheet: Sheet::<65536>::new(),
        },
    };
    inputs::each_chunk(input, &mut [0; 65536], &mut asked)?;
    let left = &mut asked;
    left.waiting.last_line(&mut left.answers)?;
    inputs::write_out(rt, &mut left.answers.sheet)
}

fn main(rt: HostRuntime) -> io::Result<()> {
    inputs::unless_gone(answer_all(&rt, &mut UntilUnread { input: rt.stdin() }))
}
