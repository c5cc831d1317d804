// The directory file, line by line, up to its end or a bad line.
ghost use Rattle.inputs.specs.Lines.{Leaves};

use inputs::{TakeChunk, TakeLine, Waiting};
use router::Directory;
use routing::{Flaw, Loaded, Loading};
use std::io;
use std::io::Read;

// What stops the reading: the file cannot be read, or a line of it, by its number, is bad.
#[derive(Drop)]
pub(crate) enum Halt {
    Unread,
    Bad(u64, Flaw),
}

impl From<io::Error> for Halt {
    fn from(_: io::Error) -> Halt {
        Halt::Unread
    }
}

// What has come of the file: how many lines, what they made, and the shards' first frames and ends.
#[derive(Clone, Copy)]
pub(crate) struct Lines {
    pub(crate) state: Loading,
    count: u64,
    firsts: [u64; 256],
    ends: [u64; 256],
}

impl Lines {
    // No line yet.
    fn new() -> Lines {
        Lines {
            state: Loading::new(),
            count: 0,
            firsts: [0; 256],
            ends: [0; 256],
        }
    }

    // A shard behind those that have come. (That 256 have come cannot be.)
    fn push(&mut self, first: u64, end: u64) {
        let at = self.state.shards;
        if at < 256 {
            self.firsts[at] = first;
            self.ends[at] = end;
        }
    }

    // The directory of the shards that have come, at a rate.
    pub(crate) fn directory(&self, rate: u64) -> Directory {
        let n = self.state.shards.min(256);
        router::tested(rate, &self.firsts[..n], &self.ends[..n])
    }
}

// A line more.
impl TakeLine<Halt> for Lines {
    fn take_line(&mut self, line: &[u8], over: bool) -> Result<(), Halt> {
        self.count = self.count.saturating_add(1);
        match routing::load(self.state, line, over) {
            Ok(Loaded::Skipped) => {}
            Ok(Loaded::Head(next)) => self.state = next,
            Ok(Loaded::Shard(first, end, next)) => {
                self.push(first, end);
                self.state = next;
            }
            Err(flaw) => return Err(Halt::Bad(self.count, flaw)),
        }
        Ok(())
    }
}

// A chunk of the file, line by line. At a bad line the buffer has what waits behind some beginning of the chunk.
fn feed(chunk: &[u8], waiting: &mut Waiting<4096>, lines: &mut Lines) -> Result<(), Halt>
    ensures { Leaves result waiting.old.buffer waiting.old.gathered chunk.now waiting.new.buffer waiting.new.gathered }
{
    waiting.each_line(chunk, lines)
}

// What is read of a file: the line that waits for its end, and the lines that have ended.
#[derive(Drop)]
struct Source {
    waiting: Waiting<4096>,
    lines: Lines,
}

impl TakeChunk<4096, Halt> for Source {
    fn take_chunk(&mut self, chunk: &[u8]) -> Result<(), Halt> {
        feed(chunk, &mut self.waiting, &mut self.lines)
    }
}

// All lines; a last one without its newline counts.
pub(crate) fn load_all(file: &mut impl Read) -> Result<Lines, Halt> {
    let mut source = Source {
        waiting: Waiting::<4096>::new(),
        lines: Lines::new(),
    };
    inputs::each_chunk(file, &mut [0; 4096], &mut source)?;
    let left = &mut source;
    left.waiting.last_line(&mut left.lines)?;
    Ok(left.lines)
}
