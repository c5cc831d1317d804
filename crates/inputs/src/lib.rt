// What the programs share to read and write: an input chunk by chunk, the lines of a chunk answered onto a sheet, and the sheet written.
#![tactic(auto)]

ghost use Rattle.std.specs.Prelude.{◌≡◌, ◌≤◌, ◌⊎◌, length, replicate, OnOk, OnErr};
ghost use Rattle.streams.specs.Gathering.{no_byte};
ghost use Rattle.streams.specs.Sheet.{sheet};
ghost use Rattle.inputs.specs.Lines.{Leaves};

use std::io;
use std::io::Read;
use streams::{Gathered, Sheet};

// An input that ends where it cannot be read.
#[derive(Drop)]
pub struct UntilUnread<R> {
    pub input: R,
}

impl<R: Read> Read for UntilUnread<R> {
    fn read(&mut self, buf: &mut [u8]) -> io::Result<usize> {
        match self.input.read(buf) {
            Ok(n) => Ok(n),
            Err(_) => Ok(0),
        }
    }
}

// What takes an input's chunks, of up to N bytes each.
pub trait TakeChunk<const N: usize, E> {
    fn take_chunk(&mut self, chunk: &[u8]) -> Result<(), E>
        requires { length chunk.now ≤ N };
}

// What takes an input's lines, each by the bytes that are kept of it, and whether it has more.
pub trait TakeLine<E> {
    fn take_line(&mut self, line: &[u8], over: bool) -> Result<(), E>;
}

// Every chunk of an input, up to the input's end or the first error. (A proved loop ends: no run has so many turns.)
pub fn each_chunk<R: Read, E: From<io::Error>, T: TakeChunk<N, E>, const N: usize>(
    input: &mut R,
    buffer: &mut [u8; N],
    taker: &mut T,
) -> Result<(), E> {
    for _ in 0..u64::MAX {
        let n = input.read(buffer)?;
        if n == 0 {
            break;
        }
        taker.take_chunk(&buffer[..n])?;
    }
    Ok(())
}

// A line as it comes: its first bytes in a buffer, and what is gathered in it.
#[derive(Drop)]
pub struct Waiting<const B: usize> {
    pub buffer: [u8; B],
    pub gathered: Gathered,
}

impl<const B: usize> Waiting<B> {
    // No byte yet.
    pub fn new() -> Waiting<B>
        ensures { result ≡ record { buffer = replicate B 0; gathered = no_byte } }
    {
        Waiting {
            buffer: [0; B],
            gathered: Gathered::new(),
        }
    }

    // A chunk, line by line, as far as one has ended. At an error the buffer has what waits behind some beginning of the chunk.
    #[tactic(auto, using(streams::proofs::Turns::next_more))]
    pub fn each_line<E, T: TakeLine<E>>(&mut self, chunk: &[u8], taker: &mut T) -> Result<(), E>
        ensures { Leaves result self.old.buffer self.old.gathered chunk.now self.new.buffer self.new.gathered }
    {
        let mut next = 0;
        while next < chunk.len() {
            let step = streams::gather(chunk, next, &mut self.buffer, self.gathered);
            self.gathered = step.gone_on();
            next = step.next;
            if step.ended {
                let kept = step.gathered.len.min(B);
                taker.take_line(&self.buffer[..kept], step.gathered.over)?;
            }
        }
        Ok(())
    }

    // At the input's end: a last line without its newline counts, where a byte of it has come.
    pub fn last_line<E, T: TakeLine<E>>(&self, taker: &mut T) -> Result<(), E> {
        if self.gathered.is_empty() {
            return Ok(());
        }
        let kept = self.gathered.len.min(B);
        taker.take_line(&self.buffer[..kept], self.gathered.over)
    }
}

// What is on a sheet is written, and the sheet is without text again.
pub fn write_out<const N: usize>(rt: &impl Print, out: &mut Sheet<N>) -> io::Result<()>
    ensures ok { OnOk result (out.new ≡ sheet out.old.bytes 0) }
    ensures err { OnErr result (out.new ≡ out.old) }
{
    rt.write_all(out.text())?;
    out.clear();
    Ok(())
}

// Room for the next answer: where fewer than `room` bytes are left, what is on the sheet is written first.
pub fn make_room<const N: usize>(rt: &impl Print, out: &mut Sheet<N>, room: usize) -> io::Result<()>
    ensures ok { OnOk result (out.new ≡ out.old ⊎ out.new ≡ sheet out.old.bytes 0) }
    ensures err { OnErr result (out.new ≡ out.old) }
{
    if out.has_room(room) {
        return Ok(());
    }
    write_out(rt, out)
}

// A reader that has gone wants no more answers: that is no failure.
pub fn unless_gone(done: io::Result<()>) -> io::Result<()> {
    match done {
        Err(e) if e.kind() == io::ErrorKind::BrokenPipe => Ok(()),
        other => other,
    }
}
