// A line of input as it comes, in chunks of any size: its first bytes in a lent buffer, and whether there were more.
ghost use Rattle.std.specs.Prelude.{◌≡◌, drop};
ghost use Rattle.streams.specs.Gathering.{no_byte, taken, buffer_taken, is_empty, gather_from};
ghost use Rattle.streams.specs.Turns.{gone_on};

// How many bytes of the line are kept in the buffer, and whether the line has more than the buffer holds.
#[derive(Clone, Copy)]
pub struct Gathered {
    pub len: usize,
    pub over: bool,
}

// What is gathered, the place past the last byte that was taken, and whether the line has ended there.
#[derive(Clone, Copy)]
pub struct Step {
    pub gathered: Gathered,
    pub next: usize,
    pub ended: bool,
}

impl Gathered {
    // No byte yet.
    pub fn new() -> Gathered
        ensures { result ≡ no_byte }
    {
        Gathered {
            len: 0,
            over: false,
        }
    }

    // Has no byte come?
    pub fn is_empty(self) -> bool
        ensures { result ≡ is_empty self }
    {
        !self.over && self.len == 0
    }

    // One byte more: kept while the buffer has room.
    fn take(self, buffer: &mut [u8], b: u8) -> Gathered
        ensures answer { result ≡ taken buffer.old self }
        ensures buffer { buffer.new ≡ buffer_taken buffer.old self b }
    {
        if self.len < buffer.len() {
            buffer[self.len] = b;
            return Gathered {
                len: self.len + 1,
                ..self
            };
        }
        Gathered { over: true, ..self }
    }
}

impl Step {
    // What is gathered of the next line behind a step: nothing yet where a line has ended there.
    pub fn gone_on(self) -> Gathered
        ensures { result ≡ gone_on self }
    {
        if self.ended {
            Gathered::new()
        } else {
            self.gathered
        }
    }
}

// The bytes of a chunk from a place on, up to the newline, which is passed, or up to the chunk's end.
pub fn gather(chunk: &[u8], from: usize, buffer: &mut [u8], g: Gathered) -> Step
    ensures answer { result ≡ (gather_from from buffer.old g (drop from chunk.now)).step }
    ensures buffer { buffer.new ≡ (gather_from from buffer.old g (drop from chunk.now)).buffer }
{
    let mut h = g;
    for i in from..chunk.len() {
        if chunk[i] == b'\n' {
            return Step {
                gathered: h,
                next: i + 1,
                ended: true,
            };
        }
        h = h.take(buffer, chunk[i]);
    }
    Step {
        gathered: h,
        next: from.max(chunk.len()),
        ended: false,
    }
}
