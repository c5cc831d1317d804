// A command's numbers as the operations take them.
ghost use Rattle.std.specs.Prelude.{◌≡◌, length};
ghost use Rattle.asking.specs.Numbered.{numbers_of, list_from};

use crate::values;
use crate::words::Value;

// The five numbers by place: `n` as it is given, where its sign counts, `up` as one from 0 on; `at`, whether it is marked.
#[derive(Clone, Copy)]
pub struct Numbers {
    pub up1: u64,
    pub n2: i64,
    pub up2: u64,
    pub n3: i64,
    pub up3: u64,
    pub n4: i64,
    pub up4: u64,
    pub up5: u64,
    pub at1: bool,
    pub at2: bool,
    pub at3: bool,
}

// How many numbers are listed; or something else stands there, or more than the list has room for.
#[derive(Clone, Copy)]
pub struct Listed {
    pub all: bool,
    pub count: usize,
}

// The five numbers of what is asked.
pub fn numbers_of(v: [Value; 5]) -> Numbers
    ensures { result ≡ numbers_of v }
{
    let a = v[0];
    let b = v[1];
    let c = v[2];
    let d = v[3];
    let e = v[4];
    Numbers {
        up1: numbers::up_from(a.number),
        n2: b.number,
        up2: numbers::up_from(b.number),
        n3: c.number,
        up3: numbers::up_from(c.number),
        n4: d.number,
        up4: numbers::up_from(d.number),
        up5: numbers::up_from(e.number),
        at1: a.marked,
        at2: b.marked,
        at3: c.marked,
    }
}

// The numbers from a place to the end of the line, each behind one space, put into the list from its front on.
pub fn rates(line: &[u8], from: usize, list: &mut [u64]) -> Listed
    ensures answer { result ≡ (list_from (length list.old) line.now from 0 list.old).listed }
    ensures list { list.new ≡ (list_from (length list.old) line.now from 0 list.old).list }
{
    let room = list.len();
    let mut at = from;
    for (n, slot) in list.iter_mut().enumerate() {
        let Some(w) = values::number(line, at) else {
            return Listed {
                all: line.len() <= at,
                count: n,
            };
        };
        *slot = numbers::up_from(w.number);
        at = w.next;
    }
    Listed {
        all: line.len() <= at,
        count: room,
    }
}
