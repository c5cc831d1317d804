// Shards in a line: `-` for none, else ranges joined by `,`, each two numbers with `-` between them.
ghost use Rattle.std.specs.Prelude.{◌≡◌, drop, set};
ghost use Rattle.numbers.specs.Sign.{up_from};
ghost use Rattle.asking.specs.ShardWords.{range_at, is_none, ranges_of, spelled_of, shards_at, shards_of};

use crate::numbered::Listed;
use crate::values;
use crate::values::Word;

// The two numbers of a range, and the place past it.
#[derive(Clone, Copy)]
struct Range {
    first: i64,
    end: i64,
    next: usize,
}

// Whether a word of shards stands there, how many ranges were read, and the place past them.
#[derive(Clone, Copy)]
struct Ranged {
    well: bool,
    count: usize,
    next: usize,
}

// The range at a place: a number, `-`, and a number.
fn range_at(line: &[u8], at: usize) -> Option<Range>
    ensures { result ≡ range_at line.now at }
{
    let a = values::signed_at(line, at)?;
    if !values::stands(line, a.next, b'-') {
        return None;
    }
    let b = values::signed_at(line, a.next + 1)?;
    Some(Range {
        first: a.number,
        end: b.number,
        next: b.next,
    })
}

// A number at a place of a list, as one from 0 on; where the list has no such place nothing changes.
fn put(list: &mut [u64], n: usize, z: i64)
    ensures { list.new ≡ set list.old n (up_from z) }
{
    if n < list.len() {
        list[n] = numbers::up_from(z);
    }
}

// The ranges from a place on, joined by `,`, as far as the two lists have room for them.
fn ranges(line: &[u8], from: usize, firsts: &mut [u64], ends: &mut [u64]) -> Ranged
    ensures answer { result ≡ (ranges_of line.now from firsts.old ends.old).ranged }
    ensures firsts { firsts.new ≡ (ranges_of line.now from firsts.old ends.old).firsts }
    ensures ends { ends.new ≡ (ranges_of line.now from firsts.old ends.old).ends }
{
    let mut at = from;
    let mut n = 0;
    loop {
        let Some(r) = range_at(line, at) else {
            return Ranged {
                well: false,
                count: n,
                next: at,
            };
        };
        put(firsts, n, r.first);
        put(ends, n, r.end);
        n += 1;
        if !values::stands(line, r.next, b',') {
            return Ranged {
                well: values::is_over(line, r.next),
                count: n,
                next: r.next,
            };
        }
        at = r.next + 1;
    }
}

// Does `-` alone stand at a place, for no shards?
fn is_none(line: &[u8], at: usize) -> bool
    ensures { result ≡ is_none (drop at line.now) }
{
    values::stands(line, at, b'-') && values::is_over(line, at + 1)
}

// The shards that a word spells from a place on: none, or its ranges.
fn spelled(line: &[u8], at: usize, firsts: &mut [u64], ends: &mut [u64]) -> Ranged
    ensures answer { result ≡ (spelled_of line.now at firsts.old ends.old).ranged }
    ensures firsts { firsts.new ≡ (spelled_of line.now at firsts.old ends.old).firsts }
    ensures ends { ends.new ≡ (spelled_of line.now at firsts.old ends.old).ends }
{
    if is_none(line, at) {
        return Ranged {
            well: true,
            count: 0,
            next: at + 1,
        };
    }
    ranges(line, at, firsts, ends)
}

// A word of shards at a place of the line, behind one space: the place where it begins, and the place past it.
pub(crate) fn word(line: &[u8], at: usize) -> Option<Word>
    ensures { result ≡ shards_at line.now at }
{
    if !values::stands(line, at, b' ') {
        return None;
    }
    let from = at + 1;
    let mut firsts = [0u64; 0];
    let mut ends = [0u64; 0];
    let s = spelled(line, from, &mut firsts, &mut ends);
    if !s.well {
        return None;
    }
    Some(Word {
        number: numbers::with_sign(false, from as u64),
        next: s.next,
    })
}

// The shards of a word that begins at a place of the line, put into the two lists from their fronts on: each range's first number and
// its end, as numbers from 0 on. All are listed where it is a word of shards, with a space or the line's end behind it, and both lists have room for them; how
// many is how many ranges were read.
pub fn shards(line: &[u8], at: usize, firsts: &mut [u64], ends: &mut [u64]) -> Listed
    ensures answer { result ≡ (shards_of line.now at firsts.old ends.old).listed }
    ensures firsts { firsts.new ≡ (shards_of line.now at firsts.old ends.old).firsts }
    ensures ends { ends.new ≡ (shards_of line.now at firsts.old ends.old).ends }
{
    let room = firsts.len().min(ends.len());
    let s = spelled(line, at, firsts, ends);
    Listed {
        all: s.well && s.count <= room,
        count: s.count,
    }
}
