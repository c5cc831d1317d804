// The records of a shot list in words, ` rate N`, ` shot N N` and ` reel N`, one behind the other to the end of a line: each as its kind
// (1, 2, 3) and its numbers.
ghost use Rattle.std.specs.Prelude.{◌≡◌, drop};
ghost use Rattle.asking.specs.RecordWords.{kind_at, next_at, due_behind, is_done, records_of};

use crate::numbered::Listed;
use crate::values;
use crate::values::Word;

// The kind of the record whose word stands at a place, behind one space, and the place past the word.
fn kind_at(line: &[u8], at: usize) -> Option<Word>
    ensures { result ≡ kind_at at (drop at line.now) }
{
    if values::word_stands(line, at, b" rate") {
        return Some(Word {
            number: 1,
            next: at + 5,
        });
    }
    if values::word_stands(line, at, b" shot") {
        return Some(Word {
            number: 2,
            next: at + 5,
        });
    }
    if values::word_stands(line, at, b" reel") {
        return Some(Word {
            number: 3,
            next: at + 5,
        });
    }
    None
}

// What is listed next, and the place past it: a number of a record where one is due, else the kind of the next record.
fn next_at(line: &[u8], at: usize, due: usize) -> Option<Word>
    ensures { result ≡ next_at due at (drop at line.now) }
{
    if due == 0 {
        return kind_at(line, at);
    }
    values::number(line, at)
}

// How many numbers of a record are due behind what was listed: all of them behind its kind.
fn due_behind(due: usize, z: i64) -> usize
    ensures { result ≡ due_behind due z }
{
    if due != 0 {
        due - 1
    } else if z.unsigned_abs() == 2 {
        2
    } else {
        1
    }
}

// Has the line ended, and the last record with it?
fn is_done(line: &[u8], at: usize, due: usize) -> bool
    ensures { result ≡ is_done line.now at due }
{
    due == 0 && line.len() <= at
}

// The records from a place to the end of the line, put into the list from its front on.
pub fn records(line: &[u8], from: usize, list: &mut [i64]) -> Listed
    ensures answer { result ≡ (records_of line.now from list.old).listed }
    ensures list { list.new ≡ (records_of line.now from list.old).list }
{
    let room = list.len();
    let mut at = from;
    let mut due = 0;
    for (n, slot) in list.iter_mut().enumerate() {
        let Some(w) = next_at(line, at, due) else {
            return Listed {
                all: is_done(line, at, due),
                count: n,
            };
        };
        *slot = w.number;
        at = w.next;
        due = due_behind(due, w.number);
    }
    Listed {
        all: is_done(line, at, due),
        count: room,
    }
}
