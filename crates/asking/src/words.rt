// A line taken apart: the command's word, the numbers behind it as its row has them, and where the rest of the line begins.
ghost use Rattle.std.specs.Prelude.{◌≡◌, not, ◌&&◌, ◌<◌, ◌≤◌, length, drop, ltb};
ghost use Rattle.asking.specs.Table.{word_of, row_count, kind_of};
ghost use Rattle.asking.specs.Asked.{is_position, is_unstated, is_marked, value_at, is_room, is_in_range, word_at, is_last, rest_at};
ghost use Rattle.asking.specs.Asked.{unknown, ended_at, words_from, no_values, asked_of};

use crate::values::Word;
use crate::{rows, sharded, table, values};

// A number of a command, and whether it has the mark of a position; of a film format: none is stated. Of shards: the place where they begin.
#[derive(Clone, Copy)]
pub struct Value {
    pub number: i64,
    pub marked: bool,
}

// What a line asks: the row of its command, past the table where it is not understood; the command's numbers and their marks, zeros
// behind them; and the place where a text or a list begins, else the line's end.
#[derive(Clone, Copy)]
pub struct Asked {
    pub row: usize,
    pub values: [Value; 5],
    pub rest: usize,
}

// Zero, with no mark.
const NO_VALUE: Value = Value {
    number: 0,
    marked: false,
};

// A line that is not understood.
fn not_understood() -> Asked
    ensures { result ≡ unknown }
{
    let values = [NO_VALUE; 5];
    Asked {
        row: rows::ROWS,
        values,
        rest: 0,
    }
}

// Where the first word of a line ends: at the first space, or at the line's end.
fn word_end(line: &[u8]) -> usize
    ensures { result ≡ length (word_of line.now) }
{
    match line.iter().position(|b| *b == b' ') {
        Some(end) => end,
        None => line.len(),
    }
}

// Is a room of so many bytes understood, where `most` is the widest?
fn is_room(z: i64, most: u64) -> bool
    ensures { result ≡ is_room most z }
{
    z >= 0 && z.unsigned_abs() <= most
}

// Is this number allowed where a row has this letter?
#[tactic(auto, unfolding(crate::specs::Asked::is_in_range), using(std::proofs::lemmas::Bool::Decides::nat_tests))]
fn is_allowed(kind: u8, z: i64) -> bool
    ensures { result ≡ is_in_range kind z }
{
    match kind {
        b'p' => z >= 0,
        b'm' => is_room(z, 128),
        b'w' => is_room(z, 1024),
        _ => true,
    }
}

// Does the mark stand at a place of the line, behind one space, where a row has this letter? Only `@` may have it.
fn is_position(line: &[u8], at: usize, kind: u8) -> bool
    ensures { result ≡ is_position kind (drop at line.now) }
{
    kind == b'@' && values::word_stands(line, at, b" @")
}

// Does `-` alone stand at a place of the line, behind one space, where a row has this letter? Only a film format may be not stated.
fn is_unstated(line: &[u8], at: usize, kind: u8) -> bool
    ensures { result ≡ is_unstated kind (drop at line.now) }
{
    if kind != b'f' {
        return false;
    }
    values::word_stands(line, at, b" -") && values::is_over(line, at + 2)
}

// Does one of the two stand there: the mark of a position, or `-` for no film format?
fn is_marked(line: &[u8], at: usize, kind: u8) -> bool
    ensures { result ≡ is_marked kind (drop at line.now) }
{
    is_unstated(line, at, kind) || is_position(line, at, kind)
}

// The number at a place of the line, behind one space, and behind its mark where it has one; 0 for a film format that is not stated.
fn value_at(line: &[u8], at: usize, kind: u8) -> Option<Word>
    ensures { result ≡ value_at kind at (drop at line.now) }
{
    if is_unstated(line, at, kind) {
        return Some(Word {
            number: 0,
            next: at + 2,
        });
    }
    if is_position(line, at, kind) {
        return values::signed_at(line, at + 2);
    }
    values::number(line, at)
}

// What stands at a place of the line where a row has this letter: shards, or a number that is allowed there.
fn word_at(line: &[u8], at: usize, kind: u8) -> Option<Word>
    ensures { result ≡ word_at kind line.now at }
{
    if kind == b's' {
        return sharded::word(line, at);
    }
    value_at(line, at, kind).filter(|w| is_allowed(kind, w.number))
}

// Where the rest of the line begins, by the last letter of the row.
fn rest_at(line: &[u8], at: usize, kind: u8) -> Option<usize>
    ensures { result ≡ rest_at kind at (drop at line.now) }
{
    if line.len() <= at {
        return Some(at);
    }
    if kind == b'*' {
        return Some(at);
    }
    if kind == b't' && line[at] == b' ' {
        return Some(at + 1);
    }
    None
}

// What is asked once the numbers are taken. Asks a row, and one of its letters.
fn ended(row: usize, line: &[u8], at: usize, k: usize, values: [Value; 5]) -> Asked
    requires row { row < row_count }
    requires letter { k ≤ 5 }
    ensures { result ≡ ended_at row line.now at k values }
{
    match rest_at(line, at, table::kind_of(row, k)) {
        Some(rest) => Asked { row, values, rest },
        None => not_understood(),
    }
}

// Is a number the k-th word behind the command's? Asks a row.
fn is_number(row: usize, k: usize) -> bool
    requires { row < row_count }
    ensures { result ≡ ltb k 5 && not (is_last (kind_of row k)) }
{
    k < 5 && !matches!(table::kind_of(row, k), b' ' | b't' | b'*')
}

// The words behind the command's, from a place on. Asks a row.
fn words(row: usize, line: &[u8], from: usize) -> Asked
    requires { row < row_count }
    ensures { result ≡ words_from 5 row line.now from 0 no_values }
{
    let mut values = [NO_VALUE; 5];
    let mut at = from;
    let mut k = 0;
    while is_number(row, k) {
        let kind = table::kind_of(row, k);
        let Some(w) = word_at(line, at, kind) else {
            return not_understood();
        };
        values[k] = Value {
            number: w.number,
            marked: is_marked(line, at, kind),
        };
        at = w.next;
        k += 1;
    }
    ended(row, line, at, k, values)
}

// What a line asks: its first word is a command's, and the words behind it are as the command's row has them; else it is not understood.
pub fn understand(line: &[u8]) -> Asked
    ensures { result ≡ asked_of line.now }
{
    let end = word_end(line);
    match table::row_named(&line[..end]) {
        Some(row) => words(row, line, end),
        None => not_understood(),
    }
}
