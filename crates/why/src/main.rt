// Tells a desk why a text was turned down (docs/WHY.md): of a question in the arguments, or of each line of standard input.
// What a question is and what is told is telling's; here are the arguments and the buffers, and inputs' reads and writes.
#![tactic(auto)]

use inputs::UntilUnread;
use std::env::{Env, FillError};
use std::io;
use std::io::Read;
use streams::Sheet;
use telling::{Question, Way};

mod lines;

// How to ask, to standard error.
fn put_usage(err: &impl Print) -> io::Result<()> {
    err.write_all(
        b"usage: why [-p] [-f FORMAT] RATE 'TEXT'  (RATE 1 to 12, FORMAT 1 to 4, -p: a time of day; in quotes, since a shell takes ; for itself; with no TEXT, one a line from standard input; with no arguments, a question a line)\n",
    )
}

// An argument behind those that are joined: `TooLong` where it has no room, `NotPresent` where there is none.
fn put_word(rt: &impl Env, i: usize, words: &mut Sheet<4097>) -> Result<(), FillError> {
    let mut word = [0; 4096];
    let n = rt.arg(i, &mut word)?;
    if telling::join(words, &word[..n]) {
        Ok(())
    } else {
        Err(FillError::TooLong)
    }
}

// The arguments behind the program's name, each with a space behind it: an error where one has no room.
fn put_words(rt: &impl Env, words: &mut Sheet<4097>) -> Result<(), FillError> {
    for i in 1..usize::MAX {
        match put_word(rt, i, words) {
            Err(FillError::NotPresent) => return Ok(()),
            done => done?,
        }
    }
    Ok(())
}

// What is told of a text.
fn tell(rt: &impl Print, way: Way, text: &[u8]) -> io::Result<()> {
    let mut sheet = Sheet::<65536>::new();
    telling::tell(&mut sheet, way, text);
    inputs::write_out(rt, &mut sheet)
}

// The answer to a question; where it has no text, the lines of standard input are its texts.
#[tactic(auto, using(telling::proofs::Asked::text_within))]
fn answer(
    rt: &impl Print,
    err: &impl Print,
    input: &mut impl Read,
    question: &[u8],
) -> io::Result<()> {
    match telling::understand(question) {
        Some(Question { way, text }) => match text {
            Some(at) => tell(rt, way, &question[at..]),
            None => lines::answer_all(rt, input, Some(way)),
        },
        None => put_usage(err),
    }
}

// The question of the arguments, without the space behind its last word; without any, each line of standard input is one.
fn run(rt: &(impl Env + Print), err: &impl Print, input: &mut impl Read) -> io::Result<()> {
    let mut words = Sheet::<4097>::new();
    if put_words(rt, &mut words).is_err() {
        return put_usage(err);
    }
    match words.text() {
        [question @ .., _] => answer(rt, err, input, question),
        [] => lines::answer_all(rt, input, None),
    }
}

fn main(rt: HostRuntime) -> io::Result<()> {
    let mut input = UntilUnread { input: rt.stdin() };
    inputs::unless_gone(run(&rt, &rt.stderr(), &mut input))
}
