// Tells which shards of a reel a query must ask (docs/ROUTING.md): the directory of the shards is a file, each line of standard input a
// query. What the lines are and what is told is routing's, which shards are asked the router's; here are the arguments and the buffers, and
// inputs' reads and writes.
#![tactic(auto)]

use file::{Halt, Lines};
use inputs::UntilUnread;
use queries::Reel;
use routing::Flaw;
use std::env::{Env, FillError};
use std::io::Read;
use std::rt::Files;
use std::{fs, io};
use streams::Sheet;

mod file;
mod queries;

// How to ask, to standard error.
fn put_usage(err: &impl Print) -> io::Result<()> {
    err.write_all(
        b"usage: route DIRECTORY  (a file: a line with rate and reel, then first frame and end of each shard, a line each; one query a line from standard input: LENGTH LABEL)\n",
    )
}

// A file that cannot be read, to standard error.
fn put_unread(err: &impl Print, path: &[u8]) -> io::Result<()> {
    err.write_all(b"cannot read ")?;
    err.write_all(path)?;
    err.write_all(b"\n")
}

// A bad line of the file, by its number, to standard error.
fn put_bad(err: &impl Print, line: u64, flaw: Flaw) -> io::Result<()> {
    let mut sheet = Sheet::<4096>::new();
    routing::tell_flaw(&mut sheet, line, flaw);
    inputs::write_out(err, &mut sheet)
}

// The queries, asked of the directory that was loaded, where it has a rate and a reel.
fn answer(
    rt: &impl Print,
    err: &impl Print,
    input: &mut impl Read,
    lines: &Lines,
) -> io::Result<()> {
    let Some(head) = lines.state.head else {
        return err.write_all(b"no line with rate and reel\n");
    };
    let reel = Reel {
        number: head.reel,
        shards: lines.directory(head.rate),
    };
    queries::answer_all(rt, input, &reel)
}

// The lines of the file. A path is text: one that is not UTF-8 names no file that can be opened.
fn loaded(rt: &impl Files, path: &[u8]) -> Result<Lines, Halt> {
    let Ok(text) = str::from_utf8(path) else {
        return Err(Halt::Unread);
    };
    let mut file = fs::open(rt, text)?;
    file::load_all(&mut file)
}

// The file, opened and read.
fn answer_file(
    rt: &(impl Files + Print),
    err: &impl Print,
    input: &mut impl Read,
    path: &[u8],
) -> io::Result<()> {
    match loaded(rt, path) {
        Ok(lines) => answer(rt, err, input, &lines),
        Err(Halt::Unread) => put_unread(err, path),
        Err(Halt::Bad(line, flaw)) => put_bad(err, line, flaw),
    }
}

// Is there such an argument, whatever its length? (That of 0 is the program's name.)
fn has_arg(rt: &impl Env, i: usize) -> bool {
    !matches!(rt.arg(i, &mut [0; 1]), Err(FillError::NotPresent))
}

// The queries of standard input, where there is one argument and it is no option, of which there are none.
fn run(rt: &(impl Env + Files + Print), err: &impl Print, input: &mut impl Read) -> io::Result<()> {
    let mut word = [0; 4096];
    let Ok(n) = rt.arg(1, &mut word) else {
        return put_usage(err);
    };
    match &word[..n] {
        [] | [b'-', ..] => put_usage(err),
        _ if has_arg(rt, 2) => put_usage(err),
        path => answer_file(rt, err, input, path),
    }
}

fn main(rt: HostRuntime) -> io::Result<()> {
    let mut input = UntilUnread { input: rt.stdin() };
    inputs::unless_gone(run(&rt, &rt.stderr(), &mut input))
}
