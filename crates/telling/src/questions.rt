// A question in a line: options in any order, each at most once, then the rate, and behind one space the text.
ghost use Rattle.std.specs.Prelude.{◌≡◌, drop};
ghost use Rattle.telling.specs.Question.{one_of, is_number, format_at, format_in, option_of, rated_of, question_of};

use crate::{Options, Way};
use digits::Run;
use timecodes::Kind;

// The options that stand in front, and the place past them.
#[derive(Clone, Copy)]
struct Opening {
    options: Options,
    at: usize,
}

// How a text is to be read, and the place where it begins, where one stands there.
#[derive(Clone, Copy)]
pub struct Question {
    pub way: Way,
    pub text: Option<usize>,
}

// How many bytes the word has that stands at a place, of a short and a long one, if it is one of them.
#[tactic(auto, unfolding(crate::specs::Question::one_of))]
fn one_of(line: &[u8], at: usize, short: &[u8], long: &[u8]) -> Option<usize>
    ensures { result ≡ one_of short.now long.now (drop at line.now) }
{
    if asking::word_stands(line, at, short) {
        return Some(short.len());
    }
    if asking::word_stands(line, at, long) {
        return Some(long.len());
    }
    None
}

// Has a number one to nine digits?
#[tactic(auto, unfolding(crate::specs::Question::is_number), using(std::proofs::lemmas::Bool::Decides::nat_tests))]
fn is_number(run: Run) -> bool
    ensures { result ≡ is_number run }
{
    (1..=9).contains(&run.count)
}

// The number of a film format at a place, and a space behind it.
fn format_at(line: &[u8], at: usize, o: Opening) -> Opening
    ensures { result ≡ format_at (drop at line.now) o at }
{
    let run = digits::run_at(line, at);
    if is_number(run) && asking::stands(line, at + run.count, b' ') {
        let options = Options {
            format: Some(run.value),
            ..o.options
        };
        return Opening {
            options,
            at: at + run.count + 1,
        };
    }
    o
}

// The film format, where its word stands behind the options and none was stated yet.
#[tactic(auto, unfolding(crate::specs::Question::format_in))]
fn format_in(line: &[u8], o: Opening) -> Opening
    ensures { result ≡ format_in (drop o.at line.now) o }
{
    match o.options.format {
        Some(_) => o,
        None => match one_of(line, o.at, b"-f ", b"--format ") {
            Some(n) => format_at(line, o.at + n, o),
            None => o,
        },
    }
}

// One option more, where one stands behind the others that has not stood yet.
#[tactic(auto, unfolding(crate::specs::Question::option_in))]
fn option(line: &[u8], o: Opening) -> Opening
    ensures { result ≡ option_of line.now o }
{
    if o.options.kind == Kind::Position {
        return format_in(line, o);
    }
    match one_of(line, o.at, b"-p ", b"--position ") {
        Some(n) => Opening {
            options: Options {
                kind: Kind::Position,
                ..o.options
            },
            at: o.at + n,
        },
        None => format_in(line, o),
    }
}

// The rate behind the options, and the text behind it.
fn rated(line: &[u8], o: Opening) -> Option<Question>
    ensures { result ≡ rated_of line.now o }
{
    let run = digits::run_at(line, o.at);
    if !is_number(run) {
        return None;
    }
    let next = o.at + run.count;
    let way = Way {
        options: o.options,
        rate: run.value,
    };
    if line.len() <= next {
        return Some(Question { way, text: None });
    }
    if asking::stands(line, next, b' ') {
        return Some(Question {
            way,
            text: Some(next + 1),
        });
    }
    None
}

// What a line asks, if it is a question.
#[tactic(auto, unfolding(crate::specs::Question::question_of))]
pub fn understand(line: &[u8]) -> Option<Question>
    ensures { result ≡ question_of line.now }
{
    let options = Options {
        kind: Kind::Length,
        format: None,
    };
    let none = Opening { options, at: 0 };
    rated(line, option(line, option(line, none)))
}
