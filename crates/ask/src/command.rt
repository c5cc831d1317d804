// A command: what a line asks, and the answer to it by the row of asking's table.
use crate::{lists, read, work, write};
use asking::{Listed, Numbers, rows};
use showing::Shown;
use streams::Sheet;
use timecodes::{Kind, Timecode};

// The row of a command, its numbers, the timecode that the first two are in most commands (RATE COUNT, a position where the rate has its
// mark), and the line with the place where its rest begins.
#[derive(Clone, Copy)]
pub(crate) struct Command<'a> {
    pub(crate) row: usize,
    pub(crate) numbers: Numbers,
    pub(crate) tc: Timecode,
    pub(crate) line: &'a [u8],
    pub(crate) rest: usize,
}

impl<'a> Command<'a> {
    // What a line asks.
    fn of(line: &'a [u8]) -> Command<'a> {
        let asked = asking::understand(line);
        let n = asking::numbers_of(asked.values);
        Command {
            row: asked.row,
            numbers: n,
            tc: timecodes::new(n.n2, n.up1, Kind::from(n.at1)),
            line,
            rest: asked.rest,
        }
    }

    // The rest of the line as a text.
    pub(crate) fn text(&self) -> Option<&'a [u8]> {
        self.line.get(self.rest..)
    }
}

// How many are listed, where all of them are.
pub(crate) fn whole(listed: Listed) -> Option<usize> {
    listed.all.then_some(listed.count)
}

// What is shown of a command that writes no line of its own.
fn shown(c: &Command) -> Option<Shown> {
    match c.row {
        rows::HELP => Some(Shown::Help),
        rows::READ | rows::READ_AS | rows::READ_RUNTIME => read::shown(c),
        rows::COUNT..=rows::REMQ => Some(work::shown(c)),
        rows::CONVERT => lists::converted(c),
        _ => None,
    }
}

// The answer to a command as a line; none, and nothing changes, where it is not understood.
#[inline(always)]
fn put_answer(c: &Command, sheet: &mut Sheet<65536>) -> Option<()> {
    match c.row {
        rows::LABEL | rows::FOOTAGE | rows::RUNTIME => write::put_written(c, sheet),
        rows::READ_LIST => lists::put_list(c, sheet)?,
        rows::WRITE_LIST => lists::put_written(c, sheet)?,
        rows::WHY => write::put_why(c, sheet)?,
        rows::ROUTE => lists::put_routed(c, sheet)?,
        _ => showing::show(sheet, shown(c)?),
    }
    Some(())
}

// The answer to a line that was kept whole.
pub(crate) fn answer(line: &[u8], sheet: &mut Sheet<65536>) {
    if put_answer(&Command::of(line), sheet).is_none() {
        showing::show(sheet, Shown::NotUnderstood);
    }
}
