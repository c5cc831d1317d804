// Commands that make a timecode or a number of numbers, by the row of each.
use crate::command::Command;
use answers::Refusal;
use asking::rows;
use showing::Shown;
use timecodes::{Kind, Timecode};

// A timecode made of other numbers: RATE COUNT, RATE TICKS or RATE P Q.
fn made(c: &Command) -> Result<Timecode, Refusal> {
    let n = c.numbers;
    let kind = Kind::from(n.at1);
    match c.row {
        rows::COUNT => time::with_frames(n.n2, n.up1, kind),
        rows::FROM_TICKS => time::with_premiere_ticks(n.n2, n.up1, kind),
        _ => time::with_seconds(n.n2, n.up3, n.up1, kind),
    }
}

// RATE COUNT, and for `rebase` another RATE.
fn changed(c: &Command) -> Result<Timecode, Refusal> {
    match c.row {
        rows::NEG => arithmetic::neg(c.tc),
        rows::ABS => arithmetic::abs(c.tc),
        _ => arithmetic::rebase(c.tc, c.numbers.up3),
    }
}

// The third and the fourth number: RATE COUNT.
fn other(c: &Command) -> Timecode {
    let n = c.numbers;
    timecodes::new(n.n4, n.up3, Kind::from(n.at3))
}

// RATE COUNT P Q or RATE COUNT N.
fn scaled(c: &Command) -> Result<Timecode, Refusal> {
    let n = c.numbers;
    match c.row {
        rows::MUL => arithmetic::mul(c.tc, n.n3, n.up4),
        rows::DIV => arithmetic::div(c.tc, n.n3),
        rows::REM => arithmetic::rem(c.tc, n.n3),
        rows::DIVQ => arithmetic::divq(c.tc, n.n3, n.up4),
        _ => arithmetic::remq(c.tc, n.n3, n.up4),
    }
}

// A command whose answer is a timecode.
fn timecode_of(c: &Command) -> Result<Timecode, Refusal> {
    match c.row {
        rows::COUNT | rows::FROM_TICKS | rows::FROM_SECONDS => made(c),
        rows::NEG | rows::ABS | rows::REBASE => changed(c),
        rows::ADD => arithmetic::add(c.tc, other(c)),
        rows::SUB => arithmetic::sub(c.tc, other(c)),
        _ => scaled(c),
    }
}

// By the command's row.
pub(crate) fn shown(c: &Command) -> Shown {
    match c.row {
        rows::MINUTE => showing::of_number(minutes::minute_start(c.numbers.up1)),
        rows::TICKS => showing::of_number(time::premiere_ticks(c.tc)),
        rows::SECONDS => showing::of_timed(time::seconds(c.tc)),
        rows::CMP => showing::of_number(arithmetic::cmp(c.tc, other(c))),
        _ => showing::of_answer(timecode_of(c)),
    }
}
