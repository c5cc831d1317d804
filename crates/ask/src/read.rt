// Commands that read a text: the rest of the line, any bytes.
use crate::command::Command;
use asking::rows;
use showing::Shown;
use timecodes::Kind;

// RATE TEXT, FORMAT RATE TEXT, or RATE TEXT for a runtime: as a position where the rate has its mark.
pub(crate) fn shown(c: &Command) -> Option<Shown> {
    let n = c.numbers;
    let text = c.text()?;
    let first = Kind::from(n.at1);
    let second = Kind::from(n.at2);
    Some(match c.row {
        rows::READ => showing::of_read(reading::read_text(text, None, n.up1, first)),
        rows::READ_AS => showing::of_read(reading::read_text(text, Some(n.up1), n.up2, second)),
        _ => showing::of_answer(runtime_reading::read_runtime(text, n.up1, first)),
    })
}
