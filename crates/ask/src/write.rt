// Commands that write a text into a line of ROOM bytes, each `#` before, from PLACE on, and show the whole line.
use crate::command::Command;
use answers::Refusal;
use asking::rows;
use streams::Sheet;
use timecodes::Kind;

// RATE COUNT PLACE, FORMAT RATE COUNT PLACE, RATE COUNT PRECISION PLACE: the text, laid into the line.
fn laid(c: &Command, line: &mut [u8]) -> Result<usize, Refusal> {
    let n = c.numbers;
    match c.row {
        rows::LABEL => label_writer::write_label(c.tc, line, n.up3 as usize),
        rows::FOOTAGE => {
            let tc = timecodes::new(n.n3, n.up2, Kind::from(n.at2));
            footage_writer::write_footage(tc, n.up1, line, n.up4 as usize)
        }
        _ => runtime_writer::write_runtime(c.tc, n.up3, line, n.up4 as usize),
    }
}

// The answer as a line. ROOM is the last number.
pub(crate) fn put_written(c: &Command, sheet: &mut Sheet<65536>) {
    let n = c.numbers;
    let asked = if c.row == rows::LABEL { n.up4 } else { n.up5 };
    let room = asked.min(128) as usize;
    let mut line = [b'#'; 128];
    let w = laid(c, &mut line[..room]);
    let part = &line[..room];
    showing::show_written(sheet, w, &part);
}

// RATE FORMAT PLACE ROOM TEXT, as a position where the rate has its mark, and with no film format where it is `-`: the reader's answer, the
// fact behind it, and its phrase, laid into the line.
pub(crate) fn put_why(c: &Command, sheet: &mut Sheet<65536>) -> Option<()> {
    let n = c.numbers;
    let text = c.text()?;
    let stated = (!n.at2).then_some(n.up2);
    let room = n.up4.min(128) as usize;
    let mut line = [b'#'; 128];
    let part = &mut line[..room];
    let w = reasons::why(text, stated, n.up1, Kind::from(n.at1), part, n.up3 as usize);
    showing::show_why(sheet, w, n.up1, part);
    Some(())
}
