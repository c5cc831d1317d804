// Commands over lists: bytes as HEX, records, rates and shards as words. A line has 8192 bytes at most: that is under 4096 bytes of HEX, under
// 2731 numbers of records, since a record has three bytes of the line for each of its numbers at least, and at most 2048 shards.
use crate::command;
use crate::command::Command;
use hex_bytes::Hex;
use showing::Shown;
use streams::Sheet;

// RATE COUNT, and rates, none or more, up to 64: the timecode through them.
pub(crate) fn converted(c: &Command) -> Option<Shown> {
    let mut list = [0; 64];
    let n = command::whole(asking::rates(c.line, c.rest, &mut list))?;
    Some(showing::of_converted(chains::convert(c.tc, list.get(..n)?)))
}

// HEX: the records of the list.
pub(crate) fn put_list(c: &Command, sheet: &mut Sheet<65536>) -> Option<()> {
    let mut bytes = [0; 4096];
    let n = hex_bytes::read(c.text()?, &mut bytes)?;
    showing::show_list(sheet, bytes.get(..n)?);
    Some(())
}

// PLACE ROOM, and records: the list, written into a line of ROOM bytes, each `#` before, from PLACE on, and the whole line.
pub(crate) fn put_written(c: &Command, sheet: &mut Sheet<65536>) -> Option<()> {
    let mut given = [0; 2800];
    let count = command::whole(asking::records(c.line, c.rest, &mut given))?;
    let room = c.numbers.up2.min(1024) as usize;
    let mut line = [b'#'; 1024];
    let part = &mut line[..room];
    let w = shot_writer::write_list(given.get(..count)?, part, c.numbers.up1 as usize);
    showing::show_written(sheet, w, &Hex { bytes: part });
    Some(())
}

// RATE, SHARDS, LENGTH and a text: the shards of the directory that the query asks.
pub(crate) fn put_routed(c: &Command, sheet: &mut Sheet<65536>) -> Option<()> {
    let n = c.numbers;
    let mut firsts = [0; 2048];
    let mut ends = [0; 2048];
    let k = command::whole(asking::shards(c.line, n.up2 as usize, &mut firsts, &mut ends))?;
    let found = router::route(n.up1, firsts.get(..k)?, ends.get(..k)?, n.n3, c.text()?);
    showing::show_routed(sheet, found);
    Some(())
}
