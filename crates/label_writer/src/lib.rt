// The label of a timecode: its sections, and its text laid into the caller's line. Refuses 6, 5 and, where the text has no room, 8.
#![tactic(auto)]

ghost use Rattle.std.specs.Prelude.{◌≡◌};
ghost use Rattle.lent.specs.Line.{laid};
ghost use Rattle.timecodes.specs.Admitted.{Valid};
ghost use Rattle.written.specs.Written.{answer_to, line_to};
ghost use Rattle.label_writer.specs.Sections.{label_sections, sectioned};
ghost use Rattle.label_writer.specs.LabelText.{frames_mark, sections_text, sections_length, label_draft};

use answers::Refusal;
use timecodes::Timecode;
use written::Writable;

// The fields of a label: minutes and seconds under 60, frames under the timebase; hours run on past 23.
#[derive(Clone, Copy)]
pub struct TimecodeSections {
    pub negative: bool,
    pub hours: u64,
    pub minutes: u64,
    pub seconds: u64,
    pub frames: u64,
}

// The label of sections at a rate, as it is written.
#[derive(Clone, Copy)]
pub struct Label {
    pub sections: TimecodeSections,
    pub rate: u64,
}

// The sections of a timecode's label (vtc's `sections`). Refuses 6: no such rate; 5: a count out of its bounds.
#[tactic(auto, unfolding(crate::specs::Sections::sectioned))]
pub fn sections(tc: Timecode) -> Result<TimecodeSections, Refusal>
    ensures { result ≡ sectioned tc }
{
    timecodes::admit(tc)?;
    Ok(label_sections(tc))
}

// The sections of the label. Asks a timecode that is admitted.
fn label_sections(tc: Timecode) -> TimecodeSections
    requires { Valid tc }
    ensures { result ≡ label_sections tc.rate tc.count }
{
    let [hours, minutes, seconds, frames] = labels::sections(tc.count.unsigned_abs(), tc.rate);
    TimecodeSections {
        negative: tc.count < 0,
        hours,
        minutes,
        seconds,
        frames,
    }
}

// The label of a timecode, laid down from `place` on (vtc's `timecode`): its length, and every byte of the line afterwards.
// Refuses 6: no such rate; 5: a count out of its bounds; 8: place plus text length exceeds the line's length.
#[tactic(auto, unfolding(crate::specs::LabelText::label_draft, crate::specs::LabelText::label_text, written::specs::Written::answer_to, written::specs::Written::line_to))]
pub fn write_label(tc: Timecode, line: &mut [u8], place: usize) -> Result<usize, Refusal>
    ensures answer { result ≡ answer_to line.old place (label_draft tc) }
    ensures line { line.new ≡ line_to line.old place (label_draft tc) }
{
    timecodes::admit(tc)?;
    let label = Label {
        sections: label_sections(tc),
        rate: tc.rate,
    };
    written::write(&label, line, place)
}

impl Writable for Label {
    ghost text = { λ label. sections_text (frames_mark label.rate) label.sections };

    fn length(&self) -> usize {
        sections_length(self.sections)
    }

    fn put(&self, part: &mut [u8]) {
        put_sections(part, self.sections, self.rate);
    }
}

// How many bytes the text of sections has.
#[inline(always)]
pub fn sections_length(s: TimecodeSections) -> usize
    ensures { result ≡ sections_length s }
{
    written::clock_length(s.negative, s.hours, s.minutes, s.seconds)
        + written::field_length(s.frames)
}

// Sign and fields at the front of a part, with the mark of a rate before frames; every other byte stays. Where they have no room nothing
// changes.
pub fn put_sections(part: &mut [u8], s: TimecodeSections, rate: u64)
    ensures { part.new ≡ laid part.old (sections_text (frames_mark rate) s) }
{
    if sections_length(s) <= part.len() {
        let at = written::clock_length(s.negative, s.hours, s.minutes, s.seconds);
        written::put_clock(part, s.negative, s.hours, s.minutes, s.seconds);
        written::put_field(&mut part[at..], frames_mark(rate), s.frames);
    }
}

// What stands before frames: ';' at the drop rates, else ':'.
fn frames_mark(rate: u64) -> u8
    ensures { result ≡ frames_mark rate }
{
    if rates::is_drop(rate) { b';' } else { b':' }
}
