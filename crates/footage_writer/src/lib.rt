// The footage of a timecode in a film format, its text laid into the caller's line. Refuses 6, 5 and, where the text has no room, 8.
#![tactic(auto)]

ghost use Rattle.std.specs.Prelude.{◌≡◌, length};
ghost use Rattle.lent.specs.Line.{laid};
ghost use Rattle.written.specs.Written.{answer_to, line_to};
ghost use Rattle.footage_writer.specs.FootageText.{perf_text, feet_text, footage_draft};

use answers::Refusal;
use film::{FilmFormat, Footage};
use timecodes::Timecode;
use written::Writable;

// A footage in a film format, as it is written: behind its sign.
#[derive(Clone, Copy)]
struct FootageText {
    negative: bool,
    format: FilmFormat,
    footage: Footage,
}

// The footage of a timecode, laid down from `place` on (vtc's `feet_and_frames`): its length, and every byte of the line afterwards.
// Refuses 6: no such film format, or no such rate; 5: a count out of its bounds; 8: place plus text length exceeds the line's length.
#[tactic(auto, unfolding(crate::specs::FootageText::footage_draft, crate::specs::FootageText::footage_text, film::specs::Film::format_at, written::specs::Written::answer_to, written::specs::Written::line_to))]
pub fn write_footage(
    tc: Timecode,
    format: u64,
    line: &mut [u8],
    place: usize,
) -> Result<usize, Refusal>
    ensures answer { result ≡ answer_to line.old place (footage_draft tc format) }
    ensures line { line.new ≡ line_to line.old place (footage_draft tc format) }
{
    let format = FilmFormat::try_from(format)?;
    timecodes::admit(tc)?;
    let text = FootageText {
        negative: tc.count < 0,
        format,
        footage: film::feet_and_frames(format, tc.count.unsigned_abs()),
    };
    written::write(&text, line, place)
}

impl Writable for FootageText {
    ghost text = { λ t. feet_text t.negative t.format t.footage };

    // How many bytes feet, frames and marker have.
    fn length(&self) -> usize {
        written::signed_length(self.negative, self.footage.feet)
            + written::field_length(self.footage.frames)
            + marker_length(self.format, self.footage.perf)
    }

    // Feet, frames and marker at the front of a part; every other byte stays.
    fn put(&self, part: &mut [u8]) {
        let first = written::signed_length(self.negative, self.footage.feet);
        let second = first + written::field_length(self.footage.frames);
        written::put_signed(part, self.negative, self.footage.feet);
        written::put_field(&mut part[first..], b'+', self.footage.frames);
        put_marker(&mut part[second..], self.format, self.footage.perf);
    }
}

// How many bytes the marker has: `.` and its digits in a format that has one.
fn marker_length(format: FilmFormat, perf: u64) -> usize
    ensures { result ≡ length (perf_text format perf) }
{
    if format.allows_perf_field() {
        return digits::width_of(1, perf) + 1;
    }
    0
}

// The marker at the front of a part, in a format that has one; every other byte stays. Where it has no room nothing changes.
fn put_marker(part: &mut [u8], format: FilmFormat, perf: u64)
    ensures { part.new ≡ laid part.old (perf_text format perf) }
{
    if format.allows_perf_field() {
        written::put_marked(part, b'.', digits::width_of(1, perf), perf);
    }
}
