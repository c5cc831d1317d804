// Texts put on a sheet: a text as it is shown, and a caret.
ghost use Rattle.std.specs.Prelude.{◌≡◌};
ghost use Rattle.streams.specs.Pieces.{all_on};
ghost use Rattle.telling.specs.Shown.{shown_byte, shown_pieces, caret_pieces};

use streams::Page;

// A byte as it is shown: printable ASCII as it is, any other as `?`.
#[tactic(auto, unfolding(crate::specs::Shown::shown_byte), using(std::proofs::lemmas::Bool::Decides::nat_tests))]
fn shown(b: u8) -> u8
    ensures { result ≡ shown_byte b }
{
    match b {
        b' '..=b'~' => b,
        _ => b'?',
    }
}

// A text as a line.
pub(crate) fn put_shown<P: Page>(sheet: &mut P, text: &[u8])
    ensures { P.seen sheet.new ≡ all_on (P.seen sheet.old) (shown_pieces text.now) }
{
    for b in text {
        sheet.put_byte(shown(*b));
    }
    sheet.put_byte(b'\n');
}

// A line with `^` under a place.
pub(crate) fn put_caret<P: Page>(sheet: &mut P, place: usize)
    ensures { P.seen sheet.new ≡ all_on (P.seen sheet.old) (caret_pieces place) }
{
    for _ in 0..place {
        sheet.put_byte(b' ');
    }
    sheet.put_text(b"^\n");
}
