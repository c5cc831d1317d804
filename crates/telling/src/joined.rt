// Words joined by single spaces, as a program's arguments are.
ghost use Rattle.std.specs.Prelude.{◌≡◌, ◌+◌, length};
ghost use Rattle.lent.specs.Line.{has_room};
ghost use Rattle.streams.specs.Pieces.{all_on};
ghost use Rattle.telling.specs.Joined.{word_pieces};

use streams::Page;

// A word more, and a space behind it; whether both had room.
pub fn join<P: Page>(sheet: &mut P, word: &[u8]) -> bool
    ensures whole { result ≡ has_room (length (P.seen sheet.old).bytes) (P.seen sheet.old).used (length word.now + 1) }
    ensures sheet { P.seen sheet.new ≡ all_on (P.seen sheet.old) (word_pieces word.now) }
{
    let whole = sheet.has_room(word.len() + 1);
    sheet.put_text(word);
    sheet.put_byte(b' ');
    whole
}
