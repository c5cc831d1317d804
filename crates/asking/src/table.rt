// The table of commands: a word, filled up with spaces to 16 bytes, and a letter for each word behind it, filled up to 8: `@` the rate
// of a timecode, which may have the mark `@`, `r` a rate that has no mark, `n` any number, `f` a film format, any number, or `-` where
// none is stated, `p` a place (from 0 on), `m` a room (0 to 128), `w` a wide room (0 to 1024), `s` a word of shards; last `t` for a
// text, the rest of the line, or `*` for a rest that the command takes apart itself.
ghost use Rattle.std.specs.Prelude.{SomeIff, ◌≡◌, true, ◌*◌, ◌<◌, get_or};
ghost use Rattle.asking.specs.Table.{is_plain, row_count, table_bytes, is_named, row_named, kind_of};

use crate::rows;

// A row a command.
const TABLE: [u8; 24 * rows::ROWS] = *b"\
    help                    \
    read            @t      \
    read_as         n@t     \
    read_runtime    @t      \
    label           @npm    \
    footage         n@npm   \
    runtime         @nnpm   \
    count           @n      \
    from_ticks      @n      \
    from_seconds    @nn     \
    minute          n       \
    ticks           @n      \
    seconds         @n      \
    neg             @n      \
    abs             @n      \
    rebase          @nr     \
    add             @n@n    \
    sub             @n@n    \
    cmp             @n@n    \
    mul             @nnn    \
    div             @nn     \
    rem             @nn     \
    divq            @nnn    \
    remq            @nnn    \
    convert         @n*     \
    read_list       t       \
    write_list      pw*     \
    why             @fpmt   \
    route           rsnt    ";

// A byte of the table. Asks that it has it.
fn byte_at(i: usize) -> u8
    requires { i < 24 * row_count }
    ensures { result ≡ get_or table_bytes i 0 }
{
    TABLE[i]
}

// Is this the word of a row? Asks a word that has no space, and a row.
fn is_named(word: &[u8], row: usize) -> bool
    requires word { is_plain word.now ≡ true }
    requires row { row < row_count }
    ensures { result ≡ is_named row word.now }
{
    if word.len() > 15 {
        return false;
    }
    for (i, b) in word.iter().enumerate() {
        if *b != byte_at(24 * row + i) {
            return false;
        }
    }
    byte_at(24 * row + word.len()) == b' '
}

// Which row has a word, where one has. Asks a word that has no space.
pub(crate) fn row_named(word: &[u8]) -> Option<usize>
    requires { is_plain word.now ≡ true }
    ensures { SomeIff result (row_named word.now < row_count) (row_named word.now) }
{
    for row in 0..rows::ROWS {
        if is_named(word, row) {
            return Some(row);
        }
    }
    None
}

// The letter of the k-th word behind a command's. Asks a row, and one of its letters.
pub(crate) fn kind_of(row: usize, k: usize) -> u8
    requires row { row < row_count }
    requires letter { k < 8 }
    ensures { result ≡ kind_of row k }
{
    byte_at(24 * row + 16 + k)
}
