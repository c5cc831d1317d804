// A line that is a query: a length in frames, one space, and the label.
ghost use Rattle.std.specs.Prelude.{◌≡◌};
ghost use Rattle.routing.specs.Queries.{query_of};

// A length, and the place where the label begins.
#[derive(Clone, Copy)]
pub struct Query {
    pub length: i64,
    pub label: usize,
}

// What a line asks.
#[tactic(auto, unfolding(crate::specs::Queries::query_of, crate::specs::Queries::asked_at))]
pub fn query_of(line: &[u8]) -> Option<Query>
    ensures { result ≡ query_of line.now }
{
    let word = asking::signed_at(line, 0)?;
    if asking::stands(line, word.next, b' ') {
        return Some(Query {
            length: word.number,
            label: word.next + 1,
        });
    }
    None
}
