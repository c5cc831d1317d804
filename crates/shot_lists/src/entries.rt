// The record at a place, for whatever a list is made of: one walk for bytes and for numbers.
ghost use Rattle.std.specs.Prelude.{ℕ, ◌≡◌, ◌≤◌, length, drop, Err};
ghost use Rattle.answers.specs.declared.Refusal.{Refusal};
ghost use Rattle.shot_lists.specs.declared.records.RecordKind.{RecordKind};
ghost use Rattle.shot_lists.specs.Entries.{Layout, kind_number, kind_of, entry_of};

use crate::records;
use crate::records::{Record, RecordKind, Taken};
use answers::{Cause, Refusal};

// What a list is made of, and how records stand in it: an element that says the kind, and a body whose length the kind fixes.
pub(crate) trait Element {
    ghost layout: { Layout Self };

    // The number of the kind that this element says.
    fn kind(&self) -> u64
        ensures { result ≡ layout.kind self.now };

    // The length of the body of a kind.
    fn body(kind: RecordKind) -> usize
        ensures { result ≡ layout.body (kind_number kind) };

    // The record of a kind, by what stands from its body on. Asks the whole body.
    fn record(kind: RecordKind, rest: &[Self]) -> Record
        requires { layout.body (kind_number kind) ≤ length rest.now }
        ensures { result ≡ layout.made (kind_number kind) rest.now };

    ghost known: { (k : RecordKind) → layout.body (kind_number k) ≡ 0 → ⊥ };

    ghost unknown: { (n : ℕ) (e : Refusal) → kind_of n ≡ Err e → layout.body n ≡ 0 };
}

// The record at a place of a list, given the rate held (any number that is no rate: none is).
pub(crate) fn entry_at<T: Element>(
    list: &[T],
    at: usize,
    held: u64,
) -> Result<Option<Taken>, Refusal>
    ensures { result ≡ entry_of T.layout held (drop at list.now) }
{
    let Some(head) = list.get(at) else {
        return Ok(None);
    };
    let kind = RecordKind::try_from(head.kind())?;
    let body = T::body(kind);
    let rest = &list[at + 1..];
    if rest.len() < body {
        return Err(Cause::CutShort.into());
    }
    records::rule(held, T::record(kind, rest), body + 1)
}
