// A record of a shot list, its kind, and what speaks against its numbers where a rate is held.
ghost use Rattle.std.specs.Prelude.{◌≡◌};
ghost use Rattle.answers.specs.Order.{judged};
ghost use Rattle.shot_lists.specs.Records.{held_after, shot_faults, faults};
ghost use Rattle.shot_lists.specs.Entries.{kind_of, ruled};

use answers::{Cause, Refusal};

// A rate, which holds until the next one; a shot's first and end frames, the end not included; a reel.
#[derive(Clone, Copy)]
pub enum Record {
    Rate(u64),
    Shot { first: i64, end: i64 },
    Reel(u64),
}

// The kind of a record, which stands in front of its body.
#[derive(Clone, Copy, PartialEq, Eq)]
pub enum RecordKind {
    Rate = 1,
    Shot = 2,
    Reel = 3,
}

// A record that is there, the rate that is held behind it, and how far it goes.
#[derive(Clone, Copy)]
pub struct Taken {
    pub found: Record,
    pub held: u64,
    pub size: usize,
}

impl TryFrom<u64> for RecordKind {
    type Error = Refusal;

    ghost try_from_gives = { λ no made. made ≡ kind_of no };

    // The kind of a number. Refuses 9: no such kind.
    #[tactic(auto, unfolding(crate::specs::Entries::kind_of))]
    fn try_from(no: u64) -> Result<RecordKind, Refusal> {
        match no {
            1 => Ok(RecordKind::Rate),
            2 => Ok(RecordKind::Shot),
            3 => Ok(RecordKind::Reel),
            _ => Err(Cause::NoSuchKind.into()),
        }
    }
}

// Refuses 5: a frame out of the counts' bounds; 11: no rate is held; 12: the end lies before the first frame.
fn shot_fault(held: u64, first: i64, end: i64) -> Result<(), Refusal>
    ensures { result ≡ judged (shot_faults held first end) }
{
    if !answers::is_count(first) || !answers::is_count(end) {
        return Err(Cause::OutOfBounds.into());
    }
    if !rates::is_rate(held) {
        return Err(Cause::NoRateYet.into());
    }
    if end < first {
        return Err(Cause::EndBeforeFirst.into());
    }
    Ok(())
}

// What speaks against a record's numbers where a rate is held. Refuses 6: no such rate; what a shot is refused; 5: a reel that is no
// unsigned 32-bit number.
#[tactic(auto, unfolding(crate::specs::Records::faults))]
fn fault(held: u64, found: Record) -> Result<(), Refusal>
    ensures { result ≡ judged (faults held found) }
{
    match found {
        Record::Rate(n) if !rates::is_rate(n) => Err(Cause::NoSuch.into()),
        Record::Shot { first, end } => shot_fault(held, first, end),
        Record::Reel(n) if n > u32::MAX as u64 => Err(Cause::OutOfBounds.into()),
        Record::Rate(_) | Record::Reel(_) => Ok(()),
    }
}

// The rate that is held behind a record.
fn held_after(held: u64, found: Record) -> u64
    ensures { result ≡ held_after held found }
{
    match found {
        Record::Rate(n) => n,
        Record::Shot { .. } | Record::Reel(_) => held,
    }
}

// The record, where nothing speaks against its numbers.
#[tactic(auto, unfolding(crate::specs::Entries::ruled))]
pub(crate) fn rule(held: u64, found: Record, size: usize) -> Result<Option<Taken>, Refusal>
    ensures { result ≡ ruled held found size }
{
    fault(held, found)?;
    Ok(Some(Taken {
        found,
        held: held_after(held, found),
        size,
    }))
}
