// A length carried through any list of rates, the nearest frame taken at each in turn. Refuses 6: a number that is no rate; then 15: a
// position; then 5: a count outside its bounds, at the start or after any step.
#![tactic(auto)]

ghost use Rattle.std.specs.Prelude.{◌≡◌, true};
ghost use Rattle.laws.specs.Every.{every};
ghost use Rattle.rates.specs.Rates.{is_rate};
ghost use Rattle.timecodes.specs.declared.kinds.Kind.TheVariants.{Length};
ghost use Rattle.timecodes.specs.Admitted.{Valid};
ghost use Rattle.chains.specs.Chain.{step_of, carried, convert_of};

use answers::{Cause, Refusal};
use timecodes::Timecode;

// Whether every listed number is a rate.
fn all_rates(list: &[u64]) -> bool
    ensures { result ≡ every is_rate list.now }
{
    list.iter().all(|&no| rates::is_rate(no))
}

// One step: the nearest frame at the next rate. Refuses 5: the count after it is outside its bounds. Asks that the start is valid.
fn step(tc: Timecode, next: u64) -> Result<Timecode, Refusal>
    requires { Valid tc }
    ensures { result ≡ step_of tc next }
{
    let ticks = timecodes::instant_of(tc);
    let row = rates::row(next);
    timecodes::moved(tc, answers::nearest_count(ticks, row.ticks), next)
}

// The steps in turn. Asks that the start is valid and a length, and that all listed numbers are rates.
fn carry(tc: Timecode, list: &[u64]) -> Result<Timecode, Refusal>
    requires valid { Valid tc }
    requires length { tc.kind ≡ Length }
    requires rates { every is_rate list.now ≡ true }
    ensures { result ≡ carried tc list.now }
{
    let mut at = tc;
    for &next in list {
        at = step(at, next)?;
    }
    Ok(at)
}

// The timecode through a list of rates, the nearest frame at each in turn; an empty list gives it back. Refuses 6: its own rate or
// any listed number is no rate; 15: it is a position; then 5: its own count, or that after any step, is outside its bounds.
pub fn convert(tc: Timecode, list: &[u64]) -> Result<Timecode, Refusal>
    ensures { result ≡ convert_of tc list.now }
{
    if !all_rates(list) {
        return Err(Cause::NoSuch.into());
    }
    timecodes::admit_length(tc)?;
    carry(tc, list)
}
