// A directory's rules, tested: as many firsts as ends, at most 256, none empty, in rising order without overlap, none past the day.
ghost use Rattle.std.specs.Prelude.{◌≡◌};
ghost use Rattle.answers.specs.Order.{judged};
ghost use Rattle.router.specs.Directory.{in_order, is_directory, directory_when};

use answers::{Cause, Refusal};

// A directory has at most so many shards.
pub(crate) const MOST_SHARDS: usize = 256;

// As many firsts as ends, none empty, each at or after the end before it, none past the day.
#[tactic(auto, using(crate::specs::RuleLaws::uneven), unfolding(crate::specs::Directory::in_order))]
fn in_order(day: u64, firsts: &[u64], ends: &[u64]) -> bool
    ensures { result ≡ in_order day 0 firsts.now ends.now }
{
    if firsts.len() != ends.len() {
        return false;
    }
    let mut low = 0;
    for (&first, &end) in firsts.iter().zip(ends) {
        if first < low || end <= first || day < end {
            return false;
        }
        low = end;
    }
    true
}

// Does a directory keep its rules?
#[tactic(auto, unfolding(crate::specs::Directory::is_directory))]
fn is_directory(day: u64, firsts: &[u64], ends: &[u64]) -> bool
    ensures { result ≡ is_directory day firsts.now ends.now }
{
    firsts.len() <= MOST_SHARDS && in_order(day, firsts, ends)
}

// A directory of shards at a rate, tested. Refuses 6: no such rate; 16: it breaks a rule.
pub fn check_directory(rate: u64, firsts: &[u64], ends: &[u64]) -> Result<(), Refusal>
    ensures { result ≡ judged (directory_when rate firsts.now ends.now) }
{
    if !rates::is_rate(rate) {
        return Err(Cause::NoSuch.into());
    }
    if !is_directory(rates::day(rate), firsts, ends) {
        return Err(Cause::BrokenDirectory.into());
    }
    Ok(())
}
