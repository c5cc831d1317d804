// A directory that is tested once and asked many times. Only `tested` makes one, so what it holds was tested.
ghost use Rattle.std.specs.Prelude.{◌≡◌};
ghost use Rattle.router.specs.Halving.{found_in};
ghost use Rattle.router.specs.Tested.{kept_of, directory_of, verdict_of, routed_in};

use crate::{Shards, found, rules};
use answers::Refusal;

// A directory with its own copy of the shards' firsts and ends, and whether it keeps its rules.
#[derive(Clone, Copy)]
pub struct Directory {
    verdict: Result<(), Refusal>,
    rate: u64,
    shards: usize,
    firsts: [u64; 256],
    ends: [u64; 256],
}

// A copy of a list, up to 256 numbers; zeros behind them.
fn kept(xs: &[u64]) -> [u64; 256]
    ensures { result ≡ kept_of xs.now }
{
    let mut out = [0; 256];
    let n = xs.len().min(256);
    out[..n].copy_from_slice(&xs[..n]);
    out
}

// A directory of shards at a rate, tested and kept.
#[tactic(auto, unfolding(crate::specs::Tested::directory_of))]
pub fn tested(rate: u64, firsts: &[u64], ends: &[u64]) -> Directory
    ensures { result ≡ directory_of rate firsts.now ends.now }
{
    Directory {
        verdict: rules::check_directory(rate, firsts, ends),
        rate,
        shards: firsts.len(),
        firsts: kept(firsts),
        ends: kept(ends),
    }
}

// What the test of a directory gave. Refuses 6: no such rate; 16: it breaks a rule.
pub fn verdict(d: Directory) -> Result<(), Refusal>
    ensures { result ≡ verdict_of d }
{
    d.verdict
}

// The shards of a tested directory that a query asks: its rules are not tested again.
#[tactic(auto, unfolding(crate::specs::Tested::routed_in))]
pub fn route_tested(d: Directory, length: i64, text: &[u8]) -> Result<Shards, Refusal>
    ensures { result ≡ routed_in d length text.now }
{
    d.verdict?;
    let n = d.shards.min(256);
    found(d.rate, &d.firsts[..n], &d.ends[..n], length, text)
}
