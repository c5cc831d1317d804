// A directory as the lines of its file come: first the rate and the reel, then a shard a line. The shards' frames are the caller's to keep.
ghost use Rattle.std.specs.Prelude.{◌≡◌};
ghost use Rattle.routing.specs.Loading.{no_line, head_of, shard_at, numbers_of, load_of};

use crate::entries;
use crate::entries::Pair;

// The rate and the reel.
#[derive(Clone, Copy)]
pub struct Head {
    pub rate: u64,
    pub reel: u64,
}

// What has come: the rate and the reel; how many shards, and where the last of them ends.
#[derive(Clone, Copy)]
pub struct Loading {
    pub head: Option<Head>,
    pub shards: usize,
    pub last: u64,
}

// What is wrong with a line.
#[derive(Clone, Copy)]
pub enum Flaw {
    TooLong,
    NotTwoNumbers,
    NoSuchRate,
    NoSuchReel,
    ManyShards,
    EmptyShard,
    EarlyShard,
    PastDay,
}

// What came of a line: nothing; the rate and the reel; or a shard's first frame and end.
#[derive(Clone, Copy)]
pub enum Loaded {
    Skipped,
    Head(Loading),
    Shard(u64, u64, Loading),
}

impl Loading {
    // No line yet.
    pub fn new() -> Loading
        ensures { result ≡ no_line }
    {
        Loading {
            head: None,
            shards: 0,
            last: 0,
        }
    }
}

// The line of rate and reel.
#[tactic(auto, unfolding(crate::specs::Loading::head_of), using(std::proofs::lemmas::Bool::Decides::nat_tests))]
fn rate_and_reel(rate: u64, reel: u64) -> Result<Loaded, Flaw>
    ensures { result ≡ head_of rate reel }
{
    if !rates::is_rate(rate) {
        return Err(Flaw::NoSuchRate);
    }
    if reel > 4_294_967_295 {
        return Err(Flaw::NoSuchReel);
    }
    Ok(Loaded::Head(Loading {
        head: Some(Head { rate, reel }),
        ..Loading::new()
    }))
}

// The line of a shard, at the rate that has come.
#[tactic(auto, unfolding(crate::specs::Loading::shard_at), using(std::proofs::lemmas::Bool::Decides::nat_tests))]
fn shard(state: Loading, rate: u64, first: u64, end: u64) -> Result<Loaded, Flaw>
    ensures { result ≡ shard_at rate state first end }
{
    if state.shards >= 256 {
        return Err(Flaw::ManyShards);
    }
    if end <= first {
        return Err(Flaw::EmptyShard);
    }
    if first < state.last {
        return Err(Flaw::EarlyShard);
    }
    if rates::day(rate) < end {
        return Err(Flaw::PastDay);
    }
    Ok(Loaded::Shard(
        first,
        end,
        Loading {
            shards: state.shards + 1,
            last: end,
            ..state
        },
    ))
}

// The two numbers of a line: rate and reel where they have not come yet, else a shard's first frame and end.
fn two_numbers(state: Loading, pair: Pair) -> Result<Loaded, Flaw>
    ensures { result ≡ numbers_of state pair.first pair.second }
{
    match state.head {
        Some(h) => shard(state, h.rate, pair.first, pair.second),
        None => rate_and_reel(pair.first, pair.second),
    }
}

// What comes of a line; `over` where it has more bytes than are kept.
#[tactic(auto, unfolding(crate::specs::Loading::load_of))]
pub fn load(state: Loading, line: &[u8], over: bool) -> Result<Loaded, Flaw>
    ensures { result ≡ load_of state line.now over }
{
    if over {
        return Err(Flaw::TooLong);
    }
    match entries::entry_of(line)? {
        None => Ok(Loaded::Skipped),
        Some(pair) => two_numbers(state, pair),
    }
}
