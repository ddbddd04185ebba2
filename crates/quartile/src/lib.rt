// The quartiles of the used counters, and how many of these are not 0 (generate.rs).
//
// The quartiles of N counters are the values at places N/4-1, N/2-1 and 3N/4-1 of the counters in rising order. Only the values
// matter, so nothing is sorted and nothing is moved, and the counters are only read. The value at place k is the least number that
// more than k of the counters do not exceed. It is found by bisection between 0 and the largest counter, and each probe counts how
// many counters are at or below it.
//
// A probe counts in u32, the width of the counters: then as many are counted at once as are compared. A slice may have more elements
// than a u32 can count, so it is counted in blocks. The counters of every variant are one block.
#![tactic(auto)]

ghost use Rattle.std.specs.Prelude.{◌≡◌, ◌≤◌, length};
ghost use Rattle.quartile.specs.Counts.{count_le, non_zero, largest};
ghost use Rattle.quartile.specs.Quartile.{place, quartiles, answered};

use params::{Refusal, Variant};

// The most that a u32 can count.
const BLOCK: usize = u32::MAX as usize;

/// The three quartiles.
#[derive(Clone, Copy, Debug, PartialEq, Eq)]
pub struct Quartiles {
    pub q1: u32,
    pub q2: u32,
    pub q3: u32,
}

// How many counters of a block are at most v.
#[tactic(auto, using(crate::proofs::Laws::count_sum))]
fn count_block(block: &[u32], v: u32) -> u32
    requires { length block.now ≤ BLOCK }
    ensures { result ≡ count_le v block.now }
{
    block.iter().map(|&x| u32::from(x <= v)).sum()
}

/// How many of the counters are at most v.
pub fn count_le(used: &[u32], v: u32) -> usize
    ensures { result ≡ count_le v used.now }
{
    let mut n: usize = 0;
    for block in used.chunks(BLOCK) {
        n += count_block(block, v) as usize;
    }
    n
}

/// How many of the counters are not 0.
#[tactic(auto, using(crate::proofs::Laws::zeros))]
pub fn non_zero(used: &[u32]) -> usize
    ensures { result ≡ non_zero used.now }
{
    used.len() - count_le(used, 0)
}

// The largest of the counters, and 0 where there are none.
fn largest_of(used: &[u32]) -> u32
    ensures { result ≡ largest used.now }
{
    used.iter().fold(0, |m, &x| x.max(m))
}

// The value at place k of the counters in rising order, the first being place 0; past the last, 0.
fn place_of(used: &[u32], k: usize) -> u32
    ensures { result ≡ place used.now k }
{
    if used.len() <= k {
        return 0;
    }
    let mut low: u32 = 0;
    let mut high = largest_of(used);
    while low < high {
        let middle = low + (high - low) / 2;
        if k < count_le(used, middle) {
            high = middle;
        } else {
            low = middle + 1;
        }
    }
    low
}

/// The three quartiles of the used counters, however many they are.
#[tactic(auto, unfolding(crate::specs::Quartile::quartiles))]
pub fn quartiles_of(used: &[u32]) -> Quartiles
    ensures { result ≡ quartiles used.now }
{
    let n = used.len();
    Quartiles {
        q1: place_of(used, (n / 4).saturating_sub(1)),
        q2: place_of(used, (n / 2).saturating_sub(1)),
        q3: place_of(used, (3 * n / 4).saturating_sub(1)),
    }
}

/// The three quartiles of the counters that a variant uses.
#[tactic(auto, unfolding(crate::specs::Quartile::answered, params::specs::Variants::known))]
pub fn variant_quartiles(variant: u32, counters: &[u32; 256]) -> Result<Quartiles, Refusal>
    ensures { result ≡ answered variant counters.now }
{
    let variant = Variant::try_from(variant)?;
    let used = &counters[..variant.buckets() as usize];
    Ok(quartiles_of(used))
}
