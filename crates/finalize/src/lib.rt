// Finalizing: a state and its options give a digest or one refusal (generate.rs). The state is only read.
//
// The steps stand in the order in which they refuse: 10 for an unknown option bit, 6 for another variant, 19 for a state that no
// bytes reach; then the length (1, 2), its code (5), the third quartile (3), and the count of counters that are not 0 (4). A dead
// file fails both of the last two, and the third quartile speaks first.
#![tactic(auto)]

ghost use Rattle.std.specs.Prelude.{◌≡◌, true};
ghost use Rattle.params.specs.Variants.{known, buckets};
ghost use Rattle.finalize.specs.Final.{is_three_quarter_empty, replaced, least_non_zero, is_half_empty};
ghost use Rattle.finalize.specs.Final.{distributed, measured, finalized_with, finalized};

use generate::State;
use hash::Digest;
use options::Options;
use params::{Refusal, Variant};
use quartile::Quartiles;

// Whether the third quartile is 0, and no option lifts that.
#[tactic(auto, unfolding(crate::specs::Final::is_three_quarter_empty))]
fn is_three_quarter_empty(q: Quartiles, o: Options) -> bool
    ensures { result ≡ is_three_quarter_empty q o }
{
    // The half option does not lift it.
    q.q3 == 0 && !o.quarter
}

// The quartiles that ratios and body go by: all three become 1 where the third is 0.
#[tactic(auto, unfolding(crate::specs::Final::replaced))]
fn replace(q: Quartiles) -> Quartiles
    ensures { result ≡ replaced q }
{
    if q.q3 == 0 {
        Quartiles {
            q1: 1,
            q2: 1,
            q3: 1,
        }
    } else {
        q
    }
}

// The least number of used counters that must not be 0.
#[tactic(auto, unfolding(crate::specs::Final::least_non_zero))]
fn least_non_zero(variant: Variant) -> usize
    ensures { result ≡ least_non_zero (buckets variant) }
{
    match variant {
        Variant::Short => 18,
        Variant::Normal => 65,
        Variant::Long => 129,
    }
}

// Whether fewer of the used counters are not 0, and no option lifts that.
#[tactic(auto, unfolding(crate::specs::Final::is_half_empty))]
fn is_half_empty(used: &[u32], variant: Variant, o: Options) -> bool
    ensures { result ≡ is_half_empty used.now (buckets variant) o }
{
    !o.half && !o.quarter && quartile::non_zero(used) < least_non_zero(variant)
}

// Steps 3 to 7, on the used counters.
#[tactic(auto, using(crate::proofs::Laws::ratios), unfolding(crate::specs::Final::distributed, crate::specs::Final::digest_by))]
fn distribute(
    used: &[u32],
    variant: Variant,
    checksum: u8,
    length_code: u8,
    o: Options,
) -> Result<Digest, Refusal>
    ensures { result ≡ distributed used.now (buckets variant) checksum length_code o }
{
    let q = quartile::quartiles_of(used);
    if is_three_quarter_empty(q, o) {
        return Err(Refusal::ThreeQuarterEmpty);
    }
    if is_half_empty(used, variant, o) {
        return Err(Refusal::HalfEmpty);
    }
    let cuts = replace(q);
    Ok(Digest {
        body: body::body_of(cuts, used),
        variant: variant.buckets(),
        checksum,
        length_code,
        ratios: qratios::ratios_byte(cuts.q1, cuts.q2, cuts.q3, o.integer).unwrap(),
    })
}

// Steps 1 to 7, at length n.
#[tactic(auto, using(params::proofs::Variants::known_most), unfolding(crate::specs::Final::measured, crate::specs::Final::with_code, crate::specs::Final::is_too_large, crate::specs::Final::is_too_small, length::specs::Limits::limits_of))]
fn measure(n: u32, s: &State, o: Options) -> Result<Digest, Refusal>
    requires { known s.now.variant ≡ true }
    ensures { result ≡ measured n s.now o }
{
    let variant = Variant::try_from(s.variant)?;
    let limits = length::limits_of(s.variant)?;
    if limits.maximum < n {
        return Err(Refusal::TooLargeInput);
    }
    let minimum = if o.conservative {
        limits.minimum_conservative
    } else {
        limits.minimum
    };
    if n < minimum && !o.small {
        return Err(Refusal::TooSmallInput);
    }
    let length_code = length::length_code(n)?;
    let used = &s.counters[..variant.buckets() as usize];
    distribute(used, variant, s.checksum, length_code, o)
}

/// The digest of a state under five flags.
#[tactic(auto, using(crate::proofs::Laws::length_known), unfolding(crate::specs::Final::finalized_with, crate::specs::Final::with_length))]
pub fn finalize_with(s: &State, o: Options) -> Result<Digest, Refusal>
    ensures { result ≡ finalized_with s.now o }
{
    // A length of 2^32 or more is longer than any that a variant takes.
    let n = s.processed_len()?.unwrap_or(u32::MAX);
    measure(n, s, o)
}

/// The digest of a state under an option number.
#[tactic(auto, unfolding(crate::specs::Final::finalized, crate::specs::Final::finalized_by))]
pub fn finalize(s: &State, options: u32) -> Result<Digest, Refusal>
    ensures { result ≡ finalized s.now options }
{
    finalize_with(s, options::options_of(options)?)
}
