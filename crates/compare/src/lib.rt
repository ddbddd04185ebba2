// The distance of two digests (compare.rs and the files in compare/).
//
// Each pair of fields has its cost, and the distance is their sum. The bodies are compared eight bytes at a time: two words of
// eight bytes give a word that has the cost of each pair of bytes in their place (`word_cost`), such words are added byte by byte
// without a carry, and the bytes of the last one are added up (`total`).
#![tactic(auto)]

ghost use Rattle.std.specs.Prelude.{◌≡◌, ◌+◌, ◌-◌, ◌*◌, ◌≤◌, ◌<◌, min};
ghost use Rattle.params.specs.Variants.{buckets};
ghost use Rattle.compare.specs.Distance.{body_cost, length_cost, ratio_cost, checksum_cost, distance_of};
ghost use Rattle.compare.specs.Distance.{comparability, Shares, head_of, with_body, head_cost};
ghost use Rattle.compare.specs.Lanes.{lane_costs, lane_sum, eight_costs, four_costs};

use hash::Digest;
use params::{Refusal, Variant};

// The costs of the eight pairs of bytes of two words, each in its byte.
//
// A pair of codes differs in the bits of z. Where both differ (`both`), the codes are 0 and 3, or 1 and 2; where then the bits of x
// are equal, 0 and 3 (`ends`). The difference of two codes is z, less 2 where both bits differ, as 1 and 2 differ by 1; and 0 against
// 3 costs 5 more than that 1. Then two codes are added in each half byte, and two half bytes in each byte.
fn word_cost(x: u64, y: u64) -> u64
    ensures { (result ≡ lane_costs 8 x y) × (result ≤ 1736164148113840152) }
{
    let z = x ^ y;
    let both = (z >> 1) & 0x5555555555555555 & z;
    let ends = both & (x ^ (x >> 1) ^ 0x5555555555555555);
    let plain = z - both - both;
    let near = (plain & 0x3333333333333333) + ((plain >> 2) & 0x3333333333333333);
    let far = (ends & 0x3333333333333333) + ((ends >> 2) & 0x3333333333333333);
    let s = near + 5 * far;
    (s & 0x0f0f0f0f0f0f0f0f) + ((s >> 4) & 0x0f0f0f0f0f0f0f0f)
}

// The sum of a word's bytes.
fn total(s: u64) -> u32
    ensures { (result ≡ lane_sum 8 s) × (result ≤ 2040) }
{
    let t = (s & 0x00ff00ff00ff00ff) + ((s >> 8) & 0x00ff00ff00ff00ff);
    let u = t + t / 4294967296;
    let v = u + u / 65536;
    (v % 65536) as u32
}

// The costs of eight bytes of two bodies.
fn eight(x: &[u8; 8], y: &[u8; 8]) -> u64
    ensures { (result ≡ eight_costs x.now y.now 0) × (result ≤ 1736164148113840152) }
{
    word_cost(u64::from_le_bytes(*x), u64::from_le_bytes(*y))
}

// Those of 32 bytes, added byte by byte.
fn four_times_eight(x: &[u8; 32], y: &[u8; 32]) -> u64
    ensures { (result ≡ four_costs x.now y.now 0) × (result ≤ 6944656592455360608) }
{
    let (xs, _) = x.as_chunks::<8>();
    let (ys, _) = y.as_chunks::<8>();
    eight(&xs[0], &ys[0]) + eight(&xs[1], &ys[1]) + eight(&xs[2], &ys[2]) + eight(&xs[3], &ys[3])
}

// The cost of two bodies of a variant. A short body is eight bytes and the first four of the next eight.
fn body_cost(x: &[u8; 64], y: &[u8; 64], variant: Variant) -> u32
    ensures { (result ≡ body_cost (buckets variant) x.now y.now) × (result ≤ 2040) }
{
    let (xs, _) = x.as_chunks::<8>();
    let (ys, _) = y.as_chunks::<8>();
    let (us, _) = x.as_chunks::<32>();
    let (vs, _) = y.as_chunks::<32>();
    match variant {
        Variant::Short => total(eight(&xs[0], &ys[0]) + eight(&xs[1], &ys[1]) % 4294967296),
        Variant::Normal => total(four_times_eight(&us[0], &vs[0])),
        Variant::Long => total(four_times_eight(&us[0], &vs[0]) + four_times_eight(&us[1], &vs[1])),
    }
}

// The shorter of the two ways around a circle of n, of which one is d.
fn circle(n: u32, d: u32) -> u32
    requires { d < n }
    ensures { (result ≡ min d (n - d)) × (2 * result ≤ n) }
{
    d.min(n - d)
}

// The cost of two length codes.
fn length_cost(a: u8, b: u8) -> u32
    ensures { (result ≡ length_cost a b) × (result ≤ 1536) }
{
    let d = circle(256, (256 + u32::from(a) - u32::from(b)) % 256);
    if d <= 1 { d } else { 12 * d }
}

// The cost of two ratios.
fn ratio_cost(a: u8, b: u8) -> u32
    requires { (a < 16) × (b < 16) }
    ensures { (result ≡ ratio_cost a b) × (result ≤ 84) }
{
    let d = circle(16, (16 + u32::from(a) - u32::from(b)) % 16);
    if d <= 1 { d } else { 12 * (d - 1) }
}

// The cost of two checksums.
#[tactic(auto, unfolding(crate::specs::Distance::checksum_cost))]
fn checksum_cost(a: u8, b: u8) -> u32
    ensures { (result ≡ checksum_cost a b) × (result ≤ 1) }
{
    u32::from(a != b)
}

// The variant of two digests, of which the second's is looked at only where they differ.
#[tactic(auto, using(crate::proofs::Answers::refusals))]
fn shared_variant(v: u32, w: u32) -> Result<Variant, Refusal>
    ensures { Shares v w result }
{
    let variant = Variant::try_from(v)?;
    if v != w {
        Variant::try_from(w)?;
        return Err(Refusal::UnlikeDigests);
    }
    Ok(variant)
}

/// Whether digests of two variants can be compared. That one is unknown is judged before that they differ.
pub fn comparable(v: u32, w: u32) -> Result<(), Refusal>
    ensures { result ≡ comparability v w }
{
    shared_variant(v, w)?;
    Ok(())
}

/// A digest without its body.
#[repr(C)]
#[derive(Clone, Copy, Debug, PartialEq, Eq)]
pub struct Head {
    pub variant: u32,
    pub checksum: u8,
    pub length_code: u8,
    pub ratios: u8,
}

impl From<&Digest> for Head {
    ghost from_gives = { λ digest head. head ≡ head_of digest.now };

    fn from(digest: &Digest) -> Head {
        Head {
            variant: digest.variant,
            checksum: digest.checksum,
            length_code: digest.length_code,
            ratios: digest.ratios,
        }
    }
}

// The cost of two digests without their bodies.
fn head_cost(a: Head, b: Head) -> u32
    ensures { (result ≡ head_cost a b) × (result ≤ 1705) }
{
    let length = length_cost(a.length_code, b.length_code);
    let q1 = ratio_cost(a.ratios % 16, b.ratios % 16);
    let q2 = ratio_cost(a.ratios / 16, b.ratios / 16);
    length + q1 + q2 + checksum_cost(a.checksum, b.checksum)
}

/// The distance of two digests whose bodies are lent.
//
// The bodies come last, so that one number is left to keep while they are compared.
pub fn distance_lent(a: Head, x: &[u8; 64], b: Head, y: &[u8; 64]) -> Result<u32, Refusal>
    ensures { result ≡ distance_of (with_body a x.now) (with_body b y.now) }
{
    let variant = shared_variant(a.variant, b.variant)?;
    let heads = head_cost(a, b);
    Ok(body_cost(x, y, variant) + heads)
}

/// The distance of two digests.
//
// It does not go by way of `distance_lent`: `body_cost` then has two callers and stays a call of its own, whose answer is one number and
// need not go through memory.
pub fn distance(a: &Digest, b: &Digest) -> Result<u32, Refusal>
    ensures { result ≡ distance_of a.now b.now }
{
    let variant = shared_variant(a.variant, b.variant)?;
    let heads = head_cost(Head::from(a), Head::from(b));
    Ok(body_cost(&a.body, &b.body, variant) + heads)
}
