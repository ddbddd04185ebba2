// The ratios of the first two quartiles to the third, by the integer path and by the floating path (generate.rs, hash/qratios.rs).
//
// The floating path is that of the older TLSH programs: 100 * q in 32 bits, where it may roll over, and then f32 numbers. Rust's `as f32`
// and `as u32` may lose something, so their place is taken by a conversion that rounds once, and by a truncation that reads the bits.
#![tactic(auto)]

ghost use Rattle.std.specs.Prelude.{◌≡◌, ◌<◌, ◌≤◌, false, to_bits, MatchResult};
ghost use Rattle.std.specs.Float.{binary32};
ghost use Rattle.qratios.specs.Single.{single, whole, single_from_bits};
ghost use Rattle.qratios.specs.Ratios.{reduced, ratio_by, ratios_byte, UpTo, ordered};
ghost use Rattle.qratios.specs.Ratios.{float, record_of, ratios_of, byte_answered};
ghost use Rattle.qratios.specs.Ratios as R;

use params::Refusal;
use std::num;

/// The two quotients of the floating path, and their whole parts before mod 16.
#[derive(Clone, Copy, Debug, PartialEq)]
pub struct Ratios {
    pub quotient1: f32,
    pub quotient2: f32,
    pub whole1: u32,
    pub whole2: u32,
}

/// 100 * q, reduced modulo 2^32.
pub fn times_100(q: u32) -> u32
    ensures { result ≡ reduced q }
{
    q.wrapping_mul(100)
}

/// The f32 nearest to n, and at a tie the one with the even significand.
#[tactic(auto, using(crate::proofs::Ieee::converted))]
pub fn to_single(n: u32) -> f32
    ensures { result ≡ float (single n 1) }
{
    num::nearest_u32_to_f32(n)
}

// The floating path's quotient: 100 * q in 32 bits over q3, with one rounding at each of three places.
#[tactic(auto, using(crate::proofs::Answers::quotient_made))]
fn quotient(q: u32, q3: u32) -> f32
    requires { 0 < q3 }
    ensures { result ≡ float (R.quotient q q3) }
{
    to_single(times_100(q)) / to_single(q3)
}

// The whole part of the number below 2^24 whose 32 bits are b: 0 below the bits of 1, which are 127 * 2^23, and else the
// significand without its fraction. The bits of 2^24 are 151 * 2^23.
fn whole_of_bits(b: u32) -> u32
    requires { b < 0x4b80_0000 }
    ensures { result ≡ whole (single_from_bits b) }
{
    if b < 0x3f80_0000 {
        return 0;
    }
    ((b & 0x7f_ffff) | 0x80_0000) >> (150 - (b >> 23))
}

// The whole part of an f32 that is not negative and is below 2^24, from its bits.
fn whole_part(x: f32) -> u32
    requires { to_bits binary32 x < 0x4b80_0000 }
    ensures { result ≡ whole (single_from_bits (to_bits binary32 x)) }
{
    whole_of_bits(x.to_bits())
}

// The ratio of q by either path: the whole part of 100 * q / q3, mod 16.
#[tactic(auto, using(crate::proofs::Answers::floating))]
fn ratio_by(q: u32, q3: u32, integer: bool) -> u8
    requires { UpTo q q3 }
    ensures { result ≡ ratio_by integer q q3 }
{
    if integer {
        (100 * u64::from(q) / u64::from(q3) % 16) as u8
    } else {
        (whole_part(quotient(q, q3)) % 16) as u8
    }
}

// Three quartiles in order, of which the third is not 0.
#[derive(Clone, Copy)]
struct Ordered {
    q1: u32,
    q2: u32,
    q3: u32,
    ghost first: { q1 ≤ q2 },
    ghost second: { q2 ≤ q3 },
    ghost third: { 0 < q3 },
}

impl Ordered {
    fn new(q1: u32, q2: u32, q3: u32) -> Result<Ordered, Refusal>
        ensures { MatchResult result
            (λ o. (o.q1 ≡ q1) × (o.q2 ≡ q2) × (o.q3 ≡ q3))
            (λ e. (e ≡ Refusal.UnorderedQuartiles) × (ordered q1 q2 q3 ≡ false)) }
    {
        if q1 <= q2 && q2 <= q3 && q3 >= 1 {
            Ok(Ordered { q1, q2, q3 })
        } else {
            Err(Refusal::UnorderedQuartiles)
        }
    }

    #[tactic(auto, using(crate::proofs::Answers::recording))]
    fn ratios(self) -> Ratios
        ensures { result ≡ record_of (R.quotient self.q1 self.q3) (R.quotient self.q2 self.q3) }
    {
        let x1 = quotient(self.q1, self.q3);
        let x2 = quotient(self.q2, self.q3);
        Ratios {
            quotient1: x1,
            quotient2: x2,
            whole1: whole_part(x1),
            whole2: whole_part(x2),
        }
    }

    // Both ratios in one byte, q1's in the low four bits.
    fn byte(self, integer: bool) -> u8
        ensures { result ≡ ratios_byte integer self.q1 self.q2 self.q3 }
    {
        let low = ratio_by(self.q1, self.q3, integer);
        let high = ratio_by(self.q2, self.q3, integer);
        low + 16 * high
    }
}

/// The ratio record of three quartiles; refused unless q1 <= q2 <= q3 and q3 >= 1.
#[tactic(auto, using(crate::proofs::Answers::in_order), unfolding(crate::specs::Ratios::ratios_of))]
pub fn quartile_ratios(q1: u32, q2: u32, q3: u32) -> Result<Ratios, Refusal>
    ensures { result ≡ ratios_of q1 q2 q3 }
{
    Ok(Ordered::new(q1, q2, q3)?.ratios())
}

/// Both ratios in one byte, by either path; refused unless q1 <= q2 <= q3 and q3 >= 1.
#[tactic(auto, using(crate::proofs::Answers::in_order), unfolding(crate::specs::Ratios::byte_answered))]
pub fn ratios_byte(q1: u32, q2: u32, q3: u32, integer: bool) -> Result<u8, Refusal>
    ensures { result ≡ byte_answered integer q1 q2 q3 }
{
    Ok(Ordered::new(q1, q2, q3)?.byte(integer))
}
