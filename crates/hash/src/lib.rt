// The digest record, and when two are the same (hash.rs, hash/checksum.rs, hash/qratios.rs).
//
// A digest is the checksum, the code of the length's class, the two ratios of the quartiles and the body, beside the variant that
// it is of. The body uses the first 12, 32 or 64 of its 64 bytes.
#![tactic(auto)]

ghost use Rattle.std.specs.Prelude.{◌≡◌};
ghost use Rattle.hash.specs.Digest.{zero_digest, same_of};

use params::{Refusal, Variant};

/// A digest. `==` compares all 64 bytes of the bodies, and `same` those that the variant uses.
//
// The body stands first, so that a copy of it lies on a word's bounds.
#[repr(C)]
#[derive(Clone, Copy, Debug, PartialEq, Eq)]
pub struct Digest {
    pub body: [u8; 64],
    pub variant: u32,
    pub checksum: u8,
    pub length_code: u8,
    /// The ratio of the first quartile is in the low four bits, that of the second in the high four.
    pub ratios: u8,
}

impl Digest {
    /// The record of zeros, which is of no variant.
    pub fn zero() -> Digest
        ensures { result ≡ zero_digest }
    {
        Digest {
            body: [0; 64],
            variant: 0,
            checksum: 0,
            length_code: 0,
            ratios: 0,
        }
    }

    /// Whether two digests are of one variant and equal in their used fields. Either may be of an unknown variant, which is refused.
    #[tactic(auto, using(crate::proofs::Sameness::same_steps), unfolding(crate::specs::Digest::same_fields))]
    pub fn same(&self, other: &Digest) -> Result<bool, Refusal>
        ensures { result ≡ same_of self.now other.now }
    {
        Variant::try_from(self.variant)?;
        Variant::try_from(other.variant)?;
        let used = body::bytes_of(self.variant as usize);
        let bodies = self.body[..used] == other.body[..used];
        let same = self.variant == other.variant
            && self.checksum == other.checksum
            && self.length_code == other.length_code
            && self.ratios == other.ratios
            && bodies;
        Ok(same)
    }
}
