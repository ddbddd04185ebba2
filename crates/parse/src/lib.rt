// The text of a digest, read (parse.rs, parse/hex_str.rs).
//
// The reader takes what the writer writes and no other form. It tests the size, splits `T1` off and tests what is left, in which
// `is_digit` alone judges a character. Only of characters that were tested (`HexDigits`) is a digest made, which cannot fail.
#![tactic(auto)]

ghost use Rattle.std.specs.Prelude.{◌≡◌, true, false, ◌+◌, ◌*◌, ◌≤◌, ◌<◌, length, get_or, MatchOption};
ghost use Rattle.params.specs.Variants.{buckets};
ghost use Rattle.body.specs.Body.{bytes_of};
ghost use Rattle.parse.specs.Reading.{is_digit, value_of, all_digits, byte_at, body_from, digest_from, read_of};

use hash::Digest;
use params::{Refusal, Variant};

/// Whether a character is a digit: 0 to 9 or A to F.
//
// The two ranges are tested apart and joined without a branch, so that the compiler can test sixteen characters at once.
#[tactic(auto, unfolding(crate::specs::Reading::is_digit))]
pub fn is_digit(c: u8) -> bool
    ensures { result ≡ is_digit c }
{
    matches!(c, b'0'..=b'9') | matches!(c, b'A'..=b'F')
}

// The value of a digit.
fn value_of(c: u8) -> u8
    requires { is_digit c ≡ true }
    ensures { (result ≡ value_of c) × (result < 16) }
{
    if c <= b'9' { c - b'0' } else { c - (b'A' - 10) }
}

// The byte of two digits, the high one first. Both are read as one number, so that the compiler can lay eight pairs side by side.
fn byte_of(pair: &[u8; 2]) -> u8
    requires high { is_digit (get_or pair.now 0 0) ≡ true }
    requires low { is_digit (get_or pair.now 1 0) ≡ true }
    ensures { result ≡ byte_at pair.now 1 0 }
{
    let both = u16::from_le_bytes(*pair);
    value_of((both / 256) as u8) + 16 * value_of((both % 256) as u8)
}

/// Whether there are digits alone.
//
// No character ends the loop early, so that sixteen are tested at once.
pub fn all_digits(t: &[u8]) -> bool
    ensures { result ≡ all_digits t.now }
{
    let mut good = true;
    for c in t {
        good &= is_digit(*c);
    }
    good
}

// Digits alone: characters that were tested.
#[derive(Clone, Copy)]
struct HexDigits<'a> {
    chars: &'a [u8],
    ghost good: { all_digits chars.now ≡ true },
}

impl<'a> HexDigits<'a> {
    // Sixteen characters and more, tested sixteen at a time. The last sixteen may begin among those that were tested.
    fn tested(t: &'a [u8]) -> Option<Self>
        requires { 16 ≤ length t.now }
        ensures { MatchOption result (all_digits t.now ≡ false) (λ digits. digits.chars.now ≡ t.now) }
    {
        for block in t.chunks_exact(16) {
            if !all_digits(block) {
                return None;
            }
        }
        if all_digits(&t[t.len() - 16..]) {
            Some(HexDigits { chars: t })
        } else {
            None
        }
    }

    // The byte whose low digit stands at one place, and its high digit at another.
    fn byte_at(self, low: usize, high: usize) -> u8
        requires { (low < length self.chars.now) × (high < length self.chars.now) }
        ensures { result ≡ byte_at self.entry.chars.now low high }
    {
        value_of(self.chars[low]) + 16 * value_of(self.chars[high])
    }

    // The body: m bytes from place 6 on, and 0 after them.
    fn bytes(self, m: usize) -> [u8; 64]
        requires most { m ≤ 64 }
        requires long { length self.chars.now ≡ 6 + 2 * m }
        ensures { result ≡ body_from self.entry.chars.now }
    {
        let (pairs, _) = self.chars[6..].as_chunks::<2>();
        let mut body = [0; 64];
        for i in 0..m {
            body[i] = byte_of(&pairs[i]);
        }
        body
    }

    // The body of a variant. Each number of bytes is spelled out, so that the compiler can lay the turns side by side.
    fn body(self, variant: Variant) -> [u8; 64]
        requires { length self.chars.now ≡ 6 + 2 * bytes_of (buckets variant) }
        ensures { result ≡ body_from self.entry.chars.now }
    {
        match variant {
            Variant::Short => self.bytes(12),
            Variant::Normal => self.bytes(32),
            Variant::Long => self.bytes(64),
        }
    }

    // The digest of the digits after `T1`, two characters for each byte.
    #[tactic(auto, unfolding(crate::specs::Reading::digest_from))]
    fn digest(self, variant: Variant) -> Digest
        requires { length self.chars.now ≡ 6 + 2 * bytes_of (buckets variant) }
        ensures { result ≡ digest_from (buckets variant) self.entry.chars.now }
    {
        Digest {
            body: self.body(variant),
            variant: variant.buckets(),
            checksum: self.byte_at(0, 1),
            length_code: self.byte_at(2, 3),
            ratios: self.byte_at(4, 5),
        }
    }
}

/// Reads the text of a variant. The size is judged before the characters.
#[tactic(auto, using(crate::proofs::Reading::read_answers))]
pub fn read_text(variant: u32, text: &[u8]) -> Result<Digest, Refusal>
    ensures { result ≡ read_of variant text.now }
{
    let variant = Variant::try_from(variant)?;
    if text.len() != 8 + 2 * body::bytes_of(variant.buckets() as usize) {
        return Err(Refusal::WrongSize);
    }
    let [b'T', b'1', digits @ ..] = text else {
        return Err(Refusal::WrongCharacter);
    };
    let Some(digits) = HexDigits::tested(digits) else {
        return Err(Refusal::WrongCharacter);
    };
    Ok(digits.digest(variant))
}
