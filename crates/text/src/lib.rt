// The text of a digest, written (hash.rs, parse/hex_str.rs).
//
// It is `T1` and then two digits for each byte, 0 to 9 and A to F. The low digit of the checksum, of the length code and of the
// ratios comes first, and of the ratios that is the digit of q1. The body is written as the one large number that it is, so each
// byte has its high digit first. The text has the used bytes of the body alone: 32, 72 or 136 characters.
#![tactic(auto)]

ghost use Rattle.std.specs.Prelude.{◌≡◌, ◌∷◌, [], ◌+◌, ◌*◌, ◌/◌, ◌%◌, ◌≤◌, ◌<◌, length, take};
ghost use Rattle.std.proofs.lemmas.List.Edits.{sets};
ghost use Rattle.params.specs.Variants.{buckets};
ghost use Rattle.body.specs.Body.{bytes_of};
ghost use Rattle.text.specs.Text.{size_of, digit_of, head_text, body_text, text_size, Written, write_of};
ghost use Rattle.text.specs.Apart.{rows_of, in_turn};

use hash::Digest;
use params::{Refusal, Variant};

// The digits of a row of bytes: the high ones, and the low ones; 0 after them.
#[derive(Clone, Copy)]
struct Rows {
    high: [u8; 64],
    low: [u8; 64],
}

// The number of characters of a variant's text.
fn size(variant: Variant) -> usize
    ensures { result ≡ text_size (buckets variant) }
{
    8 + 2 * body::bytes_of(variant.buckets() as usize)
}

/// The number of characters of a variant's text: 32, 72 or 136.
#[tactic(auto, using(crate::proofs::Writing::sizes))]
pub fn text_size(variant: u32) -> Result<usize, Refusal>
    ensures { result ≡ size_of variant }
{
    let variant = Variant::try_from(variant)?;
    Ok(size(variant))
}

// A digit of a byte.
#[derive(Clone, Copy)]
struct Digit {
    value: u8,
    ghost small: { value < 16 },
}

impl Digit {
    // The low digit.
    fn low(byte: u8) -> Self
        ensures { result.value ≡ byte % 16 }
    {
        Digit { value: byte % 16 }
    }

    // The high digit.
    fn high(byte: u8) -> Self
        ensures { result.value ≡ byte / 16 }
    {
        Digit { value: byte / 16 }
    }

    // The character of a digit.
    #[tactic(auto, unfolding(crate::specs::Text::digit_of))]
    fn character(self) -> u8
        ensures { result ≡ digit_of self.value }
    {
        let n = self.value;
        if n < 10 { b'0' + n } else { b'A' - 10 + n }
    }
}

// The characters of two digits, made as one number, the first in its low byte. A half past 9 carries once 6 is added, and then skips
// the characters before A. 1,542 is 6 in each of the two bytes, 12,336 is 48 in each, and 7 times `past` is 7 in each that skips.
fn pair_of(first: Digit, second: Digit) -> [u8; 2]
    ensures { result ≡ digit_of first.value ∷ digit_of second.value ∷ [] }
{
    let halves = u32::from(first.value) + 256 * u32::from(second.value);
    let more = halves + 1_542;
    let past = more / 16 % 2 + 256 * (more / 4_096 % 2);
    let pair = halves + 12_336 + 7 * past;
    [(pair % 256) as u8, (pair / 256 % 256) as u8]
}

// Stores `T1` and the three fields before the body.
fn put_head(destination: &mut [u8], digest: &Digest)
    requires { 8 ≤ length destination.old }
    ensures { destination.new ≡ sets destination.old 0 (head_text digest.now.checksum digest.now.length_code digest.now.ratios) }
{
    let Digest {
        checksum,
        length_code,
        ratios,
        ..
    } = *digest;
    let [c0, c1] = pair_of(Digit::low(checksum), Digit::high(checksum));
    let [l0, l1] = pair_of(Digit::low(length_code), Digit::high(length_code));
    let [r0, r1] = pair_of(Digit::low(ratios), Digit::high(ratios));
    destination[0] = b'T';
    destination[1] = b'1';
    destination[2] = c0;
    destination[3] = c1;
    destination[4] = l0;
    destination[5] = l1;
    destination[6] = r0;
    destination[7] = r1;
}

// The high and the low digits of a row of bytes, apart, so that sixteen are made at once.
fn rows_of(bytes: &[u8]) -> Rows
    requires { length bytes.now ≤ 64 }
    ensures { result ≡ rows_of bytes.now }
{
    let mut high = [0; 64];
    let mut low = [0; 64];
    for (i, byte) in bytes.iter().enumerate() {
        high[i] = Digit::high(*byte).character();
        low[i] = Digit::low(*byte).character();
    }
    Rows { high, low }
}

// Stores the digits of two rows in turn, from place 8 on.
fn put_pairs(destination: &mut [u8], high: &[u8], low: &[u8])
    requires { (length low.now ≡ length high.now) × (8 + 2 * length high.now ≤ length destination.old) }
    ensures { destination.new ≡ sets destination.old 8 (in_turn high.now low.now) }
{
    for (i, digit) in high.iter().enumerate() {
        destination[8 + 2 * i] = *digit;
        destination[9 + 2 * i] = low[i];
    }
}

// Stores the digits of a row of bytes, from place 8 on.
fn put_bytes(destination: &mut [u8], bytes: &[u8])
    requires { (length bytes.now ≤ 64) × (8 + 2 * length bytes.now ≤ length destination.old) }
    ensures { destination.new ≡ sets destination.old 8 (body_text bytes.now) }
{
    let Rows { high, low } = rows_of(bytes);
    put_pairs(destination, &high[..bytes.len()], &low[..bytes.len()]);
}

// Stores the digits of the bytes that a variant uses. Each number is spelled out, so that the compiler can lay the turns side by side.
fn put_body(destination: &mut [u8], body: &[u8; 64], variant: Variant)
    requires { text_size (buckets variant) ≤ length destination.old }
    ensures { destination.new ≡ sets destination.old 8 (body_text (take (bytes_of (buckets variant)) body.now)) }
{
    match variant {
        Variant::Short => put_bytes(destination, &body[..12]),
        Variant::Normal => put_bytes(destination, &body[..32]),
        Variant::Long => put_bytes(destination, body),
    }
}

/// Writes the text at the front of the destination. A refusal writes nothing.
pub fn write_text(digest: &Digest, destination: &mut [u8]) -> Result<(), Refusal>
    ensures { Written result destination.new (write_of digest.now destination.old) }
{
    let variant = Variant::try_from(digest.variant)?;
    if destination.len() < size(variant) {
        return Err(Refusal::ShortDestination);
    }
    put_head(destination, digest);
    put_body(destination, &digest.body, variant);
    Ok(())
}
