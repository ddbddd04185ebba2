// The entry points under their C names: the static library that include/saltcurtain.h describes.
//
// Each calls the function of `saltcurtain` that has its name, and promises what that function promises, with a number in place of
// `Ok` and each refusal: 0, or the refusal's, or a struct that begins with it and is zero after a refusal. A slice is a pointer and a
// length.
#![tactic(auto)]

ghost use Rattle.std.specs.Prelude.{◌≡◌};
ghost use Rattle.parse.specs.Reading.{read_of};
ghost use Rattle.compare.specs.Distance.{distance_of, with_body};
ghost use Rattle.text.specs.Text.{Numbered};
ghost use Rattle.saltcurtain.specs.Entries.{digested, rewritten, ratios_written, code_written, texts_distance};
ghost use Rattle.saltcurtain_c.specs.Answers.{read_answer, distance_answer};

use compare::Head;
use hash::Digest;
use params::Refusal;

/// The number of the answer, and the distance; 0 beside a refusal.
#[repr(C)]
#[derive(Clone, Copy, Debug, PartialEq, Eq)]
pub struct DistanceAnswer {
    pub number: u32,
    pub distance: u32,
}

impl From<Result<u32, Refusal>> for DistanceAnswer {
    ghost from_gives = { λ answer given. given ≡ distance_answer answer };

    fn from(answer: Result<u32, Refusal>) -> Self {
        match answer {
            Ok(distance) => DistanceAnswer {
                number: 0,
                distance,
            },
            Err(refusal) => DistanceAnswer {
                number: u32::from(refusal),
                distance: 0,
            },
        }
    }
}

/// The number of the answer, and the digest that was read; all zero beside a refusal.
#[repr(C)]
#[derive(Clone, Copy, Debug, PartialEq, Eq)]
pub struct ReadAnswer {
    pub number: u32,
    pub digest: Digest,
}

impl From<Result<Digest, Refusal>> for ReadAnswer {
    ghost from_gives = { λ answer given. given ≡ read_answer answer };

    fn from(answer: Result<Digest, Refusal>) -> Self {
        match answer {
            Ok(digest) => ReadAnswer { number: 0, digest },
            Err(refusal) => ReadAnswer {
                number: u32::from(refusal),
                digest: Digest::zero(),
            },
        }
    }
}

/// Writes the text of the input's digest.
#[unsafe(no_mangle)]
pub extern "C" fn saltcurtain_digest(
    variant: u32,
    options: u32,
    input: &[u8],
    destination: &mut [u8],
) -> u32
    ensures { Numbered result destination.new (digested variant options input.now destination.old) }
{
    params::answer_number(saltcurtain::saltcurtain_digest(variant, options, input, destination))
}

/// Writes the text of the input's digest, the input fed in pieces: the same answer whatever their size.
#[unsafe(no_mangle)]
pub extern "C" fn saltcurtain_digest_pieces(
    variant: u32,
    options: u32,
    piece: usize,
    input: &[u8],
    destination: &mut [u8],
) -> u32
    ensures { Numbered result destination.new (digested variant options input.now destination.old) }
{
    let answer = saltcurtain::saltcurtain_digest_pieces(
        variant,
        options,
        piece,
        input,
        destination,
    );
    params::answer_number(answer)
}

/// Reads a text, and writes it again.
#[unsafe(no_mangle)]
pub extern "C" fn saltcurtain_rewrite(variant: u32, text: &[u8], destination: &mut [u8]) -> u32
    ensures { Numbered result destination.new (rewritten variant text.now destination.old) }
{
    params::answer_number(saltcurtain::saltcurtain_rewrite(variant, text, destination))
}

/// Writes the bits of both quotients of the floating path, then their whole parts.
#[unsafe(no_mangle)]
pub extern "C" fn saltcurtain_ratios(q1: u32, q2: u32, q3: u32, out: &mut [u32; 4]) -> u32
    ensures { Numbered result out.new (ratios_written q1 q2 q3 out.old) }
{
    params::answer_number(saltcurtain::saltcurtain_ratios(q1, q2, q3, out))
}

/// Writes the code of a length.
#[unsafe(no_mangle)]
pub extern "C" fn saltcurtain_length_code(n: u32, out: &mut [u32; 1]) -> u32
    ensures { Numbered result out.new (code_written n out.old) }
{
    params::answer_number(saltcurtain::saltcurtain_length_code(n, out))
}

/// The distance of the digests of two texts.
#[unsafe(no_mangle)]
pub extern "C" fn saltcurtain_distance(
    variant_a: u32,
    text_a: &[u8],
    variant_b: u32,
    text_b: &[u8],
) -> DistanceAnswer
    ensures { result ≡ distance_answer (texts_distance variant_a text_a.now variant_b text_b.now) }
{
    saltcurtain::saltcurtain_distance(variant_a, text_a, variant_b, text_b).into()
}

/// The digest of a text, for callers who compare it often.
#[unsafe(no_mangle)]
pub extern "C" fn saltcurtain_read(variant: u32, text: &[u8]) -> ReadAnswer
    ensures { result ≡ read_answer (read_of variant text.now) }
{
    saltcurtain::saltcurtain_read(variant, text).into()
}

/// The distance of two digests that were read.
#[unsafe(no_mangle)]
pub extern "C" fn saltcurtain_distance_read(
    a: Head,
    x: &[u8; 64],
    b: Head,
    y: &[u8; 64],
) -> DistanceAnswer
    ensures { result ≡ distance_answer (distance_of (with_body a x.now) (with_body b y.now)) }
{
    saltcurtain::saltcurtain_distance_read(a, x, b, y).into()
}
