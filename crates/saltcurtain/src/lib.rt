// The entry points, thin over the library. `saltcurtain_c` gives them to C under the same names, with numbers in place of refusals.
//
// A refusal writes nothing.
#![tactic(auto)]

ghost use Rattle.std.specs.Prelude.{◌≡◌, ◌<◌, min, IfErr};
ghost use Rattle.generate.specs.Answer.{updated};
ghost use Rattle.text.specs.Text.{Written};
ghost use Rattle.parse.specs.Reading.{read_of};
ghost use Rattle.compare.specs.Distance.{distance_of, with_body};
ghost use Rattle.finalize.specs.Final.{finalized};
ghost use Rattle.saltcurtain.specs.Entries.{argument_answer, given, digested, rewritten, ratios_written, code_written};
ghost use Rattle.saltcurtain.specs.Entries.{texts_distance};

use compare::Head;
use generate::State;
use hash::Digest;
use params::Refusal;

// Judges a one-shot digest's arguments: 10, then 6, then 7.
#[tactic(auto, using(crate::proofs::Laws::argument_options, crate::proofs::Laws::argument_variant))]
fn judge(variant: u32, options: u32, room: usize) -> Result<(), Refusal>
    ensures { result ≡ argument_answer variant options room }
{
    options::options_of(options)?;
    if room < text::text_size(variant)? {
        return Err(Refusal::ShortDestination);
    }
    Ok(())
}

// Finalizes a state and writes the text, or nothing beside the finalizing steps' refusal.
fn finish(state: &State, options: u32, destination: &mut [u8]) -> Result<(), Refusal>
    ensures { Written result destination.new (given (finalized state.now options) destination.old) }
{
    let digest = finalize::finalize(state, options)?;
    text::write_text(&digest, destination)
}

// Feeds a state the input in pieces of so many bytes, the last one shorter, or in one piece where the number is 0.
fn feed(state: &mut State, piece: usize, input: &[u8]) -> Result<(), Refusal>
    ensures fed { state.new ≡ (updated state.old input.now).state }
    ensures refused { IfErr result (λ e. (updated state.old input.now).answer ≡ Err e) }
{
    if piece == 0 {
        return state.update(input);
    }
    for bytes in input.chunks(piece) {
        state.update(bytes)?;
    }
    Ok(())
}

/// Writes the text of the input's digest.
pub fn saltcurtain_digest(
    variant: u32,
    options: u32,
    input: &[u8],
    destination: &mut [u8],
) -> Result<(), Refusal>
    ensures { Written result destination.new (digested variant options input.now destination.old) }
{
    saltcurtain_digest_pieces(variant, options, 0, input, destination)
}

/// Writes the text of the input's digest, the input fed in pieces: the same answer whatever their size.
#[tactic(auto, using(crate::proofs::Laws::digested_refused, crate::proofs::Laws::digested_new, crate::proofs::Laws::digested_fed))]
pub fn saltcurtain_digest_pieces(
    variant: u32,
    options: u32,
    piece: usize,
    input: &[u8],
    destination: &mut [u8],
) -> Result<(), Refusal>
    ensures { Written result destination.new (digested variant options input.now destination.old) }
{
    judge(variant, options, destination.len())?;
    let mut state = State::new(variant)?;
    feed(&mut state, piece, input)?;
    finish(&state, options, destination)
}

/// Reads a text, and writes it again.
#[tactic(auto, using(crate::proofs::Laws::rewritten_variant))]
pub fn saltcurtain_rewrite(variant: u32, text: &[u8], destination: &mut [u8]) -> Result<(), Refusal>
    ensures { Written result destination.new (rewritten variant text.now destination.old) }
{
    if destination.len() < text::text_size(variant)? {
        return Err(Refusal::ShortDestination);
    }
    let digest = parse::read_text(variant, text)?;
    text::write_text(&digest, destination)
}

/// Writes the bits of both quotients of the floating path, then their whole parts.
#[tactic(auto, unfolding(crate::specs::Entries::ratios_written))]
pub fn saltcurtain_ratios(q1: u32, q2: u32, q3: u32, out: &mut [u32; 4]) -> Result<(), Refusal>
    ensures { Written result out.new (ratios_written q1 q2 q3 out.old) }
{
    let ratios = qratios::quartile_ratios(q1, q2, q3)?;
    *out = [
        ratios.quotient1.to_bits(),
        ratios.quotient2.to_bits(),
        ratios.whole1,
        ratios.whole2,
    ];
    Ok(())
}

/// Writes the code of a length.
#[tactic(auto, unfolding(crate::specs::Entries::code_written))]
pub fn saltcurtain_length_code(n: u32, out: &mut [u32; 1]) -> Result<(), Refusal>
    ensures { Written result out.new (code_written n out.old) }
{
    let code = length::length_code(n)?;
    *out = [u32::from(code)];
    Ok(())
}

/// The distance of the digests of two texts.
#[tactic(auto, unfolding(crate::specs::Entries::texts_distance))]
pub fn saltcurtain_distance(
    variant_a: u32,
    text_a: &[u8],
    variant_b: u32,
    text_b: &[u8],
) -> Result<u32, Refusal>
    ensures { result ≡ texts_distance variant_a text_a.now variant_b text_b.now }
{
    compare::comparable(variant_a, variant_b)?;
    let first = parse::read_text(variant_a, text_a)?;
    let second = parse::read_text(variant_b, text_b)?;
    compare::distance(&first, &second)
}

/// The digest of a text, for callers who compare it often.
pub fn saltcurtain_read(variant: u32, text: &[u8]) -> Result<Digest, Refusal>
    ensures { result ≡ read_of variant text.now }
{
    parse::read_text(variant, text)
}

/// The distance of two digests that were read.
pub fn saltcurtain_distance_read(
    a: Head,
    x: &[u8; 64],
    b: Head,
    y: &[u8; 64],
) -> Result<u32, Refusal>
    ensures { result ≡ distance_of (with_body a x.now) (with_body b y.now) }
{
    compare::distance_lent(a, x, b, y)
}
