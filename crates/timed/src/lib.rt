// What the benchmark times by itself: the writer of a digest's text, which no C entry point has alone, and the reader.
// They are for host/bench.sh and no part of the C interface.
#![tactic(auto)]

ghost use Rattle.std.specs.Prelude.{◌≡◌};
ghost use Rattle.std.specs.Result.{result_unwrap_or};
ghost use Rattle.hash.specs.Digest.{zero_digest};
ghost use Rattle.text.specs.Text.{Numbered, write_of};
ghost use Rattle.parse.specs.Reading.{read_of};

use hash::Digest;

/// Writes the text of the digest that has these fields.
#[unsafe(no_mangle)]
pub extern "C" fn saltcurtain_timed_write(
    variant: u32,
    checksum: u8,
    length_code: u8,
    ratios: u8,
    body: &[u8; 64],
    destination: &mut [u8],
) -> u32
    ensures { Numbered result destination.new
        (write_of
        (record {
          body = body.entry.now;
          variant = variant;
          checksum = checksum;
          length_code = length_code;
          ratios = ratios;
        })
        destination.old) }
{
    let digest = Digest {
        body: *body,
        variant,
        checksum,
        length_code,
        ratios,
    };
    params::answer_number(text::write_text(&digest, destination))
}

/// Reads a text to its digest, which is all zero beside a refusal.
#[unsafe(no_mangle)]
pub extern "C" fn saltcurtain_timed_read(variant: u32, text: &[u8]) -> Digest
    ensures { result ≡ result_unwrap_or (read_of variant text.now) zero_digest }
{
    parse::read_text(variant, text).unwrap_or(Digest::zero())
}
