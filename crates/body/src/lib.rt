// The body of a digest, from the used counters and the three quartiles (generate/bucket_aggregation.rs, hash/body.rs).
//
// A counter's code says which of the quartiles it exceeds: 3 above the third, else 2 above the second, else 1 above the first,
// else 0. A code is two bits, so four counters fill one byte, the first of them in its lowest bits. The bytes stand in falling
// order: that of the first four counters is the last one, so that the text of a body reads as one large number whose lowest bits
// are the code of counter 0. A body is 64 bytes whatever the variant; those after the used ones are 0.
//
// The number of used counters is the length of what is lent, and nothing below names a variant.
#![tactic(auto)]

ghost use Rattle.std.specs.Prelude.{◌≡◌, ◌≤◌, length};
ghost use Rattle.body.specs.Body.{code_of, byte_of, bytes_of, body_of};

use quartile::Quartiles;

// The code of a counter.
#[tactic(auto, unfolding(crate::specs::Body::code_of))]
fn code_of(cuts: Quartiles, counter: u32) -> u8
    ensures { (result ≡ code_of cuts counter) × (result ≤ 3) }
{
    if cuts.q3 < counter {
        3
    } else if cuts.q2 < counter {
        2
    } else if cuts.q1 < counter {
        1
    } else {
        0
    }
}

// The byte of four counters, lowest two bits first.
fn byte_of(cuts: Quartiles, four: &[u32; 4]) -> u8
    ensures { result ≡ byte_of cuts four.now 0 }
{
    let [a, b, c, d] = *four;
    code_of(cuts, a) + 4 * code_of(cuts, b) + 16 * code_of(cuts, c) + 64 * code_of(cuts, d)
}

/// The number of bytes that so many counters fill, at most 64. A variant is its number of counters, so these are its used bytes.
pub fn bytes_of(counters: usize) -> usize
    ensures { result ≡ bytes_of counters }
{
    (counters / 4).min(64)
}

/// The body: the bytes of the used counters, that of the first four last, and 0 after them.
pub fn body_of(cuts: Quartiles, used: &[u32]) -> [u8; 64]
    ensures { result ≡ body_of cuts used.now }
{
    let mut body = [0; 64];
    let m = bytes_of(used.len());
    let (fours, _) = used.as_chunks::<4>();
    for (i, four) in fours[..m].iter().enumerate() {
        body[m - 1 - i] = byte_of(cuts, four);
    }
    body
}
