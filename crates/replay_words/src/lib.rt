// Words, texts and decimal numbers in a line of the stored list (host/README.md, The stored list).
//
// A word ends at a space or at the line's end. A number is one to ten decimal digits without a leading zero, and at most so great as
// its reader says.
#![tactic(auto)]

ghost use Rattle.std.specs.Prelude.{◌≡◌, ◌≤◌, length, drop};
ghost use Rattle.replay_words.specs.Words.{word_size, after_words, rest_at, into, first_word, same_text};
ghost use Rattle.replay_words.specs.Words.{is_numeral, number_of};

// ---- words

// How many characters stand before the first space.
fn word_size(s: &[u8]) -> usize
    ensures { (result ≡ word_size s.now) × (result ≤ length s.now) }
{
    s.iter().position(|&c| c == b' ').unwrap_or(s.len())
}

// Where so many words and their spaces end.
#[tactic(auto, using(crate::proofs::Words::walked_more))]
fn start_of(line: &[u8], count: usize) -> usize
    ensures { (drop result line.now ≡ after_words count line.now) × (result ≤ length line.now) }
{
    let mut at = 0;
    for _ in 0..count {
        at = (at + word_size(&line[at..]) + 1).min(line.len());
    }
    at
}

/// What stands after so many words, where it stands in the line.
pub fn rest_after(line: &[u8], count: usize) -> &[u8]
    ensures content { result.now ≡ after_words count line.now }
    ensures place { result.ref_ptr ≡ into line.entry (rest_at count line.now) }
{
    &line[start_of(line, count)..]
}

/// The word after so many words, where it stands in the line.
pub fn word_after(line: &[u8], count: usize) -> &[u8]
    ensures content { result.now ≡ first_word (after_words count line.now) }
    ensures place { result.ref_ptr ≡ into line.entry (rest_at count line.now) }
{
    let rest = rest_after(line, count);
    &rest[..word_size(rest)]
}

// ---- texts

/// Whether two texts are equal, character by character.
pub fn same_text(a: &[u8], b: &[u8]) -> bool
    ensures { result ≡ same_text a.now b.now }
{
    a == b
}

// ---- numbers

// Whether there are one to ten decimal digits, the first not 0 where there are more.
#[tactic(auto, unfolding(crate::specs::Words::is_numeral))]
fn is_numeral(s: &[u8]) -> bool
    ensures { result ≡ is_numeral s.now }
{
    match s {
        [] | [b'0', _, ..] => false,
        _ => s.len() <= 10 && s.iter().all(u8::is_ascii_digit),
    }
}

/// The number that a text says, where it says one and that is at most so great.
#[tactic(auto, using(crate::proofs::Words::numeral_text, crate::proofs::Words::number_large, crate::proofs::Words::number_read), unfolding(crate::specs::Words::number_of))]
pub fn read_number(s: &[u8], most: u32) -> Option<u32>
    ensures { result ≡ number_of most s.now }
{
    if !is_numeral(s) {
        return None;
    }
    let value = str::from_utf8(s).ok()?.parse().ok()?;
    (value <= most).then_some(value)
}
