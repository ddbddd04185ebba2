// Patterns of the stored list (host/README.md, The stored list): one to 64 bytes, two hexadecimal digits for each, and the byte that
// stands at a place where they come again and again.
#![tactic(auto)]

ghost use Rattle.std.specs.Prelude.{◌≡◌, ◌<◌};
ghost use Rattle.replay_pattern.specs.Pattern.{is_pattern, hex_of, repeated};

/// Whether a text is a pattern of one to 64 bytes.
#[tactic(auto, unfolding(crate::specs::Pattern::is_pattern))]
pub fn is_pattern(s: &[u8]) -> bool
    ensures { result ≡ is_pattern s.now }
{
    (2..=128).contains(&s.len()) && s.len() % 2 == 0 && parse::all_digits(s)
}

// The value of a hexadecimal digit; 0 of another character.
#[tactic(auto, unfolding(crate::specs::Pattern::hex_of, parse::specs::Reading::is_digit, parse::specs::Reading::value_of))]
fn hex_value(c: u8) -> u8
    ensures { (result ≡ hex_of c) × (result < 16) }
{
    match c {
        b'0'..=b'9' => c - b'0',
        b'A'..=b'F' => c - b'A' + 10,
        _ => 0,
    }
}

/// Byte i of a pattern again and again.
#[tactic(auto, unfolding(crate::specs::Pattern::repeated, crate::specs::Pattern::pair_of))]
pub fn repeated_byte(digits: &[u8], i: usize) -> u8
    ensures { result ≡ repeated digits.now i }
{
    let Some(j) = i.checked_rem(digits.len() / 2) else {
        return 0;
    };
    16 * hex_value(digits[2 * j]) + hex_value(digits[2 * j + 1])
}
