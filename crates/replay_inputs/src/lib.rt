// The inputs of the stored list (host/README.md, The stored list): byte i by a rule, and a state fed with all of them in pieces.
//
// An input is made block by block where it is fed, so that it needs no more room than a piece. The state after it is that of the
// bytes, whatever the pieces: a number that is no size of a piece stands for the largest.
#![tactic(auto)]

ghost use Rattle.std.specs.Prelude.{◌≡◌, ◌+◌, ◌%◌, ◌≤◌, ◌<◌, length};
ghost use Rattle.generate.specs.Answer.{updated};
ghost use Rattle.replay_inputs.specs.Input.{drawn, drawn_times, byte_by, input_byte, input_bytes};

use generate::State;

/// An input: its kind, its seed, 0 for a pattern, and its length.
#[derive(Clone, Copy, Debug, PartialEq, Eq)]
pub struct Input {
    pub kind: u32,
    pub seed: u32,
    pub length: u32,
}

// The most bytes of a piece.
const MOST: usize = 65_536;

// ---- a byte

// x after a draw.
#[tactic(auto, unfolding(crate::specs::Input::drawn))]
fn draw(x: u32) -> u32
    ensures { result ≡ drawn x }
{
    ((u64::from(x) * 1_103_515_245 + 12_345) % 2_147_483_648) as u32
}

impl Input {
    // Byte i, where x stands after its draw. A kind above 2 draws one of the bytes that the seed lets stand.
    #[tactic(auto, unfolding(crate::specs::Input::byte_by))]
    fn byte_by(self, digits: &[u8], i: usize, x: u32) -> u8
        ensures { result ≡ byte_by self digits.now i x }
    {
        let drawn = x / 65_536;
        match self.kind {
            0 => replay_pattern::repeated_byte(digits, i),
            1 => ((self.seed as usize).wrapping_add(i) % 256) as u8,
            2 => (drawn % 256) as u8,
            _ => (32 + drawn % (1 + self.seed % 64)) as u8,
        }
    }
}

// ---- pieces

// How far an input is made, at most to its end: the next byte is byte `at`, and x stands after the draws of those before it.
#[derive(Clone, Copy)]
struct Making {
    input: Input,
    at: usize,
    x: u32,
    ghost drawn: { x ≡ drawn_times at input.seed },
    ghost within: { at ≤ input.length },
}

impl Making {
    // The next byte.
    fn next(&mut self, digits: &[u8]) -> u8
        requires { self.old.at < self.old.input.length }
        ensures byte { result ≡ input_byte self.old.input digits.now self.old.at }
        ensures input { self.new.input ≡ self.old.input }
        ensures at { self.new.at ≡ self.old.at + 1 }
    {
        let x = draw(self.x);
        let byte = self.input.byte_by(digits, self.at, x);
        *self = Making {
            input: self.input,
            at: self.at + 1,
            x,
        };
        byte
    }

    // Stores the next bytes, as many as the block has.
    fn fill(&mut self, block: &mut [u8], digits: &[u8])
        requires { self.old.at + length block.old ≤ self.old.input.length }
        ensures bytes { block.new ≡ input_bytes self.old.input digits.now self.old.at (length block.old) }
        ensures input { self.new.input ≡ self.old.input }
        ensures at { self.new.at ≡ self.old.at + length block.old }
    {
        for byte in block.iter_mut() {
            *byte = self.next(digits);
        }
    }
}

// The size of the pieces: a number from 1 to the most stands for itself.
fn piece_of(piece: u32) -> usize
    ensures { (0 < result) × (result ≤ 65_536) }
{
    match piece as usize {
        size @ 1..=MOST => size,
        _ => MOST,
    }
}

/// Feeds a state with an input, in pieces of so many bytes. Where the state is refused it stays as it was.
pub fn feed_input(s: &mut State, piece: u32, n: Input, digits: &[u8])
    ensures { s.new ≡ (updated s.old (input_bytes n digits.now 0 n.length)).state }
{
    let mut block = [0u8; MOST];
    let piece = piece_of(piece);
    let length = n.length as usize;
    let mut making = Making {
        input: n,
        at: 0,
        x: n.seed,
    };
    while making.at < length {
        let part = &mut block[..piece.min(length - making.at)];
        making.fill(part, digits);
        let _ = s.update(part);
    }
}
