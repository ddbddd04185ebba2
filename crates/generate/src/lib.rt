// The generator's state: 256 counters, a length field, a checksum and the last four bytes (generate.rs, buckets.rs,
// hash/checksum.rs).
//
// The first four bytes of an input only fill the tail. Each later byte looks back at the four before it: it moves the checksum on
// and adds one to six counters, as `counting` has it. So the length field, which counts the later bytes, is four short of the processed
// length. It stops where that reaches 2^32, and nothing changes from there on.
//
// An update changes the state where it lies. It cuts its bytes into those that fill the tail, those that are counted, and those past
// the stop, so that the loop over the counted ones tests nothing. That loop works on the counters where they lie, on the tables that it is
// lent, and on a small struct of scalars.
//
// Two loops count, to the same end. The plain one stands in `counting`: it looks each counter up and adds one to it. The fast one
// stands in `leap`. It adds to the counters in the end alone, which has its price, so a few bytes go through the plain loop.
#![tactic(auto)]

ghost use Rattle.std.specs.Prelude.{◌≡◌, ◌≢◌, [], ◌+◌, ◌-◌, ◌≤◌, min, length, take, Ok, Err};
ghost use Rattle.std.proofs.lemmas.List.Edits.{sets};
ghost use Rattle.counting.specs.Window.{Ran};
ghost use Rattle.generate.specs.Feed.{stop, feed};
ghost use Rattle.generate.specs.Answer.{marked, judged, new_answer, updated, processed};
ghost use Rattle.generate.specs.Parts.{Fours, Opened};

use counting::Window;
use params::{Refusal, Variant};

/// The state that some bytes have led to. The counters stand first: the order of the fields decides how fast a copy is read.
#[derive(Clone, Copy, Debug, PartialEq, Eq)]
pub struct State {
    pub counters: [u32; 256],
    pub variant: u32,
    pub length: u32,
    pub checksum: u8,
    pub tail: [u8; 4],
    pub tail_len: u32,
}

// The number of bytes before a byte that is counted.
const TAIL_SIZE: u32 = 4;

// Where the length field stops: 2^32, less the four bytes of the tail.
const MAX_LEN: u32 = 4_294_967_292;

// Below so many bytes the plain loop is the faster one.
const FEW: usize = 112;

// Stores the bytes from a place of a tail on. By a loop, so that the archive for C needs no `memmove`.
fn store(tail: &mut [u8; 4], at: usize, bytes: &[u8])
    requires { at + length bytes.now ≤ 4 }
    ensures { tail.new ≡ sets tail.old at bytes.now }
{
    for (i, &byte) in bytes.iter().enumerate() {
        tail[at + i] = byte;
    }
}

// How many of n bytes go through the fast loop: none of a few, and else all but the last three at most.
fn fours(n: usize) -> usize
    ensures { Fours n result }
{
    if n < FEW { 0 } else { n / 4 * 4 }
}

// The counters and the window after later bytes: some by the fast loop, the others by the plain one.
fn count_all(counters: &mut [u32; 256], variant: u32, w: Window, bytes: &[u8]) -> Window
    ensures { Ran variant bytes.now counters.old w counters.new result }
{
    let (most, last) = bytes.split_at(fours(bytes.len()));
    let next = leap::over(counters, variant, w, most);
    counting::one_by_one(counters, variant, next, last)
}

impl State {
    /// The state of a variant before any byte.
    #[tactic(auto, using(params::proofs::Variants::known_buckets), unfolding(crate::specs::Answer::new_answer, crate::specs::Feed::fresh))]
    pub fn new(variant: u32) -> Result<State, Refusal>
        ensures { result ≡ new_answer variant }
    {
        let variant = Variant::try_from(variant)?;
        Ok(State {
            counters: [0; 256],
            variant: variant.buckets(),
            length: 0,
            checksum: 0,
            tail: [0; 4],
            tail_len: 0,
        })
    }

    // Whether the length field and the tail length have one of the three marks of a state that no bytes reach.
    #[tactic(auto, using(std::proofs::lemmas::Bool::Decides::nat_tests), unfolding(crate::specs::Answer::marked))]
    fn is_marked(&self) -> bool
        ensures { result ≡ marked self.now.length self.now.tail_len }
    {
        TAIL_SIZE < self.tail_len
            || MAX_LEN < self.length
            || self.length != 0 && self.tail_len < TAIL_SIZE
    }

    // Refuses a state of another variant, and then one that no bytes reach.
    #[tactic(auto, using(params::proofs::Variants::known_buckets))]
    fn judge(&self) -> Result<(), Refusal>
        ensures { result ≡ judged self.now Err (Ok tt) }
    {
        Variant::try_from(self.variant)?;
        if self.is_marked() {
            return Err(Refusal::UnreachedState);
        }
        Ok(())
    }

    // Fills the tail with the first of the bytes, as many as it lacks. The answer is how many these are.
    fn fill(&mut self, bytes: &[u8]) -> usize
        requires { self.old.tail_len ≤ 4 }
        ensures filled { result ≡ min (length bytes.now) (4 - self.old.tail_len) }
        ensures state { self.new ≡ feed (take result bytes.now) self.old }
    {
        let n = bytes.len().min((TAIL_SIZE - self.tail_len) as usize);
        let at = self.tail_len as usize;
        store(&mut self.tail, at, &bytes[..n]);
        self.tail_len += n as u32;
        n
    }

    // The window of the checksum and the tail.
    fn window(&self) -> Window
        ensures { Opened self.now result }
    {
        let [b0, b1, b2, b3] = self.tail;
        Window {
            checksum: self.checksum,
            b0,
            b1,
            b2,
            b3,
        }
    }

    // Counts the bytes behind a full tail, as many as the length field has room for.
    fn count(&mut self, bytes: &[u8])
        requires full { bytes.now ≢ [] → self.old.tail_len ≡ 4 }
        requires within { self.old.length ≤ stop }
        ensures { self.new ≡ feed bytes.now self.old }
    {
        let n = bytes.len().min((MAX_LEN - self.length) as usize);
        let before = self.window();
        let after = count_all(&mut self.counters, self.variant, before, &bytes[..n]);
        self.length += n as u32;
        self.checksum = after.checksum;
        self.tail = [after.b0, after.b1, after.b2, after.b3];
    }

    /// Takes the bytes. Where the state is refused it stays as it was.
    pub fn update(&mut self, bytes: &[u8]) -> Result<(), Refusal>
        ensures answer { result ≡ (updated self.old bytes.now).answer }
        ensures state { self.new ≡ (updated self.old bytes.now).state }
    {
        self.judge()?;
        let filled = self.fill(bytes);
        self.count(&bytes[filled..]);
        Ok(())
    }

    /// How many bytes the state has taken, or `None` where they have reached 2^32.
    #[tactic(auto, using(crate::proofs::Answers::judging), unfolding(crate::specs::Answer::processed))]
    pub fn processed_len(&self) -> Result<Option<u32>, Refusal>
        ensures { result ≡ processed self.now }
    {
        self.judge()?;
        Ok(self.length.checked_add(self.tail_len))
    }
}
