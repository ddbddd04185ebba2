// The options of a digest: five flags, and the number that carries them at the C entry points (generate.rs).
//
// Two of the flags choose how a digest is made: which minimum length counts, and which path works out the ratios. The other
// three let through what is refused otherwise. The half option does not lift the refusal of counters that are three quarters
// empty, while the quarter option lifts both.
//
// A setter by value takes a record and gives back a new one. A setter of a lent record changes one field where it lies.
#![tactic(auto)]

ghost use Rattle.std.specs.Prelude.{◌≡◌};
ghost use Rattle.options.specs.Options.{clear, chosen};
ghost use Rattle.options.specs.Setters.{with_conservative, with_integer, with_small, with_half, with_quarter};

use params::Refusal;

/// The five flags. All are clear by default.
#[repr(C)]
#[derive(Clone, Copy, Debug, Default, PartialEq, Eq)]
pub struct Options {
    /// The longer minimum lengths (`length_processing_mode`).
    pub conservative: bool,
    /// The ratios by whole numbers (`pure_integer_qratio_computation`).
    pub integer: bool,
    /// Inputs shorter than the minimum (`allow_small_size_files`).
    pub small: bool,
    /// Counters of which half are 0 (`allow_statistically_weak_buckets_half`).
    pub half: bool,
    /// Counters of which three quarters are 0 (`allow_statistically_weak_buckets_quarter`).
    pub quarter: bool,
}

/// The greatest option number: all five flags.
pub const MOST: u32 = 31;

/// The options of a number: 1 conservative, 2 integer, 4 small, 8 half, 16 quarter, added. Any other bit is refused.
#[tactic(auto, using(crate::proofs::Bits::bits), unfolding(crate::specs::Options::chosen))]
pub fn options_of(n: u32) -> Result<Options, Refusal>
    ensures { result ≡ chosen n }
{
    if MOST < n {
        return Err(Refusal::UnknownOption);
    }
    Ok(Options {
        conservative: n & 1 != 0,
        integer: n & 2 != 0,
        small: n & 4 != 0,
        half: n & 8 != 0,
        quarter: n & 16 != 0,
    })
}

impl Options {
    /// All flags clear: the default.
    pub fn new() -> Options
        ensures { result ≡ clear }
    {
        Options::default()
    }

    /// The options with `conservative` set to `v`, the other four as they were.
    pub fn with_conservative(self, v: bool) -> Options
        ensures { result ≡ with_conservative self v }
    {
        Options {
            conservative: v,
            ..self
        }
    }

    /// Sets `conservative` to `v` where the options lie, and leaves the other four.
    pub fn set_conservative(&mut self, v: bool)
        ensures { self.new ≡ with_conservative self.old v }
    {
        *self = self.with_conservative(v);
    }

    /// The options with `integer` set to `v`, the other four as they were.
    pub fn with_integer(self, v: bool) -> Options
        ensures { result ≡ with_integer self v }
    {
        Options { integer: v, ..self }
    }

    /// Sets `integer` to `v` where the options lie, and leaves the other four.
    pub fn set_integer(&mut self, v: bool)
        ensures { self.new ≡ with_integer self.old v }
    {
        *self = self.with_integer(v);
    }

    /// The options with `small` set to `v`, the other four as they were.
    pub fn with_small(self, v: bool) -> Options
        ensures { result ≡ with_small self v }
    {
        Options { small: v, ..self }
    }

    /// Sets `small` to `v` where the options lie, and leaves the other four.
    pub fn set_small(&mut self, v: bool)
        ensures { self.new ≡ with_small self.old v }
    {
        *self = self.with_small(v);
    }

    /// The options with `half` set to `v`, the other four as they were.
    pub fn with_half(self, v: bool) -> Options
        ensures { result ≡ with_half self v }
    {
        Options { half: v, ..self }
    }

    /// Sets `half` to `v` where the options lie, and leaves the other four.
    pub fn set_half(&mut self, v: bool)
        ensures { self.new ≡ with_half self.old v }
    {
        *self = self.with_half(v);
    }

    /// The options with `quarter` set to `v`, the other four as they were.
    pub fn with_quarter(self, v: bool) -> Options
        ensures { result ≡ with_quarter self v }
    {
        Options { quarter: v, ..self }
    }

    /// Sets `quarter` to `v` where the options lie, and leaves the other four.
    pub fn set_quarter(&mut self, v: bool)
        ensures { self.new ≡ with_quarter self.old v }
    {
        *self = self.with_quarter(v);
    }
}
