// The variants, and the refusals (params.rs, errors.rs).
#![tactic(auto)]

ghost use Rattle.std.specs.Prelude.{◌≡◌, min};
ghost use Rattle.params.specs.Variants.{known, buckets, Names};
ghost use Rattle.params.specs.Answers.{number_of, answer_number};

use std::error::Error;
use std::fmt;

/// A variant, which C and a digest's record name by its number of used buckets.
#[derive(Clone, Copy, Debug, PartialEq, Eq, Hash)]
pub enum Variant {
    Short,
    Normal,
    Long,
}

impl Variant {
    /// The number of used buckets.
    pub fn buckets(self) -> u32
        ensures { result ≡ buckets self }
    {
        match self {
            Variant::Short => 48,
            Variant::Normal => 128,
            Variant::Long => 256,
        }
    }
}

impl TryFrom<u32> for Variant {
    type Error = Refusal;

    ghost try_from_gives = { Names };

    #[tactic(auto, unfolding(crate::specs::Variants::known))]
    fn try_from(number: u32) -> Result<Self, Refusal> {
        match number {
            48 => Ok(Variant::Short),
            128 => Ok(Variant::Normal),
            256 => Ok(Variant::Long),
            _ => Err(Refusal::UnknownVariant),
        }
    }
}

/// Why an answer is not given.
#[derive(Clone, Copy, Debug, PartialEq, Eq, Hash)]
pub enum Refusal {
    TooLargeInput = 1,
    TooSmallInput = 2,
    ThreeQuarterEmpty = 3,
    HalfEmpty = 4,
    NoLengthCode = 5,
    UnknownVariant = 6,
    ShortDestination = 7,
    WrongSize = 8,
    WrongCharacter = 9,
    UnknownOption = 10,
    UnorderedQuartiles = 11,
    UnlikeDigests = 12,
    UnreachedState = 19,
}

impl From<Refusal> for u32 {
    ghost from_gives = { λ refusal number. number ≡ number_of refusal };

    fn from(refusal: Refusal) -> u32 {
        refusal as u32
    }
}

impl fmt::Display for Refusal {
    fn fmt<W: fmt::Write>(&self, f: &mut fmt::Formatter<W>) -> fmt::Result {
        f.write_str(match self {
            Refusal::TooLargeInput => "the input is longer than the variant takes",
            Refusal::TooSmallInput => "the input is shorter than the variant and the mode take",
            Refusal::ThreeQuarterEmpty => "the third quartile is 0",
            Refusal::HalfEmpty => "too few used counters are not 0",
            Refusal::NoLengthCode => "no code for the length",
            Refusal::UnknownVariant => "the variant is not 48, 128 or 256",
            Refusal::ShortDestination => "the destination is shorter than the text",
            Refusal::WrongSize => "the text is of the wrong size",
            Refusal::WrongCharacter =>
                "the text does not begin T1, or a character is not 0-9 or A-F",
            Refusal::UnknownOption => "an unknown option bit",
            Refusal::UnorderedQuartiles => "the quartiles are not ordered, or the third is 0",
            Refusal::UnlikeDigests => "the digests are of different variants",
            Refusal::UnreachedState => "no bytes lead to the state",
        })
    }
}

impl Error for Refusal {}

/// The number of an answer that has no value: 0, or the refusal's.
pub fn answer_number(answer: Result<(), Refusal>) -> u32
    ensures { result ≡ answer_number answer }
{
    match answer {
        Ok(()) => 0,
        Err(refusal) => u32::from(refusal),
    }
}

/// Whether a number is that of a variant.
#[tactic(auto, unfolding(crate::specs::Variants::known))]
pub fn is_known(variant: u32) -> bool
    ensures { result ≡ known variant }
{
    Variant::try_from(variant).is_ok()
}

/// The smaller of two numbers.
pub fn smaller(a: usize, b: usize) -> usize
    ensures { result ≡ min a b }
{
    a.min(b)
}
