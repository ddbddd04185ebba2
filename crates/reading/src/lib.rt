// Reading in blocks: the one place where bytes come in.
#![tactic(auto)]

ghost use Rattle.std.specs.Prelude.{◌≡◌, ◌+◌, ◌%◌, ◌^◌};
ghost use Rattle.std.specs.Io.{ReadsAtMost};
ghost use Rattle.reading_seal.specs.Came.{Came};
ghost use Rattle.reading.specs.Reading.{Read, descriptor_of, answered};

use std::fs::File;
use std::io;
use std::io::{Read as Reader, Stdin};

/// What is read: standard input, or an open file. `descriptor_of` names its file descriptor.
#[derive(Clone, Copy)]
pub enum Input<'a> {
    Standard(Stdin),
    Opened(&'a File),
}

// One read, number `number` of the input: what the system answers to it, with the bytes that it counts at the front of the block.
#[tactic(auto, using(reading_seal::specs::Came::came))]
fn read_once(input: Input, number: u64, block: &mut [u8]) -> io::Result<usize>
    ensures came { Came (descriptor_of input.entry) number block.new (answered result) }
    ensures within { ReadsAtMost result block.new }
{
    match input {
        Input::Standard(mut standard) => standard.read(block),
        Input::Opened(mut opened) => opened.read(block),
    }
}

/// One read of a file descriptor into a block: how many bytes it put at the front of the block, 0 at the end of the input. `reads` counts
/// the reads, rolls over at 2^64, and is the number of this one.
#[tactic(auto, using(crate::proofs::Laws::read_is))]
pub fn read_block(input: Input, reads: &mut u64, block: &mut [u8]) -> io::Result<usize>
    ensures read { Read (descriptor_of input.entry) reads.old block.new (answered result) }
    ensures reads_after { reads.new ≡ (reads.old + 1) % 2 ^ 64 }
{
    let number = *reads;
    *reads = number.wrapping_add(1);
    read_once(input, number, block)
}
