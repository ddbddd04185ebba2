// The digest of standard input: the normal variant's text at options 0, or `refused` and the number, and a line feed.
//
// The input is read in blocks of at most 64 KiB to its end. Proved is that the state is the one that all bytes of all reads lead to,
// in their order, where the last read met the end, and that the answer is the one that finalizing gives for that state.
#![tactic(auto)]

ghost use Rattle.std.specs.Prelude.{◌≡◌, ◌+◌, ◌%◌, ◌^◌, replicate};
ghost use Rattle.finalize.specs.Final.{finalized};
ghost use Rattle.saltcurtain.specs.Entries.{given};
ghost use Rattle.reading.specs.Reading.{answered};
ghost use Rattle.digest.specs.Turns.{Turned, Ended, text_in};

use generate::State;
use params::{Refusal, Variant};
use reading::Input;
use std::env::{Env, FillError};
use std::io;
use std::io::{Stdin, Write};

// As many blocks of a byte or more as a state can take bytes: what comes after them changes nothing.
const BLOCKS: u64 = 4_294_967_296;

// One read, whose bytes the state takes. `reads` counts the reads. What an update refuses, finalizing refuses too.
fn one(input: Stdin, state: &mut State, reads: &mut u64) -> io::Result<usize>
    ensures turned { Turned reads.old state.old state.new (answered result) }
    ensures reads_after { reads.new ≡ (reads.old + 1) % 2 ^ 64 }
{
    let mut block = [0u8; 65_536];
    let count = reading::read_block(Input::Standard(input), reads, &mut block)?;
    let _ = state.update(&block[..count]);
    Ok(count)
}

// The state after all bytes, from the fresh state of the normal variant.
fn all(input: Stdin) -> io::Result<State>
    ensures { Ended result }
{
    let mut state = State::new(Variant::Normal.buckets()).unwrap();
    let mut reads = 0;
    for _ in 0..BLOCKS {
        if one(input, &mut state, &mut reads)? == 0 {
            break;
        }
    }
    Ok(state)
}

// The text for a state at options 0.
fn answer_for(state: &State) -> Result<[u8; 72], Refusal>
    ensures { result ≡ text_in (given (finalized state.now 0) (replicate 72 0)) }
{
    let digest = finalize::finalize(state, 0)?;
    let mut text = [0; 72];
    text::write_text(&digest, &mut text)?;
    Ok(text)
}

// Whether the program was given an argument beside its name.
fn has_argument(rt: &HostRuntime) -> bool {
    let mut word = [0u8; 1];
    !matches!(rt.arg(1, &mut word), Err(FillError::NotPresent))
}

fn main(rt: HostRuntime) -> io::Result<()> {
    let mut output = rt.stdout();
    let mut errors = rt.stderr();
    if has_argument(&rt) {
        return errors.write_all(
            b"digest: takes no argument; it reads standard input: digest < FILE\n",
        );
    }
    let Ok(state) = all(rt.stdin()) else {
        return errors.write_all(b"digest: standard input cannot be read\n");
    };
    match answer_for(&state) {
        Ok(text) => {
            output.write_all(&text)?;
            output.write_all(b"\n")
        }
        Err(refusal) => writeln!(output, "refused {}", u32::from(refusal)),
    }
}
