// Replays the stored list of fast-tlsh's answers, `answers.txt` in the folder that it is run in: each line asks for the digest of an
// input that a rule makes, and has the answer. host/README.md says what stands in a line.
//
// What is written is a line for each of the first ten lines that differ or are malformed, and a last line that counts all. Proved is
// that the counts are those of all bytes of all reads, in their order, each line judged as `replay_verdict::judge` does.
#![tactic(auto)]

ghost use Rattle.std.specs.Prelude.{◌≡◌, ◌+◌, ◌%◌, ◌^◌, [], ◌∷◌};
ghost use Rattle.std.specs.Fd.{file_raw_fd};
ghost use Rattle.reading.specs.Reading.{answered};

use reading::Input;
use replay_verdict::Verdict;
use std::fs::File;
use std::io;
use std::io::{Stdout, Write};

// As many blocks are read; no list is longer.
const BLOCKS: u64 = 16_777_216;

// As many lines are shown that differ or are malformed.
const SHOWN: u64 = 10;

// Says what is wrong with a line, unless so many have been shown.
fn report(mut output: Stdout, line: u64, verdict: Verdict, shown: u64) {
    if SHOWN <= shown {
        return;
    }
    let _ = match verdict {
        Verdict::Same => return,
        Verdict::Another => writeln!(output, "line {line} differs"),
        Verdict::Malformed => writeln!(output, "line {line} is malformed"),
    };
}

// The lines so far, those of them that were not the same, and the line that is being read: its characters, and how many they are. A
// line that has no room has a size past the room's end, and so is malformed.
#[derive(Clone, Copy)]
struct Tally {
    lines: u64,
    wrong: u64,
    line: [u8; 320],
    size: usize,
}

impl Tally {
    ghost use Rattle.replay.specs.Lines.{Counted, Goes, Turned, Listed};

    // Before the first byte.
    fn new() -> Tally
        ensures { Counted [] result }
    {
        Tally {
            lines: 0,
            wrong: 0,
            line: [0; 320],
            size: 0,
        }
    }

    // Judges the line that has come to its end.
    fn take_line(&mut self, output: Stdout)
        ensures { Goes self.old (10 ∷ []) self.new }
    {
        self.lines = self.lines.wrapping_add(1);
        match replay_verdict::judge(&self.line, self.size) {
            Verdict::Same => {}
            verdict => {
                report(output, self.lines, verdict, self.wrong);
                self.wrong = self.wrong.wrapping_add(1);
            }
        }
        self.size = 0;
    }

    // Takes a character in.
    fn take_byte(&mut self, output: Stdout, byte: u8)
        ensures { Goes self.old (byte ∷ []) self.new }
    {
        if byte == b'\n' {
            self.take_line(output);
        } else if self.size < self.line.len() {
            self.line[self.size] = byte;
            self.size += 1;
        } else {
            self.size = self.line.len() + 1;
        }
    }

    // Takes the characters of a block in.
    fn take_block(&mut self, output: Stdout, block: &[u8])
        ensures { Goes self.old block.now self.new }
    {
        for &byte in block {
            self.take_byte(output, byte);
        }
    }

    // Reads a block, and takes it in. `reads` counts the reads.
    fn read_block(&mut self, output: Stdout, list: &File, reads: &mut u64) -> io::Result<usize>
        ensures turned { Turned (file_raw_fd list.now) reads.old self.old self.new (answered result) }
        ensures reads_after { reads.new ≡ (reads.old + 1) % 2 ^ 64 }
    {
        let mut block = [0u8; 65_536];
        let count = reading::read_block(Input::Opened(list), reads, &mut block)?;
        if count > 0 {
            self.take_block(output, &block[..count]);
        }
        Ok(count)
    }

    // Reads the list, and says whether it was read to its end.
    fn read_list(&mut self, output: Stdout, list: &File) -> io::Result<bool>
        requires { Counted [] self.old }
        ensures { Listed (file_raw_fd list.now) self.new result }
    {
        let mut reads = 0;
        for _ in 0..BLOCKS {
            if self.read_block(output, list, &mut reads)? == 0 {
                return Ok(true);
            }
        }
        Ok(false)
    }

    // Says how a reading ended, where it is not at the end of a line and of the list, and what it counted.
    fn conclude(&self, mut output: Stdout, ended: bool) -> io::Result<()> {
        if !ended {
            output.write_all(b"answers.txt cannot be read to its end\n")?;
        }
        if self.size != 0 {
            output.write_all(b"the last line has no end\n")?;
        }
        writeln!(
            output,
            "replayed {} answers, {} differ",
            self.lines, self.wrong
        )
    }
}

fn main(rt: HostRuntime) -> io::Result<()> {
    let mut output = rt.stdout();
    let Ok(list) = File::open(&rt, "answers.txt") else {
        return output.write_all(b"answers.txt cannot be opened\n");
    };
    let mut tally = Tally::new();
    let ended = tally.read_list(output, &list).unwrap_or(false);
    tally.conclude(output, ended)
}
