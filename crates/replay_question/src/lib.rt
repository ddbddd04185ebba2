// What a line of the stored list asks (host/README.md, The stored list): a variant, options, the size of the pieces and an input. Of a line
// that breaks a rule of the list, `Err` has the numbers that were read, and 0 for each that was not.
#![tactic(auto)]

ghost use Rattle.std.specs.Prelude.{◌≡◌};
ghost use Rattle.replay_question.specs.Question.{number_after, seed_of, input_of, question_of};

use replay_inputs::Input;

/// What a line asks, or what was read of it.
#[derive(Clone, Copy, Debug, PartialEq, Eq)]
pub struct Question {
    pub variant: u32,
    pub options: u32,
    pub piece: u32,
    pub input: Input,
}

// The number after so many words.
#[tactic(auto, unfolding(crate::specs::Question::number_after))]
fn number_after(line: &[u8], count: usize, most: u32) -> Option<u32>
    ensures { result ≡ number_after line.now count most }
{
    replay_words::read_number(replay_words::word_after(line, count), most)
}

// The seed of a kind; for kind 0, which has a pattern in its place, 0.
#[tactic(auto, unfolding(crate::specs::Question::seed_of))]
fn seed_of(kind: u32, line: &[u8]) -> Option<u32>
    ensures { result ≡ seed_of kind line.now }
{
    if kind == 0 {
        return replay_pattern::is_pattern(replay_words::word_after(line, 4)).then_some(0);
    }
    number_after(line, 4, 2_147_483_647)
}

// The input that a line asks for; where a number of it was not read, those that were, and 0 in the place of the others.
#[tactic(auto, unfolding(crate::specs::Question::input_of))]
fn input_of(line: &[u8]) -> Result<Input, Input>
    ensures { result ≡ input_of line.now }
{
    let kind = number_after(line, 3, 3);
    let seed = seed_of(kind.unwrap_or(0), line);
    let length = number_after(line, 5, 4_294_967_295);
    let input = Input {
        kind: kind.unwrap_or(0),
        seed: seed.unwrap_or(0),
        length: length.unwrap_or(0),
    };
    if kind.is_some() && seed.is_some() && length.is_some() {
        Ok(input)
    } else {
        Err(input)
    }
}

/// What a line asks, where it keeps all rules of the list; else the numbers that were read, and 0 for each that was not.
#[tactic(auto, unfolding(crate::specs::Question::question_of))]
pub fn question_of(line: &[u8]) -> Result<Question, Question>
    ensures { result ≡ question_of line.now }
{
    let variant = number_after(line, 0, 256);
    let options = number_after(line, 1, options::MOST);
    let piece = number_after(line, 2, 65_536);
    let asked = input_of(line);
    let (Ok(input) | Err(input)) = asked;
    let question = Question {
        variant: variant.unwrap_or(0),
        options: options.unwrap_or(0),
        piece: piece.unwrap_or(0),
        input,
    };
    let good = variant.is_some()
        && params::is_known(question.variant)
        && options.is_some()
        && piece.is_some()
        && (0 < question.piece || input.length <= 65_536)
        && asked.is_ok();
    if good { Ok(question) } else { Err(question) }
}
