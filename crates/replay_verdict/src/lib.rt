// The verdict on a line of the stored list (host/README.md, The stored list).
//
// A line is judged as a whole: the input is made by its rule and fed in pieces, the state is finalized, and the text, or `refused` and
// the number, is held to the line's last words character by character.
#![tactic(auto)]

ghost use Rattle.std.specs.Prelude.{◌≡◌};
ghost use Rattle.finalize.specs.Final.{finalized};
ghost use Rattle.replay_verdict.specs.Line.{is_refusal, is_text, is_answer, verdict_of, verdict_in};

use generate::State;
use hash::Digest;

/// What comes of a line: the answer that is defined, another one, or no line of the list at all.
#[derive(Clone, Copy, Debug, PartialEq, Eq)]
pub enum Verdict {
    Same,
    Another,
    Malformed,
}

// Whether a line's answer is `refused` and a number.
#[tactic(auto, unfolding(crate::specs::Line::is_refusal))]
fn is_refusal(line: &[u8], number: u32) -> bool
    ensures { result ≡ is_refusal line.now number }
{
    replay_words::same_text(replay_words::word_after(line, 6), b"refused")
        && replay_words::read_number(replay_words::rest_after(line, 7), u32::MAX) == Some(number)
}

// Whether a line's answer is a digest's text.
#[tactic(auto, unfolding(crate::specs::Line::is_text))]
fn is_text(line: &[u8], digest: &Digest) -> bool
    ensures { result ≡ is_text line.now digest.now }
{
    let Ok(size) = text::text_size(digest.variant) else {
        return false;
    };
    let mut text = [0u8; 136];
    let _ = text::write_text(digest, &mut text);
    replay_words::same_text(replay_words::rest_after(line, 6), &text[..size])
}

// Whether a line's answer is what finalizing a state gives.
#[tactic(auto, unfolding(crate::specs::Line::is_answer))]
fn is_answer(line: &[u8], state: &State, options: u32) -> bool
    ensures { result ≡ is_answer line.now (finalized state.now options) }
{
    match finalize::finalize(state, options) {
        Ok(digest) => is_text(line, &digest),
        Err(refusal) => is_refusal(line, refusal.into()),
    }
}

// The verdict on a line.
#[tactic(auto, unfolding(crate::specs::Line::verdict_of))]
fn judge_line(line: &[u8]) -> Verdict
    ensures { result ≡ verdict_of line.now }
{
    let Ok(question) = replay_question::question_of(line) else {
        return Verdict::Malformed;
    };
    let Ok(mut state) = State::new(question.variant) else {
        return Verdict::Malformed;
    };
    let digits = replay_words::word_after(line, 4);
    replay_inputs::feed_input(&mut state, question.piece, question.input, digits);
    if is_answer(line, &state, question.options) {
        Verdict::Same
    } else {
        Verdict::Another
    }
}

/// The verdict on the line that is the first so many characters of a room. Where the room has not so many, it is malformed.
#[tactic(auto, unfolding(crate::specs::Line::verdict_in))]
pub fn judge(room: &[u8], size: usize) -> Verdict
    ensures { result ≡ verdict_in room.now size }
{
    room.get(..size).map_or(Verdict::Malformed, judge_line)
}
