// The floating preview of a section: equation (8) in f64, over a list of words from a cleared start.
//     S = A × (x - x2) + G × y1 - B × y2, whole and below 2^53, so exact
//     y = S / 2^22, rounded half to even, then saturated to a word
//     remainder = S less 2^22 times the rounded number, ahead of saturation: whole too, so exact
// Its results and remainders are the integer section's. A call that is refused leaves both buffers unchanged.
#![tactic(auto)]

ghost use Rattle.std.specs.Prelude.{◌≡◌, true, length};
ghost use Rattle.rounding.specs.Rounding.{limit};
ghost use Rattle.words.specs.Words.{word_low, word_high};
ghost use Rattle.refusals.specs.Numbers.{is_accepted};
ghost use Rattle.floats.specs.Whole.{float, whole_of};
ghost use Rattle.section.specs.Step.{cleared_section, stepped};
ghost use Rattle.preview.specs.Preview.{are_words, preview_verdict, previewed, buffers_of, section_buffers};
ghost use Rattle.preview.specs.Carried.{carried, carried_step, section_in, StepAsks, LimitWordAsks};

use bands::Band;
use refusals::{Refusal, Verdict};

// A section's numbers as floats: its three coefficients, the two earlier inputs and the two earlier results ("delayed words").
#[derive(Clone, Copy)]
pub struct Preview {
    pub alpha: f64,
    pub beta: f64,
    pub gamma: f64,
    pub x1: f64,
    pub x2: f64,
    pub y1: f64,
    pub y2: f64,
}

// What a step gives: the preview of the section after it, whose y1 is the result, and what the rounding took.
#[derive(Clone, Copy)]
pub struct PreviewStep {
    pub preview: Preview,
    pub remainder: f64,
}

// Fills the front of one buffer with the section's results over the words, and that of the other with its remainders. 8 to 10 for the band, then
// 6 for a buffer shorter than the words, then 15 for a number that is no word: refused, both buffers are unchanged. Entries past the results, and
// past the remainders, keep their contents.
#[tactic(auto, unfolding(crate::specs::Preview::previewed))]
pub fn fill(band: Band, words: &[i32], results: &mut [i32], remainders: &mut [i32]) -> Verdict
    ensures { (result ≡ preview_verdict band words.now (length results.old) (length remainders.old)) × (buffers_of results.new remainders.new ≡ previewed band words.now (buffers_of results.old remainders.old)) }
{
    check(band, words, results.len(), remainders.len())?;
    run(band, words, results, remainders);
    Ok(())
}

// Accepted, or the first refusal that applies.
#[tactic(auto, unfolding(crate::specs::Preview::preview_verdict))]
fn check(band: Band, words: &[i32], results: usize, remainders: usize) -> Verdict
    ensures { result ≡ preview_verdict band words.now results remainders }
{
    bands::check_band(band)?;
    if !((words.len() <= results) & (words.len() <= remainders)) {
        return Err(Refusal::OutputShort);
    }
    if !are_words(words) {
        return Err(Refusal::NotWord);
    }
    Ok(())
}

// Whether every number is a word.
#[tactic(auto, unfolding(crate::specs::Preview::are_words))]
fn are_words(words: &[i32]) -> bool
    ensures { result ≡ are_words words.now }
{
    words.iter().all(|word| words::is_word(*word))
}

// An accepted call: each word steps the preview, and the result and the remainder are stored.
fn run(band: Band, words: &[i32], results: &mut [i32], remainders: &mut [i32])
    requires { is_accepted (preview_verdict band words.now (length results.old) (length remainders.old)) ≡ true }
    ensures { buffers_of results.new remainders.new ≡ section_buffers band words.now (buffers_of results.old remainders.old) }
{
    let mut preview = cleared(band);
    for (i, word) in words.iter().enumerate() {
        let answer = step(preview, *word);
        preview = answer.preview;
        results[i] = preview.y1 as i32;
        remainders[i] = answer.remainder as i32;
    }
}

// The preview of a cleared section.
fn cleared(band: Band) -> Preview
    ensures { result ≡ carried (cleared_section band) }
{
    Preview {
        alpha: f64::from(band.alpha),
        beta: f64::from(band.beta),
        gamma: f64::from(band.gamma),
        x1: 0.0,
        x2: 0.0,
        y1: 0.0,
        y2: 0.0,
    }
}

// 2^22: S has 22 bits below the unit of a word.
const SUM_SCALE: f64 = section::SUM_SCALE as f64;

// One step on the input x. The leading zero leaves no minus zero in S. G × y1 comes last, since y1 comes last from the step before. S / 2^22 and
// the remainder are exact.
fn step(preview: Preview, x: i32) -> PreviewStep
    requires { StepAsks preview x }
    ensures { result ≡ carried_step (stepped (section_in preview) x) }
{
    let input = x as f64;
    let sum = 0.0 + preview.alpha * (input - preview.x2) - preview.beta * preview.y2
        + preview.gamma * preview.y1;
    let rounded = floats::nearest_whole(sum / SUM_SCALE);
    PreviewStep {
        preview: Preview {
            x1: input,
            x2: preview.x1,
            y1: limit_word(rounded),
            y2: preview.y1,
            ..preview
        },
        remainder: sum - SUM_SCALE * rounded,
    }
}

// The ends of a word.
const WORD_LOW: f64 = words::WORD_LOW as f64;

const WORD_HIGH: f64 = words::WORD_HIGH as f64;

// A whole number limited to a word.
fn limit_word(rounded: f64) -> f64
    requires { LimitWordAsks rounded }
    ensures { result ≡ float (limit word_low word_high (whole_of rounded)) }
{
    if rounded < WORD_LOW {
        WORD_LOW
    } else if WORD_HIGH < rounded {
        WORD_HIGH
    } else {
        rounded
    }
}
