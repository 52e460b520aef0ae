// Frames of sound through the engine, for any number of pairs of channels. In a frame each channel has a sample of two bytes, low byte first; the
// samples of a pair are neighbours.
// Where a sample goes: `read_words` takes it from the bytes, `mix_words` hands it to the engine, and what is heard goes back through `put_sounds`: three
// passes over 64 frames of a pair.
#![tactic(auto)]

ghost use Rattle.std.specs.Prelude.{◌≡◌, ◌+◌, ◌<◌, min, length, ◌≤ℤ◌};
ghost use Rattle.unit.specs.Frame.{sample_low, sample_high};
ghost use Rattle.floats.specs.Whole.{float};
ghost use Rattle.frames.specs.Bytes.{sample_at, word_at};
ghost use Rattle.frames.specs.Column.{put_sample};
ghost use Rattle.frames.specs.Run.{pass_frames, ReadWordsAsks, ReadWordsGives, MixWordsAsks, MixWordsGives, PutSoundsAsks, PutSoundsGives, PairFramesAsks, PairFramesGives, FramesAsks, FramesGives};

use engine::{FloatLevel, Sides};

// The bytes of a sample, of a pair's samples, and of a frame.
pub const SAMPLE_SIZE: usize = 2;

const PAIR_SIZE: usize = SAMPLE_SIZE * engine::SIDE_COUNT;

pub const FRAME_SIZE: usize = SAMPLE_SIZE * unit::CHANNEL_COUNT;

// The frames of a pass, and their words of a pair.
const PASS_FRAMES: usize = 64;

const PASS_WORDS: usize = engine::SIDE_COUNT * PASS_FRAMES;

// So many frames of all pairs, from the front of the input to the front of the output. In each the volume moves first. Gives the volume after
// them.
pub fn frames(
    bands: &[f64; engine::SET_FLOATS],
    sides: &mut [f64],
    pairs: usize,
    volume: FloatLevel,
    count: usize,
    input: &[u8],
    output: &mut [u8],
) -> FloatLevel
    requires { FramesAsks bands.now sides.old pairs volume count input.now output.old }
    ensures { FramesGives bands.now sides.old pairs volume count input.now output.old result sides.new output.new }
{
    let size = SAMPLE_SIZE * (engine::SIDE_COUNT * pairs);
    let mut level = volume;
    for p in 0..pairs {
        let from = engine::PAIR_FLOATS * p;
        let to = from + engine::PAIR_FLOATS;
        level = pair_frames(
            bands,
            &mut sides[from..to],
            volume,
            size,
            PAIR_SIZE * p,
            count,
            input,
            output,
        );
    }
    level
}

// So many frames of one pair, whose samples stand at `at` in frames of so many bytes. Gives the volume after them.
fn pair_frames(
    bands: &[f64; engine::SET_FLOATS],
    pair: &mut [f64],
    volume: FloatLevel,
    size: usize,
    at: usize,
    count: usize,
    input: &[u8],
    output: &mut [u8],
) -> FloatLevel
    requires { PairFramesAsks bands.now pair.old volume size at count input.now output.old }
    ensures { PairFramesGives bands.now pair.old volume size at count input.now output.old result pair.new output.new }
{
    let mut words = [0.0f64; PASS_WORDS];
    let mut level = volume;
    let mut done = 0;
    // A `while`: the last pass may be shorter.
    while done < count {
        let left = count - done;
        let n = pass_frames(left);
        let from = size * done + at;
        read_words(&mut words, input, size, from, n);
        mix_words(bands, pair, &mut words, n);
        level = put_sounds(&words, level, output, size, from, n);
        done += n;
    }
    level
}

// The frames of the next pass, where so many are left.
fn pass_frames(left: usize) -> usize
    ensures { result ≡ min pass_frames left }
{
    left.min(PASS_FRAMES)
}

// The input words of a pair in so many frames: x = 256 × s.
fn read_words(words: &mut [f64], input: &[u8], size: usize, at: usize, count: usize)
    requires { ReadWordsAsks words.old input.now size at count }
    ensures { ReadWordsGives input.now size at count words.new }
{
    for k in 0..count {
        let second = at + SAMPLE_SIZE;
        let x = Sides {
            first: word(input, size * k + at),
            second: word(input, size * k + second),
        };
        engine::put_sides(words, engine::SIDE_COUNT * k, x);
    }
}

// The frames of a pair on these words: each frame's words become its T.
fn mix_words(bands: &[f64; engine::SET_FLOATS], pair: &mut [f64], words: &mut [f64], count: usize)
    requires { MixWordsAsks bands.now pair.old words.old count }
    ensures { MixWordsGives bands.now pair.old words.old count pair.new words.new }
{
    for k in 0..count {
        let x = engine::sides_at(words, engine::SIDE_COUNT * k);
        let totals = engine::frame(bands, pair, x);
        engine::put_sides(words, engine::SIDE_COUNT * k, totals);
    }
}

// What is heard of a pair in so many frames, from T of each: the volume moves, and the samples are stored. Gives the volume after them.
fn put_sounds(
    totals: &[f64],
    volume: FloatLevel,
    output: &mut [u8],
    size: usize,
    at: usize,
    count: usize,
) -> FloatLevel
    requires { PutSoundsAsks totals.now volume output.old size at count }
    ensures { PutSoundsGives totals.now volume output.old size at count result output.new }
{
    let mut level = volume;
    for k in 0..count {
        let second = at + SAMPLE_SIZE;
        level = level.moved(levels::VOLUME_SLOPE);
        let total = engine::sides_at(totals, engine::SIDE_COUNT * k);
        put_sample(
            output,
            size * k + at,
            engine::output(level.present, total.first),
        );
        put_sample(
            output,
            size * k + second,
            engine::output(level.present, total.second),
        );
    }
    level
}

// The input word of the two bytes at `at`.
fn word(input: &[u8], at: usize) -> f64
    requires { at + 1 < length input.now }
    ensures { result ≡ float (word_at input.now at) }
{
    (256 * sample(input, at)) as f64
}

// The sample in the two bytes at `at`.
fn sample(input: &[u8], at: usize) -> i64
    requires { at + 1 < length input.now }
    ensures { result ≡ sample_at input.now at }
{
    i16::from_le_bytes([input[at], input[at + 1]]) as i64
}

// Stores a sample in the two bytes at `at`.
fn put_sample(output: &mut [u8], at: usize, sample: i64)
    requires { (at + 1 < length output.old) × (sample_low ≤ℤ sample) × (sample ≤ℤ sample_high) }
    ensures { output.new ≡ put_sample output.old at sample }
{
    let bytes = (sample as i16).to_le_bytes();
    output[at] = bytes[0];
    output[at + 1] = bytes[1];
}
