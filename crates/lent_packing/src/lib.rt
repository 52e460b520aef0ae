// The engine's floats from the 138 numbers of a unit that are lent, and these numbers from the floats: docs/SPECIFICATION.md, The C
// library, has their order. The numbers of a channel's sections stand one behind the other in both orders, and so do the coefficients of all
// bands.
#![tactic(auto)]

ghost use Rattle.std.specs.Prelude.{◌≡◌, drop};
ghost use Rattle.words.specs.Words.{word_size};
ghost use Rattle.floats.specs.Whole.{whole_of};
ghost use Rattle.engine.specs.Floats.{Carries, float_level};
ghost use Rattle.packing.specs.Packing.{BandFloatsGives, PairFloatsGives};
ghost use Rattle.numbers.specs.Layout.{left_place, right_place, numbers_of, channel_of, unit_of};
ghost use Rattle.lent_packing.specs.Runs.{PutRunsAsks, PutRunsGives, TakeRunsAsks, TakeRunsGives};
ghost use Rattle.lent_packing.specs.Store.{unit_stored, StoreAsks};

use engine::FloatLevel;

// Two runs of lent numbers, one for each side: where they begin, and how many numbers each has. Their floats stand as neighbours, from
// place at on.
#[derive(Clone, Copy)]
struct Runs {
    first: usize,
    second: usize,
    count: usize,
    at: usize,
}

// The coefficients of all bands, which are those of both sides.
const BANDS: Runs = Runs {
    first: numbers::BANDS,
    second: numbers::BANDS,
    count: bands::SET_SIZE,
    at: 0,
};

// The sections of the left and of the right channel, and x1, x2 and the flag, which stand ahead of them.
const SECTIONS: Runs = Runs {
    first: numbers::LEFT + numbers::HEAD_SIZE,
    second: numbers::RIGHT + numbers::HEAD_SIZE,
    count: numbers::SECTION_SIZE * bands::BAND_COUNT,
    at: 0,
};

const HEADS: Runs = Runs {
    first: numbers::LEFT,
    second: numbers::RIGHT,
    count: numbers::HEAD_SIZE,
    at: engine::X1,
};

// The bands, on both sides of a pair.
pub fn band_floats_at(numbers: &[i32; numbers::UNIT_SIZE]) -> [f64; engine::SET_FLOATS]
    ensures { BandFloatsGives (unit_of numbers.now).bands result }
{
    let mut floats = [0.0; engine::SET_FLOATS];
    put_runs(&mut floats, numbers, BANDS);
    floats
}

// The two channels, as the sides of a pair.
pub fn pair_floats_at(numbers: &[i32; numbers::UNIT_SIZE]) -> [f64; engine::PAIR_FLOATS]
    ensures { PairFloatsGives (channel_of (drop left_place numbers.now)) (channel_of (drop right_place numbers.now)) result }
{
    let mut pair = [0.0; engine::PAIR_FLOATS];
    put_runs(&mut pair, numbers, SECTIONS);
    put_runs(&mut pair, numbers, HEADS);
    pair
}

// The volume.
pub fn volume_floats_at(numbers: &[i32; numbers::UNIT_SIZE]) -> FloatLevel
    ensures { result ≡ float_level (unit_of numbers.now).volume }
{
    FloatLevel {
        present: f64::from(numbers[0]),
        target: f64::from(numbers[1]),
    }
}

// Stores the floats of two runs of numbers.
fn put_runs(floats: &mut [f64], numbers: &[i32; numbers::UNIT_SIZE], runs: Runs)
    requires { PutRunsAsks runs.at runs.first runs.second runs.count floats.old }
    ensures { PutRunsGives runs.at runs.first runs.second runs.count floats.old numbers.now floats.new }
{
    for k in 0..runs.count {
        let place = runs.at + engine::SIDE_COUNT * k;
        floats[place] = f64::from(numbers[runs.first + k]);
        floats[place + 1] = f64::from(numbers[runs.second + k]);
    }
}

// Stores a volume and the two channels of a pair; the bands stay.
pub fn store(numbers: &mut [i32; numbers::UNIT_SIZE], volume: FloatLevel, pair: &[f64])
    requires { StoreAsks numbers.old volume pair.now }
    ensures { numbers.new ≡ numbers_of (unit_stored (unit_of numbers.old).bands volume pair.now) }
{
    numbers[0] = whole_of(volume.present);
    numbers[1] = whole_of(volume.target);
    take_runs(numbers, pair, SECTIONS);
    take_runs(numbers, pair, HEADS);
}

// Stores two runs of numbers from their floats.
fn take_runs(numbers: &mut [i32; numbers::UNIT_SIZE], floats: &[f64], runs: Runs)
    requires { TakeRunsAsks runs.at runs.first runs.second runs.count numbers.old floats.now }
    ensures { TakeRunsGives runs.at runs.first runs.second runs.count numbers.old floats.now numbers.new }
{
    for k in 0..runs.count {
        let place = runs.at + engine::SIDE_COUNT * k;
        numbers[runs.first + k] = whole_of(floats[place]);
        numbers[runs.second + k] = whole_of(floats[place + 1]);
    }
}

// The number that a float stands for, of at most 2^23 in size. One for all integers would need a trait: a cast is to a type that is named.
fn whole_of(x: f64) -> i32
    requires { Carries x word_size }
    ensures { result ≡ whole_of x }
{
    x as i32
}
