// A frame of two sides, in f64: docs/ARCHITECTURE.md, The engine. Every number here is whole and below 2^53, so that products, sums and
// differences are exact; what is rounded and limited is said at each function. specs/Layout.antt is where each number stands.
// The sides of a pair are neighbours, and one function serves both: the compiler works them together.
#![tactic(auto)]

ghost use Rattle.std.specs.Prelude.{◌≡◌, ◌+◌, ◌-◌, ◌<◌, length};
ghost use Rattle.rounding.specs.Rounding.{nearest};
ghost use Rattle.floats.specs.Whole.{whole_of};
ghost use Rattle.levels.specs.Levels.{moved};
ghost use Rattle.unit.specs.Frame.{output};
ghost use Rattle.engine.specs.Floats.{level_in, float_level};
ghost use Rattle.engine.specs.Layout.{set_floats, float_band_at, float_section_at, put_section, sides_at, put_sides};
ghost use Rattle.engine.specs.Frame.{lesser, greater, limited_float, LevelCarries, LimitAsks, unless_limited, increased_by, carried_by, turned, TurnAsks, tallies_after, pair_after, TurnPairAsks, between, after_turns, TurnBandsAsks, FrameAsks, FrameGives, OutputAsks};

// The sides of a pair.
pub const SIDE_COUNT: usize = 2;

// The floats of a band, and of all bands.
pub const BAND_FLOATS: usize = SIDE_COUNT * bands::BAND_SIZE;

pub const SET_FLOATS: usize = BAND_FLOATS * bands::BAND_COUNT;

// The floats of both sections of a band, and of a pair: behind its sections stand x1, x2 and the flag of each side.
pub const SECTION_FLOATS: usize = SIDE_COUNT * 5;

pub const X1: usize = SECTION_FLOATS * bands::BAND_COUNT;

pub const X2: usize = X1 + SIDE_COUNT;

pub const FLAG: usize = X2 + SIDE_COUNT;

pub const PAIR_FLOATS: usize = FLAG + SIDE_COUNT;

// 2^22, 2^23 and 2^31: S has 22 bits below the unit of a word, T has 23, and V × m has 31 below the unit of a sample.
const SUM_SCALE: f64 = section::SUM_SCALE as f64;

const MIX_SCALE: f64 = 8388608.0;

const OUTPUT_SCALE: f64 = 2147483648.0;

// The ends of a word.
const WORD_LOW: f64 = words::WORD_LOW as f64;

const WORD_HIGH: f64 = words::WORD_HIGH as f64;

// The ends of a sample: 16 bits, signed.
const SAMPLE_LOW: f64 = -32768.0;

const SAMPLE_HIGH: f64 = 32767.0;

// Types of their own beside Band, Level and BandSection: no function serves both kinds of number, since floats move and are stored otherwise.

// A band's coefficients.
#[derive(Clone, Copy)]
pub struct FloatBand {
    pub alpha: f64,
    pub beta: f64,
    pub gamma: f64,
}

// A level: its present number and its target.
#[derive(Clone, Copy)]
pub struct FloatLevel {
    pub present: f64,
    pub target: f64,
}

// A section of a channel: its two earlier results, its gain, and the remainder that is added to the next S.
#[derive(Clone, Copy)]
pub struct FloatSection {
    pub y1: f64,
    pub y2: f64,
    pub gain: FloatLevel,
    pub remainder: f64,
}

// What each side of a pair has: a number, or a tally.
#[derive(Clone, Copy)]
pub struct Sides<T> {
    pub first: T,
    pub second: T,
}

// What a channel's sections add up in a frame: T as far as it goes, and the flag, 1 once a section has limited, else 0.
#[derive(Clone, Copy)]
pub struct Tally {
    pub total: f64,
    pub flag: f64,
}

// A section after its turn, and the channel's tally.
#[derive(Clone, Copy)]
pub struct Turned {
    pub section: FloatSection,
    pub tally: Tally,
}

// v limited to the range from low to high: a choice for each end, for which the compiler needs no branch. It fences each operand of a comparison off
// from the choice, so no order of the two, nor f64::min and max, becomes one instruction for a minimum.
fn limited(low: f64, high: f64, v: f64) -> f64
    ensures { result ≡ limited_float low high v }
{
    most(low, least(high, v))
}

// The lesser of high and v.
fn least(high: f64, v: f64) -> f64
    ensures { result ≡ lesser high v }
{
    if v < high { v } else { high }
}

// The greater of low and v.
fn most(low: f64, v: f64) -> f64
    ensures { result ≡ greater low v }
{
    if low < v { v } else { low }
}

impl FloatLevel {
    // The level moved towards its target by slope, or by the whole distance where that is less.
    pub fn moved(self, slope: u32) -> FloatLevel
        requires { LevelCarries self }
        ensures { result ≡ float_level (moved slope (level_in self)) }
    {
        let step = slope as f64;
        FloatLevel {
            present: self.present + limited(0.0 - step, step, self.target - self.present),
            ..self
        }
    }
}

// A number that is kept, or another one where the rounded number was no word.
fn unless_limited(kept: f64, other: f64, rounded: f64, y: f64) -> f64
    requires { LimitAsks rounded y }
    ensures { result ≡ unless_limited (whole_of rounded) kept other }
{
    if rounded == y { kept } else { other }
}

// S, increased by the remainder where the band feeds it back. A sum that begins with the remainder is never minus zero.
fn increased(feeds: bool, sum: f64, remainder: f64) -> f64
    ensures { result ≡ increased_by feeds sum remainder }
{
    if feeds { remainder + sum } else { sum }
}

// The remainder that is carried on, of what rounding took: zero where the section limits, or does not feed it back.
fn carried(feeds: bool, taken: f64, rounded: f64, y: f64) -> f64
    requires { LimitAsks rounded y }
    ensures { result ≡ carried_by feeds (whole_of rounded) taken }
{
    if feeds {
        unless_limited(taken, 0.0, rounded, y)
    } else {
        0.0
    }
}

// One side's turn of a section on d = x - x2: the gain moves, equation (8) is worked, rounded and limited, the results and the remainder move on,
// and g × y joins T.
fn turn(feeds: bool, band: FloatBand, section: FloatSection, d: f64, tally: Tally) -> Turned
    requires { TurnAsks band section d tally }
    ensures { result ≡ turned feeds band section d tally }
{
    let plain = band.alpha * d - band.beta * section.y2 + band.gamma * section.y1;
    let sum = increased(feeds, plain, section.remainder);
    let rounded = floats::nearest_whole(sum / SUM_SCALE);
    let y = limited(WORD_LOW, WORD_HIGH, rounded);
    let gain = section.gain.moved(levels::GAIN_SLOPE);
    Turned {
        section: FloatSection {
            y1: y,
            y2: section.y1,
            gain,
            remainder: carried(feeds, sum - SUM_SCALE * rounded, rounded, y),
        },
        tally: Tally {
            total: tally.total + gain.present * y,
            flag: unless_limited(tally.flag, 1.0, rounded, y),
        },
    }
}

// The band whose numbers begin at a place: the other side's stand between them.
fn band_at(bands: &[f64; SET_FLOATS], at: usize) -> FloatBand
    requires { at + 4 < set_floats }
    ensures { result ≡ float_band_at bands.now at }
{
    FloatBand {
        alpha: bands[at],
        beta: bands[at + 2],
        gamma: bands[at + 4],
    }
}

// The section whose numbers begin at a place: the other side's stand between them.
pub fn section_at(pair: &[f64], at: usize) -> FloatSection
    requires { at + 8 < length pair.now }
    ensures { result ≡ float_section_at pair.now at }
{
    FloatSection {
        y1: pair[at],
        y2: pair[at + 2],
        gain: FloatLevel {
            present: pair[at + 4],
            target: pair[at + 6],
        },
        remainder: pair[at + 8],
    }
}

// Stores the section whose numbers begin at a place.
#[tactic(auto, unfolding(crate::specs::Layout::put_section))]
pub fn put_section(pair: &mut [f64], at: usize, section: FloatSection)
    requires { at + 8 < length pair.old }
    ensures { pair.new ≡ put_section pair.old at section }
{
    pair[at] = section.y1;
    pair[at + 2] = section.y2;
    pair[at + 4] = section.gain.present;
    pair[at + 6] = section.gain.target;
    pair[at + 8] = section.remainder;
}

// A number of each side, from two neighbouring places.
pub fn sides_at(floats: &[f64], at: usize) -> Sides<f64>
    requires { at + 1 < length floats.now }
    ensures { result ≡ sides_at floats.now at }
{
    Sides {
        first: floats[at],
        second: floats[at + 1],
    }
}

// Stores a number of each side in two neighbouring places.
#[tactic(auto, unfolding(crate::specs::Layout::put_sides))]
pub fn put_sides(floats: &mut [f64], at: usize, sides: Sides<f64>)
    requires { at + 1 < length floats.old }
    ensures { floats.new ≡ put_sides floats.old at sides }
{
    floats[at] = sides.first;
    floats[at + 1] = sides.second;
}

// Band b's turn of both sides.
fn turn_pair(
    feeds: bool,
    bands: &[f64; SET_FLOATS],
    pair: &mut [f64],
    b: usize,
    d: Sides<f64>,
    tallies: Sides<Tally>,
) -> Sides<Tally>
    requires { TurnPairAsks bands.now pair.old b d tallies }
    ensures { (result ≡ tallies_after feeds bands.now pair.old b d tallies) × (pair.new ≡ pair_after feeds bands.now pair.old b d tallies) }
{
    let place = BAND_FLOATS * b;
    let at = SECTION_FLOATS * b;
    let first = turn(
        feeds,
        band_at(bands, place),
        section_at(pair, at),
        d.first,
        tallies.first,
    );
    let second = turn(
        feeds,
        band_at(bands, place + 1),
        section_at(pair, at + 1),
        d.second,
        tallies.second,
    );
    put_section(pair, at, first.section);
    put_section(pair, at + 1, second.section);
    Sides {
        first: first.tally,
        second: second.tally,
    }
}

// The turns of both sides, from band `from` up to `to`. These bands either all feed back, or none does: the compiler makes a loop of each kind.
fn turn_bands(
    feeds: bool,
    bands: &[f64; SET_FLOATS],
    pair: &mut [f64],
    from: usize,
    to: usize,
    d: Sides<f64>,
    before: Sides<Tally>,
) -> Sides<Tally>
    requires { TurnBandsAsks feeds bands.now d from to (between pair.old before) }
    ensures { between pair.new result ≡ after_turns bands.now d from (to - from) (between pair.old before) }
{
    let mut tallies = before;
    for b in from..to {
        tallies = turn_pair(feeds, bands, pair, b, d, tallies);
    }
    tallies
}

// A frame of both sides on their input words: every section has its turn, and x and x1 move on. Gives T of each side.
pub fn frame(bands: &[f64; SET_FLOATS], pair: &mut [f64], x: Sides<f64>) -> Sides<f64>
    requires { FrameAsks bands.now pair.old x }
    ensures { FrameGives bands.now pair.old x pair.new result }
{
    let x1 = sides_at(pair, X1);
    let x2 = sides_at(pair, X2);
    let flags = sides_at(pair, FLAG);
    let d = Sides {
        first: x.first - x2.first,
        second: x.second - x2.second,
    };
    let before = Sides {
        first: Tally {
            total: 0.0 + MIX_SCALE * x.first,
            flag: flags.first,
        },
        second: Tally {
            total: 0.0 + MIX_SCALE * x.second,
            flag: flags.second,
        },
    };
    let fed = turn_bands(true, bands, pair, 0, unit::FEEDBACK_COUNT, d, before);
    let tallies = turn_bands(
        false,
        bands,
        pair,
        unit::FEEDBACK_COUNT,
        bands::BAND_COUNT,
        d,
        fed,
    );
    let raised = Sides {
        first: tallies.first.flag,
        second: tallies.second.flag,
    };
    put_sides(pair, X1, x);
    put_sides(pair, X2, x1);
    put_sides(pair, FLAG, raised);
    Sides {
        first: tallies.first.total,
        second: tallies.second.total,
    }
}

// The output: m = T / 2^23 rounded and not limited, then V × m / 2^31 rounded and limited to a sample.
pub fn output(volume: f64, total: f64) -> i64
    requires { OutputAsks volume total }
    ensures { result ≡ output (whole_of volume) (nearest (whole_of total) 23) }
{
    let m = floats::nearest_whole(total / MIX_SCALE);
    let rounded = floats::nearest_whole(volume * m / OUTPUT_SCALE);
    let heard = limited(SAMPLE_LOW, SAMPLE_HIGH, rounded);
    heard as i64
}
