// The unit's bands, channels and levels as the floats that the engine works on, and back.
#![tactic(auto)]

ghost use Rattle.std.specs.Prelude.{◌≡◌, ◌+◌, ◌≤◌, ◌<◌, nat_abs, length};
ghost use Rattle.words.specs.Words.{word_size};
ghost use Rattle.floats.specs.Whole.{float, whole_of};
ghost use Rattle.unit.specs.Fit.{SectionFit};
ghost use Rattle.engine.specs.Floats.{Carries, float_level, level_in, float_section, band_section_in};
ghost use Rattle.engine.specs.Layout.{channel_at_side};
ghost use Rattle.engine.specs.Frame.{LevelCarries};
ghost use Rattle.packing.specs.Packing.{BandFloatsGives, PairFloatsAsks, PairFloatsGives, LevelFloatsAsks, float_sides, put_three, PutSectionsAsks, PutSectionsGives, pair_side, SectionOfAsks, ChannelOfAsks};

use bands::Band;
use engine::{FloatLevel, FloatSection, Sides};
use levels::Level;
use unit::{BandSection, Channel};

// A, B and G of each band, on both sides of a pair.
pub fn band_floats(bands: [Band; bands::BAND_COUNT]) -> [f64; engine::SET_FLOATS]
    ensures { BandFloatsGives bands result }
{
    let mut floats = [0.0; engine::SET_FLOATS];
    for b in 0..bands::BAND_COUNT {
        let band = bands[b];
        put_three(
            &mut floats,
            engine::BAND_FLOATS * b,
            both(band.alpha),
            both(band.beta),
            both(band.gamma),
        );
    }
    floats
}

// Stores three numbers of each side, from place at on.
fn put_three(floats: &mut [f64], at: usize, a: Sides<f64>, b: Sides<f64>, c: Sides<f64>)
    requires { at + 5 < length floats.old }
    ensures { floats.new ≡ put_three floats.old at a b c }
{
    engine::put_sides(floats, at, a);
    engine::put_sides(floats, at + 2, b);
    engine::put_sides(floats, at + 4, c);
}

// A coefficient, on both sides.
fn both(coefficient: i32) -> Sides<f64>
    ensures { result ≡ float_sides coefficient coefficient }
{
    let float = coefficient as f64;
    Sides {
        first: float,
        second: float,
    }
}

// Two channels as the sides of a pair.
pub fn pair_floats(first: Channel, second: Channel) -> [f64; engine::PAIR_FLOATS]
    requires { PairFloatsAsks first second }
    ensures { PairFloatsGives first second result }
{
    let mut pair = [0.0; engine::PAIR_FLOATS];
    put_three(
        &mut pair,
        engine::X1,
        sides_of(first.x1, second.x1),
        sides_of(first.x2, second.x2),
        sides_of(first.flag, second.flag),
    );
    put_sections(&mut pair, first.sections, second.sections);
    pair
}

// Stores the sections of both sides.
fn put_sections(
    pair: &mut [f64; engine::PAIR_FLOATS],
    first: [BandSection; bands::BAND_COUNT],
    second: [BandSection; bands::BAND_COUNT],
)
    requires { PutSectionsAsks pair.old first second }
    ensures { PutSectionsGives pair.old first second pair.new }
{
    for b in 0..bands::BAND_COUNT {
        let at = engine::SECTION_FLOATS * b;
        engine::put_section(pair, at, section_floats(first[b]));
        engine::put_section(pair, at + 1, section_floats(second[b]));
    }
}

// A number of each side.
fn sides_of(first: i64, second: i64) -> Sides<f64>
    requires { (nat_abs first ≤ word_size) × (nat_abs second ≤ word_size) }
    ensures { result ≡ float_sides first second }
{
    Sides {
        first: float_of(first),
        second: float_of(second),
    }
}

// A section's numbers.
fn section_floats(section: BandSection) -> FloatSection
    requires { SectionFit section }
    ensures { result ≡ float_section section }
{
    FloatSection {
        y1: float_of(section.y1),
        y2: float_of(section.y2),
        gain: level_floats(section.gain),
        remainder: float_of(section.remainder),
    }
}

// A level's numbers.
pub fn level_floats(level: Level) -> FloatLevel
    requires { LevelFloatsAsks level }
    ensures { result ≡ float_level level }
{
    FloatLevel {
        present: float_of(level.present),
        target: float_of(level.target),
    }
}

// A number of at most 2^23 in size.
fn float_of(number: i64) -> f64
    requires { nat_abs number ≤ word_size }
    ensures { result ≡ float number }
{
    number as f64
}

// The channel on side 0 or 1 of a pair.
pub fn channel_of(pair: &[f64], side: usize) -> Channel
    requires { ChannelOfAsks pair.now side }
    ensures { result ≡ channel_at_side pair.now (pair_side side) }
{
    let mut sections = [BandSection::default(); bands::BAND_COUNT];
    for b in 0..bands::BAND_COUNT {
        sections[b] = section_of(engine::section_at(pair, engine::SECTION_FLOATS * b + side));
    }
    let x1 = whole_of(pair[engine::X1 + side]);
    let x2 = whole_of(pair[engine::X2 + side]);
    let flag = whole_of(pair[engine::FLAG + side]);
    Channel {
        x1,
        x2,
        flag,
        sections,
    }
}

// The section that these floats stand for.
fn section_of(section: FloatSection) -> BandSection
    requires { SectionOfAsks section }
    ensures { result ≡ band_section_in section }
{
    BandSection {
        y1: whole_of(section.y1),
        y2: whole_of(section.y2),
        gain: level_of(section.gain),
        remainder: whole_of(section.remainder),
    }
}

// The level that these floats stand for.
pub fn level_of(level: FloatLevel) -> Level
    requires { LevelCarries level }
    ensures { result ≡ level_in level }
{
    Level {
        present: whole_of(level.present),
        target: whole_of(level.target),
    }
}

// The number that a float stands for, of at most 2^23 in size.
fn whole_of(x: f64) -> i64
    requires { Carries x word_size }
    ensures { result ≡ whole_of x }
{
    x as i64
}
