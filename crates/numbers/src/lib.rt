// The unit as 138 numbers of 32 bits, in the order of the C library: the volume and its target; A, B, G of each band; then of the
// left and of the right channel x1, x2, flag, and y1, y2, gain, target and remainder of each section.
#![tactic(auto)]

ghost use Rattle.std.specs.Prelude.{◌≡◌, ◌*◌, ◌+◌, ◌<◌, ◌≤◌, pos, length, get_or};
ghost use Rattle.lists.specs.Lists.{Each, joined};
ghost use Rattle.bands.specs.Bands.{band_count};
ghost use Rattle.unit.specs.Fit.{VolumeFit, SectionFit, ChannelFit, Fit};
ghost use Rattle.numbers.specs.Layout.{section_size, channel_size, unit_size, bands_place, left_place, right_place, volume_numbers, head_numbers, band_numbers, section_numbers, channel_numbers, numbers_of, section_at, channel_of, unit_of, PutGives};

use bands::Band;
use levels::Level;
use unit::{BandSection, Channel, Unit};

// A channel as numbers: x1, x2 and the flag, then five of each section.
pub const FLAG: usize = 2;

pub const HEAD_SIZE: usize = FLAG + 1;

pub const SECTION_SIZE: usize = 5;

pub const CHANNEL_SIZE: usize = HEAD_SIZE + SECTION_SIZE * bands::BAND_COUNT;

// Where the numbers of the bands, of the left channel and of the right channel begin: behind the volume and its target, and one after the
// other.
pub const BANDS: usize = 2;

pub const LEFT: usize = BANDS + bands::SET_SIZE;

pub const RIGHT: usize = LEFT + CHANNEL_SIZE;

// How many numbers a unit has.
pub const UNIT_SIZE: usize = RIGHT + CHANNEL_SIZE;

// The unit that the numbers stand for.
pub fn unit_of(numbers: &[i32; UNIT_SIZE]) -> Unit
    ensures { result ≡ unit_of numbers.now }
{
    let all = &numbers[..];
    let left = channel_of(&all[LEFT..]);
    let right = channel_of(&all[RIGHT..]);
    Unit {
        volume: volume_of(numbers),
        bands: unit::bands_of(&all[BANDS..]),
        channels: [left, right],
    }
}

// Its volume.
fn volume_of(numbers: &[i32; UNIT_SIZE]) -> Level
    ensures { (result.present ≡ get_or numbers.now 0 (pos 0)) × (result.target ≡ get_or numbers.now 1 (pos 0)) }
{
    Level {
        present: i64::from(numbers[0]),
        target: i64::from(numbers[1]),
    }
}

// The channel that numbers which begin with those of a channel stand for.
fn channel_of(numbers: &[i32]) -> Channel
    requires { channel_size ≤ length numbers.now }
    ensures { result ≡ channel_of numbers.now }
{
    Channel {
        x1: i64::from(numbers[0]),
        x2: i64::from(numbers[1]),
        flag: i64::from(numbers[FLAG]),
        sections: sections_of(numbers),
    }
}

// Its ten sections.
#[tactic(auto, using(lists::proofs::Loops::tabulated_begin, lists::proofs::Loops::tabulated_next, lists::proofs::Loops::tabulated_done))]
fn sections_of(numbers: &[i32]) -> [BandSection; bands::BAND_COUNT]
    requires { channel_size ≤ length numbers.now }
    ensures { result ≡ (channel_of numbers.now).sections }
{
    let mut sections = [BandSection::default(); bands::BAND_COUNT];
    for b in 0..bands::BAND_COUNT {
        sections[b] = section_at(numbers, b);
    }
    sections
}

// Section b of it.
fn section_at(numbers: &[i32], b: usize) -> BandSection
    requires { (channel_size ≤ length numbers.now) × (b < band_count) }
    ensures { result ≡ section_at numbers.now b }
{
    let at = SECTION_SIZE * b + HEAD_SIZE;
    BandSection {
        y1: i64::from(numbers[at]),
        y2: i64::from(numbers[at + 1]),
        gain: Level {
            present: i64::from(numbers[at + 2]),
            target: i64::from(numbers[at + 3]),
        },
        remainder: i64::from(numbers[at + 4]),
    }
}

// The numbers of a fit unit. Inlined, so that they are stored where its caller wants them.
#[inline(always)]
pub fn numbers_of(unit: Unit) -> [i32; UNIT_SIZE]
    requires { Fit unit }
    ensures { result ≡ numbers_of unit }
{
    let mut out = [0; UNIT_SIZE];
    put_row(&mut out, 0, &volume_row(unit.volume));
    put_bands(&mut out, unit.bands);
    put_channels(&mut out, unit.channels);
    out
}

// Stores numbers from place at on.
fn put_row(out: &mut [i32; UNIT_SIZE], at: usize, row: &[i32])
    requires { at + length row.now ≤ unit_size }
    ensures { PutGives out.old at row.now (at + length row.now) out.new }
{
    out[at..at + row.len()].copy_from_slice(row);
}

// The volume's numbers.
#[tactic(auto, using(words::proofs::Laws::narrow_need, words::proofs::Laws::narrow_reads, unit::proofs::Ranges::volume_size))]
fn volume_row(volume: Level) -> [i32; BANDS]
    requires { VolumeFit volume }
    ensures { result ≡ volume_numbers volume }
{
    [volume.present as i32, volume.target as i32]
}

// Stores the ten bands.
#[inline(always)]
fn put_bands(out: &mut [i32; UNIT_SIZE], bands: [Band; bands::BAND_COUNT])
    ensures { PutGives out.old bands_place (joined band_numbers bands) left_place out.new }
{
    for (b, &band) in bands.iter().enumerate() {
        put_row(out, bands::BAND_SIZE * b + BANDS, &band_row(band));
    }
}

// A band's numbers.
fn band_row(band: Band) -> [i32; bands::BAND_SIZE]
    ensures { result ≡ band_numbers band }
{
    [band.alpha, band.beta, band.gamma]
}

// Stores both channels.
fn put_channels(out: &mut [i32; UNIT_SIZE], channels: [Channel; unit::CHANNEL_COUNT])
    requires { Each ChannelFit channels }
    ensures { PutGives out.old left_place (joined channel_numbers channels) unit_size out.new }
{
    put_channel(out, LEFT, channels[0]);
    put_channel(out, RIGHT, channels[1]);
}

// Stores a channel from place start on.
fn put_channel(out: &mut [i32; UNIT_SIZE], start: usize, channel: Channel)
    requires { (start ≤ right_place) × ChannelFit channel }
    ensures { PutGives out.old start (channel_numbers channel) (start + channel_size) out.new }
{
    put_row(out, start, &head_row(channel));
    put_sections(out, start + HEAD_SIZE, channel.sections);
}

// A channel's own numbers.
#[tactic(auto, using(words::proofs::Laws::narrow_need, unit::proofs::Ranges::input_size, crate::proofs::Sizes::flag_small))]
fn head_row(channel: Channel) -> [i32; HEAD_SIZE]
    requires { ChannelFit channel }
    ensures { result ≡ head_numbers channel }
{
    [channel.x1 as i32, channel.x2 as i32, channel.flag as i32]
}

// Stores ten sections from place start on.
fn put_sections(
    out: &mut [i32; UNIT_SIZE],
    start: usize,
    sections: [BandSection; bands::BAND_COUNT],
)
    requires { (start + section_size * band_count ≤ unit_size) × Each SectionFit sections }
    ensures { PutGives out.old start (joined section_numbers sections) (start + section_size * band_count) out.new }
{
    for (b, &section) in sections.iter().enumerate() {
        put_row(out, start + SECTION_SIZE * b, &section_row(section));
    }
}

// A section's numbers.
#[tactic(auto, using(words::proofs::Laws::narrow_need, words::proofs::Laws::word_size_lem, crate::proofs::Sizes::remainder_small))]
fn section_row(section: BandSection) -> [i32; SECTION_SIZE]
    requires { SectionFit section }
    ensures { result ≡ section_numbers section }
{
    [
        section.y1 as i32,
        section.y2 as i32,
        section.gain.present as i32,
        section.gain.target as i32,
        section.remainder as i32,
    ]
}
