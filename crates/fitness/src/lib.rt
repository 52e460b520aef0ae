// Whether a unit is fit: each of its numbers is one that the strip sheet can carry.
#![tactic(auto)]

ghost use Rattle.std.specs.Prelude.{◌≡◌, ◌&&◌};
ghost use Rattle.std.specs.List.{list_all};
ghost use Rattle.words.specs.Words.{is_word};
ghost use Rattle.unit.specs.Frame.{feedback_count};
ghost use Rattle.unit.specs.Fit.{is_input, is_plain, volume_fits, band_fits, section_fits, sections_fit, channel_fits, unit_fits};

use bands::Band;
use levels::Level;
use unit::{BandSection, Channel, Unit};

// Whether the unit is fit.
#[tactic(auto, unfolding(unit::specs::Fit::unit_fits))]
pub fn is_fit(unit: Unit) -> bool
    ensures { result ≡ unit_fits unit }
{
    volume_fits(unit.volume) && bands_fit(&unit.bands) && channels_fit(&unit.channels)
}

// Whether the volume and its target are from 0 to the largest word.
#[tactic(auto, unfolding(unit::specs::Fit::is_volume))]
fn volume_fits(level: Level) -> bool
    ensures { result ≡ volume_fits level }
{
    rounding::in_range(0, words::WORD_HIGH, level.present)
        && rounding::in_range(0, words::WORD_HIGH, level.target)
}

// Whether every band is accepted.
fn bands_fit(bands: &[Band]) -> bool
    ensures { result ≡ list_all band_fits bands.now }
{
    bands.iter().all(|band| bands::check_band(*band).is_ok())
}

// Whether both channels are fit.
fn channels_fit(channels: &[Channel]) -> bool
    ensures { result ≡ list_all channel_fits channels.now }
{
    channels.iter().all(|channel| channel_fits(channel))
}

// Whether a channel's inputs are words and multiples of 256, its flag is 0 or 1, and its sections are fit.
#[tactic(auto, unfolding(unit::specs::Fit::is_flag))]
fn channel_fits(channel: &Channel) -> bool
    ensures { result ≡ channel_fits channel.now }
{
    input_fits(channel.x1)
        && input_fits(channel.x2)
        && rounding::in_range(0, 1, channel.flag)
        && sections_fit(&channel.sections)
}

// Whether a number of 64 bits is an input. A word fits 32 bits, in which the rest is tested.
#[tactic(auto, unfolding(unit::specs::Fit::is_input))]
fn input_fits(v: i64) -> bool
    ensures { result ≡ is_input v }
{
    words::is_word(v) && is_input(v as i32)
}

// Whether v is an input: a word and a multiple of 256.
#[tactic(auto, unfolding(unit::specs::Fit::is_input))]
pub fn is_input(v: i32) -> bool
    ensures { result ≡ is_input v }
{
    words::is_word(v) && v - 256 * (v >> 8) <= 0
}

// Whether every section is fit, and plain where the band does not feed back.
fn sections_fit(sections: &[BandSection; bands::BAND_COUNT]) -> bool
    ensures { result ≡ sections_fit sections.now }
{
    each_fits(sections) && are_plain(&sections[unit::FEEDBACK_COUNT..])
}

// Whether every section is fit, whatever its band.
fn each_fits(sections: &[BandSection]) -> bool
    ensures { result ≡ list_all section_fits sections.now }
{
    sections.iter().all(|section| section_fits(section))
}

// Whether the remainder of each of these sections is 0.
fn are_plain(sections: &[BandSection]) -> bool
    ensures { result ≡ list_all is_plain sections.now }
{
    sections.iter().all(|section| is_plain(section))
}

// Whether the section's remainder is 0.
#[tactic(auto, unfolding(unit::specs::Fit::is_plain))]
fn is_plain(section: &BandSection) -> bool
    ensures { result ≡ is_plain section.now }
{
    section.remainder == 0
}

// Whether a section's results, its gain and the gain's target are words, and its remainder is at most half of 2^22 in size.
#[tactic(auto, unfolding(unit::specs::Fit::is_remainder))]
fn section_fits(section: &BandSection) -> bool
    ensures { result ≡ section_fits section.now }
{
    words::is_word(section.y1)
        && words::is_word(section.y2)
        && gain_fits(section.gain)
        && rounding::in_range(unit::REMAINDER_LOW, unit::REMAINDER_HIGH, section.remainder)
}

// Whether a gain and its target are words.
fn gain_fits(gain: Level) -> bool
    ensures { result ≡ is_word gain.present && is_word gain.target }
{
    words::is_word(gain.present) && words::is_word(gain.target)
}
