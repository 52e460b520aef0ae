// What a level order asks: a place and a level. Which are refused, and the target that an accepted level stands for.
#![tactic(auto)]

ghost use Rattle.std.specs.Prelude.{◌≡◌, ◌<◌, true, leb};
ghost use Rattle.refusals.specs.Numbers.{Accepted, is_accepted, unless};
ghost use Rattle.floats.specs.Value.{is_factor};
ghost use Rattle.unit.specs.Sizes.{channel_count};
ghost use Rattle.settings.specs.Settings.{is_place, names, last_position, band_step, target_of, lowest, level_verdict, order_arguments};

use refusals::Refusal;

// The side that names both channels, and the band number that stands for the volume.
pub const BOTH_SIDES: u32 = 2;

pub const VOLUME_BAND: u32 = bands::BAND_COUNT as u32;

// The last position, and the one that a band's target is reckoned from.
const LAST_POSITION: u8 = 31;

const MIDDLE_POSITION: u8 = 16;

// What a position is worth: to a band above the middle and below it, and to the volume.
const STEP_ABOVE: i64 = 558681;

const STEP_BELOW: i64 = 104857;

const VOLUME_STEP: i64 = 270600;

// The target of a muted band, and that of the muted volume.
const MUTED_GAIN: i64 = words::WORD_LOW;

const MUTED_VOLUME: i64 = 0;

// "A level is a position, a factor as an f32, or mute": what an order asks for.
#[derive(Clone, Copy)]
pub enum Setting {
    Position(u8),
    Factor(f32),
    Mute,
}

// Accepted, or the first refusal of the arguments: the place, then the level.
pub fn check_order(side: u32, band: u32, setting: Setting) -> Result<(), Refusal>
    ensures { result ≡ order_arguments channel_count side band setting }
{
    if !is_place(side, band) {
        return Err(Refusal::NoPlace);
    }
    check_level(band, setting)
}

// Whether there is such a side and band: one of ten bands on side 0, 1 or 2, or the volume on side 2.
#[tactic(auto, unfolding(crate::specs::Settings::is_place))]
fn is_place(side: u32, band: u32) -> bool
    ensures { result ≡ is_place channel_count side band }
{
    (side <= BOTH_SIDES && band < VOLUME_BAND) || (side == BOTH_SIDES && band == VOLUME_BAND)
}

// Whether an order's side names this channel: its own side, or both.
#[tactic(auto, unfolding(crate::specs::Settings::names))]
pub fn names(side: u32, channel: usize) -> bool
    requires { channel < channel_count }
    ensures { result ≡ names side channel }
{
    side == BOTH_SIDES || side as usize == channel
}

// Accepted, or the refusal of the level. Mute is always accepted.
#[tactic(auto, unfolding(crate::specs::Settings::level_verdict))]
fn check_level(band: u32, setting: Setting) -> Result<(), Refusal>
    ensures { result ≡ level_verdict band setting }
{
    match setting {
        Setting::Position(position) => check_position(position),
        Setting::Factor(factor) => check_factor(band, factor),
        Setting::Mute => Ok(()),
    }
}

// Accepted, or that the position is over 31.
fn check_position(position: u8) -> Result<(), Refusal>
    ensures { result ≡ unless (leb position last_position) Refusal.PositionOver Accepted }
{
    if position > LAST_POSITION {
        return Err(Refusal::PositionOver);
    }
    Ok(())
}

// Accepted, or that the factor is not finite, or is outside its range.
#[tactic(auto, unfolding(crate::specs::Settings::level_verdict))]
fn check_factor(band: u32, factor: f32) -> Result<(), Refusal>
    ensures { result ≡ level_verdict band (Setting.Factor factor) }
{
    if !floats::is_finite(factor) {
        return Err(Refusal::NotFinite);
    }
    if !is_factor(band, factor) {
        return Err(Refusal::FactorRange);
    }
    Ok(())
}

// Whether the factor is in its range: -1 ≤ f < 1 for a band, 0 ≤ f < 1 for the volume.
fn is_factor(band: u32, factor: f32) -> bool
    ensures { result ≡ is_factor (lowest band) factor }
{
    if band == VOLUME_BAND {
        floats::is_volume_factor(factor)
    } else {
        floats::is_band_factor(factor)
    }
}

// The target of an accepted level.
#[tactic(auto, unfolding(crate::specs::Settings::target_of))]
pub fn target_of(band: u32, setting: Setting) -> i64
    requires { is_accepted (level_verdict band setting) ≡ true }
    ensures { result ≡ target_of band setting }
{
    match setting {
        Setting::Position(position) => position_target(band, position),
        Setting::Factor(factor) => floats::factor_target(factor),
        Setting::Mute => muted_target(band),
    }
}

// The target of a position: a band's is reckoned from the middle, the volume's from 0.
#[tactic(auto, unfolding(crate::specs::Settings::target_of, crate::specs::Settings::band_position, crate::specs::Settings::volume_position))]
fn position_target(band: u32, position: u8) -> i64
    ensures { result ≡ target_of band (Setting.Position position) }
{
    if band == VOLUME_BAND {
        i64::from(position) * VOLUME_STEP
    } else {
        (i64::from(position) - i64::from(MIDDLE_POSITION)) * band_step(position)
    }
}

// The target of mute: a band goes to the lowest gain, the volume to silence.
#[tactic(auto, unfolding(crate::specs::Settings::target_of))]
fn muted_target(band: u32) -> i64
    ensures { result ≡ target_of band Setting.Mute }
{
    if band == VOLUME_BAND {
        MUTED_VOLUME
    } else {
        MUTED_GAIN
    }
}

// What a position is worth to a band: more above the middle than below it.
fn band_step(position: u8) -> i64
    ensures { result ≡ band_step position }
{
    if MIDDLE_POSITION <= position {
        STEP_ABOVE
    } else {
        STEP_BELOW
    }
}
