// Level orders: the desk sets the targets of gains and of the volume.
#![tactic(auto)]

ghost use Rattle.std.specs.Prelude.{◌≡◌, true, ◌<◌, eqb};
ghost use Rattle.lists.specs.Lists.{changed};
ghost use Rattle.bands.specs.Bands.{band_count};
ghost use Rattle.unit.specs.Answered.{answered};
ghost use Rattle.unit.specs.Sizes.{channel_count};
ghost use Rattle.settings.specs.Settings.{is_place, names};
ghost use Rattle.orders.specs.Orders.{aimed_channel, aimed_unit, ordered};

use refusals::Refusal;
use settings::Setting;
use unit::{Channel, Unit};

// Sets the targets that an order names, and nothing else: 14 for an unfit unit ahead of all, then 1 to 4. Refused, the unit is unchanged.
#[tactic(auto, unfolding(crate::specs::Orders::ordered, crate::specs::Orders::order_verdict))]
pub fn order(unit: &mut Unit, side: u32, band: u32, setting: Setting) -> Result<(), Refusal>
    ensures { answered result unit.new ≡ ordered channel_count unit.old side band setting }
{
    if !fitness::is_fit(*unit) {
        return Err(Refusal::Unfit);
    }
    settings::check_order(side, band, setting)?;
    aim_unit(unit, side, band, settings::target_of(band, setting));
    Ok(())
}

// Sets the named targets of the unit, and nothing else in it.
#[tactic(auto, unfolding(crate::specs::Orders::aimed_unit))]
fn aim_unit(unit: &mut Unit, side: u32, band: u32, target: i64)
    requires { is_place channel_count side band ≡ true }
    ensures { unit.new ≡ aimed_unit side band target unit.old }
{
    if band == settings::VOLUME_BAND {
        unit.volume.target = target;
    } else {
        aim_channels(&mut unit.channels, side, band as usize, target);
    }
}

// Sets the band's target on each channel that the side names.
fn aim_channels(channels: &mut [Channel; unit::CHANNEL_COUNT], side: u32, band: usize, target: i64)
    requires { band < band_count }
    ensures { channels.new ≡ changed (names side) (aimed_channel band target) channels.old }
{
    for (own, channel) in channels.iter_mut().enumerate() {
        if settings::names(side, own) {
            aim_channel(channel, band, target);
        }
    }
}

// Sets the band's target on the channel.
fn aim_channel(channel: &mut Channel, band: usize, target: i64)
    requires { band < band_count }
    ensures { channel.new ≡ aimed_channel band target channel.old }
{
    channel.sections[band].gain.target = target;
}
