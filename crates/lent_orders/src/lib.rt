// Level orders on the 138 lent numbers of a unit: the targets that an order names are stored in their places, and nothing else is.
#![tactic(auto)]

ghost use Rattle.std.specs.Prelude.{◌≡◌, true, ◌<◌};
ghost use Rattle.refusals.specs.Numbers.{is_accepted};
ghost use Rattle.bands.specs.Bands.{band_count};
ghost use Rattle.unit.specs.Sizes.{channel_count};
ghost use Rattle.settings.specs.Settings.{is_place, target_of, level_verdict};
ghost use Rattle.orders.specs.Orders.{aimed_unit, ordered};
ghost use Rattle.numbers.specs.Layout.{numbers_of, unit_of, numbers_after};
ghost use Rattle.lent_orders.specs.Places.{target_place, named_below};

use refusals::Refusal;
use settings::Setting;

// Where the volume's target stands, and a gain's behind the first number of its section.
const VOLUME_TARGET: usize = 1;

const GAIN_TARGET: usize = 3;

// Gives a level order: 14 for an unfit unit ahead of all, then 1 to 4. Refused, the lent numbers stay as they are.
#[tactic(auto, unfolding(orders::specs::Orders::ordered, orders::specs::Orders::order_verdict))]
pub fn order(
    numbers: &mut [i32; numbers::UNIT_SIZE],
    side: u32,
    band: u32,
    setting: Setting,
) -> Result<(), Refusal>
    ensures { (result ≡ (ordered channel_count (unit_of numbers.old) side band setting).verdict) × (numbers.new ≡ numbers_after numbers.old (ordered channel_count (unit_of numbers.old) side band setting).verdict (ordered channel_count (unit_of numbers.old) side band setting).unit) }
{
    if !lent_fitness::is_fit(numbers) {
        return Err(Refusal::Unfit);
    }
    settings::check_order(side, band, setting)?;
    aim(numbers, side, band, target_of(band, setting));
    Ok(())
}

// The target of an accepted level, a word.
fn target_of(band: u32, setting: Setting) -> i32
    requires { is_accepted (level_verdict band setting) ≡ true }
    ensures { result ≡ target_of band setting }
{
    settings::target_of(band, setting) as i32
}

// Sets the named targets.
fn aim(numbers: &mut [i32; numbers::UNIT_SIZE], side: u32, band: u32, target: i32)
    requires { is_place channel_count side band ≡ true }
    ensures { numbers.new ≡ numbers_of (aimed_unit side band target (unit_of numbers.old)) }
{
    if band == settings::VOLUME_BAND {
        numbers[VOLUME_TARGET] = target;
    } else {
        aim_band(numbers, side, band as usize, target);
    }
}

// Sets the band's target in each channel that the side names.
fn aim_band(numbers: &mut [i32; numbers::UNIT_SIZE], side: u32, band: usize, target: i32)
    requires { band < band_count }
    ensures { numbers.new ≡ named_below side band target channel_count numbers.old }
{
    for channel in 0..unit::CHANNEL_COUNT {
        if settings::names(side, channel) {
            numbers[target_place(channel, band)] = target;
        }
    }
}

// Where the band's target stands in a channel.
fn target_place(channel: usize, band: usize) -> usize
    requires { (channel < channel_count) × (band < band_count) }
    ensures { result ≡ target_place channel band }
{
    numbers::LEFT
        + numbers::CHANNEL_SIZE * channel
        + numbers::HEAD_SIZE
        + numbers::SECTION_SIZE * band
        + GAIN_TARGET
}
