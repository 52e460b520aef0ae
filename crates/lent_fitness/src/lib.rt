// Whether the unit of 138 lent numbers is fit, tested in 32 bits where the numbers stand.
#![tactic(auto)]

ghost use Rattle.std.specs.Prelude.{◌≡◌, ◌≤◌, length, drop};
ghost use Rattle.std.specs.List.{list_all};
ghost use Rattle.words.specs.Words.{is_word};
ghost use Rattle.bands.specs.Bands.{band_count, set_size};
ghost use Rattle.unit.specs.Cleared.{bands_of};
ghost use Rattle.unit.specs.Fit.{volume_fits, band_fits, sections_fit, channel_fits, unit_fits};
ghost use Rattle.numbers.specs.Layout.{channel_size, channel_of, unit_of};
ghost use Rattle.lent_fitness.specs.Remainders.{remainder_within};

// Where the remainder of band 0 stands among the numbers of a channel: it is the last of its section.
const REMAINDER: usize = numbers::HEAD_SIZE + numbers::SECTION_SIZE - 1;

// Whether the unit is fit.
pub fn is_fit(numbers: &[i32; numbers::UNIT_SIZE]) -> bool
    ensures { result ≡ unit_fits (unit_of numbers.now) }
{
    volume_fits(numbers)
        && bands_fit(&numbers[numbers::BANDS..])
        && channel_fits(&numbers[numbers::LEFT..])
        && channel_fits(&numbers[numbers::RIGHT..])
}

// Whether the volume and its target are from 0 to the largest word.
fn volume_fits(numbers: &[i32; numbers::UNIT_SIZE]) -> bool
    ensures { result ≡ volume_fits (unit_of numbers.now).volume }
{
    let present = rounding::in_range(0, words::WORD_MOST, numbers[0]);
    let target = rounding::in_range(0, words::WORD_MOST, numbers[1]);
    present & target
}

// Whether every band of numbers that begin with a set is accepted.
fn bands_fit(set: &[i32]) -> bool
    requires { set_size ≤ length set.now }
    ensures { result ≡ list_all band_fits (bands_of set.now) }
{
    for b in 0..bands::BAND_COUNT {
        if bands::check_band(bands::band_at(set, b)).is_err() {
            return false;
        }
    }
    true
}

// Whether the channel of numbers that begin with one is fit: the inputs are words and multiples of 256, the flag is 0 or 1, and the sections
// are fit.
fn channel_fits(channel: &[i32]) -> bool
    requires { channel_size ≤ length channel.now }
    ensures { result ≡ channel_fits (channel_of channel.now) }
{
    let x1 = fitness::is_input(channel[0]);
    let x2 = fitness::is_input(channel[1]);
    let flag = rounding::in_range(0, 1, channel[numbers::FLAG]);
    let sections = sections_fit(channel);
    x1 & x2 & flag & sections
}

// Whether the ten sections of the channel are fit: all numbers are words, and each remainder is at most half of 2^22 in size, and 0 where
// the band does not feed back.
fn sections_fit(channel: &[i32]) -> bool
    requires { channel_size ≤ length channel.now }
    ensures { result ≡ sections_fit (channel_of channel.now).sections }
{
    let words = are_words(&channel[numbers::HEAD_SIZE..numbers::CHANNEL_SIZE]);
    let remainders = remainders_fit(channel, 0, unit::REMAINDER_LEAST, unit::REMAINDER_MOST);
    let plain = remainders_fit(channel, unit::FEEDBACK_COUNT, 0, 0);
    words & remainders & plain
}

// Whether the remainders of the channel, from the band `first` on, are from least to most. There is no branch for a remainder.
fn remainders_fit(channel: &[i32], first: usize, least: i32, most: i32) -> bool
    requires { (channel_size ≤ length channel.now) × (first ≤ band_count) }
    ensures { result ≡ list_all (remainder_within least most) (drop first (channel_of channel.now).sections) }
{
    let mut fit = true;
    for b in first..bands::BAND_COUNT {
        fit &= rounding::in_range(least, most, channel[REMAINDER + numbers::SECTION_SIZE * b]);
    }
    fit
}

// Whether the numbers are words. There is no branch for a number: several are tested at once.
fn are_words(numbers: &[i32]) -> bool
    ensures { result ≡ list_all is_word numbers.now }
{
    let mut words = true;
    for number in numbers {
        words &= words::is_word(*number);
    }
    words
}
