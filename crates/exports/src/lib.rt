// The static library: thin functions under C names, for tests, benchmarks and programs in other languages. Each promises what the
// function that it calls promises. A lent array passes as a pointer to its first number, a slice as a pointer and a length.
#![tactic(auto)]

ghost use Rattle.std.specs.Prelude.{◌≡◌, length};
ghost use Rattle.rounding.specs.Rounding.{nearest, limit};
ghost use Rattle.refusals.specs.Numbers.{number_of};
ghost use Rattle.bands.specs.Bands.{band_verdict, band_of};
ghost use Rattle.bands.specs.House.{house_set};
ghost use Rattle.section.specs.Equation.{flag};
ghost use Rattle.section.specs.Step.{stepped};
ghost use Rattle.preview.specs.Preview.{buffers_of};
ghost use Rattle.levels.specs.Levels.{ramp};
ghost use Rattle.unit.specs.Fit.{unit_fits};
ghost use Rattle.loading.specs.Loading.{loaded};
ghost use Rattle.wave_reading.specs.Walk.{place_of};
ghost use Rattle.wave_reading.specs.Reading.{found};
ghost use Rattle.wave_writing.specs.Writing.{write_verdict, written};
ghost use Rattle.numbers.specs.Layout.{unit_of, numbers_of};
ghost use Rattle.lending.specs.Layout.{lone_section, lone_numbers, answer_of, PreviewGives, BlockGives, OrderGives, SheetWriteGives, SheetReadGives};

use bands::Band;
use lending::StepAnswer;
use levels::Level;
use settings::Setting;

// The nearest whole number to v / 2^k, halves to even.
#[unsafe(no_mangle)]
pub extern "C" fn fonddrys_nearest(v: i64, k: u32) -> i64
    ensures { result ≡ nearest v k }
{
    rounding::round_shift(v, k)
}

// v limited to the range from low to high.
#[unsafe(no_mangle)]
pub extern "C" fn fonddrys_limit(low: i64, high: i64, v: i64) -> i64
    ensures { result ≡ limit low high v }
{
    rounding::saturate(low, high, v)
}

// 0 for an accepted band, else the number of its refusal.
#[unsafe(no_mangle)]
pub extern "C" fn fonddrys_band_refusal(alpha: i32, beta: i32, gamma: i32) -> u32
    ensures { result ≡ number_of (band_verdict (band_of alpha beta gamma)) }
{
    refusals::number(bands::check_band(Band { alpha, beta, gamma }))
}

// Fills the lent array with the house set.
#[unsafe(no_mangle)]
pub extern "C" fn fonddrys_house_set(words: &mut [i32; bands::SET_SIZE])
    ensures { words.new ≡ house_set }
{
    *words = bands::house_set();
}

// One step of the section whose seven numbers are lent: A, B, G, x1, x2, y1, y2. They are those of the section after the step;
// refused, they stay as they are.
#[unsafe(no_mangle)]
pub extern "C" fn fonddrys_section_step(
    numbers: &mut [i32; lending::SECTION_NUMBERS],
    x: i32,
) -> StepAnswer
    ensures { (result ≡ answer_of (lone_section numbers.old) x) × (numbers.new ≡ lone_numbers (stepped (lone_section numbers.old) x).section) }
{
    lending::section_step(numbers, x)
}

// The floating preview of the section with the band A, B, G, over a list of words from a cleared start. The results fill the front of one
// buffer and the remainders that of the other; entries past them keep their contents. 0 for an accepted call, else the number of its
// refusal: both buffers are then as they were.
#[unsafe(no_mangle)]
pub extern "C" fn fonddrys_preview(
    alpha: i32,
    beta: i32,
    gamma: i32,
    words: &[i32],
    results: &mut [i32],
    remainders: &mut [i32],
) -> u32
    ensures { PreviewGives (band_of alpha beta gamma) words.now (buffers_of results.old remainders.old) result (buffers_of results.new remainders.new) }
{
    refusals::number(preview::fill(Band { alpha, beta, gamma }, words, results, remainders))
}

// The present number of a level, moved towards its target by slope, or by the whole distance where that is less.
#[unsafe(no_mangle)]
pub extern "C" fn fonddrys_level_moved(present: i32, target: i32, slope: u32) -> i32
    ensures { result ≡ ramp slope present target }
{
    let level = Level {
        present: i64::from(present),
        target: i64::from(target),
    };
    level.moved(slope).present as i32
}

// 1 where the unit of the 138 lent numbers is fit, else 0.
#[unsafe(no_mangle)]
pub extern "C" fn fonddrys_unit_fit(numbers: &[i32; numbers::UNIT_SIZE]) -> u32
    ensures { result ≡ flag (unit_fits (unit_of numbers.now)) }
{
    u32::from(lent_fitness::is_fit(numbers))
}

// Loads a band set: the lent numbers are then those of the loaded unit. 0 for an accepted set, else the number of its refusal.
#[unsafe(no_mangle)]
pub extern "C" fn fonddrys_load(numbers: &mut [i32; numbers::UNIT_SIZE], set: &[i32]) -> u32
    ensures { (result ≡ number_of (loaded set.now).verdict) × (numbers.new ≡ numbers_of (loaded set.now).unit) }
{
    lending::load(numbers, set)
}

// Plays a block of frames through the unit whose numbers are lent: they are then those of the unit after it, and the output begins with
// the frames. 0 for an accepted block, else the number of its refusal: the lent numbers and the output are then as they were.
#[unsafe(no_mangle)]
pub extern "C" fn fonddrys_block(
    numbers: &mut [i32; numbers::UNIT_SIZE],
    input: &[u8],
    output: &mut [u8],
) -> u32
    ensures { BlockGives numbers.old input.now output.old result numbers.new output.new }
{
    lending::block(numbers, input, output)
}

// Orders a band of a side, or the volume (band 10 of side 2), to a position from 0 to 31. The lent numbers are then those of the unit
// after the order. 0 for an accepted order, else the number of its refusal: the lent numbers are then as they were.
#[unsafe(no_mangle)]
pub extern "C" fn fonddrys_order_position(
    numbers: &mut [i32; numbers::UNIT_SIZE],
    side: u32,
    band: u32,
    position: u8,
) -> u32
    ensures { OrderGives numbers.old side band (Setting.Position position) result numbers.new }
{
    lending::order(numbers, side, band, Setting::Position(position))
}

// Orders a band of a side, or the volume (band 10 of side 2), to a factor from -1 (from 0 for the volume) to below 1. The
// lent numbers are then those of the unit after the order. 0 for an accepted order, else the number of its refusal: the lent numbers are then as they
// were.
#[unsafe(no_mangle)]
pub extern "C" fn fonddrys_order_factor(
    numbers: &mut [i32; numbers::UNIT_SIZE],
    side: u32,
    band: u32,
    factor: f32,
) -> u32
    ensures { OrderGives numbers.old side band (Setting.Factor factor) result numbers.new }
{
    lending::order(numbers, side, band, Setting::Factor(factor))
}

// Mutes a band of a side, the target -8,388,608, or the volume (band 10 of side 2), the target 0. The lent numbers are then those of the
// unit after the order. 0 for an accepted order, else the number of its refusal: the lent numbers are then as they were.
#[unsafe(no_mangle)]
pub extern "C" fn fonddrys_order_mute(
    numbers: &mut [i32; numbers::UNIT_SIZE],
    side: u32,
    band: u32,
) -> u32
    ensures { OrderGives numbers.old side band Setting.Mute result numbers.new }
{
    lending::order(numbers, side, band, Setting::Mute)
}

// Writes the strip sheet of the unit whose numbers are lent to the front of the buffer, and gives the count of its bytes, 1,200. From a
// shorter buffer, or for an unfit unit, the count is 0 and the buffer is as it was. Bytes behind the sheet keep their contents.
#[unsafe(no_mangle)]
pub extern "C" fn fonddrys_sheet_write(
    numbers: &[i32; numbers::UNIT_SIZE],
    buffer: &mut [u8],
) -> usize
    ensures { SheetWriteGives numbers.now buffer.old result buffer.new }
{
    lending::sheet_write(numbers, buffer)
}

// Reads a strip sheet: the lent numbers are then those of the unit that it carries. 0 for an accepted sheet, else the number of its
// refusal: the lent numbers are then as they were.
#[unsafe(no_mangle)]
pub extern "C" fn fonddrys_sheet_read(numbers: &mut [i32; numbers::UNIT_SIZE], bytes: &[u8]) -> u32
    ensures { SheetReadGives numbers.old bytes.now result numbers.new }
{
    lending::sheet_read(numbers, bytes)
}

// Where the data of a wave file lies, in three answers. The number of the refusal, 0 for an accepted file.
#[unsafe(no_mangle)]
pub extern "C" fn fonddrys_wave_refusal(file: &[u8]) -> u32
    ensures { result ≡ number_of (found file.now) }
{
    match wave_reading::find(file) {
        Ok(_) => 0,
        Err(refusal) => refusal as u32,
    }
}

// The place in a wave file at which the data begins, 0 after a refusal.
#[unsafe(no_mangle)]
pub extern "C" fn fonddrys_wave_from(file: &[u8]) -> usize
    ensures { result ≡ (place_of (found file.now)).from }
{
    wave_reading::find(file).unwrap_or_default().from
}

// How many bytes the data of a wave file has, 0 after a refusal.
#[unsafe(no_mangle)]
pub extern "C" fn fonddrys_wave_size(file: &[u8]) -> usize
    ensures { result ≡ (place_of (found file.now)).size }
{
    wave_reading::find(file).unwrap_or_default().size
}

// Writes the wave file of the frames to the front of the buffer; bytes behind it keep their contents. 0 for an accepted call, else the number
// of its refusal: the buffer is then as it was.
#[unsafe(no_mangle)]
pub extern "C" fn fonddrys_wave_write(frames: &[u8], buffer: &mut [u8]) -> u32
    ensures { (result ≡ number_of (write_verdict (length frames.now) (length buffer.old))) × (buffer.new ≡ written frames.now buffer.old) }
{
    refusals::number(wave_writing::write(frames, buffer))
}
