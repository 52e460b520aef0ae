// Reading the strip sheet: the unit that it carries, or the first refusal, with the given unit as it was.
#![tactic(auto)]

ghost use Rattle.std.specs.Prelude.{◌≡◌, Ok};
ghost use Rattle.refusals.specs.Numbers.{first_of};
ghost use Rattle.unit.specs.Answered.{answered};
ghost use Rattle.sheet.specs.Sheet.{side_letters, bands_form, sides_form, taken_verdict};
ghost use Rattle.line_reading.specs.Gives.{form_read};
ghost use Rattle.reading.specs.Reading.{sheet_read};
ghost use Rattle.reading.specs.Parts.{lines_read};

use bands::Band;
use refusals::{Refusal, Verdict};
use unit::{Channel, Unit};

// The letters of the sides, left and right.
const SIDE_LETTERS: [u8; unit::CHANNEL_COUNT] = [sheet::LEFT_LETTER, sheet::RIGHT_LETTER];

// Reads a sheet: 11 for a wrong length, then the first refusal from the first byte on. Refused, the unit stays as it was.
pub fn read(bytes: &[u8], unit: &mut Unit) -> Verdict
    ensures { answered result unit.new ≡ sheet_read side_letters bytes.now unit.old }
{
    let long = bytes.len() == sheet::SHEET_SIZE;
    if !(long | (bytes.len() == sheet::SHORT_SIZE)) {
        return Err(Refusal::SheetLength);
    }
    let mut carried = unit::cleared([Band::default(); bands::BAND_COUNT]);
    read_lines(bytes, long, &mut carried)?;
    *unit = carried;
    Ok(())
}

// Reads all lines of the longer sheet or of the short one: the V line and the C lines, then the sides, and no byte more. Stores the unit; refused,
// what it holds is of no use.
fn read_lines(bytes: &[u8], long: bool, unit: &mut Unit) -> Verdict
    ensures { first_of result (Ok unit.new) ≡ lines_read long side_letters bytes.now }
{
    let volume = line_reading::read_volume(bytes)?;
    unit.volume = volume;
    let bands = read_bands(&bytes[sheet::BANDS_AT..])?;
    unit.bands = bands;
    read_sides(&bytes[sheet::SIDES_AT..], long, &mut unit.channels)?;
    let next = sheet::SIDES_AT + sheet::side_lines(long) * unit::CHANNEL_COUNT;
    check_taken(bytes, next)?;
    Ok(())
}

// Reads ten C lines.
fn read_bands(bytes: &[u8]) -> Result<[Band; bands::BAND_COUNT], Refusal>
    ensures { result ≡ form_read bands_form bytes.now }
{
    let mut bands = [Band::default(); bands::BAND_COUNT];
    for b in 0..bands::BAND_COUNT {
        bands[b] = line_reading::read_band(&bytes[sheet::BAND_LINE * b..])?;
    }
    Ok(bands)
}

// Reads a side for each letter, each behind the one ahead of it. Stores the channels; refused, what they hold is of no use.
fn read_sides(bytes: &[u8], long: bool, channels: &mut [Channel; unit::CHANNEL_COUNT]) -> Verdict
    ensures { first_of result (Ok channels.new) ≡ form_read (sides_form long side_letters) bytes.now }
{
    let mut next = 0;
    for i in 0..unit::CHANNEL_COUNT {
        side_reading::read_side(&bytes[next..], long, SIDE_LETTERS[i], &mut channels[i])?;
        next += sheet::side_lines(long);
    }
    Ok(())
}

// 12 where bytes are left over from this place on.
fn check_taken(bytes: &[u8], next: usize) -> Verdict
    ensures { result ≡ taken_verdict bytes.now next }
{
    if bytes.len() != next {
        return Err(Refusal::LineMark);
    }
    Ok(())
}
