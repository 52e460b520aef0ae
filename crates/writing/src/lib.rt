// Writing the strip sheet: 33 lines, 1,200 bytes.
// `fill` promises every byte of the lent buffer. `write` hands back the part that it filled, and stands on `fill`.
#![tactic(auto)]

ghost use Rattle.std.specs.Prelude.{◌≡◌, true, ◌+◌, ◌*◌, ◌≤◌, length};
ghost use Rattle.std.proofs.lemmas.List.Edits.{sets};
ghost use Rattle.lists.specs.Lists.{Each};
ghost use Rattle.bands.specs.Bands.{band_count};
ghost use Rattle.unit.specs.Fit.{SectionFit, ChannelFit, Fit};
ghost use Rattle.unit.specs.Sizes.{channel_count};
ghost use Rattle.forms.specs.Line.{line_size};
ghost use Rattle.sheet.specs.Lines.{band_ranges};
ghost use Rattle.sheet.specs.Sheet.{side_letters, bands_form, sections_form, side_form, sides_form, sections_size, side_size, sheet_size, sheet_of};
ghost use Rattle.writing.specs.Written.{filled_count, filled_part, filled};

use bands::Band;
use unit::{BandSection, Channel, Unit};

// Writes the unit's sheet to the front of the buffer, and hands back that part: 1,200 bytes, or an empty part from a shorter buffer or for
// an unfit unit.
#[tactic(auto, using(crate::proofs::Filled::part_filled))]
pub fn write<'a>(unit: Unit, out: &'a mut [u8]) -> &'a mut [u8]
    ensures { (result.now ≡ filled_part side_letters unit (length out.old)) × (result.ref_ptr ≡ out.entry.ref_ptr) }
{
    let count = fill(unit, out);
    &mut out[..count]
}

// Fills the front of the buffer with the unit's sheet, and gives the count of its bytes. From a shorter buffer, or for an unfit unit, the
// count is 0 and nothing is written.
pub fn fill(unit: Unit, out: &mut [u8]) -> usize
    ensures { (result ≡ filled_count side_letters unit (length out.old)) × (out.new ≡ filled side_letters unit out.old) }
{
    if out.len() < sheet::SHEET_SIZE {
        return 0;
    }
    if !fitness::is_fit(unit) {
        return 0;
    }
    put_sheet(out, unit);
    sheet::SHEET_SIZE
}

// Writes the sheet of a fit unit to the front of a buffer that has room for it: the V line, the C lines, and a side for each letter.
pub fn put_sheet(out: &mut [u8], unit: Unit)
    requires { (sheet_size side_letters ≤ length out.old) × Fit unit }
    ensures { out.new ≡ sets out.old 0 (sheet_of side_letters unit) }
{
    let letters = [sheet::LEFT_LETTER, sheet::RIGHT_LETTER];
    line_writing::put_volume(out, 0, unit.volume);
    put_bands(out, sheet::BANDS_AT, unit.bands);
    put_sides(out, sheet::SIDES_AT, letters, unit.channels);
}

// Writes ten C lines from place at on.
#[tactic(auto, using(forms::proofs::Texts::onward_begin, forms::proofs::Texts::onward_size, forms::proofs::Texts::onward_done))]
fn put_bands(out: &mut [u8], at: usize, bands: [Band; bands::BAND_COUNT])
    requires { at + line_size (length band_ranges) * band_count ≤ length out.old }
    ensures { out.new ≡ sets out.old at (bands_form.text bands) }
{
    for (i, &band) in bands.iter().enumerate() {
        line_writing::put_band(out, at + sheet::BAND_LINE * i, band);
    }
}

// Writes the side of each fit channel from place at on, each behind a letter.
#[tactic(auto, using(forms::proofs::Texts::onward_begin, forms::proofs::Texts::onward_size, forms::proofs::Texts::onward_done))]
fn put_sides(
    out: &mut [u8],
    at: usize,
    letters: [u8; unit::CHANNEL_COUNT],
    channels: [Channel; unit::CHANNEL_COUNT],
)
    requires { (at + side_size true * channel_count ≤ length out.old) × Each ChannelFit channels }
    ensures { out.new ≡ sets out.old at ((sides_form true letters).text channels) }
{
    let mut next = at;
    for (i, &channel) in channels.iter().enumerate() {
        next = put_side(out, next, letters[i], channel);
    }
}

// Writes the side of a fit channel from place at on, a head and ten S lines, and gives the place behind it.
#[tactic(auto, using(words::proofs::Laws::narrow_need, unit::proofs::Ranges::input_size))]
fn put_side(out: &mut [u8], at: usize, letter: u8, channel: Channel) -> usize
    requires { (at + side_size true ≤ length out.old) × ChannelFit channel }
    ensures { (out.new ≡ sets out.old at ((side_form true letter).text channel)) × (result ≡ at + side_size true) }
{
    line_writing::put_head(
        out,
        at,
        letter,
        channel.x1 as i32,
        channel.x2 as i32,
        channel.flag as i32,
    );
    put_sections(out, at + sheet::HEAD_LINE, channel.sections);
    at + sheet::SIDE_LINES
}

// Writes ten S lines of fit sections from place at on, with the remainder in those of the bands that feed it back.
#[tactic(auto, using(forms::proofs::Texts::onward_begin, forms::proofs::Texts::onward_size, forms::proofs::Texts::onward_done))]
fn put_sections(out: &mut [u8], at: usize, sections: [BandSection; bands::BAND_COUNT])
    requires { (at + sections_size true ≤ length out.old) × Each SectionFit sections }
    ensures { out.new ≡ sets out.old at ((sections_form true).text sections) }
{
    let mut next = at;
    for (i, &section) in sections.iter().enumerate() {
        next = line_writing::put_section(out, next, i < unit::FEEDBACK_COUNT, section);
    }
}
