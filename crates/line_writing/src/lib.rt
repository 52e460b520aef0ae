// Writing a line of the strip sheet, from a place on: a line of each kind.
#![tactic(auto)]

ghost use Rattle.std.specs.Prelude.{◌≡◌, [], ◌∷◌, ◌+◌, ◌*◌, ◌≤◌, length};
ghost use Rattle.std.proofs.lemmas.List.Edits.{sets};
ghost use Rattle.lists.specs.Lists.{joined};
ghost use Rattle.unit.specs.Fit.{VolumeFit, SectionFit};
ghost use Rattle.fields.specs.Fields.{field_size, field};
ghost use Rattle.forms.specs.Line.{line_size, line_text};
ghost use Rattle.sheet.specs.Lines.{volume_ranges, volume_form, band_letter, band_ranges, band_form, head_ranges, head_form, section_ranges, section_form};

use bands::Band;
use levels::Level;
use unit::BandSection;

// Writes the V line of a fit volume from place at on.
#[tactic(auto, using(words::proofs::Laws::narrow_need, words::proofs::Laws::narrow_reads, unit::proofs::Ranges::volume_size))]
pub fn put_volume(out: &mut [u8], at: usize, volume: Level)
    requires { (at + line_size (length volume_ranges) ≤ length out.old) × VolumeFit volume }
    ensures { out.new ≡ sets out.old at (volume_form.text volume) }
{
    let row = [volume.present as i32, volume.target as i32];
    put_line(out, at, sheet::VOLUME_LETTER, &row);
}

// Writes the C line of a band from place at on.
pub fn put_band(out: &mut [u8], at: usize, band: Band)
    requires { at + line_size (length band_ranges) ≤ length out.old }
    ensures { out.new ≡ sets out.old at ((band_form band_letter).text band) }
{
    let row = [band.alpha, band.beta, band.gamma];
    put_line(out, at, sheet::BAND_LETTER, &row);
}

// Writes the head of a side, two inputs and a flag behind the letter of the side, from place at on.
pub fn put_head(out: &mut [u8], at: usize, letter: u8, x1: i32, x2: i32, flag: i32)
    requires { at + line_size (length head_ranges) ≤ length out.old }
    ensures { out.new ≡ sets out.old at ((head_form letter).text (x1 ∷ x2 ∷ flag ∷ [])) }
{
    let row = [x1, x2, flag];
    put_line(out, at, letter, &row);
}

// Writes the S line of a fit section from place at on, with the remainder or without it, and gives the place behind the line.
#[tactic(auto, using(words::proofs::Laws::narrow_need, words::proofs::Laws::word_size_lem, crate::proofs::Runs::remainder_small))]
pub fn put_section(out: &mut [u8], at: usize, fifth: bool, section: BandSection) -> usize
    requires { (at + line_size (length (section_ranges fifth)) ≤ length out.old) × SectionFit section }
    ensures { (out.new ≡ sets out.old at ((section_form fifth).text section)) × (result ≡ at + line_size (length (section_ranges fifth))) }
{
    let row = [
        section.y1 as i32,
        section.y2 as i32,
        section.gain.present as i32,
        section.gain.target as i32,
        section.remainder as i32,
    ];
    put_line(
        out,
        at,
        sheet::SECTION_LETTER,
        &row[..sheet::section_fields(fifth)],
    );
    at + sheet::section_line(fifth)
}

// Writes a line from place at on: a letter, a field for each number, and a line feed.
#[tactic(auto, using(crate::proofs::Runs::parts_put, forms::proofs::Line::fields_length))]
fn put_line(out: &mut [u8], at: usize, letter: u8, row: &[i32])
    requires { at + line_size (length row.now) ≤ length out.old }
    ensures { out.new ≡ sets out.old at (line_text letter row.now) }
{
    out[at] = letter;
    put_fields(out, at + 1, row);
    out[at + 1 + fields::FIELD_SIZE * row.len()] = sheet::LINE_FEED;
}

// Writes a field for each number from place at on.
#[tactic(auto, using(crate::proofs::Runs::field_put))]
fn put_fields(out: &mut [u8], at: usize, row: &[i32])
    requires { at + field_size * length row.now ≤ length out.old }
    ensures { out.new ≡ sets out.old at (joined field row.now) }
{
    for (i, &number) in row.iter().enumerate() {
        field_writing::put_field(out, at + fields::FIELD_SIZE * i, number);
    }
}
