// Reading a line of the strip sheet, in the bytes from its letter on: what it carries, or the first refusal.
#![tactic(auto)]

ghost use Rattle.std.specs.Prelude.{◌≡◌, ◌+◌, ◌*◌, ◌≤◌, length, replicate};
ghost use Rattle.bands.specs.Bands.{band_verdict};
ghost use Rattle.fields.specs.Fields.{field_size, field_at};
ghost use Rattle.forms.specs.Line.{letter_verdict, end_verdict};
ghost use Rattle.sheet.specs.Lines.{volume_form, band_letter, band_form, head_ranges, head_form, fifth_range, section_form, row_size};
ghost use Rattle.line_reading.specs.Gives.{is_admitted, form_read, number_read, numbers_read, remainder_read};

use bands::Band;
use levels::Level;
use refusals::{Refusal, Verdict};
use unit::BandSection;

// Where the flag of an L or an R line stands behind the line's first field, and the remainder of an S line.
const FLAG_AT: usize = fields::FIELD_SIZE * (sheet::HEAD_FIELDS - 1);

const REMAINDER_AT: usize = fields::FIELD_SIZE * sheet::PLAIN_FIELDS;

// The numbers that a field may have: any, as by itself in a C line; an input; or one between two ends.
#[derive(Clone, Copy, Debug, PartialEq, Eq)]
enum Range {
    Any,
    Input,
    Between(i32, i32),
}

// The ranges of a volume, a flag, a word and a remainder.
const VOLUME: Range = Range::Between(0, words::WORD_MOST);

const FLAG: Range = Range::Between(0, 1);

const WORD: Range = Range::Between(words::WORD_LEAST, words::WORD_MOST);

const REMAINDER: Range = Range::Between(unit::REMAINDER_LEAST, unit::REMAINDER_MOST);

// Reads the V line: two numbers from 0 to the largest word.
pub fn read_volume(bytes: &[u8]) -> Result<Level, Refusal>
    ensures { result ≡ form_read volume_form bytes.now }
{
    check_letter(bytes, sheet::VOLUME_LETTER, sheet::VOLUME_FIELDS)?;
    let numbers = read_numbers::<{ sheet::VOLUME_FIELDS }>(&bytes[1..], VOLUME)?;
    check_end(bytes, sheet::VOLUME_FIELDS)?;
    Ok(Level {
        present: numbers[0] as i64,
        target: numbers[1] as i64,
    })
}

// Reads a C line: 8 to 10 stand behind its fields and ahead of its line end.
pub fn read_band(bytes: &[u8]) -> Result<Band, Refusal>
    ensures { result ≡ form_read (band_form band_letter) bytes.now }
{
    check_letter(bytes, sheet::BAND_LETTER, sheet::BAND_FIELDS)?;
    let numbers = read_numbers::<{ sheet::BAND_FIELDS }>(&bytes[1..], Range::Any)?;
    let band = bands::band_at(&numbers, 0);
    bands::check_band(band)?;
    check_end(bytes, sheet::BAND_FIELDS)?;
    Ok(band)
}

// Reads the L or the R line with this letter: two inputs and a flag.
pub fn read_head(bytes: &[u8], letter: u8) -> Result<[i32; sheet::HEAD_FIELDS], Refusal>
    ensures { result ≡ form_read (head_form letter) bytes.now }
{
    check_letter(bytes, letter, sheet::HEAD_FIELDS)?;
    let numbers = read_head_numbers(&bytes[1..])?;
    check_end(bytes, sheet::HEAD_FIELDS)?;
    Ok(numbers)
}

// Reads the fields of an L or an R line.
fn read_head_numbers(bytes: &[u8]) -> Result<[i32; sheet::HEAD_FIELDS], Refusal>
    requires { field_size * length head_ranges ≤ length bytes.now }
    ensures { result ≡ numbers_read head_ranges bytes.now }
{
    let inputs = read_numbers::<2>(bytes, Range::Input)?;
    let flag = read_numbers::<1>(&bytes[FLAG_AT..], FLAG)?;
    Ok([inputs[0], inputs[1], flag[0]])
}

// Reads an S line, with the remainder or without it.
pub fn read_section(bytes: &[u8], fifth: bool) -> Result<BandSection, Refusal>
    ensures { result ≡ form_read (section_form fifth) bytes.now }
{
    let count = sheet::section_fields(fifth);
    check_letter(bytes, sheet::SECTION_LETTER, count)?;
    let numbers = read_numbers::<{ sheet::PLAIN_FIELDS }>(&bytes[1..], WORD)?;
    let remainder = read_remainder(&bytes[1 + REMAINDER_AT..], fifth)?;
    check_end(bytes, count)?;
    Ok(BandSection {
        y1: numbers[0] as i64,
        y2: numbers[1] as i64,
        gain: Level {
            present: numbers[2] as i64,
            target: numbers[3] as i64,
        },
        remainder: remainder as i64,
    })
}

// Reads the field of the remainder. Where the line has none, the remainder is 0.
fn read_remainder(bytes: &[u8], fifth: bool) -> Result<i32, Refusal>
    requires { field_size * length (fifth_range fifth) ≤ length bytes.now }
    ensures { result ≡ remainder_read fifth bytes.now }
{
    if !fifth {
        return Ok(0);
    }
    read_number(bytes, 0, REMAINDER)
}

// Reads so many fields of one range.
fn read_numbers<const N: usize>(bytes: &[u8], range: Range) -> Result<[i32; N], Refusal>
    requires { field_size * N ≤ length bytes.now }
    ensures { result ≡ numbers_read (replicate N (is_admitted range)) bytes.now }
{
    let mut numbers = [0i32; N];
    for i in 0..N {
        numbers[i] = read_number(bytes, fields::FIELD_SIZE * i, range)?;
    }
    Ok(numbers)
}

// Reads the field from place at on: 13 where it is badly written, 14 where its number is outside the range.
fn read_number(bytes: &[u8], at: usize, range: Range) -> Result<i32, Refusal>
    requires { at + field_size ≤ length bytes.now }
    ensures { result ≡ number_read (is_admitted range) (field_at bytes.now at) }
{
    match field_reading::read_field(bytes, at) {
        None => Err(Refusal::FieldForm),
        Some(number) => {
            if !is_admitted(range, number) {
                return Err(Refusal::Unfit);
            }
            Ok(number)
        }
    }
}

// Whether a range has the number.
fn is_admitted(range: Range, number: i32) -> bool
    ensures { result ≡ is_admitted range number }
{
    match range {
        Range::Any => true,
        Range::Input => fitness::is_input(number),
        Range::Between(low, high) => rounding::in_range(low, high, number),
    }
}

// 12 where there are fewer bytes than a line of so many fields has, or the first of them is not its letter.
fn check_letter(bytes: &[u8], letter: u8, count: usize) -> Verdict
    requires { count ≤ row_size }
    ensures { result ≡ letter_verdict letter count bytes.now }
{
    if bytes.len() < fields::FIELD_SIZE * count + 2 {
        return Err(Refusal::LineMark);
    }
    if bytes[0] != letter {
        return Err(Refusal::LineMark);
    }
    Ok(())
}

// 12 where the line of so many fields does not end with a line feed.
fn check_end(bytes: &[u8], count: usize) -> Verdict
    requires { field_size * count + 2 ≤ length bytes.now }
    ensures { result ≡ end_verdict count bytes.now }
{
    if bytes[fields::FIELD_SIZE * count + 1] != sheet::LINE_FEED {
        return Err(Refusal::LineMark);
    }
    Ok(())
}
