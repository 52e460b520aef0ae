// Reading a field of the strip sheet: the number in nine columns.
#![tactic(auto)]

ghost use Rattle.std.specs.Prelude.{◌≡◌, false, ◌+◌, ◌≤◌, ◌<◌, eqb, length, take};
ghost use Rattle.integers.specs.Signed.{signed};
ghost use Rattle.fields.specs.Fields.{field_size, last_column, is_digit, field_at, field_read};
ghost use Rattle.field_reading.specs.Scan.{blanks_of, digits_read, number_read, is_long};

use fields::{BLANK, FIELD_SIZE, LAST_COLUMN, MINUS, ZERO};

// Four blanks as one number.
const FOUR_BLANKS: u32 = 0x0101_0101 * BLANK as u32;

// Reads the nine columns from place at on: blanks, a minus or none, digits with no leading zero. None where they are badly written.
// Never inlined: its short ways need few registers, and a caller that holds it saves them for all.
#[inline(never)]
pub fn read_field(bytes: &[u8], at: usize) -> Option<i32>
    requires { at + field_size ≤ length bytes.now }
    ensures { result ≡ field_read (field_at bytes.now at) }
{
    read_columns(&bytes[at..at + FIELD_SIZE])
}

// Reads nine columns. One digit behind blanks and seven digits, the most usual forms, go a shorter way.
fn read_columns(columns: &[u8]) -> Option<i32>
    requires { length columns.now ≡ field_size }
    ensures { result ≡ field_read columns.now }
{
    if all_blank(columns) {
        return read_digits(&columns[LAST_COLUMN..], false);
    }
    read_wide(columns)
}

// Reads nine columns that are not eight blanks and another. Never inlined, so that the registers that it needs are not saved for one digit.
#[inline(never)]
fn read_wide(columns: &[u8]) -> Option<i32>
    requires { (length columns.now ≡ field_size) × (eqb (blanks_of (take last_column columns.now)) last_column ≡ false) }
    ensures { result ≡ field_read columns.now }
{
    if is_long(columns) {
        return read_digits(&columns[2..], columns[1] == MINUS);
    }
    let start = skip_blanks(&columns[..LAST_COLUMN]);
    if columns[start] == MINUS {
        return read_number(&columns[start + 1..], true);
    }
    read_number(&columns[start..], false)
}

// Whether the columns before the last are all blank: they are compared four at a time.
fn all_blank(columns: &[u8]) -> bool
    requires { last_column ≤ length columns.now }
    ensures { result ≡ eqb (blanks_of (take last_column columns.now)) last_column }
{
    let low = [columns[0], columns[1], columns[2], columns[3]];
    let high = [columns[4], columns[5], columns[6], columns[7]];
    (u32::from_le_bytes(low) == FOUR_BLANKS) & (u32::from_le_bytes(high) == FOUR_BLANKS)
}

// Whether seven digits may follow: a blank, a blank or a minus, and a byte above the digit 0.
fn is_long(columns: &[u8]) -> bool
    requires { last_column ≤ length columns.now }
    ensures { result ≡ is_long columns.now }
{
    let sign = columns[1];
    (columns[0] == BLANK) & ((sign == BLANK) | (sign == MINUS)) & (columns[2] > ZERO)
}

// How many blanks the columns begin with.
fn skip_blanks(columns: &[u8]) -> usize
    ensures { result ≡ blanks_of columns.now }
{
    for (i, byte) in columns.iter().enumerate() {
        if *byte != BLANK {
            return i;
        }
    }
    columns.len()
}

// The number of the digits; None where the first is 0, or one of the bytes is no digit.
fn read_number(digits: &[u8], negative: bool) -> Option<i32>
    requires { (0 < length digits.now) × (length digits.now ≤ field_size) }
    ensures { result ≡ number_read negative digits.now }
{
    if digits[0] == ZERO {
        return None;
    }
    read_digits(digits, negative)
}

// The number of the digits; None where one of the bytes is no digit.
fn read_digits(digits: &[u8], negative: bool) -> Option<i32>
    requires { length digits.now ≤ field_size }
    ensures { result ≡ digits_read negative digits.now }
{
    let mut value = 0u32;
    for byte in digits {
        if !is_digit(*byte) {
            return None;
        }
        value = 10 * value + (*byte - ZERO) as u32;
    }
    Some(with_sign(negative, value))
}

// Whether a byte is a digit.
fn is_digit(byte: u8) -> bool
    ensures { result ≡ is_digit byte }
{
    byte.is_ascii_digit()
}

// A number of at most nine digits with its sign.
fn with_sign(negative: bool, value: u32) -> i32
    requires { value < 1000000000 }
    ensures { result ≡ signed negative value }
{
    if negative {
        -(value as i32)
    } else {
        value as i32
    }
}
