// Writing a field of the strip sheet: a number in nine columns.
#![tactic(auto)]

ghost use Rattle.std.specs.Prelude.{◌≡◌, ◌+◌, ◌≤◌, length};
ghost use Rattle.std.proofs.lemmas.List.Edits.{sets};
ghost use Rattle.fields.specs.Fields.{field_size, last_column, column as column_of, columns, field};

use fields::{BLANK, LAST_COLUMN, MINUS, ZERO};

// The columns in front of a single digit and its minus: blanks.
const FRONT: usize = LAST_COLUMN - 1;

// Writes the number's field from place at on: its digits from the right, then the minus, then blanks.
pub fn put_field(out: &mut [u8], at: usize, number: i32)
    requires { at + field_size ≤ length out.old }
    ensures { out.new ≡ sets out.old at (field number) }
{
    let size = number.unsigned_abs();
    let negative = number < 0;
    if size < 10 {
        out[at..at + FRONT].fill(BLANK);
        out[at + FRONT] = column(0, negative);
        out[at + LAST_COLUMN] = ZERO + size as u8;
        return;
    }
    out[at + LAST_COLUMN] = ZERO + (size % 10) as u8;
    put_columns(out, at, size / 10, negative);
}

// Writes the columns before the last from place at on, from the right: the digits of size, then the minus, then blanks.
fn put_columns(out: &mut [u8], at: usize, size: u32, negative: bool)
    requires { at + last_column ≤ length out.old }
    ensures { out.new ≡ sets out.old at (columns last_column size negative) }
{
    let mut left = size;
    let mut owed = negative;
    for i in (0..LAST_COLUMN).rev() {
        out[at + i] = column(left, owed);
        owed &= left != 0;
        left /= 10;
    }
}

// The column of what is left of a number: its last digit; where nothing is left, the minus that is owed, or a blank.
#[tactic(auto, unfolding(fields::specs::Fields::column))]
fn column(left: u32, owed: bool) -> u8
    ensures { result ≡ column_of left owed }
{
    if left > 0 {
        ZERO + (left % 10) as u8
    } else if owed {
        MINUS
    } else {
        BLANK
    }
}
