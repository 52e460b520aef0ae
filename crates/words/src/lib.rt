// Words: whole numbers of 24 bits, signed. docs/SPECIFICATION.md, Words and the section.
#![tactic(auto)]

ghost use Rattle.std.specs.Prelude.{◌≡◌};
ghost use Rattle.words.specs.Words.{is_word};

use rounding::Whole;

// The ends of a word: 24 bits, signed.
pub const WORD_LOW: i64 = -8388608;

pub const WORD_HIGH: i64 = 8388607;

// The ends of a word in 32 bits, as coefficients and fields of a sheet have them.
pub const WORD_LEAST: i32 = WORD_LOW as i32;

pub const WORD_MOST: i32 = WORD_HIGH as i32;

// Whether v is a word.
pub fn is_word<T: Whole>(v: T) -> bool
    ensures { result ≡ is_word (T.whole v) }
{
    rounding::in_range(T::of(WORD_LEAST), T::of(WORD_MOST), v)
}
