// What the programs decide, on values: play for the bytes of a sheet, for the data of a wave file and at the end of a sound, desk for the words
// that arguments stand for and for a sheet. The programs read, ask here, and write what is answered.
#![tactic(auto)]

ghost use Rattle.std.specs.Prelude.{◌≡◌};
ghost use Rattle.unit.specs.Answered.{answered};
ghost use Rattle.order_lists.specs.Lists.{orders_in};
ghost use Rattle.decisions.specs.Decisions.{opened, ending_of, can_play, wave_verdict, wave_ending_of, is_call, desk_verdict, desk_sheet};

use arguments::Word;
use refusals::{Refusal, Verdict};
use unit::Unit;
use wave_reading::Located;

// How a pass ends: whether the sheet is written, and what is answered behind it.
#[derive(Clone, Copy, Debug, PartialEq, Eq)]
pub struct PassEnd {
    pub is_saved: bool,
    pub verdict: Verdict,
}

// What is answered for the bytes of a sheet. Stores the unit that it carries, or, where it is refused, the cleared house unit.
pub fn opening(bytes: &[u8], unit: &mut Unit) -> Result<(), Refusal>
    ensures { answered result unit.new ≡ opened bytes.now }
{
    *unit = loading::house_unit();
    reading::read(bytes, unit)
}

// The end of a sound: the sheet is written, and then a tail is refused. Where sound was lost on its way out there is no sheet.
#[tactic(auto, unfolding(crate::specs::Decisions::ending_of))]
pub fn ending(is_lost: bool, held: usize) -> PassEnd
    ensures { result ≡ ending_of is_lost held }
{
    PassEnd {
        is_saved: !is_lost,
        verdict: if is_lost || held == 0 {
            Ok(())
        } else {
            Err(Refusal::InputLength)
        },
    }
}

// Whether the data that is located in a wave file can be played: the walk leads to it, and a wave file can be written of as many bytes.
pub fn can_play(place: Result<Located, Refusal>) -> bool
    ensures { result ≡ can_play place }
{
    match place {
        Ok(place) => wave_writing::check_size(place.size).is_ok(),
        Err(_) => false,
    }
}

// What is answered for the data that is located in a wave file, where so many bytes of it are missing: 16 or 17, 18, 5, or accepted.
pub fn check_wave(place: Result<Located, Refusal>, missing: usize) -> Result<(), Refusal>
    ensures { result ≡ wave_verdict place missing }
{
    let place = place?;
    wave_reading::check_data(missing, place.size)?;
    wave_writing::check_size(place.size)
}

// The end of a wave file: the sheet is written where all of the data came and none of its sound was lost.
#[tactic(auto, unfolding(crate::specs::Decisions::wave_ending_of))]
pub fn wave_ending(is_lost: bool, place: Result<Located, Refusal>, missing: usize) -> PassEnd
    ensures { result ≡ wave_ending_of is_lost place missing }
{
    if is_lost {
        return PassEnd {
            is_saved: false,
            verdict: Ok(()),
        };
    }
    let verdict = check_wave(place, missing);
    PassEnd {
        is_saved: verdict.is_ok(),
        verdict,
    }
}

// Whether so many arguments, which stand for these words, are orders: there was room for all, there is one at least, and nothing is left over.
pub fn is_call(count: usize, words: &[Word]) -> bool
    ensures { result ≡ is_call count words.now }
{
    count == words.len() && count > 0 && order_lists::are_orders(words)
}

// The orders of these words, to the unit that these bytes carry. The answer is the sheet's refusal, or then that of the first refused order.
// All accepted, the sheet after them is at the front of the buffer; one refused, the buffer is unchanged.
pub fn order(words: &[Word], bytes: &[u8], sheet: &mut [u8]) -> Result<(), Refusal>
    ensures { (result ≡ desk_verdict bytes.now (orders_in words.now)) × (sheet.new ≡ desk_sheet bytes.now (orders_in words.now) sheet.old) }
{
    let mut unit = loading::house_unit();
    opening(bytes, &mut unit)?;
    order_lists::order_all(&mut unit, words)?;
    writing::fill(unit, sheet);
    Ok(())
}
