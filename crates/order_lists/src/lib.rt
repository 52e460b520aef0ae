// Level orders as a list of words, three for each: which lists are orders, and all of them given to a unit in turn.
#![tactic(auto)]

ghost use Rattle.std.specs.Prelude.{◌≡◌};
ghost use Rattle.unit.specs.Answered.{answered};
ghost use Rattle.order_lists.specs.Lists.{are_orders, byte_of, is_number, is_order, place_of, setting_of, order_in, orders_in, ordered_all};

use arguments::Word;
use refusals::Refusal;
use settings::Setting;
use unit::Unit;

// How many words an order has: side, band and level.
const ORDER_SIZE: usize = 3;

// As many orders as there are places: every band on either side and on both, and the volume.
const PLACES: usize = (settings::BOTH_SIDES as usize + 1) * bands::BAND_COUNT + 1;

// The room that a list of so many orders needs.
pub const LIST_ROOM: usize = ORDER_SIZE * PLACES;

// No side and no band has this number.
const NO_PLACE: u32 = 1_000_000_000;

// A level order.
#[derive(Clone, Copy)]
pub struct DeskOrder {
    pub side: u32,
    pub band: u32,
    pub setting: Setting,
}

// Whether the words are orders, one behind the other, and nothing is left over.
pub fn are_orders(words: &[Word]) -> bool
    ensures { result ≡ are_orders words.now }
{
    let mut rest = words;
    while let [side, band, level, after @ ..] = rest {
        if !is_order(*side, *band, *level) {
            return false;
        }
        rest = after;
    }
    rest.is_empty()
}

// Gives the orders to the unit in turn, up to the first that is refused, whose answer counts.
pub fn order_all(unit: &mut Unit, words: &[Word]) -> Result<(), Refusal>
    ensures { answered result unit.new ≡ ordered_all unit.old (orders_in words.now) }
{
    let mut rest = words;
    while let [side, band, level, after @ ..] = rest {
        let order = order_in(*side, *band, *level);
        orders::order(unit, order.side, order.band, order.setting)?;
        rest = after;
    }
    Ok(())
}

// Whether three words are an order: side and band are numbers, and the level is a number or mute.
fn is_order(side: Word, band: Word, level: Word) -> bool
    ensures { result ≡ is_order side band level }
{
    is_number(side) && is_number(band) && level != Word::Other
}

// Whether a word is a number.
fn is_number(word: Word) -> bool
    ensures { result ≡ is_number word }
{
    matches!(word, Word::Number(_))
}

// The order of three words.
fn order_in(side: Word, band: Word, level: Word) -> DeskOrder
    ensures { result ≡ order_in side band level }
{
    DeskOrder {
        side: place_of(side),
        band: place_of(band),
        setting: setting_of(level),
    }
}

// The number of a word as a side or a band; a word that is none stands for a place that is not there.
fn place_of(word: Word) -> u32
    ensures { result ≡ place_of word }
{
    match word {
        Word::Number(number) => number,
        Word::Mute | Word::Other => NO_PLACE,
    }
}

// The level that a word means: mute, or a position; a word that is neither stands for a position that is not there.
fn setting_of(level: Word) -> Setting
    ensures { result ≡ setting_of level }
{
    match level {
        Word::Number(number) => Setting::Position(byte(number)),
        Word::Mute => Setting::Mute,
        Word::Other => Setting::Position(byte(NO_PLACE)),
    }
}

// A number as a byte; one that is too large is the largest.
#[tactic(auto, unfolding(crate::specs::Lists::byte_of))]
fn byte(number: u32) -> u8
    ensures { result ≡ byte_of number }
{
    u8::try_from(number).unwrap_or(255)
}
