// What the functions of the static library share: calls on a unit, or on a section, whose numbers are lent.
#![tactic(auto)]

ghost use Rattle.std.specs.Prelude.{◌≡◌};
ghost use Rattle.refusals.specs.Numbers.{number_of};
ghost use Rattle.section.specs.Step.{stepped};
ghost use Rattle.loading.specs.Loading.{loaded};
ghost use Rattle.numbers.specs.Layout.{numbers_of};
ghost use Rattle.lending.specs.Layout.{lone_section, lone_numbers, answer_of, BlockGives, OrderGives, SheetWriteGives, SheetReadGives};

use bands::Band;
use section::Section;
use settings::Setting;

// A section as numbers: A, B, G, x1, x2, y1, y2.
pub const SECTION_NUMBERS: usize = 7;

// What a step gives, as numbers: y, the remainder, 1 where the section has limited, else 0, and the refusal's number, 0 where there is none.
#[repr(C)]
#[derive(Clone, Copy, Debug, Default, PartialEq, Eq)]
pub struct StepAnswer {
    pub y: i32,
    pub remainder: i32,
    pub limited: u32,
    pub refusal: u32,
}

// One step of the section whose seven numbers are lent: A, B, G, x1, x2, y1, y2. They are those of the section after the step;
// refused, they stay as they are.
pub fn section_step(numbers: &mut [i32; SECTION_NUMBERS], x: i32) -> StepAnswer
    ensures { (result ≡ answer_of (lone_section numbers.old) x) × (numbers.new ≡ lone_numbers (stepped (lone_section numbers.old) x).section) }
{
    let [alpha, beta, gamma, x1, x2, y1, y2] = *numbers;
    let section = Section {
        band: Band { alpha, beta, gamma },
        x1,
        x2,
        y1,
        y2,
    };
    match section::step(section, x) {
        Ok(stepped) => {
            store(numbers, stepped.section);
            StepAnswer {
                y: stepped.y,
                remainder: stepped.remainder,
                limited: u32::from(stepped.limited),
                refusal: 0,
            }
        }
        Err(refusal) => StepAnswer {
            y: 0,
            remainder: 0,
            limited: 0,
            refusal: refusals::number(Err(refusal)),
        },
    }
}

// Stores the seven numbers of a section.
fn store(numbers: &mut [i32; SECTION_NUMBERS], section: Section)
    ensures { numbers.new ≡ lone_numbers section }
{
    *numbers = [
        section.band.alpha,
        section.band.beta,
        section.band.gamma,
        section.x1,
        section.x2,
        section.y1,
        section.y2,
    ];
}

// Loads a band set: the lent numbers are then those of the loaded unit. 0 for an accepted set, else the number of its refusal.
pub fn load(numbers: &mut [i32; numbers::UNIT_SIZE], set: &[i32]) -> u32
    ensures { (result ≡ number_of (loaded set.now).verdict) × (numbers.new ≡ numbers_of (loaded set.now).unit) }
{
    let mut loaded = unit::cleared([Band::default(); bands::BAND_COUNT]);
    let verdict = loading::load(&mut loaded, set);
    *numbers = numbers::numbers_of(loaded);
    refusals::number(verdict)
}

// Plays a block of frames through the unit whose numbers are lent: they are then those of the unit after it, and the output begins with
// the frames. 0 for an accepted block, else the number of its refusal: the lent numbers and the output are then as they were.
pub fn block(numbers: &mut [i32; numbers::UNIT_SIZE], input: &[u8], output: &mut [u8]) -> u32
    ensures { BlockGives numbers.old input.now output.old result numbers.new output.new }
{
    let verdict = lent_blocks::play(numbers, input, output);
    refusals::number(verdict)
}

// Gives a level order to the unit whose numbers are lent: they are then those of the unit after the order. 0 for an accepted order, else the
// number of its refusal: the lent numbers are then as they were.
pub fn order(numbers: &mut [i32; numbers::UNIT_SIZE], side: u32, band: u32, setting: Setting) -> u32
    ensures { OrderGives numbers.old side band setting result numbers.new }
{
    let verdict = lent_orders::order(numbers, side, band, setting);
    refusals::number(verdict)
}

// Writes the strip sheet of the unit whose numbers are lent to the front of the buffer, and gives the count of its bytes. From a shorter
// buffer, or for an unfit unit, the count is 0 and nothing is written.
pub fn sheet_write(numbers: &[i32; numbers::UNIT_SIZE], buffer: &mut [u8]) -> usize
    ensures { SheetWriteGives numbers.now buffer.old result buffer.new }
{
    if buffer.len() < sheet::SHEET_SIZE {
        return 0;
    }
    if !lent_fitness::is_fit(numbers) {
        return 0;
    }
    writing::put_sheet(buffer, numbers::unit_of(numbers));
    sheet::SHEET_SIZE
}

// Reads a strip sheet: the lent numbers are then those of the unit that it carries. 0 for an accepted sheet, else the number of its
// refusal: the lent numbers are then as they were.
pub fn sheet_read(numbers: &mut [i32; numbers::UNIT_SIZE], bytes: &[u8]) -> u32
    ensures { SheetReadGives numbers.old bytes.now result numbers.new }
{
    // Of a refused sheet the numbers stay, whatever unit the reader was lent.
    let mut unit = unit::cleared([Band::default(); bands::BAND_COUNT]);
    match reading::read(bytes, &mut unit) {
        Ok(()) => {
            *numbers = numbers::numbers_of(unit);
            0
        }
        Err(refusal) => refusals::number(Err(refusal)),
    }
}
