// Reading a side of the strip sheet, in the bytes from its head on: the channel that it carries, or the first refusal. Each routine stops at the
// first refusal; what it has stored is then of no use.
#![tactic(auto)]

ghost use Rattle.std.specs.Prelude.{◌≡◌, Ok};
ghost use Rattle.refusals.specs.Numbers.{first_of};
ghost use Rattle.sheet.specs.Sheet.{sections_form, side_form};
ghost use Rattle.line_reading.specs.Gives.{form_read};

use refusals::Verdict;
use unit::{BandSection, Channel};

// The number of a head that is the flag.
const FLAG: usize = sheet::HEAD_FIELDS - 1;

// Reads the side with this letter, of the longer sheet or of the short one: the head and ten S lines. Stores the channel.
pub fn read_side(bytes: &[u8], long: bool, letter: u8, channel: &mut Channel) -> Verdict
    ensures { first_of result (Ok channel.new) ≡ form_read (side_form long letter) bytes.now }
{
    let head = line_reading::read_head(bytes, letter)?;
    read_sections(&bytes[sheet::HEAD_LINE..], long, &mut channel.sections)?;
    channel.x1 = head[0] as i64;
    channel.x2 = head[1] as i64;
    channel.flag = head[FLAG] as i64;
    Ok(())
}

// Reads ten S lines: in the longer sheet those of the bands that feed back have the remainder. Stores the sections.
fn read_sections(
    bytes: &[u8],
    long: bool,
    sections: &mut [BandSection; bands::BAND_COUNT],
) -> Verdict
    ensures { first_of result (Ok sections.new) ≡ form_read (sections_form long) bytes.now }
{
    let mut next = 0;
    for b in 0..bands::BAND_COUNT {
        let fifth = (b < unit::FEEDBACK_COUNT) & long;
        sections[b] = line_reading::read_section(&bytes[next..], fifth)?;
        next += sheet::section_line(fifth);
    }
    Ok(())
}
