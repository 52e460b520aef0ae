// The strip sheet's lines: letters, fields, and how many bytes they have. docs/SPECIFICATION.md, The strip sheet.
#![tactic(auto)]

ghost use Rattle.std.specs.Prelude.{◌≡◌, length};
ghost use Rattle.forms.specs.Line.{line_size};
ghost use Rattle.sheet.specs.Lines.{section_ranges};
ghost use Rattle.sheet.specs.Sheet.{side_size};

// How many fields the V line, a C line, an L or an R line, and an S line have: one with the remainder, and one without it.
pub const VOLUME_FIELDS: usize = 2;

pub const BAND_FIELDS: usize = bands::BAND_SIZE;

pub const HEAD_FIELDS: usize = 3;

pub const SECTION_FIELDS: usize = 5;

pub const PLAIN_FIELDS: usize = SECTION_FIELDS - 1;

// The bytes of these lines: a letter, fields, a line feed.
pub const VOLUME_LINE: usize = fields::FIELD_SIZE * VOLUME_FIELDS + 2;

pub const BAND_LINE: usize = fields::FIELD_SIZE * BAND_FIELDS + 2;

pub const HEAD_LINE: usize = fields::FIELD_SIZE * HEAD_FIELDS + 2;

pub const SECTION_LINE: usize = fields::FIELD_SIZE * SECTION_FIELDS + 2;

pub const PLAIN_LINE: usize = fields::FIELD_SIZE * PLAIN_FIELDS + 2;

// The bytes of a side's lines: an L or an R line, and ten S lines, with the remainder in the bands that feed it back. In the short sheet none has it.
pub const SIDE_LINES: usize = HEAD_LINE
    + SECTION_LINE * unit::FEEDBACK_COUNT
    + PLAIN_LINE * (bands::BAND_COUNT - unit::FEEDBACK_COUNT);

pub const SHORT_SIDE_LINES: usize = HEAD_LINE + PLAIN_LINE * bands::BAND_COUNT;

// Where the C lines and the sides begin, and how many bytes a sheet and a short one have.
pub const BANDS_AT: usize = VOLUME_LINE;

pub const SIDES_AT: usize = BANDS_AT + BAND_LINE * bands::BAND_COUNT;

pub const SHEET_SIZE: usize = SIDES_AT + SIDE_LINES * unit::CHANNEL_COUNT;

pub const SHORT_SIZE: usize = SIDES_AT + SHORT_SIDE_LINES * unit::CHANNEL_COUNT;

// Room to read a sheet: a byte more, so that a longer one shows.
pub const SHEET_ROOM: usize = SHEET_SIZE + 1;

// The letters of the lines.
pub const VOLUME_LETTER: u8 = b'V';

pub const BAND_LETTER: u8 = b'C';

pub const LEFT_LETTER: u8 = b'L';

pub const RIGHT_LETTER: u8 = b'R';

pub const SECTION_LETTER: u8 = b'S';

// The byte that ends a line.
pub const LINE_FEED: u8 = 10;

// How many fields an S line has, with the remainder or without it.
pub fn section_fields(fifth: bool) -> usize
    ensures { result ≡ length (section_ranges fifth) }
{
    if fifth { SECTION_FIELDS } else { PLAIN_FIELDS }
}

// The bytes of an S line, with the remainder or without it.
pub fn section_line(fifth: bool) -> usize
    ensures { result ≡ line_size (length (section_ranges fifth)) }
{
    if fifth { SECTION_LINE } else { PLAIN_LINE }
}

// The bytes of a side's lines, in the longer sheet or in the short one.
pub fn side_lines(long: bool) -> usize
    ensures { result ≡ side_size long }
{
    if long { SIDE_LINES } else { SHORT_SIDE_LINES }
}
