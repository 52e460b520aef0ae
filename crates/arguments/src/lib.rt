// What the arguments of a program stand for: what the program is asked for, and one argument as a number or the word "mute".
#![tactic(auto)]

ghost use Rattle.std.specs.Prelude.{◌≡◌, ◌++◌, ◌-◌, ◌≤◌, length, take};
ghost use Rattle.arguments.specs.Meaning.{request_of, asks_wave, is_plain, asks_text, unsigned_of, argument_number, meaning_of};

// The room that an argument needs: a number has as many columns as a field, and so has the longest word.
pub const TEXT_SIZE: usize = fields::FIELD_SIZE;

// What an argument stands for: a number, the word "mute", or something else.
#[derive(Clone, Copy, Debug, PartialEq, Eq)]
pub enum Word {
    Number(u32),
    Mute,
    Other,
}

// What a program is asked for: what it does, its help, its version, or something else.
#[derive(Clone, Copy, Debug, PartialEq, Eq)]
pub enum Request {
    Plain,
    Help,
    Version,
    Other,
}

// What so many arguments ask for, the name of the program among them, of which the first behind the name is given.
#[tactic(auto, unfolding(crate::specs::Meaning::request_of))]
pub fn requested(count: usize, first: &[u8]) -> Request
    ensures { result ≡ request_of count first.now }
{
    if count < 2 {
        return Request::Plain;
    }
    if count > 2 {
        return Request::Other;
    }
    if first == b"--help".as_slice() {
        return Request::Help;
    }
    if first == b"--version".as_slice() {
        return Request::Version;
    }
    Request::Other
}

// Whether so many arguments, the name of the program among them, ask for wave files: the first behind the name is "--wave", and the only one.
pub fn asks_wave(count: usize, first: &[u8]) -> bool
    ensures { result ≡ asks_wave count first.now }
{
    count == 2 && first == b"--wave".as_slice()
}

// Whether a program is asked for what it does.
pub fn is_plain(request: Request) -> bool
    ensures { result ≡ is_plain request }
{
    request == Request::Plain
}

// Whether a program is asked for a text of its own, its help or its version.
pub fn asks_text(request: Request) -> bool
    ensures { result ≡ asks_text request }
{
    matches!(request, Request::Help | Request::Version)
}

// How many of so many arguments stand behind the name of the program.
pub fn behind_name(count: usize) -> usize
    ensures { result ≡ count - 1 }
{
    count.saturating_sub(1)
}

// What an argument stands for.
#[tactic(auto, unfolding(crate::specs::Meaning::meaning_of))]
pub fn meaning(text: &[u8]) -> Word
    ensures { result ≡ meaning_of text.now }
{
    if text == b"mute".as_slice() {
        return Word::Mute;
    }
    match number(text) {
        Some(number) => Word::Number(number),
        None => Word::Other,
    }
}

// The number in an argument, written as in a field of the strip sheet. None where it is not a whole number of nine columns at most, or where it
// is below zero.
#[tactic(auto, unfolding(crate::specs::Meaning::argument_number), using(crate::proofs::Right::in_columns))]
fn number(text: &[u8]) -> Option<u32>
    ensures { result ≡ argument_number text.now }
{
    if text.len() > fields::FIELD_SIZE {
        return None;
    }
    let mut columns = [fields::BLANK; fields::FIELD_SIZE];
    put_right(text, &mut columns);
    unsigned(field_reading::read_field(&columns, 0)?)
}

// Puts the text at the right end of the columns.
fn put_right(text: &[u8], columns: &mut [u8])
    requires { length text.now ≤ length columns.old }
    ensures { columns.new ≡ take (length columns.old - length text.now) columns.old ++ text.now }
{
    let start = columns.len() - text.len();
    columns[start..].copy_from_slice(text);
}

// A field's number, or none where it is below zero.
fn unsigned(number: i32) -> Option<u32>
    ensures { result ≡ unsigned_of number }
{
    u32::try_from(number).ok()
}
