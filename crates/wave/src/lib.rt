// RIFF/WAVE files: the sizes and names of their parts, and numbers in their bytes, low byte first.
#![tactic(auto)]

ghost use Rattle.std.specs.Prelude.{◌≡◌, ◌+◌, ◌≤◌, ◌<◌, length};
ghost use Rattle.wave.specs.Chunks.{four_at, two_at, number_end, byte_of, four_bytes};

// The bytes ahead of the chunks, and of a chunk ahead of its body. A chunk's size stands behind its name.
pub const FILE_HEADING: usize = 12;

pub const CHUNK_HEADING: usize = 8;

pub const NAME_SIZE: usize = 4;

// The names, as numbers of four letters: "RIFF", "WAVE", "fmt ", "data".
pub const RIFF: usize = 0x4646_4952;

pub const WAVE: usize = 0x4556_4157;

pub const FORMAT: usize = 0x2074_6d66;

pub const DATA: usize = 0x6174_6164;

// What a fitting `fmt ` says: PCM, two sides, 44,100 frames a second of four bytes each, 16 bits a sample; and how many bytes that takes.
pub const PCM: usize = 1;

pub const SIDES: usize = 2;

pub const RATE: usize = 44_100;

pub const BITS: usize = 16;

pub const FRAME_SIZE: usize = SIDES * BITS / 8;

pub const BYTE_RATE: usize = RATE * FRAME_SIZE;

pub const FORMAT_SIZE: usize = 16;

// The number of the four bytes from a place on.
#[tactic(auto, unfolding(crate::specs::Chunks::four_at))]
pub fn four_at(file: &[u8], at: usize) -> usize
    requires { at + 4 ≤ length file.now }
    ensures { (result ≡ four_at file.now at) × (result < number_end) }
{
    u32::from_le_bytes([file[at], file[at + 1], file[at + 2], file[at + 3]]) as usize
}

// The number of the two bytes from a place on. A function of its own, since each width has a `from_le_bytes` of its own type.
#[tactic(auto, unfolding(crate::specs::Chunks::two_at))]
pub fn two_at(file: &[u8], at: usize) -> usize
    requires { at + 2 ≤ length file.now }
    ensures { result ≡ two_at file.now at }
{
    u16::from_le_bytes([file[at], file[at + 1]]) as usize
}

// The four bytes of a number.
pub fn four_bytes(number: usize) -> [u8; 4]
    requires { number < number_end }
    ensures { result ≡ four_bytes number }
{
    (number as u32).to_le_bytes()
}

// The byte of a number that counts so many: of 1, 256, 65,536 or 16,777,216.
pub fn byte_of(number: usize, worth: usize) -> u8
    requires { 1 ≤ worth }
    ensures { result ≡ byte_of number worth }
{
    (number / worth % 256) as u8
}
