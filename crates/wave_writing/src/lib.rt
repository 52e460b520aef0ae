// Writing a wave file: the plain heading of 44 bytes, and the frames behind it.
#![tactic(auto)]

ghost use Rattle.std.specs.Prelude.{◌≡◌, length, ◌≤◌};
ghost use Rattle.wave_writing.specs.Writing.{heading, most_data, size_verdict, write_verdict, written};

use refusals::Refusal;

// The bytes of the heading.
pub const HEADING_SIZE: usize = 44;

// What the RIFF size counts of the heading: all but the first chunk heading.
const RIFF_REST: usize = HEADING_SIZE - wave::CHUNK_HEADING;

// The most data: the largest multiple of four with which the RIFF size still has four bytes.
pub const MOST_DATA: usize = 4_294_967_256;

// Writes the wave file of the frames to the front of the buffer: 5, 6, or accepted. A refusal writes nothing, and bytes behind the file stay.
#[tactic(auto, unfolding(crate::specs::Writing::write_verdict, crate::specs::Writing::written))]
pub fn write(frames: &[u8], buffer: &mut [u8]) -> Result<(), Refusal>
    ensures { (result ≡ write_verdict (length frames.now) (length buffer.old)) × (buffer.new ≡ written frames.now buffer.old) }
{
    check_size(frames.len())?;
    if buffer.len() < HEADING_SIZE + frames.len() {
        return Err(Refusal::OutputShort);
    }
    copying::put_front(&heading(frames.len()), buffer);
    copying::put_front(frames, &mut buffer[HEADING_SIZE..]);
    Ok(())
}

// Whether a wave file can hold so many bytes of frames: 5, or accepted.
pub fn check_size(size: usize) -> Result<(), Refusal>
    ensures { result ≡ size_verdict size }
{
    if size % wave::FRAME_SIZE != 0 || size > MOST_DATA {
        return Err(Refusal::InputLength);
    }
    Ok(())
}

// The heading of a file with no frames, both sizes 0: `fmt ` has 16 bytes, and says PCM, two sides, 44,100, 176,400, four bytes a frame, 16 bits.
const PLAIN: [u8; HEADING_SIZE] =
    *b"RIFF\0\0\0\0WAVEfmt \x10\0\0\0\x01\0\x02\0\x44\xac\0\0\x10\xb1\x02\0\x04\0\x10\0data\0\0\0\0";

// The heading of a file with so many bytes of frames.
#[tactic(auto, unfolding(crate::specs::Writing::heading))]
pub fn heading(size: usize) -> [u8; HEADING_SIZE]
    requires { size ≤ most_data }
    ensures { result ≡ heading size }
{
    let mut bytes = PLAIN;
    bytes[4..8].copy_from_slice(&wave::four_bytes(RIFF_REST + size));
    bytes[40..].copy_from_slice(&wave::four_bytes(size));
    bytes
}
