// Reading a wave file: its chunks are walked over up to the data, which is handed back as a part of the file.
#![tactic(auto)]

ghost use Rattle.std.specs.Prelude.{◌≡◌, false, ◌+◌, ◌-◌, ◌≤◌, length};
ghost use Rattle.wave.specs.Chunks.{chunk_heading, file_heading, format_size};
ghost use Rattle.wave_reading.specs.Walk.{has_heading, says_format, format_fits, misfits, data_from, chunks, located};
ghost use Rattle.wave_reading.specs.Reading.{data_verdict, found, data_of, data_place};

use refusals::Refusal;

// Where data lies: the place of the first byte, and how many there are.
#[derive(Clone, Copy, Debug, Default, PartialEq, Eq)]
pub struct Located {
    pub from: usize,
    pub size: usize,
}

// The data of a wave file, a part of it; an empty part after a refusal.
#[tactic(auto, using(crate::proofs::Inside::part_is, crate::proofs::Inside::part_ends, crate::proofs::Inside::part_bytes))]
pub fn data(file: &[u8]) -> &[u8]
    ensures { (result.now ≡ data_of file.now) × (result.ref_ptr ≡ data_place file.now file.entry.ref_ptr) }
{
    let place = find(file).unwrap_or_default();
    &file[place.from..place.from + place.size]
}

// Where the data of a wave file lies, or the first refusal: 16, 17, 18, 5.
#[tactic(auto, using(crate::proofs::Inside::located_within), unfolding(crate::specs::Reading::found, crate::specs::Reading::read_verdict))]
pub fn find(file: &[u8]) -> Result<Located, Refusal>
    ensures { result ≡ found file.now }
{
    let place = locate(file)?;
    let missing = bytes_missing(file.len(), place.from, place.size);
    check_data(missing, place.size)?;
    Ok(place)
}

// Data that begins within so many bytes: how many of its own are missing behind them.
pub fn bytes_missing(count: usize, from: usize, size: usize) -> usize
    requires { from ≤ count }
    ensures { result ≡ from + size - count }
{
    size.saturating_sub(count - from)
}

// What is answered for data of a size of which so many bytes are missing: 18, 5, or accepted.
pub fn check_data(missing: usize, size: usize) -> Result<(), Refusal>
    ensures { result ≡ data_verdict missing size }
{
    if missing > 0 {
        return Err(Refusal::NoData);
    }
    if size % wave::FRAME_SIZE != 0 {
        return Err(Refusal::InputLength);
    }
    Ok(())
}

// Where the chunks say that the data lies, in a file or in the front of one: 16, 17, 18, or the place behind the data's heading, and the size
// that it gives.
#[tactic(auto, using(crate::proofs::Inside::heading_long), unfolding(crate::specs::Walk::located))]
pub fn locate(front: &[u8]) -> Result<Located, Refusal>
    ensures { result ≡ located front.now }
{
    if !has_heading(front) {
        return Err(Refusal::NoWave);
    }
    walk(front)
}

// Whether a file begins with the RIFF and WAVE heading.
#[tactic(auto, unfolding(crate::specs::Walk::has_heading))]
fn has_heading(file: &[u8]) -> bool
    ensures { result ≡ has_heading file.now }
{
    file.len() >= wave::FILE_HEADING
        && wave::four_at(file, 0) == wave::RIFF
        && wave::four_at(file, 8) == wave::WAVE
}

// Walks over the chunks of a file, from the first on. No size is added to a place before it is known to lie within the file. A `while`, since the places
// are as far apart as the sizes in the file say.
#[tactic(auto, using(crate::proofs::Steps::walk_over, crate::proofs::Steps::walk_data, crate::proofs::Steps::walk_misfit, crate::proofs::Steps::walk_next, crate::proofs::Steps::walk_past))]
fn walk(file: &[u8]) -> Result<Located, Refusal>
    requires { file_heading ≤ length file.now }
    ensures { result ≡ chunks (length file.now) file.now file_heading false }
{
    let mut at = wave::FILE_HEADING;
    let mut seen = false;
    while wave::CHUNK_HEADING <= file.len() - at {
        let name = wave::four_at(file, at);
        let size = wave::four_at(file, at + wave::NAME_SIZE);
        if name == wave::DATA {
            return data_from(at + wave::CHUNK_HEADING, size, seen);
        }
        if is_misfit(file, at, seen) {
            return Err(Refusal::WaveFormat);
        }
        let skipped = size + size % 2;
        if file.len() - at - wave::CHUNK_HEADING < skipped {
            return Err(Refusal::NoData);
        }
        at += wave::CHUNK_HEADING + skipped;
        seen |= name == wave::FORMAT;
    }
    Err(Refusal::NoData)
}

// Data from a place on, of this size: it counts behind a `fmt ` alone.
fn data_from(from: usize, size: usize, seen: bool) -> Result<Located, Refusal>
    ensures { result ≡ data_from from size seen }
{
    if !seen {
        return Err(Refusal::WaveFormat);
    }
    Ok(Located { from, size })
}

// Whether the chunk at a place is the first `fmt `, and does not fit.
#[tactic(auto, unfolding(crate::specs::Walk::misfits))]
fn is_misfit(file: &[u8], at: usize, seen: bool) -> bool
    requires { at + chunk_heading ≤ length file.now }
    ensures { result ≡ misfits file.now at seen }
{
    !seen && wave::four_at(file, at) == wave::FORMAT && !format_fits(file, at)
}

// Whether the `fmt ` at a place fits: it is long enough, lies within the file, and says what it should.
#[tactic(auto, unfolding(crate::specs::Walk::format_fits))]
fn format_fits(file: &[u8], at: usize) -> bool
    requires { at + chunk_heading ≤ length file.now }
    ensures { result ≡ format_fits file.now at }
{
    let size = wave::four_at(file, at + wave::NAME_SIZE);
    let body = at + wave::CHUNK_HEADING;
    size >= wave::FORMAT_SIZE && size <= file.len() - body && says_format(file, body)
}

// Whether the 16 bytes from a place on say: PCM, two sides, 44,100 frames a second, 16 bits.
#[tactic(auto, unfolding(crate::specs::Walk::says_format))]
fn says_format(file: &[u8], at: usize) -> bool
    requires { at + format_size ≤ length file.now }
    ensures { result ≡ says_format file.now at }
{
    wave::two_at(file, at) == wave::PCM
        && wave::two_at(file, at + 2) == wave::SIDES
        && wave::four_at(file, at + 4) == wave::RATE
        && wave::four_at(file, at + 8) == wave::BYTE_RATE
        && wave::two_at(file, at + 12) == wave::FRAME_SIZE
        && wave::two_at(file, at + 14) == wave::BITS
}
