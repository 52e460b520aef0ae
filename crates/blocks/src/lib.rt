// Playing a block of frames through the unit. A frame is four bytes: left then right, low byte first.
// Where a sample goes: from `play` to `run`, which holds the unit as floats, and to `frames::frames`.
#![tactic(auto)]

ghost use Rattle.std.specs.Prelude.{◌≡◌, true, length};
ghost use Rattle.refusals.specs.Numbers.{is_accepted};
ghost use Rattle.unit.specs.Answered.{answered};
ghost use Rattle.unit.specs.Sizes.{channel_count};
ghost use Rattle.blocks.specs.Block.{block_arguments, block_verdict, block_played, block_output};
ghost use Rattle.blocks.specs.Run.{RunGives};

use refusals::{Refusal, Verdict};
use unit::Unit;

// Left and right are one pair.
pub const PAIR_COUNT: usize = unit::CHANNEL_COUNT / engine::SIDE_COUNT;

// Plays a block of frames: 14 for an unfit unit ahead of all, then 5 and 6. Refused, unit and output are unchanged. Accepted, the
// output begins with the frames, and the bytes beyond them keep their contents.
#[tactic(auto, unfolding(crate::specs::Block::block_played, crate::specs::Block::block_output))]
pub fn play(unit: &mut Unit, input: &[u8], output: &mut [u8]) -> Result<(), Refusal>
    ensures { (answered result unit.new ≡ block_played channel_count unit.old input.now (length output.old)) × (output.new ≡ block_output channel_count unit.old input.now output.old) }
{
    check_block(*unit, input.len(), output.len())?;
    run(unit, input, output);
    Ok(())
}

// Accepted, or the first refusal that applies: an unfit unit, then those of the lengths.
#[tactic(auto, unfolding(crate::specs::Block::block_verdict))]
fn check_block(unit: Unit, given: usize, room: usize) -> Verdict
    ensures { result ≡ block_verdict channel_count unit given room }
{
    if !fitness::is_fit(unit) {
        return Err(Refusal::Unfit);
    }
    check_lengths(given, room)
}

// Accepted, or the first refusal that applies: input bytes that are no multiple of four, an output shorter than the input.
pub fn check_lengths(given: usize, room: usize) -> Verdict
    ensures { result ≡ block_arguments channel_count given room }
{
    if given % frames::FRAME_SIZE != 0 {
        return Err(Refusal::InputLength);
    }
    if room < given {
        return Err(Refusal::OutputShort);
    }
    Ok(())
}

// An accepted block: the unit is held as floats for its length.
fn run(unit: &mut Unit, input: &[u8], output: &mut [u8])
    requires { is_accepted (block_verdict channel_count unit.old (length input.now) (length output.old)) ≡ true }
    ensures { RunGives unit.old input.now output.old unit.new output.new }
{
    let count = input.len() / frames::FRAME_SIZE;
    let bands = packing::band_floats(unit.bands);
    let mut pair = packing::pair_floats(unit.channels[0], unit.channels[1]);
    let volume = packing::level_floats(unit.volume);
    let level = frames::frames(&bands, &mut pair, PAIR_COUNT, volume, count, input, output);
    unit.volume = packing::level_of(level);
    unit.channels = [packing::channel_of(&pair, 0), packing::channel_of(&pair, 1)];
}
