// Playing a stream: input that comes in pieces, cut anywhere. Whole frames are played at once, and the bytes of a frame that is not whole yet
// are held until more come.
#![tactic(auto)]

ghost use Rattle.std.specs.Prelude.{◌≡◌, ◌≤◌, length};
ghost use Rattle.unit.specs.Sizes.{channel_count};
ghost use Rattle.stream.specs.Advance.{piece_of, advanced, advanced_output, tail_first};

use refusals::Refusal;
use unit::Unit;

// What is left of a piece that was played: the count of bytes that were played, and of those behind them, which are held.
#[derive(Clone, Copy, Debug, PartialEq, Eq)]
pub struct Advanced {
    pub played: usize,
    pub held: usize,
}

// Plays the whole frames of the input, the held bytes and those that came behind them. The output then begins with their sound. 14 for an
// unfit unit, 6 where the output is shorter than the frames; refused, unit and output are unchanged, no byte is played and all are held.
#[tactic(auto, unfolding(crate::specs::Advance::advanced, crate::specs::Advance::advanced_output))]
pub fn advance(unit: &mut Unit, input: &[u8], output: &mut [u8]) -> Result<Advanced, Refusal>
    ensures { (piece_of (length input.now) result unit.new ≡ advanced channel_count unit.old input.now (length output.old)) × (output.new ≡ advanced_output channel_count unit.old input.now output.old) }
{
    let held = input.len() % frames::FRAME_SIZE;
    let played = input.len() - held;
    blocks::play(unit, &input[..played], output)?;
    Ok(Advanced { played, held })
}

// Moves the tail, the bytes from a place on, to the front of the input, where the next read is put behind it.
#[tactic(auto, unfolding(crate::specs::Advance::tail_first))]
pub fn keep_tail(input: &mut [u8], from: usize)
    requires { from ≤ length input.old }
    ensures { input.new ≡ tail_first from input.old }
{
    input.copy_within(from.., 0);
}
