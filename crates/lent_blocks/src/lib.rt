// Playing a block of frames through the unit of 138 lent numbers: they are tested and packed where they stand, and those of the unit after the block
// are stored in their places.
#![tactic(auto)]

ghost use Rattle.std.specs.Prelude.{◌≡◌, true, length};
ghost use Rattle.refusals.specs.Numbers.{is_accepted};
ghost use Rattle.unit.specs.Sizes.{channel_count};
ghost use Rattle.blocks.specs.Block.{block_verdict};
ghost use Rattle.numbers.specs.Layout.{unit_of};
ghost use Rattle.lent_blocks.specs.Play.{PlayGives, RunGives};

use refusals::Refusal;

// Plays a block: 14 for an unfit unit ahead of all, then 5 and 6. Refused, the lent numbers and the output are unchanged. Accepted, the output begins
// with the frames, and the bytes beyond them keep their contents.
#[tactic(auto, unfolding(blocks::specs::Block::block_played, blocks::specs::Block::block_output))]
pub fn play(
    numbers: &mut [i32; numbers::UNIT_SIZE],
    input: &[u8],
    output: &mut [u8],
) -> Result<(), Refusal>
    ensures { PlayGives numbers.old input.now output.old result numbers.new output.new }
{
    check_block(numbers, input.len(), output.len())?;
    run(numbers, input, output);
    Ok(())
}

// Accepted, or the first refusal that applies: an unfit unit, then those of the lengths.
#[tactic(auto, unfolding(blocks::specs::Block::block_verdict))]
fn check_block(
    numbers: &[i32; numbers::UNIT_SIZE],
    given: usize,
    room: usize,
) -> Result<(), Refusal>
    ensures { result ≡ block_verdict channel_count (unit_of numbers.now) given room }
{
    if !lent_fitness::is_fit(numbers) {
        return Err(Refusal::Unfit);
    }
    blocks::check_lengths(given, room)
}

// An accepted block: the unit is held as floats for its length.
fn run(numbers: &mut [i32; numbers::UNIT_SIZE], input: &[u8], output: &mut [u8])
    requires { is_accepted (block_verdict channel_count (unit_of numbers.old) (length input.now) (length output.old)) ≡ true }
    ensures { RunGives numbers.old input.now output.old numbers.new output.new }
{
    let count = input.len() / frames::FRAME_SIZE;
    let volume = lent_packing::volume_floats_at(numbers);
    let bands = lent_packing::band_floats_at(numbers);
    let mut pair = lent_packing::pair_floats_at(numbers);
    let level = frames::frames(
        &bands,
        &mut pair,
        blocks::PAIR_COUNT,
        volume,
        count,
        input,
        output,
    );
    lent_packing::store(numbers, level, &pair);
}
