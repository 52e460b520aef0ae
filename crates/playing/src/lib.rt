// Playing standard input to standard output.
#![tactic(auto)]

ghost use Rattle.std.specs.Prelude.{◌≡◌, take, MatchOption};
ghost use Rattle.playing.specs.Turns.{IsSound, SoundAsks, SoundGives, TurnAsks, TurnGives, PlayAsks, PlayGives};

use stream::Advanced;
use unit::Unit;

// A stream between two reads: the count of bytes of a frame that is not whole yet, how many may still be read, and whether sound was lost on its way
// out.
#[derive(Clone, Copy, Debug, PartialEq, Eq)]
pub struct Progress {
    pub held: usize,
    pub left: usize,
    pub is_lost: bool,
}

// What playing some bytes leaves: the count of bytes of a frame that is not whole, and whether the sound was lost on its way out.
#[derive(Clone, Copy, Debug, PartialEq, Eq)]
struct Sounded {
    held: usize,
    is_lost: bool,
}

// Plays the first bytes, and behind them what comes from standard input, so many bytes at most, until it ends or fails, or the output fails.
pub fn play(rt: &HostRuntime, unit: &mut Unit, first: &[u8], most: usize) -> Progress
    requires { PlayAsks unit.old first.now }
    ensures { PlayGives unit.old first.now most unit.new result }
{
    let mut input = [0u8; console::BUFFER_SIZE];
    let mut output = [0u8; console::BUFFER_SIZE];
    let count = first.len();
    input[..count].copy_from_slice(first);
    let begun = sound(rt, unit, &mut input, count, &mut output);
    let mut stream = Progress {
        held: begun.held,
        left: most,
        is_lost: begun.is_lost,
    };
    while stream.left > 0 && !stream.is_lost {
        match turn(rt, unit, stream, &mut input, &mut output) {
            Some(later) => stream = later,
            None => break,
        }
    }
    stream
}

// One read, and the sound of the frames that are then whole; none where nothing more comes.
fn turn(
    rt: &HostRuntime,
    unit: &mut Unit,
    stream: Progress,
    input: &mut [u8],
    output: &mut [u8],
) -> Option<Progress>
    requires { TurnAsks unit.old stream input.old output.old }
    ensures { MatchOption result (unit.new ≡ unit.old) (λ after. TurnGives unit.old stream input.old unit.new after input.new) }
{
    let held = stream.held;
    let mut stdin = rt.stdin();
    let more = console::receive(
        rt,
        &mut stdin,
        console::INPUT_NAME,
        input,
        held,
        stream.left,
    )?;
    if more == 0 {
        return None;
    }
    let sounded = sound(rt, unit, input, held + more, output);
    Some(Progress {
        held: sounded.held,
        left: stream.left - more,
        is_lost: sounded.is_lost,
    })
}

// Plays the whole frames of so many bytes at the front of the input, writes the sound, and keeps the tail at the front.
fn sound(
    rt: &HostRuntime,
    unit: &mut Unit,
    input: &mut [u8],
    count: usize,
    output: &mut [u8],
) -> Sounded
    requires { SoundAsks unit.old input.old count output.old }
    ensures { SoundGives unit.old (take count input.old) unit.new result input.new }
{
    let piece = &input[..count];
    let before = *unit;
    // The unit is fit and the output has room, so none is refused.
    let advanced = stream::advance(unit, piece, output).unwrap_or(Advanced {
        played: 0,
        held: piece.len(),
    });
    let played = advanced.played;
    let is_written = send(rt, before, piece, &output[..played]);
    stream::keep_tail(&mut input[..count], played);
    Sounded {
        held: advanced.held,
        is_lost: !is_written,
    }
}

// Writes the sound of this piece through this unit to standard output. Where that fails a message says so.
fn send(rt: &HostRuntime, unit: Unit, piece: &[u8], sound: &[u8]) -> bool
    requires { IsSound unit piece.now sound.now }
{
    console::write_out(rt, sound)
}
