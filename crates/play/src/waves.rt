// A pass of a wave file, from standard input to standard output. The chunks ahead of the data are looked for in the front of the file, as many
// bytes as the buffer has; the rest is played as it comes.
ghost use Rattle.std.specs.Prelude.{◌≡◌};
ghost use Rattle.stream.specs.Claim.{begun as begun_with, Ready};
ghost use Rattle.wave_reading.specs.Walk.{place_of, located};
ghost use Rattle.wave_writing.specs.Writing.{heading};
ghost use Rattle.decisions.specs.Decisions.{wave_ending_of};
ghost use Rattle.play.specs.Waves.{OpenFrontAsks, PlayDataAsks, WaveGives, SaveWaveAsks};

use playing::Progress;
use refusals::Verdict;
use unit::Unit;
use wave_reading::Located;

// Plays the wave file through this unit.
pub fn pass(rt: &HostRuntime, unit: Unit)
    requires { Ready (begun_with unit) }
{
    let mut buffer = [0u8; console::BUFFER_SIZE];
    let mut stdin = rt.stdin();
    if let Ok(count) = console::receive_all(rt, &mut stdin, console::INPUT_NAME, &mut buffer) {
        open_front(rt, unit, &buffer[..count]);
    }
}

// Looks for the data in the front of the file. What can't be played is read to its end, which tells how much of it is missing.
fn open_front(rt: &HostRuntime, unit: Unit, front: &[u8])
    requires { OpenFrontAsks unit front.now }
{
    let found = wave_reading::locate(front);
    let place = found.unwrap_or_default();
    let ahead = wave_reading::bytes_missing(front.len(), place.from, place.size);
    if decisions::can_play(found) {
        play_data(rt, unit, front, place, ahead);
        return;
    }
    let mut stdin = rt.stdin();
    let missing = console::skip(rt, &mut stdin, console::INPUT_NAME, ahead);
    let verdict = decisions::check_wave(found, missing);
    answer(rt, front, missing, false, verdict);
}

// Plays the data, of which so many bytes lie behind the front, through this unit.
fn play_data(rt: &HostRuntime, unit: Unit, front: &[u8], place: Located, ahead: usize)
    requires { PlayDataAsks unit front.now place ahead }
{
    let heading = wave_writing::heading(place.size);
    if !send_heading(rt, front, &heading) {
        return;
    }
    let to = place.from + (place.size - ahead);
    let mut played = unit;
    let stream = playing::play(rt, &mut played, &front[place.from..to], ahead);
    finish(rt, unit, front, place, played, stream);
}

// Writes the heading of the sound of the file with this front.
fn send_heading(rt: &HostRuntime, front: &[u8], bytes: &[u8]) -> bool
    requires { bytes.now ≡ heading (place_of (located front.now)).size }
{
    console::write_out(rt, bytes)
}

// The end of a pass of the file with this front, which began with one unit and left another. What stands behind the data is read and dropped, so that
// whoever writes it is not cut off.
fn finish(rt: &HostRuntime, begun: Unit, front: &[u8], place: Located, unit: Unit, stream: Progress)
    requires { WaveGives begun front.now place unit stream }
{
    let ending = decisions::wave_ending(stream.is_lost, Ok(place), stream.left);
    if ending.is_saved {
        let mut stdin = rt.stdin();
        console::skip(rt, &mut stdin, console::INPUT_NAME, usize::MAX);
        save(rt, begun, front, unit, stream);
    }
    answer(rt, front, stream.left, stream.is_lost, ending.verdict);
}

// Saves the sheet after a pass of the file with this front, which began with one unit and left another.
fn save(rt: &HostRuntime, begun: Unit, front: &[u8], unit: Unit, stream: Progress)
    requires { SaveWaveAsks begun front.now unit stream }
{
    saving::save(rt, unit);
}

// What is said of the file with this front, of whose data so many bytes are missing.
fn answer(rt: &HostRuntime, front: &[u8], missing: usize, is_lost: bool, verdict: Verdict)
    requires { verdict ≡ (wave_ending_of is_lost (located front.now) missing).verdict }
{
    console::answer(rt, verdict);
}
