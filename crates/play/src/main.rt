// Plays a sound through a strip sheet: the sheet from strip.sht, frames from standard input to standard output, and the sheet after them
// to strip.new; asked for wave files, their data. A refusal is one line on standard error, its number. What is answered is decided in `decisions`; here it
// is followed.
#![tactic(auto)]

ghost use Rattle.std.specs.Prelude.{◌≡◌};
ghost use Rattle.sheet.specs.Sheet.{side_letters};
ghost use Rattle.roundtrip.specs.Claim.{ReadsAs};
ghost use Rattle.arguments.specs.Meaning.{request_of};
ghost use Rattle.decisions.specs.Decisions.{opened, ending_of};
ghost use Rattle.play.specs.Passes.{OpenAsks, PassGives, SaveAsks};

mod waves;

use arguments::Request;
use playing::Progress;
use refusals::{Refusal, Verdict};
use std::fs::File;
use unit::Unit;

// The sheet that is played through.
const SHEET_NAME: &str = "strip.sht";

// Does what the arguments ask for.
fn main(rt: HostRuntime) {
    let mut first = [0u8; arguments::TEXT_SIZE];
    let size = console::argument(&rt, 1, &mut first);
    begin(&rt, console::argument_count(&rt), &first[..size]);
}

// Begins a pass where there are no arguments, or where they ask for wave files.
fn begin(rt: &HostRuntime, count: usize, first: &[u8]) {
    let is_wave = arguments::asks_wave(count, first);
    if is_wave {
        open_sheet(rt, count, first, is_wave);
        return;
    }
    let request = arguments::requested(count, first);
    tell(rt, count, first, request);
    if arguments::is_plain(request) {
        open_sheet(rt, count, first, is_wave);
    }
}

// What play tells of itself, by the arguments.
fn tell(rt: &HostRuntime, count: usize, first: &[u8], request: Request)
    requires { request ≡ request_of count first.now }
{
    console::tell(
        rt,
        request,
        "play",
        "usage: play [--wave | --help | --version] <FRAMES >SOUND\n",
        "Plays frames through the strip sheet strip.sht, and leaves the sheet after them as strip.new.\n\
         Frames are signed 16 bits, left then right, low byte first.\n\
         --wave: the frames are the data of a wave file, and the sound is a wave file (PCM, stereo, 44,100, 16 bits).\n\
         A refusal is one line on standard error, its number: 5 for frames that end within one, 8 to 14 for the sheet,\n\
         16 to 18 for a wave file. After 16 to 18, and after 5 with --wave, there is no strip.new.\n\
         Both files are in the folder in which play is started.\n",
    );
}

// Opens the sheet, for frames or for a wave file.
fn open_sheet(rt: &HostRuntime, count: usize, first: &[u8], is_wave: bool)
    requires { OpenAsks count first.now is_wave }
{
    match File::open(rt, SHEET_NAME) {
        Ok(file) => read_sheet(rt, file, is_wave),
        // It counts as empty.
        Err(_) => start(rt, b"", is_wave),
    }
}

// Reads the sheet from its file, and plays through it.
fn read_sheet(rt: &HostRuntime, mut file: File, is_wave: bool) {
    let mut bytes = [0u8; sheet::SHEET_ROOM];
    let received = console::receive_all(rt, &mut file, SHEET_NAME, &mut bytes);
    drop(file);
    if let Ok(count) = received {
        start(rt, &bytes[..count], is_wave);
    }
}

// Plays through the sheet of these bytes. After a refused one nothing is played or written.
fn start(rt: &HostRuntime, bytes: &[u8], is_wave: bool) {
    let mut unit = loading::house_unit();
    match decisions::opening(bytes, &mut unit) {
        Ok(()) => {
            if saving::can_save(rt) {
                pass(rt, bytes, unit, is_wave);
            }
        }
        Err(refusal) => answer_sheet(rt, bytes, refusal),
    }
}

// What is said of the sheet of these bytes.
fn answer_sheet(rt: &HostRuntime, bytes: &[u8], refusal: Refusal)
    requires { Err refusal ≡ (opened bytes.now).verdict }
{
    console::answer(rt, Err(refusal));
}

// A pass through the unit that the sheet of these bytes carries.
fn pass(rt: &HostRuntime, bytes: &[u8], unit: Unit, is_wave: bool)
    requires { ReadsAs side_letters bytes.now unit }
{
    if is_wave {
        waves::pass(rt, unit);
        return;
    }
    let mut played = unit;
    let stream = playing::play(rt, &mut played, b"", usize::MAX);
    finish(rt, unit, played, stream);
}

// The end of a pass that began with one unit and left another: the sheet, and what is said of a tail.
fn finish(rt: &HostRuntime, begun: Unit, unit: Unit, stream: Progress)
    requires { PassGives begun unit stream }
{
    let ending = decisions::ending(stream.is_lost, stream.held);
    if ending.is_saved {
        save(rt, unit, stream);
    }
    answer_end(rt, stream.is_lost, stream.held, ending.verdict);
}

// Saves the sheet after a pass.
fn save(rt: &HostRuntime, unit: Unit, stream: Progress)
    requires { SaveAsks unit stream }
{
    saving::save(rt, unit);
}

// What is said at the end of a pass.
fn answer_end(rt: &HostRuntime, is_lost: bool, held: usize, verdict: Verdict)
    requires { verdict ≡ (ending_of is_lost held).verdict }
{
    console::answer(rt, verdict);
}
