// What the programs share: their arguments, what they tell of themselves, a refusal's line, and reading and writing that says what failed.
#![tactic(auto)]

ghost use Rattle.std.specs.Prelude.{◌≡◌, ◌≤◌, length};
ghost use Rattle.console.specs.Answers.{SayAsks};
ghost use Rattle.console.specs.Reads.{IsPrefixLen, count_of, ReceiveGives};

use arguments::Request;
use refusals::Verdict;
use std::env::FillError;
use std::io;
use std::io::Read;
use std::rt::Env;

// How many bytes a buffer for sound holds, and a read brings at most.
pub const BUFFER_SIZE: usize = 65_536;

// The name of standard input in a message.
pub const INPUT_NAME: &str = "standard input";

// How many arguments there are, the name of the program among them.
pub fn argument_count(rt: &HostRuntime) -> usize {
    let mut text = [0u8; 1];
    for place in 0..usize::MAX {
        if let Err(FillError::NotPresent) = rt.arg(place, &mut text) {
            return place;
        }
    }
    usize::MAX
}

// Puts an argument at the front of the text and gives its length: 0 where it is missing, or longer than there is room for.
pub fn argument(rt: &HostRuntime, place: usize, text: &mut [u8]) -> usize
    ensures { IsPrefixLen result text.new }
{
    rt.arg(place, text).unwrap_or(0)
}

// What a program tells of itself: its help or its version on standard output where that is asked for, and how it is used on standard error where
// something else is. The help begins with the line of usage.
pub fn tell(rt: &HostRuntime, request: Request, name: &str, usage: &str, help: &str) {
    match request {
        Request::Plain => {}
        Request::Help => tell_both(rt, usage, help),
        Request::Version => tell_both(rt, name, " (Fonddrys) 1.5\n"),
        Request::Other => say_usage(rt, usage),
    }
}

// Writes both texts to standard output.
fn tell_both(rt: &HostRuntime, first: &str, second: &str) {
    if write_out(rt, first.as_bytes()) {
        write_out(rt, second.as_bytes());
    }
}

// Writes the line of usage to standard error. Where that fails there is nowhere left to say so.
pub fn say_usage(rt: &HostRuntime, usage: &str) {
    let _ = rt.eprint(usage);
}

// A refusal's number, in one line on standard error; of an accepted call nothing is said.
pub fn answer(rt: &HostRuntime, verdict: Verdict) {
    if verdict.is_err() {
        let number = refusals::number(verdict) as u8;
        let line = [
            fields::ZERO + number / 10,
            fields::ZERO + number % 10,
            sheet::LINE_FEED,
        ];
        // A number below ten has one digit.
        say(rt, verdict, &line[usize::from(number < 10)..]);
    }
}

// Writes the line of a refusal. Where that fails there is nowhere left to say so.
fn say(rt: &HostRuntime, verdict: Verdict, line: &[u8])
    requires { SayAsks verdict line.now }
{
    write_error(rt, line);
}

// Writes bytes to standard error. Where that fails there is nowhere left to say so.
pub fn write_error(rt: &HostRuntime, bytes: &[u8]) {
    let _ = rt.stderr().write_all(bytes);
}

// Says on standard error what failed: its name, and the system's reason.
pub fn fail(rt: &HostRuntime, name: &str, error: &io::Error) {
    let _ = match format!(in rt.alloc(); "{error}") {
        Ok(text) => {
            let reason = reason(text.as_str());
            eprintln!(rt; "{name}: {reason}")
        }
        Err(_) => eprintln!(rt; "{name}: {error}"),
    };
}

// The system's reason alone, without the number of the error that stands behind it.
fn reason(text: &str) -> &str {
    match text.split_once(" (os error ") {
        Some((reason, _)) => reason,
        None => text,
    }
}

// Reads once, so many bytes at most, behind the bytes that are held at the front of the buffer, and gives how many came: none where the input has
// ended. Where the read fails a message says so, by the name of what is read.
pub fn receive<R: Read>(
    rt: &HostRuntime,
    input: &mut R,
    name: &str,
    buffer: &mut [u8],
    held: usize,
    most: usize,
) -> Option<usize>
    requires { held ≤ length buffer.old }
    ensures { ReceiveGives (R.remaining input.old) held most buffer.old result (R.remaining input.new) buffer.new }
{
    let end = held + most.min(buffer.len() - held);
    let room = &mut buffer[held..end];
    match input.read(room) {
        Ok(more) => Some(more),
        Err(error) => {
            fail(rt, name, &error);
            None
        }
    }
}

// Reads until the buffer is full or the input ends, and gives how many bytes came; where a read fails, how many came ahead of it.
pub fn receive_all<R: Read>(
    rt: &HostRuntime,
    input: &mut R,
    name: &str,
    buffer: &mut [u8],
) -> Result<usize, usize>
    ensures { IsPrefixLen (count_of result) buffer.new }
{
    let mut count = 0;
    while count < buffer.len() {
        match receive(rt, input, name, buffer, count, usize::MAX) {
            None => return Err(count),
            Some(0) => break,
            Some(more) => count += more,
        }
    }
    Ok(count)
}

// Reads so many bytes and drops them, until the input ends or a read fails, and gives how many are missing then.
pub fn skip<R: Read>(rt: &HostRuntime, input: &mut R, name: &str, most: usize) -> usize
    ensures { result ≤ most }
{
    let mut buffer = [0u8; BUFFER_SIZE];
    let mut left = most;
    while left > 0 {
        match receive(rt, input, name, &mut buffer, 0, left) {
            None | Some(0) => break,
            Some(more) => left -= more,
        }
    }
    left
}

// Writes all bytes to standard output. Where that fails a message says so.
pub fn write_out(rt: &HostRuntime, bytes: &[u8]) -> bool {
    match rt.write_all(bytes) {
        Ok(()) => true,
        Err(error) => {
            fail(rt, "standard output", &error);
            false
        }
    }
}
