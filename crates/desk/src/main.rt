// Gives level orders to a strip sheet: the sheet from standard input, the orders from the arguments, the sheet after them to standard output.
// The arguments are side (0 left, 1 right, 2 both), band (0 to 9, or 10 for the volume) and position (0 to 31, or "mute"), again and again; all
// orders are given or none. A refusal is one line on standard error, its number, and nothing is written. What the arguments mean is decided in
// `arguments` and `order_lists`, and what is answered in `decisions`; here it is followed.
#![tactic(auto)]

ghost use Rattle.std.specs.Prelude.{◌≡◌, true, false};
ghost use Rattle.console.specs.Reads.{IsPrefixLen};
ghost use Rattle.arguments.specs.Meaning.{request_of};
ghost use Rattle.order_lists.specs.Lists.{orders_in};
ghost use Rattle.decisions.specs.Decisions.{is_call, desk_verdict, HandsOut};

use arguments::{Request, Word};
use refusals::Verdict;

// How desk is used.
const USAGE: &str = "usage: desk SIDE BAND POSITION [SIDE BAND POSITION ...] <SHEET >SHEET\n";

// Does what the arguments ask for.
fn main(rt: HostRuntime) {
    let mut first = [0u8; arguments::TEXT_SIZE];
    let size = console::argument(&rt, 1, &mut first);
    begin(&rt, console::argument_count(&rt), &first[..size]);
}

// Takes orders, where no text of desk's own is asked for.
fn begin(rt: &HostRuntime, count: usize, first: &[u8]) {
    let request = arguments::requested(count, first);
    if arguments::asks_text(request) {
        tell(rt, count, first, request);
        return;
    }
    take_orders(rt, arguments::behind_name(count));
}

// What desk tells of itself, by the arguments.
fn tell(rt: &HostRuntime, count: usize, first: &[u8], request: Request)
    requires { request ≡ request_of count first.now }
{
    console::tell(
        rt,
        request,
        "desk",
        USAGE,
        "Gives level orders to a strip sheet, 1 to 31 of them, all or none.\n\
         SIDE is 0 left, 1 right, 2 both. BAND is 0 to 9, or 10 for the volume, with side 2. POSITION is 0 to 31, or mute.\n\
         At 16 a band is flat; muted, a band of the house set nearly cancels the sound at its centre. The volume is silent at 0 and muted.\n\
         A refusal is one line on standard error, its number, and nothing is written: 1 for a side and band that are not there,\n\
         2 for a position over 31, 8 to 14 for the sheet.\n",
    );
}

// Takes so many arguments for orders.
fn take_orders(rt: &HostRuntime, count: usize) {
    let mut words = [Word::Other; order_lists::LIST_ROOM];
    let kept = gather(rt, count, &mut words);
    start(rt, count, &words[..kept]);
}

// Puts what the arguments stand for at the front, as many words as there is room for, and gives how many they are.
fn gather(rt: &HostRuntime, count: usize, words: &mut [Word]) -> usize
    ensures { IsPrefixLen result words.new }
{
    let kept = count.min(words.len());
    for i in 0..kept {
        words[i] = argument(rt, i + 1);
    }
    kept
}

// What an argument stands for. One that is missing, or longer than there is room for, counts as empty.
fn argument(rt: &HostRuntime, place: usize) -> Word {
    let mut text = [0u8; arguments::TEXT_SIZE];
    let size = console::argument(rt, place, &mut text);
    arguments::meaning(&text[..size])
}

// Gives the orders that the arguments mean, or says how desk is used.
fn start(rt: &HostRuntime, count: usize, words: &[Word]) {
    if !decisions::is_call(count, words) {
        say_usage(rt, count, words);
        return;
    }
    read_sheet(rt, count, words);
}

// How desk is used, where the arguments are no orders.
fn say_usage(rt: &HostRuntime, count: usize, words: &[Word])
    requires { is_call count words.now ≡ false }
{
    console::say_usage(rt, USAGE);
}

// Reads the sheet, for arguments that are orders.
fn read_sheet(rt: &HostRuntime, count: usize, words: &[Word])
    requires { is_call count words.now ≡ true }
{
    let mut bytes = [0u8; sheet::SHEET_ROOM];
    let mut stdin = rt.stdin();
    if let Ok(size) = console::receive_all(rt, &mut stdin, console::INPUT_NAME, &mut bytes) {
        order(rt, words, &bytes[..size]);
    }
}

// Gives the orders to the sheet of these bytes.
fn order(rt: &HostRuntime, words: &[Word], bytes: &[u8]) {
    let mut sheet = [0u8; sheet::SHEET_SIZE];
    let verdict = decisions::order(words, bytes, &mut sheet);
    answer(rt, words, bytes, verdict);
    if verdict.is_ok() {
        hand_out(rt, words, bytes, &sheet);
    }
}

// What is said of the orders to the sheet of these bytes.
fn answer(rt: &HostRuntime, words: &[Word], bytes: &[u8], verdict: Verdict)
    requires { verdict ≡ desk_verdict bytes.now (orders_in words.now) }
{
    console::answer(rt, verdict);
}

// Writes the sheet after the orders to standard output.
fn hand_out(rt: &HostRuntime, words: &[Word], bytes: &[u8], sheet: &[u8])
    requires { HandsOut bytes.now (orders_in words.now) sheet.now }
{
    console::write_out(rt, sheet);
}
