// Writes the strip sheet of the cleared house unit to standard output.
#![tactic(auto)]

ghost use Rattle.std.specs.Prelude.{◌≡◌, true};
ghost use Rattle.bands.specs.House.{house_set};
ghost use Rattle.loading.specs.Loading.{loaded};
ghost use Rattle.sheet.specs.Sheet.{side_letters, sheet_of};
ghost use Rattle.arguments.specs.Meaning.{request_of, is_plain};

use arguments::Request;

// Does what the arguments ask for.
fn main(rt: HostRuntime) {
    let mut first = [0u8; arguments::TEXT_SIZE];
    let size = console::argument(&rt, 1, &mut first);
    begin(&rt, console::argument_count(&rt), &first[..size]);
}

// Writes the sheet where there are no arguments.
fn begin(rt: &HostRuntime, count: usize, first: &[u8]) {
    let request = arguments::requested(count, first);
    tell(rt, count, first, request);
    if arguments::is_plain(request) {
        make_sheet(rt, count, first);
    }
}

// What house tells of itself, by the arguments.
fn tell(rt: &HostRuntime, count: usize, first: &[u8], request: Request)
    requires { request ≡ request_of count first.now }
{
    console::tell(
        rt,
        request,
        "house",
        "usage: house [--help | --version] >SHEET\n",
        "Writes the strip sheet of the cleared house unit: the ten house bands, all levels 0.\n\
         Its sound is silence until an order raises the volume: house | desk 2 10 26 >strip.sht\n",
    );
}

// Makes the sheet, where no arguments are given.
fn make_sheet(rt: &HostRuntime, count: usize, first: &[u8])
    requires { is_plain (request_of count first.now) ≡ true }
{
    let mut sheet = [0u8; sheet::SHEET_SIZE];
    let part = writing::write(loading::house_unit(), &mut sheet);
    hand_out(rt, part);
}

// Writes the sheet of the cleared house unit.
fn hand_out(rt: &HostRuntime, sheet: &[u8])
    requires { sheet.now ≡ sheet_of side_letters (loaded house_set).unit }
{
    console::write_out(rt, sheet);
}
