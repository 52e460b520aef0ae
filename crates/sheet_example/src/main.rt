// The example of docs/SPECIFICATION.md, Figures to check: ten bands, all 31 Hz. Prints the sheet of the cleared unit, the sheet after the
// frame (1000, 0), and that one again, of the unit that it is read as; then the sheet of the unit that a short sheet on standard input is read as.
// Then three buffers of dots that were lent to `writing::write`, every byte of them: one longer than the sheet, one lent with an unfit unit, and
// one that is too short. Of what stands behind the part that `write` hands back its contract says nothing.
#![tactic(auto)]

use std::io;
use std::io::Read;
use unit::Unit;

// A buffer with places behind the sheet, and one that is a byte too short.
const LONGER: usize = sheet::SHEET_SIZE + 16;

const SHORTER: usize = sheet::SHEET_SIZE - 1;

// The band set: ten times A, B, G of 31 Hz.
const SET: [i32; bands::SET_SIZE] = [
    6606, 4181093, 8375315, 6606, 4181093, 8375315, 6606, 4181093, 8375315, 6606, 4181093, 8375315,
    6606, 4181093, 8375315, 6606, 4181093, 8375315, 6606, 4181093, 8375315, 6606, 4181093, 8375315,
    6606, 4181093, 8375315, 6606, 4181093, 8375315,
];

fn main(rt: HostRuntime) -> io::Result<()> {
    let mut cleared = loading::house_unit();
    let _ = loading::load(&mut cleared, &SET);
    print_sheets(&rt, cleared)?;
    print_longer(&rt, cleared)?;
    let mut longer = [b'.'; LONGER];
    print_written(&rt, cleared, &mut longer)?;
    let mut unfit = cleared;
    unfit.volume.present = -1;
    let mut refused = [b'.'; LONGER];
    print_written(&rt, unfit, &mut refused)?;
    let mut shorter = [b'.'; SHORTER];
    print_written(&rt, cleared, &mut shorter)
}

// Prints the unit's sheet, the sheet after the frame (1000, 0), and that one again, of the unit that it is read as.
fn print_sheets(rt: &HostRuntime, cleared: Unit) -> io::Result<()> {
    let mut paper = [0u8; sheet::SHEET_SIZE];
    let part = writing::write(cleared, &mut paper);
    rt.write_all(part)?;
    let mut unit = cleared;
    let mut sound = [0u8; 4];
    let _ = blocks::play(&mut unit, &[232, 3, 0, 0], &mut sound);
    let mut sheet = [0u8; sheet::SHEET_SIZE];
    writing::fill(unit, &mut sheet);
    rt.write_all(&sheet)?;
    let mut carried = cleared;
    let _ = reading::read(&sheet, &mut carried);
    let again = writing::write(carried, &mut paper);
    rt.write_all(again)
}

// Prints the sheet of the unit that the short sheet on standard input is read as.
fn print_longer(rt: &HostRuntime, cleared: Unit) -> io::Result<()> {
    let mut short = [0u8; sheet::SHORT_SIZE];
    // What is missing of it stays 0.
    let _ = rt.stdin().read_exact(&mut short);
    let mut carried = cleared;
    let _ = reading::read(&short, &mut carried);
    let mut paper = [0u8; sheet::SHEET_SIZE];
    let part = writing::write(carried, &mut paper);
    rt.write_all(part)
}

// Has the unit's sheet written to the buffer, and prints the whole buffer and a line feed.
fn print_written(rt: &HostRuntime, unit: Unit, buffer: &mut [u8]) -> io::Result<()> {
    writing::write(unit, buffer);
    rt.write_all(buffer)?;
    rt.write_all(b"\n")
}
