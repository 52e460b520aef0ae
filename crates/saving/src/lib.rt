// Writing strip.new: the sheet goes to a file beside it, which then takes its name. So an old strip.new is never half overwritten.
#![tactic(auto)]

ghost use Rattle.std.specs.Prelude.{◌≡◌, pos};
ghost use Rattle.std.specs.Int.Signed.{lt_z};
ghost use Rattle.unit.specs.Fit.{Fit};
ghost use Rattle.saving.specs.Saved.{IsSheet};

use std::fs::{File, OpenOptions};
use std::io::{ErrorKind, Write};
use std::os::fd::AsRawFd;
use std::{fs, io};
use unit::Unit;

// The file, and the one beside it.
const NEW: &str = "strip.new";

const PART: &str = "strip.new.part";

// The numbers of the three standard streams, in the order in which a program is given them.
const INPUT_NUMBER: i32 = 0;

const OUTPUT_NUMBER: i32 = 1;

const ERROR_NUMBER: i32 = 2;

// Whether the file can be made and can then take the name, tried ahead of the sound. A message says why not. A standard stream that is closed is
// found here too: its number goes to the next file that is opened.
pub fn can_save(rt: &HostRuntime) -> bool {
    match make_part(rt) {
        Ok(part) => {
            let fd = part.as_raw_fd();
            drop(part);
            remove_part(rt);
            is_own(rt, fd) && is_free(rt)
        }
        Err(error) => {
            console::fail(rt, PART, &error);
            false
        }
    }
}

// Makes the file anew. One that is left over goes, and so does a link of its name: what a link points to is not touched.
fn make_part(rt: &HostRuntime) -> io::Result<File> {
    remove_part(rt);
    OpenOptions::new()
        .write(true)
        .create_new(true)
        .open(rt, PART)
}

// Removes the file, where there is one.
fn remove_part(rt: &HostRuntime) {
    let _ = fs::remove_file(rt, PART);
}

// Whether strip.new is no folder, nor a link to one: it is missing, or a file that another can replace.
fn is_free(rt: &HostRuntime) -> bool {
    match File::open(rt, "strip.new/.") {
        Ok(_) => {
            console::write_error(rt, b"strip.new: Is a directory\n");
            false
        }
        Err(error) => {
            let kind = error.kind();
            if kind == ErrorKind::NotFound || kind == ErrorKind::NotADirectory {
                return true;
            }
            console::fail(rt, NEW, &error);
            false
        }
    }
}

// Whether the number is none of the three standard streams'.
fn is_own(rt: &HostRuntime, fd: i32) -> bool
    ensures { result ≡ lt_z (pos 2) fd }
{
    if fd == INPUT_NUMBER {
        console::write_error(rt, b"standard input: closed\n");
    }
    if fd == OUTPUT_NUMBER {
        console::write_error(rt, b"standard output: closed\n");
    }
    fd > ERROR_NUMBER
}

// Saves the unit's sheet as strip.new. Where that fails a message says so, and the sheet goes to standard error, so that it is not lost.
pub fn save(rt: &HostRuntime, unit: Unit)
    requires { Fit unit }
{
    let mut bytes = [0u8; sheet::SHEET_SIZE];
    let sheet = writing::write(unit, &mut bytes);
    if let Err(error) = store(rt, unit, sheet) {
        console::fail(rt, NEW, &error);
        remove_part(rt);
        show(rt, unit, sheet);
    }
}

// Writes the unit's sheet to standard error.
fn show(rt: &HostRuntime, unit: Unit, sheet: &[u8])
    requires { IsSheet unit sheet.now }
{
    console::write_error(rt, sheet);
}

// The unit's sheet to the file beside strip.new, and that to its place.
fn store(rt: &HostRuntime, unit: Unit, sheet: &[u8]) -> io::Result<()>
    requires { IsSheet unit sheet.now }
{
    put(make_part(rt)?, unit, sheet)?;
    fs::rename(rt, PART, NEW)
}

// The unit's sheet to the file, and from there to its device. The file is then closed.
fn put(mut part: File, unit: Unit, sheet: &[u8]) -> io::Result<()>
    requires { IsSheet unit sheet.now }
{
    part.write_all(sheet)?;
    part.sync_all()
}
