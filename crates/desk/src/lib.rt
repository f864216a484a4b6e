//! What the program does with its words.
#![tactic(auto)]

pub mod report;
pub mod sample;

use report::report;
use sample::{HOUSE, SLIP};
use std::{env, fs, io};

/// The words are not known, or a file is refused.
fn bad_input() -> io::Error {
    io::Error::from(io::ErrorKind::InvalidData)
}

/// Checks each file that is named, to the last; an error where one is no house file.
fn check_files(rt: &HostRuntime, names: env::Args) -> io::Result<()> {
    let mut all_good = true;
    for name in names {
        let text = fs::read(rt, name.as_str())?;
        all_good &= report(rt, name.as_str(), &text)?.is_ok();
    }
    if all_good { Ok(()) } else { Err(bad_input()) }
}

/// Shows the check on a house file, and on one with a slip.
fn show_samples(rt: &HostRuntime) -> io::Result<()> {
    rt.println("checking a house file that is built in")?;
    let _ = report(rt, "house.jsonc", HOUSE)?;
    rt.println("checking the same kind of file with a comma left out")?;
    let _ = report(rt, "slip.jsonc", SLIP)?;
    Ok(())
}

/// Says which words are known.
fn print_usage(rt: &HostRuntime) -> io::Result<()> {
    rt.println("exchange              shows what it does on a built-in house file")?;
    rt.println("exchange check FILE.. checks house files")
}

/// Carries out the program's words, the first of which is its own name; an error where a file is refused or the words are not known.
pub fn run(rt: &HostRuntime) -> io::Result<()> {
    let mut words = env::args(rt)?;
    let _ = words.next();
    let command = words.next();
    match command.as_deref() {
        None => show_samples(rt),
        Some("check") => check_files(rt, words),
        Some(_) => {
            print_usage(rt)?;
            Err(bad_input())
        }
    }
}
