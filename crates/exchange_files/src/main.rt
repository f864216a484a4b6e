//! The program on files: what `exchange check FILE..` does, run on the files in data/.
#![tactic(auto)]

use std::io;

// The same program as `exchange`: the gate gives a crate one set of words and files, so a second run is a second crate.
fn main(rt: HostRuntime) -> io::Result<()> {
    desk::run(&rt)
}
