//! The exchange's program for house files.
#![tactic(auto)]

use std::io;

fn main(rt: HostRuntime) -> io::Result<()> {
    desk::run(&rt)
}
