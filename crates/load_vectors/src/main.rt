//! Replays the load scripts in data/ and compares every outcome and every tree's shape.
#![tactic(auto)]

mod replay;
mod script;
mod shape;
mod tally;

use replay::replay;
use std::{fs, io};

fn main(rt: HostRuntime) -> io::Result<()> {
    for name in ["10-load.txt", "15-load-random.txt"] {
        let script = fs::read_to_string(&rt, name)?;
        let tally = replay(&rt, script.as_str())?;
        println!(rt; "{name}: {tally}")?;
    }
    Ok(())
}
