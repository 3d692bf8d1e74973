// Poses filed, dropped and found in a GNAT, and settings that are refused.
#![tactic(auto)]

mod poses;

use poses::trees;
use std::io;

fn main(rt: HostRuntime) -> io::Result<()> {
    trees(&rt, 2, 2)?;
    trees(&rt, 8, 33)
}
