// Plays the level files in data/ and compares what would be printed with the answers beside them. An independent
// program made those, by exhaustive means.
#![tactic(auto)]

use play::show;
use std::fs;

// What levelrun would print of a level.
fn printed(rt: &HostRuntime, level: &[u8]) -> anyhow::Result<Vec<u8>> {
    let mut out = [0u8; 65536];
    let mut line = [0u8; 32];
    let (shown, fault) = show(level, &mut out, &mut line);
    let mut text = out[0..shown].to_vec(rt.alloc())?;
    text.extend_from_slice(&line[0..fault])?;
    Ok(text)
}

// Whether the level of this name is answered as its file of answers says.
fn agrees(rt: &HostRuntime, name: &str) -> anyhow::Result<bool> {
    let level = fs::read(rt, format!(in rt.alloc(); "{name}.level")?.as_str())?;
    let answers = fs::read(rt, format!(in rt.alloc(); "{name}.answers")?.as_str())?;
    let text = printed(rt, level.as_slice())?;
    Ok(text.as_slice() == answers.as_slice())
}

fn run(rt: &HostRuntime) -> anyhow::Result<()> {
    let names = fs::read_to_string(rt, "names")?;
    let mut count = 0usize;
    let mut agreed = 0usize;
    // A loop and no chain: an error of `agrees` ends the run.
    for name in names.as_str().lines() {
        count = count.saturating_add(1);
        if agrees(rt, name)? {
            agreed = agreed.saturating_add(1);
        } else {
            println!(rt; "{name} does not agree")?;
        }
    }
    println!(rt; "{agreed} of {count} levels agree")?;
    Ok(())
}

fn main(rt: HostRuntime) -> anyhow::Result<()> {
    run(&rt)
}
