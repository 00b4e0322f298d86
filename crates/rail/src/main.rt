//! Replays a script of calls: what each is answered, and where the drives stand.
//!
//! The script comes on standard input, one call a line. With `--explain` each
//! answer is followed by a line in plain words, and an account ends the run.
#![tactic(auto)]

mod account;
mod bench;
mod build;
mod explain;
mod fault;
mod observed;
mod rail;
mod reading;
mod replay;

use crate::replay::{Stop, replay};
use anyhow::anyhow;
use script::split_lines;
use std::env;
use std::io::Read;

fn main(rt: HostRuntime) -> anyhow::Result<()> {
    run(&rt)
}

fn run(rt: &HostRuntime) -> anyhow::Result<()> {
    let explain = explains(rt)?;
    let mut text = Vec::new(rt.alloc());
    rt.stdin().read_to_end(&mut text)?;
    let lines = split_lines(rt.alloc(), &text)?;
    report(rt, replay(rt, &lines, explain))
}

// Prints why a script was not run to its end.
fn report(rt: &HostRuntime, replayed: Result<(), Stop>) -> anyhow::Result<()> {
    match replayed {
        Ok(()) => Ok(()),
        Err(Stop::Output(error)) => Err(error),
        Err(stop) => {
            println!(rt; "{stop}")?;
            Err(anyhow!("the script was not run to its end"))
        }
    }
}

fn explains(rt: &HostRuntime) -> anyhow::Result<bool> {
    let mut explain = false;
    for argument in env::args(rt)?.skip(1) {
        if argument.as_str() != "--explain" {
            return Err(anyhow!("the only argument is --explain"));
        }
        explain = true;
    }
    Ok(explain)
}
