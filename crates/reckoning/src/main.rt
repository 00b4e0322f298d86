//! Writes the rules of the module a second time, plainly, and runs both side by side.
#![tactic(auto)]

mod block;
mod chance;
mod data;
mod entries;
mod examples;
mod line;
mod plain_axis;
mod plain_orders;
mod plain_ticks;
mod plant;
mod samples;
mod script;
mod shelf;
mod shown;
mod sides;
mod stage;
mod tally;
mod trouble;
mod whole;

use crate::chance::Chance;
use crate::examples::work;
use crate::script::Script;
use crate::sides::{Build, Sides};
use crate::tally::Tally;
use anyhow::anyhow;
use std::io;

const CALLS: u32 = 10_000;

// Near the ends of a drive, at zero, with wide plays and none.
static BUILDS: [([i64; 3], u16, [u16; 2]); 8] = [
    ([0, 0, 999_999_999_950], 3, [2, 7]),
    ([-999_999_999_960, 7, 12], 65_535, [0, 300]),
    ([5, -999_999_999_900, -999_999_999_000], 3, [400, 550]),
    ([1_000_000_000_000, 999_999_999_990, 0], 0, [1, 0]),
    ([0, 100, 999_999_999_999], 3, [3, 3]),
    ([-1_000_000_000_000, 0, -3], 3, [65_535, 65_535]),
    ([-40, -999_999_999_997, -999_999_999_880], 3, [20, 100]),
    ([77, 999_999_999_980, 0], 1, [1, 1]),
];

fn main(rt: HostRuntime) -> anyhow::Result<()> {
    if run(&rt)? {
        Ok(())
    } else {
        Err(anyhow!("an example comes out otherwise, or the two sides differ or cannot be made"))
    }
}

// Whether every example comes out as told, and the two sides agree in each run.
fn run(rt: &HostRuntime) -> io::Result<bool> {
    let mut tally = Tally::new();
    if !work(rt, &mut tally)? {
        return Ok(false);
    }
    println!(rt; "run  calls  differences")?;
    for (seed, (motors, play, plays)) in (1u32..).zip(BUILDS.iter()) {
        let build = Build {
            motors: *motors,
            play: *play,
            plays: *plays,
        };
        let Some((calls, reached)) = run_script(rt, seed, build, tally) else {
            return Ok(false);
        };
        println!(rt; "{seed:>3} {calls:>6} {:>12}", 0)?;
        tally = reached;
    }
    tally.print(rt)?;
    Ok(true)
}

// The number of calls made, and what all runs so far have reached.
// None where the two sides differ or cannot be made.
fn run_script(rt: &HostRuntime, seed: u32, build: Build, tally: Tally) -> Option<(u32, Tally)> {
    let mut script = Script {
        chance: Chance::new(u64::from(seed)),
        sides: Sides::new(rt, build, tally)?,
        calls: CALLS,
    };
    script.run();
    let sides = &script.sides;
    sides.agree.then_some((sides.calls, sides.tally))
}
