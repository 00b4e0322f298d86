use crate::bench::{Bench, NoBench};
use crate::build::drives_of;
use crate::rail::Rail;
use drives::fault::DriveFault;
use script::{Line, Mistake, MistakeAt, Plan, read_at};
use thiserror::Error;

/// Why a script was not run to its end.
#[derive(Debug, Drop, Error)]
pub enum Stop {
    #[error("{0}")]
    Script(#[from] MistakeAt),
    #[error("fault {number} drive axis 0 program 0 block 0", number = .0.number())]
    Drive(#[from] DriveFault),
    #[error(transparent)]
    Output(#[from] anyhow::Error),
}

impl From<NoBench> for Stop {
    fn from(no_bench: NoBench) -> Stop {
        match no_bench {
            NoBench::Drive(fault) => Stop::Drive(fault),
            NoBench::Memory(error) => Stop::Output(error.into()),
        }
    }
}

/// Makes the drives and the module, then each call in turn, and prints its answer.
pub fn replay(rt: &HostRuntime, lines: &[&[u8]], explain: bool) -> Result<(), Stop> {
    let builds = Plan::of(lines)?.builds();
    let mut rail = Rail::new(rt, Bench::new(rt.alloc(), builds)?, explain);
    make_calls(&mut rail, lines)?;
    Ok(rail.account(drives_of(builds)?)?)
}

fn make_calls<'a>(rail: &mut Rail<'_, 'a>, lines: &[&'a [u8]]) -> Result<(), Stop> {
    let mut calling = false;
    for (i, line) in lines.iter().enumerate() {
        let Some(line) = read_at(*line, i)? else {
            continue;
        };
        let is_call = !matches!(line, Line::Drive { .. });
        if calling && !is_call {
            return Err(Mistake::DriveAfterCall.at(i).into());
        }
        calling = is_call;
        rail.answer(line)?;
    }
    Ok(())
}
