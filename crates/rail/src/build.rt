ghost use Rattle.std.specs.Prelude.{◌≡◌};
ghost use Rattle.rail.specs.Drives.{stage, over, asked, made, AllMade};

use drives::clock_stage::ClockStage;
use drives::drive::Drive;
use drives::fault::DriveFault;
use drives::take_up::{Counts, TakeUp};
use module::Drives;
use script::Build;
use std::fmt;

/// Two layers over a stage, of no play where a script asks for none.
pub type Layers = TakeUp<TakeUp<ClockStage>>;

/// The drives of the three axes, or the fault of the first that cannot be made.
pub fn drives_of(builds: [Build; 3]) -> Result<Drives<Layers, Layers, Layers>, DriveFault>
    ensures { AllMade ⟦<Layers as Drive>⟧.meaning builds result }
{
    let [first, second, third] = builds;
    Ok(Drives {
        first: drive_of(first)?,
        second: drive_of(second)?,
        third: drive_of(third)?,
    })
}

#[tactic(auto, using(crate::proofs::Unplayed::unplayed))]
fn drive_of(build: Build) -> Result<Layers, DriveFault>
    ensures { made ⟦<Layers as Drive>⟧.meaning result ≡ asked build }
{
    match build {
        Build::Clock { count } => layers(0, 0, count),
        Build::TakeUp { play, count } => layers(play, 0, count),
        Build::TakeUpTwice {
            outer,
            inner,
            count,
        } => layers(outer, inner, count),
    }
}

fn layers(outer: u16, inner: u16, count: i64) -> Result<Layers, DriveFault>
    ensures { made ⟦<Layers as Drive>⟧.meaning result ≡ over outer (over inner (stage count)) }
{
    let screw = TakeUp::new(ClockStage::new(count)?, inner)?;
    Ok(TakeUp::new(screw, outer)?)
}

/// Where an axis stands.
#[derive(Clone, Copy)]
pub enum Position {
    Motor(i64),
    Screw(Counts),
    Screws(Counts, i64),
}

impl Position {
    /// The counts of a drive of this build, from the carriage down to the motor.
    pub fn of(build: Build, drive: &Layers) -> Position {
        let outer = drive.counts();
        match build {
            Build::Clock { .. } => Position::Motor(outer.layer),
            Build::TakeUp { .. } => Position::Screw(outer),
            Build::TakeUpTwice { .. } => Position::Screws(outer, drive.below().counts().below),
        }
    }
}

impl fmt::Display for Position {
    fn fmt<W: fmt::Write>(&self, f: &mut fmt::Formatter<W>) -> fmt::Result {
        match *self {
            Position::Motor(count) => write!(f, "motor at {count}"),
            Position::Screw(counts) => write_screw(counts, f),
            Position::Screws(counts, motor) => {
                write_screw(counts, f)?;
                write!(f, ", motor at {motor}")
            }
        }
    }
}

fn write_screw<W: fmt::Write>(counts: Counts, f: &mut fmt::Formatter<W>) -> fmt::Result {
    let Counts { layer, below } = counts;
    write!(f, "carriage at {layer}, screw at {below}")
}
