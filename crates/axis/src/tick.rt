ghost use Rattle.std.specs.Prelude.{◌≡◌};
ghost use Rattle.drives.specs.Sending.{sent};
ghost use Rattle.states.specs.View.{raw_in, going_in, travel_of, status_of};
ghost use Rattle.states.specs.declared.state.State.TheVariants.{Moving, Braking};
ghost use Rattle.states.specs.Moves.{direction_of, ticked_in, braked_in};
ghost use Rattle.ticks.specs.Ticks.{run_step, slow_step, tick_step, tick_reply};

use crate::{Axis, Levels};
use drives::drive::Drive;
use drives::fault::DriveFault;
use drives::send::send;
use states::movers::{brake_in, tick_in};
use states::{AxisFault, Cause, Journey, Reading, Record, State};
use store::Store;
use ticks::blocks::{begin_block, take};
use ticks::moving::{arrive, direction_of, fail, follow, is_ahead, stop_short};

// Sends the pulses of a tick. A refused one leaves the drive as it is, and so does each after it.
fn pulse<D: Drive>(drive: &mut D, journey: Journey, pulses: u64) -> Reading
    ensures sent { D.Drive.meaning drive.new ≡ sent (direction_of journey.distance) pulses (D.Drive.meaning drive.old) }
    ensures reading { result ≡ D.Drive.meaning drive.new }
{
    let _ = send(drive, direction_of(journey), pulses);
    Reading::of(drive)
}

// A tick of motion.
fn run_on<D: Drive>(drive: &mut D, status: &mut Record, journey: Journey)
    requires { status.old.work.state ≡ Moving journey }
    ensures { record { drive = D.Drive.meaning drive.new; status = status_of status.new } ≡ run_step (ticked_in (raw_in status.old.machine) (going_in status.old.machine)) (travel_of (going_in status.old.machine) journey) (record { drive = D.Drive.meaning drive.old; status = status_of status.old }) }
{
    let passed = tick_in(&mut status.machine);
    let reading = pulse(drive, journey, passed.pulses);
    if passed.ended {
        arrive(status, journey);
    } else {
        follow(status, journey, reading);
    }
}

// A braking tick.
fn slow_down<D: Drive>(drive: &mut D, status: &mut Record, journey: Journey)
    requires { status.old.work.state ≡ Braking journey }
    ensures { record { drive = D.Drive.meaning drive.new; status = status_of status.new } ≡ slow_step (braked_in (raw_in status.old.machine) (going_in status.old.machine)) (travel_of (going_in status.old.machine) journey) (record { drive = D.Drive.meaning drive.old; status = status_of status.old }) }
{
    let passed = brake_in(&mut status.machine);
    let reading = pulse(drive, journey, passed.pulses);
    if passed.ended {
        stop_short(status, journey, reading);
    } else {
        follow(status, journey, reading);
    }
}

impl<D: Drive> Axis<D> {
    /// One millisecond of the axis, with the programs in store. What it does depends on what the
    /// axis is doing and on the levels.
    pub fn tick(&mut self, store: &Store) -> Result<(), AxisFault>
        ensures value { result ≡ tick_reply store.now self.old }
        ensures after { self.new ≡ tick_step store.now self.old }
    {
        let reading = self.reading();
        let levels = self.levels();
        match (&mut self.status.work.state, levels) {
            (State::Standing | State::Held(_), _) => Ok(()),
            (State::BetweenBlocks(run), _) => {
                // A program that has no block left is over.
                let Some(block) = take(run, store) else {
                    self.status.work.state = State::Standing;
                    return Ok(());
                };
                let run = *run;
                begin_block(&mut self.status, reading, run, block.target)
            }
            // 24
            (
                &mut (State::Moving(journey) | State::Braking(journey)),
                Levels { ready: false, .. },
            ) => {
                let cause = DriveFault::NotReadyInMotion.into();
                Err(fail(&mut self.status, journey, reading, cause))
            }
            // 23
            (&mut (State::Moving(journey) | State::Braking(journey)), Levels { switches, .. })
                if is_ahead(journey, switches) => {
                Err(fail(&mut self.status, journey, reading, Cause::SwitchAhead))
            }
            (&mut State::Moving(journey), _) => {
                run_on(&mut self.drive, &mut self.status, journey);
                Ok(())
            }
            (&mut State::Braking(journey), _) => {
                slow_down(&mut self.drive, &mut self.status, journey);
                Ok(())
            }
        }
    }

    fn levels(&self) -> Levels
        ensures begin { result.switches.begin ≡ self.now.status.begin }
        ensures end { result.switches.end ≡ self.now.status.end }
        ensures ready { result.ready ≡ self.now.drive.ready }
    {
        Levels {
            switches: self.status.switches,
            ready: self.drive.ready(),
        }
    }
}
