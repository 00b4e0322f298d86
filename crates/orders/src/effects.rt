ghost use Rattle.std.specs.Prelude.{◌≡◌, ◌≤◌, ◌-ℤ◌, unsigned_abs};
ghost use Rattle.motion.specs.Places.{pulses_by};
ghost use Rattle.motion.specs.Travel.{Going};
ghost use Rattle.states.specs.State.{with_work, stopped};
ghost use Rattle.states.specs.Mode.{mode_number};
ghost use Rattle.states.specs.View.{raw_in, status_of, phase_of};
ghost use Rattle.orders.specs.Effects.{taken, taken_over, zeroed, gone_on, halted, carried, refused};

use crate::plan::{Accepted, Plan};
use motion::MachineData;
use states::{AxisFault, Cause, Hold, Mode, NO_AUXILIARY, Reading, Record, Run, State};

/// Carries out what an accepted order is to do.
pub fn carry_out(axis: &mut Record, reading: Reading, accepted: Accepted)
    ensures { status_of axis.new ≡ carried (mode_number accepted.mode) accepted.plan reading (status_of axis.old) }
{
    let mode = accepted.mode;
    match accepted.plan {
        Plan::Halt => halt(axis),
        Plan::OnlyMode => take(axis, mode),
        Plan::OnlyClear => axis.work.fault = None,
        Plan::Zero => {
            take(axis, mode);
            zero_here(axis, reading);
        }
        Plan::Go(aim) => {
            take(axis, mode);
            axis.set_off(aim, None);
        }
        Plan::Begin(program) => {
            take(axis, mode);
            axis.work.state = State::BetweenBlocks(Run::opening(program));
        }
        Plan::Resume(aim) => {
            take_over(axis, mode);
            let run = axis.work.state.run();
            axis.set_off(aim, run);
        }
        Plan::Continue => {
            take_over(axis, mode);
            go_on(&mut axis.work.state);
        }
        Plan::NewOffset(units) => {
            take(axis, mode);
            axis.work.offset = units;
        }
        Plan::NewTool(units) => {
            take(axis, mode);
            axis.work.tool = units;
        }
    }
}

/// A refused order becomes the axis's fault; 11 also acts as a stop.
pub fn refuse(axis: &mut Record, fault: AxisFault)
    ensures { status_of axis.new ≡ refused fault (status_of axis.old) }
{
    axis.work.fault = Some(fault);
    if fault.cause == Cause::NotStanding {
        stop(&mut axis.work.state);
    }
}

// A held program is over.
fn take(axis: &mut Record, mode: Mode)
    ensures { status_of axis.new ≡ with_work (taken (mode_number mode) (status_of axis.old).work) (status_of axis.old) }
{
    take_over(axis, mode);
    axis.work.auxiliary = NO_AUXILIARY;
    axis.work.state = State::Standing;
}

// A held program stays.
fn take_over(axis: &mut Record, mode: Mode)
    ensures { status_of axis.new ≡ with_work (taken_over (mode_number mode) (status_of axis.old).work) (status_of axis.old) }
{
    axis.work.mode = mode;
    axis.work.fault = None;
}

fn halt(axis: &mut Record)
    ensures { status_of axis.new ≡ with_work (halted (status_of axis.old).work) (status_of axis.old) }
{
    stop(&mut axis.work.state);
    axis.work.fault = None;
}

// A move is braked, and its program held when it stands; without a move it is held at once.
fn stop(state: &mut State)
    ensures { (g : Going) → phase_of g state.new ≡ stopped (phase_of g state.old) }
{
    match *state {
        State::Moving(journey) => *state = State::Braking(journey),
        State::BetweenBlocks(run) => {
            *state = State::Held(Hold {
                run,
                unfinished: None,
            });
        }
        State::Standing | State::Braking(_) | State::Held(_) => {}
    }
}

// The next tick takes a block of the program that was held.
fn go_on(state: &mut State)
    ensures { (g : Going) → phase_of g state.new ≡ gone_on (phase_of g state.old) }
{
    if let State::Held(hold) = *state {
        *state = State::BetweenBlocks(hold.run);
    }
}

// The count at zero that makes the reference coordinate the place where the drive is.
fn zero_of(machine: &MachineData, reading: Reading) -> i64
    ensures value { result ≡ (reading.count -ℤ pulses_by machine.now machine.now.reference) }
    ensures small { unsigned_abs result ≤ 100000000000000 }
{
    let reference = machine.values().reference;
    let pulses = machine.pulses_of(reference);
    reading.count - pulses
}

fn zero_here(axis: &mut Record, reading: Reading)
    ensures { status_of axis.new ≡ with_work (zeroed (raw_in axis.old.machine) reading (status_of axis.old).work) (status_of axis.old) }
{
    let Some(mover) = &axis.machine else {
        return;
    };
    let machine = mover.machine();
    let zero = zero_of(machine, reading);
    axis.work.coordinate = machine.values().reference;
    axis.work.zero = zero;
    axis.work.referenced = true;
    axis.work.in_position = true;
}
