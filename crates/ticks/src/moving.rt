ghost use Rattle.std.specs.Prelude.{◌≡◌, ◌&&◌, if◌then◌else◌, None, ◌==◌};
ghost use Rattle.motion.specs.Travel.{Going};
ghost use Rattle.states.specs.Mode.{mode_number};
ghost use Rattle.states.specs.Moves.{direction_of};
ghost use Rattle.states.specs.Effects.{fault_in};
ghost use Rattle.states.specs.State.{with_work, held as held_with, between};
ghost use Rattle.states.specs.View.{raw_in, going_in, course_in, course_if, travel_of, phase_of, status_of};
ghost use Rattle.ticks.specs.Blocks.{done_with};
ghost use Rattle.ticks.specs.Moving.{at, placed, is_ahead, after_move, arrived, stopped_short, fail_step};

use drives::direction::Direction;
use reader::ends_program;
use states::effects::fault_in;
use states::{AxisFault, Cause, Hold, Journey, Mode, Pace, Reading, Record, Run, State, Switches};

/// The way that the pulses of a move go.
pub fn direction_of(journey: Journey) -> Direction
    ensures { result ≡ direction_of journey.distance }
{
    if journey.distance < 0 {
        Direction::Backward
    } else {
        Direction::Forward
    }
}

/// Whether the limit switch ahead of a move is active; a move without pulses has none ahead.
pub fn is_ahead(journey: Journey, switches: Switches) -> bool
    ensures { result ≡ is_ahead journey.distance switches.begin switches.end }
{
    if journey.distance < 0 {
        return switches.begin;
    }
    0 < journey.distance && switches.end
}

/// A block is done: what follows by its M and by the mode.
pub fn after_block(mode: Mode, moved: bool, run: Run) -> State
    ensures { (g : Going) → phase_of g result ≡ done_with (mode_number mode) moved (course_in run) }
{
    if ends_program(run.auxiliary) {
        return State::Standing;
    }
    // An M may be any of 0 to 99, as the program has it; only 00, 02 and 30 act.
    match run.auxiliary {
        Some(0) => held(run, None),
        _ => after_step(mode, moved, run),
    }
}

// A program in single blocks is held after each move.
fn after_step(mode: Mode, moved: bool, run: Run) -> State
    ensures { (g : Going) → phase_of g result ≡ (if moved && mode_number mode == 9 then held_with (course_in run) None else between (course_in run)) }
{
    if moved && mode == Mode::Program(Pace::SingleBlock) {
        held(run, None)
    } else {
        State::BetweenBlocks(run)
    }
}

fn held(run: Run, unfinished: Option<i32>) -> State
    ensures { (g : Going) → phase_of g result ≡ held_with (course_in run) unfinished }
{
    State::Held(Hold { run, unfinished })
}

// A move is complete, and with it the block of its program.
fn after_move(mode: Mode, run: Option<Run>) -> State
    ensures { (g : Going) → phase_of g result ≡ after_move (mode_number mode) (course_if run) }
{
    run.map_or(State::Standing, |run| after_block(mode, true, run))
}

// A move has stopped short: its program is held.
fn stopped_short(journey: Journey) -> State
    ensures { (g : Going) → phase_of g result ≡ stopped_short journey.target (course_if journey.run) }
{
    let target = Some(journey.target);
    journey.run.map_or(State::Standing, |run| held(run, target))
}

/// After the pulses of a tick that did not end its move: where the axis is. What it is doing stays.
pub fn follow(axis: &mut Record, journey: Journey, reading: Reading)
    ensures { status_of axis.new ≡ with_work (at (placed (raw_in axis.old.machine) (travel_of (going_in axis.old.machine) journey) reading.count (status_of axis.old).work) (status_of axis.old).work.phase (status_of axis.old).work) (status_of axis.old) }
{
    let here = axis.place(journey, reading);
    axis.work.coordinate = here;
}

/// After the pulses of the tick that completes its move: the axis is at the target, and the block of its
/// program is done.
pub fn arrive(axis: &mut Record, journey: Journey)
    ensures { status_of axis.new ≡ with_work (arrived (travel_of (going_in axis.old.machine) journey) (status_of axis.old).work) (status_of axis.old) }
{
    axis.work.coordinate = journey.target;
    axis.work.in_position = true;
    axis.work.state = after_move(axis.work.mode, journey.run);
}

/// After the pulses of the braking tick that ends its move: the axis stands where it is, with its program
/// held.
pub fn stop_short(axis: &mut Record, journey: Journey, reading: Reading)
    ensures { status_of axis.new ≡ with_work (at (placed (raw_in axis.old.machine) (travel_of (going_in axis.old.machine) journey) reading.count (status_of axis.old).work) (stopped_short journey.target (course_if journey.run)) (status_of axis.old).work) (status_of axis.old) }
{
    axis.work.coordinate = axis.place(journey, reading);
    axis.work.state = stopped_short(journey);
}

/// 23 and 24: the axis stops at once, its reference is lost and its program is over.
pub fn fail(axis: &mut Record, journey: Journey, reading: Reading, cause: Cause) -> AxisFault
    ensures value { result ≡ fault_in (course_if journey.run) cause }
    ensures after { status_of axis.new ≡ fail_step cause (travel_of (going_in axis.old.machine) journey) reading.count (status_of axis.old) }
{
    let fault = fault_in(journey.run, cause);
    axis.work.fault = Some(fault);
    axis.work.coordinate = axis.place(journey, reading);
    axis.work.referenced = false;
    axis.work.state = State::Standing;
    fault
}
