ghost use Rattle.std.specs.Prelude.{◌≡◌, ◌+ℤ◌};
ghost use Rattle.motion.specs.Travel.{Going};
ghost use Rattle.states.specs.Shift.{offset_by};
ghost use Rattle.states.specs.Courses.{course_rate};
ghost use Rattle.states.specs.State.{with_work};
ghost use Rattle.states.specs.View.{raw_in, course_in, work_of, status_of};
ghost use Rattle.ticks.specs.Blocks.{block_target, target_verdict, block_verdict, showing, begun_with, begun_reply, Begins, begin_reply, next_block, next_course};

use crate::moving::after_block;
use reader::{Block, Way};
use states::effects::fault_in;
use states::{Aim, AxisFault, AxisView, Cause, Reading, Record, Run, State, Wish};
use store::Store;

/// Takes the next block of a program: its words take effect in the run, before its X is reckoned.
pub fn take(run: &mut Run, store: &Store) -> Option<Block>
    ensures value { result ≡ next_block store.now (course_in run.old) }
    ensures after { course_in run.new ≡ next_course store.now (course_in run.old) }
{
    let block = store.block(run.program, usize::from(run.taken))?;
    run.taken += 1;
    run.motion = block.motion.unwrap_or(run.motion);
    run.offset = block.offset.unwrap_or(run.offset);
    run.way = block.way.unwrap_or(run.way);
    run.feed = block.feed.or(run.feed);
    run.auxiliary = block.auxiliary;
    Some(block)
}

/// Begins a block that is taken, whatever the axis was doing: its move, or what follows where it has
/// none.
pub fn begin_block(
    axis: &mut Record,
    reading: Reading,
    run: Run,
    x: Option<i32>,
) -> Result<(), AxisFault>
    ensures value { result ≡ begin_reply x (course_in run) reading (status_of axis.old) }
    ensures after { Begins x (course_in run) reading (status_of axis.old) (status_of axis.new) }
{
    let Some(x) = x else {
        show(axis, run);
        axis.work.state = after_block(axis.work.mode, false, run);
        return Ok(());
    };
    let asked = ask_block(axis, reading, run, x);
    begin(axis, asked, run)
}

// The M of a block shows from the tick that takes it.
fn show(axis: &mut Record, run: Run)
    ensures { status_of axis.new ≡ with_work (showing (course_in run) (status_of axis.old).work) (status_of axis.old) }
{
    axis.work.auxiliary = run.auxiliary.unwrap_or(axis.work.auxiliary);
}

// The move of a block begins, or the block is refused and its program over.
fn begin(axis: &mut Record, asked: Result<Aim, Cause>, run: Run) -> Result<(), AxisFault>
    ensures value { result ≡ begun_reply asked (course_in run) }
    ensures after { status_of axis.new ≡ with_work (begun_with asked (raw_in axis.old.machine) (course_in run) (status_of axis.old).work) (status_of axis.old) }
{
    match asked {
        Ok(aim) => {
            show(axis, run);
            axis.set_off(aim, Some(run));
            Ok(())
        }
        Err(cause) => {
            let fault = fault_in(Some(run), cause);
            axis.work.fault = Some(fault);
            axis.work.state = State::Standing;
            Err(fault)
        }
    }
}

// 18 to 21 of a block with X.
fn ask_block(axis: &Record, reading: Reading, run: Run, x: i32) -> Result<Aim, Cause>
    ensures { result ≡ block_verdict (raw_in axis.now.machine) (course_in run) x reading (status_of axis.now).work }
{
    let Some(view) = axis.view(reading) else {
        return Err(Cause::NoMachineData);
    };
    let wanted = BlockMove { view, run, x };
    wanted.ask()
}

// A block's X with the program that it belongs to, asked of the axis.
#[derive(Clone, Copy)]
struct BlockMove<'a> {
    view: AxisView<'a>,
    run: Run,
    x: i32,
}

impl BlockMove<'_> {
    fn ask(&self) -> Result<Aim, Cause>
        ensures { (g : Going) → result ≡ target_verdict self.now.view.machine.now (course_in self.now.run) self.now.x self.now.view.reading (work_of g self.now.view.work.now) }
    {
        self.view.ask_move(self.wish())
    }

    fn wish(&self) -> Wish
        ensures { (g : Going) → result ≡ record { target = block_target self.now.view.machine.now (course_in self.now.run) self.now.x (work_of g self.now.view.work.now); rate = course_rate self.now.view.machine.now (course_in self.now.run) } }
    {
        Wish {
            target: match self.run.way {
                Way::Absolute => self.shifted(),
                Way::Relative => self.moved(),
            },
            rate: self.run.rate(self.view.machine),
        }
    }

    // Under G90: X and the shift, with the offset that the program has chosen.
    fn shifted(&self) -> i64
        ensures { result ≡ (self.now.x +ℤ ((self.now.view.work.now.offset +ℤ self.now.view.work.now.tool) +ℤ offset_by self.now.view.machine.now self.now.run.offset)) }
    {
        let chosen = self.run.chosen_offset(self.view.machine);
        i64::from(self.x) + self.view.work.shift_with(chosen)
    }

    // Under G91: a distance from the coordinate.
    fn moved(&self) -> i64
        ensures { result ≡ (self.now.view.work.now.coordinate +ℤ self.now.x) }
    {
        i64::from(self.view.work.coordinate) + i64::from(self.x)
    }
}
