// Runs of calls on one axis with the answers that the rules give them, and what the axis then shows.
#![tactic(auto)]

#[cfg(test)]
mod bench;
#[cfg(test)]
mod tables;

#[cfg(test)]
mod tests {
    use crate::bench::Act::{Halt, Order, Ticks, To};
    use crate::bench::Answer::Done;
    use crate::bench::{Act, Answer, Bench, run};
    use crate::tables::*;
    use drives::clock_stage::FARTHEST;
    use states::Command::{Backward, Forward, Start, Stop, TakeOver};
    use std::process::Abort;

    // An order to an axis that is set in motion, and again while it brakes.
    fn ask_moving(
        rt: &impl Abort,
        axis: &mut Bench,
        at: (usize, usize),
        order: Act,
        moving: Answer,
        braking: Answer,
    ) {
        axis.act(rt, at, To(100), Done);
        axis.act(rt, at, order, moving);
        if moving == braking {
            axis.act(rt, at, Halt(6), Done);
        }
        axis.act(rt, at, order, braking);
        axis.act(rt, at, Ticks(1), Done);
    }

    // Every command of a mode.
    fn ask_mode(rt: &impl Abort, new: &mut Bench, busy: &mut Bench, mode: u8) {
        let commands = [Start, Stop, Forward, Backward, TakeOver];
        for (k, command) in commands.iter().enumerate() {
            let (at, order) = ((mode.into(), k), Order(mode, *command, 0, 0));
            let (first, moving, braking) = answers(mode, *command);
            new.act(rt, at, order, first);
            ask_moving(rt, busy, at, order, moving, braking);
        }
    }

    // Every mode and command to a new axis, to one in motion and to one that brakes.
    #[test]
    fn modes_and_commands(rt: HostRuntime) {
        let mut new = Bench::new(&rt, rt.alloc(), 0);
        let mut busy = Bench::new(&rt, rt.alloc(), 0);
        busy.row(&rt, (0, 0), &[AXIS, READY, REFERENCE], Done);
        for mode in 0..=u8::MAX {
            ask_mode(&rt, &mut new, &mut busy, mode);
        }
    }

    #[test]
    fn questions(rt: HostRuntime) {
        run(
            &rt,
            rt.alloc(),
            500,
            &[WITHOUT_DATA, WITHOUT_REFERENCE, WITH_BOTH, FOR_PROGRAMS],
        );
        run(&rt, rt.alloc(), 500, &[HOME, SHIFTS]);
        run(&rt, rt.alloc(), 500, &[HOME, BUSY]);
        run(&rt, rt.alloc(), FARTHEST - 5, &[NEAR_END]);
        run(&rt, rt.alloc(), -FARTHEST, &[AT_LEAST]);
    }

    #[test]
    fn moves(rt: HostRuntime) {
        run(&rt, rt.alloc(), 500, &[HOME, WORKED]);
        run(&rt, rt.alloc(), 500, &[HOME, STOPPED]);
        run(&rt, rt.alloc(), 500, &[HOME, BY_FIVE]);
    }

    #[test]
    fn programs(rt: HostRuntime) {
        let tables = [
            HOME,
            BETWEEN_BLOCKS,
            MOVING,
            HELD,
            AMID_A_PULSE,
            BY_BLOCK,
            STARTED_ANEW,
            HOLD_ENDED,
            LET_GO,
        ];
        run(&rt, rt.alloc(), 500, &tables);
    }

    #[test]
    fn faults_of_ticks(rt: HostRuntime) {
        let tables = [
            HOME,
            TROUBLE,
            TROUBLE_BRAKING,
            REFUSED_BLOCKS,
            SWITCH_IN_PROGRAM,
            TROUBLE_BY_BLOCK,
        ];
        run(&rt, rt.alloc(), 500, &tables);
    }

    #[test]
    fn machine_data(rt: HostRuntime) {
        run(&rt, rt.alloc(), 500, &[DATA, DATA_OF_INCHES, DATA_HELD]);
    }
}
