// Pulses sent to stages and layers, with the answers and counts that the rules give them.
#![tactic(auto)]

#[cfg(test)]
mod tests {
    use Direction::{Backward, Forward};
    use Step::{Level, Pulse, Send};
    use drives::clock_stage::{ClockStage, FARTHEST};
    use drives::direction::Direction;
    use drives::drive::Drive;
    use drives::fault::{DriveFault, Refusal};
    use drives::send::send;
    use drives::take_up::{Counts, TakeUp};
    use std::process::Abort;
    use std::test::Fail;

    #[derive(Clone, Copy)]
    enum Step {
        Level(bool),
        Pulse(Direction),
        Send(Direction, u64),
    }

    // A step, its answer, and then the counts of the layer and of the drive below.
    type Row = (Step, Result<(), Refusal>, i64, i64);

    fn take<D: Drive>(drive: &mut D, step: Step) -> Result<(), Refusal> {
        match step {
            Level(ready) => {
                drive.level(ready);
                Ok(())
            }
            Pulse(direction) => drive.pulse(direction),
            Send(direction, pulses) => send(drive, direction, pulses),
        }
    }

    fn run<D: Drive>(rt: &impl Abort, screw: &mut TakeUp<D>, rows: &[Row]) {
        for (row, (step, answer, layer, below)) in rows.iter().enumerate() {
            let found = (take(screw, *step), screw.counts());
            let counts = Counts {
                layer: *layer,
                below: *below,
            };
            assert!(rt; found == (*answer, counts), "row {row}");
        }
    }

    // Without play a layer means the stage below.
    const ENDED: &[Row] = &[
        (
            Pulse(Forward),
            Err(Refusal::NotReady),
            FARTHEST - 2,
            FARTHEST - 2,
        ),
        (Level(true), Ok(()), FARTHEST - 2, FARTHEST - 2),
        (Send(Forward, 3), Err(Refusal::Ended), FARTHEST, FARTHEST),
        (Pulse(Backward), Ok(()), FARTHEST - 1, FARTHEST - 1),
        (Level(false), Ok(()), FARTHEST - 1, FARTHEST - 1),
        (
            Pulse(Backward),
            Err(Refusal::NotReady),
            FARTHEST - 1,
            FARTHEST - 1,
        ),
    ];

    // The first pulse turns the flank.
    const FREE: &[Row] = &[
        (Level(true), Ok(()), 0, 0),
        (Pulse(Backward), Ok(()), -1, -1),
    ];

    const PLAY_OF_THREE: &[Row] = &[
        (Level(true), Ok(()), 0, 0),
        (Pulse(Forward), Ok(()), 1, 1),
        (Pulse(Forward), Ok(()), 2, 2),
        (Pulse(Backward), Ok(()), 1, -2),
        (Pulse(Forward), Ok(()), 2, 2),
    ];

    // A play of 3 over a stage that is ready before the layer is laid on it.
    const OVER_A_READY_STAGE: &[Row] = &[
        (Pulse(Forward), Ok(()), 1, 1),
        (Pulse(Backward), Ok(()), 0, -3),
    ];

    // A play of 5 over one of 2.
    const LAYERS: &[Row] = &[
        (Level(true), Ok(()), 0, 0),
        (Send(Forward, 3), Ok(()), 3, 3),
        (Pulse(Backward), Ok(()), 2, -3),
    ];

    #[test]
    fn pulses(rt: HostRuntime) -> Result<(), Fail> {
        let mut free = TakeUp::new(ClockStage::new(FARTHEST - 2)?, 0)?;
        run(&rt, &mut free, ENDED);
        assert_eq!(rt; free.below().direction(), Backward);
        run(&rt, &mut TakeUp::new(ClockStage::new(0)?, 0)?, FREE);
        let mut screw = TakeUp::new(ClockStage::new(0)?, 3)?;
        run(&rt, &mut screw, PLAY_OF_THREE);
        let mut ready = ClockStage::new(0)?;
        ready.level(true);
        run(&rt, &mut TakeUp::new(ready, 3)?, OVER_A_READY_STAGE);
        let mut outer = TakeUp::new(TakeUp::new(ClockStage::new(0)?, 2)?, 5)?;
        run(&rt, &mut outer, LAYERS);
        assert_eq!(rt; outer.below().below().count(), -5);
        assert_eq!(rt; outer.least(), 7 - FARTHEST);
        Ok(())
    }

    #[test]
    fn stage_alone(rt: HostRuntime) -> Result<(), Fail> {
        for count in [FARTHEST + 1, i64::MIN] {
            assert!(rt; matches!(ClockStage::new(count), Err(DriveFault::NotMade)));
        }
        let mut stage = ClockStage::new(FARTHEST - 2)?;
        assert_eq!(rt; stage.pulse(Forward), Err(Refusal::NotReady));
        assert_eq!(rt; stage.count(), FARTHEST - 2);
        stage.level(true);
        assert_eq!(rt; send(&mut stage, Forward, 3), Err(Refusal::Ended));
        assert_eq!(rt; stage.count(), FARTHEST);
        assert_eq!(rt; stage.pulse(Backward), Ok(()));
        assert_eq!(rt; stage.direction(), Backward);
        Ok(())
    }

    // Least, count and greatest of a layer with a play over a stage at a count, if both can be made.
    fn ends(count: i64, play: u16) -> Option<(i64, i64, i64)> {
        let screw = TakeUp::new(ClockStage::new(count).ok()?, play).ok()?;
        Some((screw.least(), screw.count(), screw.greatest()))
    }

    const MADE: [(i64, u16, Option<(i64, i64, i64)>); 6] = [
        (FARTHEST + 1, 0, None),
        (i64::MIN, 0, None),
        (-FARTHEST, 0, Some((-FARTHEST, -FARTHEST, FARTHEST))),
        (7 - FARTHEST, 8, None),
        (
            8 - FARTHEST,
            8,
            Some((8 - FARTHEST, 8 - FARTHEST, FARTHEST)),
        ),
        (0, u16::MAX, Some((65_535 - FARTHEST, 0, FARTHEST))),
    ];

    #[test]
    fn room_for_the_play(rt: HostRuntime) {
        for (count, play, made) in MADE {
            assert_eq!(rt; ends(count, play), made);
        }
    }
}
