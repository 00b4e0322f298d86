use crate::plain_axis::Sight;
use crate::plant::{Plant, Reply};
use crate::shown::Shown;
use crate::stage::Stage;
use crate::tally::Tally;
use crate::trouble::Trouble;
use crate::whole::Whole;
use drives::clock_stage::ClockStage;
use drives::drive::Drive;
use drives::take_up::TakeUp;
use module::{Answer, Call, Drives, Fault, Module};
use states::Observation;
use std::io;

type Screw = TakeUp<ClockStage>;

type Screws = TakeUp<TakeUp<ClockStage>>;

/// Where the motors of the three drives stand when they are made, and the plays above the second and the third.
#[derive(Clone, Copy)]
pub struct Build {
    pub motors: [i64; 3],
    pub play: u16,
    /// the inner one first
    pub plays: [u16; 2],
}

/// All that is compared after a call.
#[derive(Clone, Copy, PartialEq, Eq, Debug)]
pub struct Answers {
    pub reply: Reply,
    /// none where the axis is not shown
    pub sights: [Option<Sight>; 3],
    pub counts: [Whole; 3],
    pub motors: [Whole; 3],
}

/// The module and the second reckoning, which get the same calls.
#[derive(Drop)]
pub struct Sides<'a> {
    rt: &'a HostRuntime,
    core: Module<ClockStage, Screw, Screws>,
    plant: Plant,
    pub calls: u32,
    pub tally: Tally,
    /// whether they agreed so far
    pub agree: bool,
}

impl<'a> Sides<'a> {
    /// A new module on both sides, with what earlier runs have reached.
    /// None where a drive is refused, or there is no memory.
    pub fn new(rt: &'a HostRuntime, build: Build, tally: Tally) -> Option<Sides<'a>> {
        Some(Sides {
            rt,
            core: Module::new(rt.alloc(), core_drives(build)?).ok()?,
            plant: plain_drives(build)?,
            calls: 0,
            tally,
            agree: true,
        })
    }

    /// Makes a call on both sides, unless they differed before; none where they differ.
    pub fn make(&mut self, call: &Call) -> Option<Answers> {
        if !self.agree {
            return None;
        }
        self.calls = self.calls.saturating_add(1);
        let before = self.plant.courses();
        let core = self.ask_core(call);
        let plain = self.ask_plain(call);
        if core != plain {
            self.agree = false;
            // Where nothing can be printed, the run fails all the same.
            self.tell(call, &core, &plain).ok();
            return None;
        }
        self.tally.count(call, core.reply);
        self.tally.count_courses(before, self.plant.courses());
        Some(core)
    }

    fn tell(&self, call: &Call, core: &Answers, plain: &Answers) -> io::Result<()> {
        let calls = self.calls;
        let shown = Shown(call);
        println!(self.rt; "call {calls}: {shown}\nmodule: {core:?}\nsecond: {plain:?}")
    }

    fn ask_core(&mut self, call: &Call) -> Answers {
        let reply = match self.core.call(*call) {
            Ok(Answer::Done) => Ok(None),
            Ok(Answer::Shown(observation)) => Ok(Some(sight(observation))),
            Err(fault) => Err(Trouble::told(fault)),
        };
        let first = self.core.first();
        let second = self.core.second();
        let third = self.core.third();
        Answers {
            reply,
            sights: [self.sight_of(1), self.sight_of(2), self.sight_of(3)],
            counts: [
                Whole::of(first.drive().count()),
                Whole::of(second.drive().count()),
                Whole::of(third.drive().count()),
            ],
            motors: [
                Whole::of(first.drive().count()),
                Whole::of(second.drive().below().count()),
                Whole::of(third.drive().below().below().count()),
            ],
        }
    }

    fn sight_of(&self, axis: u8) -> Option<Sight> {
        self.core.observe(axis).ok().map(sight)
    }

    fn ask_plain(&mut self, call: &Call) -> Answers {
        let reply = self.plant.call(call);
        let [first, second, third] = &self.plant.axes;
        Answers {
            reply,
            sights: [
                Some(first.sight()),
                Some(second.sight()),
                Some(third.sight()),
            ],
            counts: [first.drive.count, second.drive.count, third.drive.count],
            motors: [
                first.drive.motor(),
                second.drive.motor(),
                third.drive.motor(),
            ],
        }
    }
}

// None where fault 2 refuses a drive.
fn core_drives(build: Build) -> Option<Drives<ClockStage, Screw, Screws>> {
    let [first, second, third] = build.motors;
    Some(Drives {
        first: ClockStage::new(first).ok()?,
        second: screw(second, build.play)?,
        third: screws(third, build.plays)?,
    })
}

fn screw(motor: i64, play: u16) -> Option<Screw> {
    let stage = ClockStage::new(motor).ok()?;
    TakeUp::new(stage, play).ok()
}

fn screws(motor: i64, plays: [u16; 2]) -> Option<Screws> {
    let [inner, outer] = plays;
    TakeUp::new(screw(motor, inner)?, outer).ok()
}

fn plain_drives(build: Build) -> Option<Plant> {
    let [first, second, third] = build.motors;
    Some(Plant::new(
        Stage::new(first, &[])?,
        Stage::new(second, &[build.play])?,
        Stage::new(third, &build.plays)?,
    ))
}

fn sight(observation: Observation<Fault>) -> Sight {
    Sight {
        mode: u8::from(observation.mode),
        auxiliary: observation.auxiliary,
        coordinate: Whole::of(observation.coordinate),
        shift: Whole::of(observation.shift),
        actual: Whole::of(observation.actual),
        rest: Whole::of(observation.rest),
        trouble: observation.fault.map(Trouble::told),
        feedback: observation.feedback,
    }
}
