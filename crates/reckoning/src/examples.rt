use crate::data::Data;
use crate::samples::{AXIS_A, turned};
use crate::sides::{Build, Sides};
use crate::stage::Stage;
use crate::tally::Tally;
use crate::trouble::Trouble;
use axis::Levels;
use drives::clock_stage::ClockStage;
use drives::take_up::TakeUp;
use module::{Act, Call};
use states::{Command, Order, Switches};
use std::io;

/// The coordinate, and the counts of carriage and motor.
type Places = (i128, i128, i128);

/// A step of an example.
#[derive(Clone, Copy)]
enum Step {
    /// the drive ready, the switches free
    Ready,
    /// machine data of axis A with so many units and pulses of a turn
    Enter(u32, u32),
    Reference,
    /// an order of mode 6: speed and coordinate
    To(u16, i32),
    /// an order of mode 6 that 19 refuses
    Beyond(u16, i32),
    Stop,
    /// orders of mode 7 at speed 60, by a distance
    Forward(i32),
    Backward(i32),
    /// so many ticks, and what stands after the last
    Ticks(u32, Places),
    /// what observing shows as feedback
    Feedback(u8),
}

use Step::{Backward, Beyond, Enter, Feedback, Forward, Ready, Reference, Stop, Ticks, To};

/// Steps of one axis of a new module.
#[derive(Clone, Copy)]
struct Example {
    title: &'static str,
    axis: u8,
    steps: &'static [Step],
}

static EXAMPLES: [Example; 11] = [
    Example {
        title: "\n0 to 100",
        axis: 1,
        steps: &[
            Ready,
            Enter(4_000, 400),
            Reference,
            To(1_800, 100),
            Ticks(1, (10, 1, 1)),
            Ticks(1, (30, 3, 3)),
            Ticks(1, (50, 5, 5)),
            Ticks(1, (70, 7, 7)),
            Ticks(1, (80, 8, 8)),
            Ticks(1, (90, 9, 9)),
            Ticks(1, (100, 10, 10)),
        ],
    },
    Example {
        title: "\nstopped",
        axis: 1,
        steps: &[
            Ready,
            Enter(4_000, 400),
            Reference,
            To(1_800, 100),
            Ticks(1, (10, 1, 1)),
            Ticks(1, (30, 3, 3)),
            Ticks(1, (50, 5, 5)),
            Stop,
            Ticks(1, (70, 7, 7)),
            Ticks(1, (80, 8, 8)),
            Ticks(1, (80, 8, 8)),
            Ticks(1, (80, 8, 8)),
        ],
    },
    Example {
        title: "\nthree moves by 5",
        axis: 1,
        steps: &[
            Ready,
            Enter(1_000, 300),
            Reference,
            Forward(5),
            Ticks(13, (5, 2, 2)),
            Forward(5),
            Ticks(13, (10, 3, 3)),
            Forward(5),
            Ticks(13, (15, 5, 5)),
        ],
    },
    Example {
        title: "\npulses of 5, 4, -5",
        axis: 1,
        steps: &[
            Ready,
            Enter(10, 1),
            Reference,
            To(60, 5),
            Ticks(13, (5, 1, 1)),
        ],
    },
    Example {
        title: "",
        axis: 1,
        steps: &[
            Ready,
            Enter(10, 1),
            Reference,
            To(60, 4),
            Ticks(13, (4, 0, 0)),
        ],
    },
    Example {
        title: "",
        axis: 1,
        steps: &[
            Ready,
            Enter(10, 1),
            Reference,
            To(60, -5),
            Ticks(13, (-5, 0, 0)),
        ],
    },
    Example {
        title: "\nunit nearest to 5, -5",
        axis: 1,
        steps: &[
            Ready,
            Enter(3, 10),
            Reference,
            To(54, 30),
            Ticks(3, (2, 5, 5)),
        ],
    },
    Example {
        title: "",
        axis: 1,
        steps: &[
            Ready,
            Enter(3, 10),
            Reference,
            To(54, -30),
            Ticks(3, (-1, -5, -5)),
        ],
    },
    // The second axis has a play of 3 below its carriage.
    Example {
        title: "\nplay 3",
        axis: 2,
        steps: &[
            Ready,
            Enter(1, 1),
            Reference,
            Forward(1),
            Ticks(13, (1, 1, 1)),
            Forward(1),
            Ticks(13, (2, 2, 2)),
            Backward(1),
            Ticks(13, (1, 1, -2)),
            Forward(1),
            Ticks(13, (2, 2, 2)),
        ],
    },
    Example {
        title: "\nfeedback",
        axis: 1,
        steps: &[
            Feedback(0xE0),
            Enter(4_000, 400),
            Feedback(0xA2),
            Reference,
            Feedback(0x8E),
        ],
    },
    Example {
        title: "\nlimit 200001 refused with 19, 200000 accepted",
        axis: 1,
        steps: &[
            Ready,
            Enter(4_000, 400),
            Reference,
            Beyond(1_800, 200_001),
            To(1_800, 200_000),
        ],
    },
];

// Beside a carriage on its motor one with a play of 3.
const BUILD: Build = Build {
    motors: [0, 0, 0],
    play: 3,
    plays: [0, 0],
};

/// One axis of both sides, which works an example step by step.
#[derive(Drop)]
struct Bench<'a> {
    rt: &'a HostRuntime,
    sides: Sides<'a>,
    axis: u8,
}

impl Bench<'_> {
    fn work(&mut self, steps: &[Step]) -> io::Result<bool> {
        let mut holds = true;
        for step in steps {
            holds &= self.step(*step)?;
        }
        Ok(holds)
    }

    // Whether the step comes out as told.
    fn step(&mut self, step: Step) -> io::Result<bool> {
        let act = match step {
            Ready => READY,
            Enter(units, pulses) => Act::Enter(turned(units, pulses)),
            Reference => start(5, 0, 0),
            To(speed, place) => start(6, speed, place),
            Stop => given(6, Command::Stop, 0, 0),
            Forward(distance) => given(7, Command::Forward, 60, distance),
            Backward(distance) => given(7, Command::Backward, 60, distance),
            Beyond(speed, place) => return Ok(self.is_beyond(start(6, speed, place))),
            Ticks(ticks, places) => return self.ticks(ticks, places),
            Feedback(byte) => return self.feedback(byte),
        };
        Ok(self.does(act))
    }

    fn ticks(&mut self, ticks: u32, places: Places) -> io::Result<bool> {
        for _ in 1..ticks {
            if !self.does(Act::Tick) {
                return Ok(false);
            }
        }
        let Some(after) = self.after(Act::Tick) else {
            return Ok(false);
        };
        let (coordinate, carriage, motor) = after;
        print!(self.rt; " {coordinate}/{carriage}/{motor}")?;
        Ok(after == places)
    }

    fn does(&mut self, act: Act) -> bool {
        self.after(act).is_some()
    }

    // Where coordinate, carriage and motor stand after an act; none where it is refused.
    fn after(&mut self, act: Act) -> Option<Places> {
        let axis = self.axis;
        let answers = self.sides.make(&Call::OnAxis { axis, act })?;
        let [Some(first), Some(second), _] = answers.sights else {
            return None;
        };
        let [count, layer, _] = answers.counts;
        let [_, motor, _] = answers.motors;
        match (answers.reply, axis) {
            (Err(_), _) => None,
            (Ok(_), 1) => Some((first.coordinate.0, count.0, count.0)),
            (Ok(_), _) => Some((second.coordinate.0, layer.0, motor.0)),
        }
    }

    fn is_beyond(&mut self, act: Act) -> bool {
        let axis = self.axis;
        let refused = Err(Trouble::at(19, axis, 0, 0));
        let answers = self.sides.make(&Call::OnAxis { axis, act });
        matches!(answers, Some(answers) if answers.reply == refused)
    }

    fn feedback(&mut self, told: u8) -> io::Result<bool> {
        let axis = self.axis;
        let act = Act::Observe;
        let Some(answers) = self.sides.make(&Call::OnAxis { axis, act }) else {
            return Ok(false);
        };
        let Ok(Some(sight)) = answers.reply else {
            return Ok(false);
        };
        print!(self.rt; " {:02X}", sight.feedback)?;
        Ok(sight.feedback == told)
    }
}

const READY: Act = Act::Level(Levels {
    switches: Switches {
        begin: false,
        end: false,
    },
    ready: true,
});

fn start(mode: u8, word: u16, double: i32) -> Act {
    given(mode, Command::Start, word, double)
}

fn given(mode: u8, command: Command, word: u16, double: i32) -> Act {
    Act::Order(Order {
        mode,
        command,
        byte: 0,
        word,
        double,
    })
}

/// Works every example, and tells whether each comes out as told.
pub fn work(rt: &HostRuntime, tally: &mut Tally) -> io::Result<bool> {
    let mut holds = ramp(rt)?;
    for example in EXAMPLES.iter() {
        holds &= work_one(rt, example)?;
    }
    holds &= not_made(rt, tally)?;
    println!(rt; "")?;
    Ok(holds)
}

fn work_one(rt: &HostRuntime, example: &Example) -> io::Result<bool> {
    print!(rt; "{}", example.title)?;
    let Some(sides) = Sides::new(rt, BUILD, Tally::new()) else {
        return Ok(false);
    };
    let axis = example.axis;
    Bench { rt, sides, axis }.work(example.steps)
}

fn ramp(rt: &HostRuntime) -> io::Result<bool> {
    let Ok(data) = Data::checked(AXIS_A) else {
        return Ok(false);
    };
    print!(rt; "ramp")?;
    let mut holds = true;
    for (i, told) in (1u32..).zip(FREQUENCIES.iter()) {
        let (frequency, _) = data.run_up(data.greatest_rate, i);
        print!(rt; " {}", frequency.0)?;
        holds &= frequency.0 == *told;
    }
    Ok(holds)
}

static FREQUENCIES: [i128; 6] = [
    1_000_000, 2_000_000, 2_525_000, 2_800_625, 2_945_328, 3_000_000,
];

const LEAST: i64 = -1_000_000_000_000;

const MOST: i64 = 1_000_000_000_000;

/// The motor of a stage, and the play of a layer above it.
static DRIVES: [(i64, u16); 8] = [
    (LEAST, 0),
    (LEAST, 1),
    (LEAST + 3, 3),
    (LEAST + 2, 3),
    (LEAST - 1, 0),
    (0, 3),
    (MOST, 65_535),
    (MOST + 1, 0),
];

// The drives that fault 2 refuses: a stage outside its ends, a layer without room for its play.
fn not_made(rt: &HostRuntime, tally: &mut Tally) -> io::Result<bool> {
    print!(rt; "\ndrives not made")?;
    let mut holds = true;
    for (motor, play) in DRIVES.iter() {
        let number = making(*motor, *play);
        if number != 0 {
            print!(rt; " {motor}/{play}")?;
            tally.count_fault(number);
        }
        let made = Stage::new(*motor, &[*play]).is_some();
        holds &= number == if made { 0 } else { 2 };
    }
    Ok(holds)
}

// The fault number of a layer over a stage, 0 where it is made.
fn making(motor: i64, play: u16) -> u8 {
    let stage = match ClockStage::new(motor) {
        Ok(stage) => stage,
        Err(fault) => return fault.number(),
    };
    match TakeUp::new(stage, play) {
        Ok(_) => 0,
        Err(refused) => refused.fault.number(),
    }
}
