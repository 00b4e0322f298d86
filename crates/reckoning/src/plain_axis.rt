use crate::block::{Choices, OPENING};
use crate::data::Data;
use crate::plant::Course;
use crate::stage::Stage;
use crate::trouble::{Trouble, require};
use crate::whole::{MILLION, Whole, ZERO};
use motion::RawData;
use units::Measure;

/// Where a move is to end, and its rate.
#[derive(Clone, Copy)]
pub struct Goal {
    pub target: Whole,
    pub rate: Whole,
}

/// A move in progress.
#[derive(Clone, Copy)]
pub struct Travel {
    pub goal: Goal,
    pub start: Whole,
    /// pulses to run, below 0 backward
    pub distance: Whole,
    /// millionths of a pulse left
    pub left: Whole,
    pub step: u32,
    pub last: u32,
    pub braking: bool,
}

/// A program that runs or is held.
#[derive(Clone, Copy)]
pub struct Running {
    pub program: u8,
    /// blocks taken so far, so the number of the last one taken
    pub taken: u8,
    pub choices: Choices,
    /// the M word of the last block taken
    pub end: Option<u8>,
    pub held: bool,
    pub unfinished: Option<Goal>,
}

/// One axis by the rules.
#[derive(Drop)]
pub struct Axis {
    pub number: u8,
    pub drive: Stage,
    pub begin: bool,
    pub end: bool,
    pub data: Option<Data>,
    pub mode: u8,
    pub auxiliary: u8,
    pub coordinate: Whole,
    pub zero: Whole,
    pub offset: Whole,
    pub tool: Whole,
    pub referenced: bool,
    pub in_position: bool,
    pub trouble: Option<Trouble>,
    pub travel: Option<Travel>,
    pub running: Option<Running>,
}

/// What observing shows.
#[derive(Clone, Copy, PartialEq, Eq, Debug)]
pub struct Sight {
    pub mode: u8,
    pub auxiliary: u8,
    pub coordinate: Whole,
    pub shift: Whole,
    pub actual: Whole,
    pub rest: Whole,
    pub trouble: Option<Trouble>,
    pub feedback: u8,
}

impl Axis {
    pub fn new(number: u8, drive: Stage) -> Axis {
        Axis {
            number,
            drive,
            begin: false,
            end: false,
            data: None,
            mode: 4,
            auxiliary: 2,
            coordinate: ZERO,
            zero: ZERO,
            offset: ZERO,
            tool: ZERO,
            referenced: false,
            in_position: false,
            trouble: None,
            travel: None,
            running: None,
        }
    }

    pub fn course(&self) -> Course {
        match self.running {
            None => Course::Idle,
            Some(running) if running.held => Course::Held,
            Some(_) => Course::Runs,
        }
    }

    pub fn stands(&self) -> bool {
        self.travel.is_none() && !matches!(self.course(), Course::Runs)
    }

    pub fn uses(&self, program: u8) -> bool {
        matches!(self.running, Some(running) if running.program == program)
    }

    /// The pulses from zero.
    pub fn pulses(&self) -> Whole {
        self.drive.count - self.zero
    }

    pub fn enter(&mut self, raw: RawData) -> Result<(), u8> {
        require(&[(self.stands(), 3)])?;
        self.data = Some(Data::checked(raw)?);
        self.zero = self.drive.count;
        self.restart();
        Ok(())
    }

    pub fn delete(&mut self) -> Result<(), u8> {
        require(&[(self.stands(), 3), (self.data.is_some(), 7)])?;
        self.data = None;
        self.restart();
        Ok(())
    }

    fn restart(&mut self) {
        self.offset = ZERO;
        self.tool = ZERO;
        self.coordinate = ZERO;
        self.mode = 4;
        self.running = None;
        self.referenced = false;
        self.in_position = false;
    }

    pub fn begin_move(&mut self, goal: Goal) {
        if let Some(data) = self.data {
            let distance = data.pulses(goal.target) - self.pulses();
            self.in_position = false;
            self.travel = Some(Travel {
                goal,
                start: self.coordinate,
                distance,
                left: MILLION * distance.size(),
                step: 0,
                last: data.last_step(goal.rate).unwrap_or(0),
                braking: false,
            });
        }
    }

    /// Questions 18 to 21.
    pub fn ask_goal(&self, goal: Goal, limited: bool) -> Result<(), u8> {
        let data = self.data.ok_or(7)?;
        let inside = goal.target.within(data.low, data.high);
        let count = self.zero + data.pulses(goal.target);
        require(&[
            (goal.rate.within(Whole(1), data.greatest_rate), 18),
            (inside || !limited, 19),
            (self.drive.reaches(count), 20),
            (self.drive.ready, 21),
        ])
    }

    pub fn start(&mut self, program: u8) {
        self.auxiliary = 2;
        self.running = Some(Running {
            program,
            taken: 0,
            choices: OPENING,
            end: None,
            held: false,
            unfinished: None,
        });
    }

    pub fn sight(&self) -> Sight {
        let shift = self.offset + self.tool + self.chosen();
        let rest = match self.travel {
            Some(travel) => travel.goal.target - self.coordinate,
            None => ZERO,
        };
        Sight {
            mode: self.mode,
            auxiliary: if matches!(self.mode, 8 | 9) {
                self.auxiliary
            } else {
                2
            },
            coordinate: self.coordinate,
            shift,
            actual: self.coordinate - shift,
            rest,
            trouble: self.trouble,
            feedback: self.feedback(),
        }
    }

    fn chosen(&self) -> Whole {
        match (self.data, self.running) {
            (Some(data), Some(running)) => data.offset(running.choices.offset),
            _ => ZERO,
        }
    }

    fn measure(&self) -> Option<Measure> {
        Some(self.data?.measure)
    }

    fn feedback(&self) -> u8 {
        let measure = self.measure();
        let bits = [
            (0x01, measure == Some(Measure::Degree)),
            (0x02, measure == Some(Measure::Millimetre)),
            (0x04, self.in_position),
            (0x08, self.referenced),
            (0x20, !self.referenced),
            (0x40, measure.is_none()),
            (0x80, self.stands()),
        ];
        let mut byte = 0u8;
        for (bit, on) in bits {
            if on {
                byte |= bit;
            }
        }
        byte
    }
}
