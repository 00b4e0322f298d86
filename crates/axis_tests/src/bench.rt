use Act::{Delete, Drop, Enter, Halt, Keep, Levels, Order, Resume, Run, Set, Ticks, To};
use Answer::{At, Done, No, Shows};
use Command::{Start, Stop, TakeOver};
use axis::Axis;
use drives::clock_stage::ClockStage;
use drives::drive::Drive;
use motion::RawData;
use states::{AxisFault, Command, Layer, Observation, Switches};
use std::alloc::Global;
use std::fmt::Debug;
use std::process::Abort;
use store::{Store, StoreFault};
use units::Measure;

#[derive(Clone, Copy)]
pub(crate) enum Act {
    // machine data: fm, units and pulses per turn, low, reference coordinate, measure
    Enter(u32, u32, u32, i32, i32, Measure),
    Delete,
    // mode, command, word, double word
    Order(u8, Command, u16, i32),
    // a start of mode 6 at speed 1800: double word
    To(i32),
    // a start: mode, program
    Run(u8, u8),
    // a start without speed: mode, double word
    Set(u8, i32),
    // a stop and a take-over: mode
    Halt(u8),
    Resume(u8),
    // begin switch, end switch, drive ready
    Levels(bool, bool, bool),
    Ticks(u32),
    // a program is stored, and is deleted: number, measure, lines
    Keep(u8, Measure, &'static [&'static [u8]]),
    Drop(u8),
}

#[derive(Clone, Copy, PartialEq, Eq, Debug)]
pub(crate) enum Answer {
    Done,
    // a fault's number; and its program and block
    No(u8),
    At(u8, u8, u8),
    // done, and then the axis shows: mode, M, coordinate, shift, rest, feedback byte, count of the drive
    Shows(u8, u8, i32, i64, i64, u8, i64),
}

// Acts that are answered alike, and their answer.
pub type Row = (&'static [Act], Answer);

#[derive(Drop)]
pub(crate) struct Bench {
    axis: Axis<ClockStage>,
    store: Store,
}

impl Bench {
    pub(crate) fn new(rt: &impl Abort, heap: Global, count: i64) -> Bench {
        let stage = ClockStage::new(count).expect(rt, "a count between the ends");
        let store = Store::new(heap).expect(rt, "memory for a store");
        Bench {
            axis: Axis::new(stage),
            store,
        }
    }

    // What a mode does not use is ignored: here such values are out of every range.
    fn ask(&mut self, act: Act) -> Result<(), AxisFault> {
        match act {
            Enter(fm, units, pulses, low, reference, measure) => {
                self.axis.enter(RawData {
                    fm,
                    units,
                    pulses,
                    low,
                    reference,
                    measure,
                    ..AXIS_A
                })
            }
            Delete => self.axis.delete(),
            Order(mode, command, word, double) => self.order(mode, command, 0, word, double),
            To(target) => self.order(6, Start, 0, 1_800, target),
            Run(mode, program) => self.order(mode, Start, program, 0, i32::MAX),
            Set(mode, value) => self.order(mode, Start, 0, 0, value),
            Halt(mode) => self.order(mode, Stop, 0, 0, i32::MIN),
            Resume(mode) => self.order(mode, TakeOver, 9, 0, i32::MIN),
            Levels(begin, end, ready) => {
                let switches = Switches { begin, end };
                self.axis.level(axis::Levels { switches, ready });
                Ok(())
            }
            Ticks(many) => self.ticks(many),
            Keep(..) | Drop(_) => Ok(()),
        }
    }

    fn order(
        &mut self,
        mode: u8,
        command: Command,
        byte: u8,
        word: u16,
        double: i32,
    ) -> Result<(), AxisFault> {
        let order = states::Order {
            mode,
            command,
            byte,
            word,
            double,
        };
        self.axis.order(&self.store, order)
    }

    fn ticks(&mut self, many: u32) -> Result<(), AxisFault> {
        for _ in 0..many {
            self.axis.tick(&self.store)?;
        }
        Ok(())
    }

    fn keep(&mut self, act: Act) -> Result<(), StoreFault> {
        match act {
            Keep(number, measure, lines) => {
                self.store.open_number(number, measure)?;
                for line in lines {
                    self.store.add_line(number, line)?;
                }
                self.store.close_number(number)
            }
            Drop(number) => self.store.delete(number),
            _ => Ok(()),
        }
    }

    fn shown(&self) -> Answer {
        let o = self.axis.observe();
        let (mode, m) = (o.mode.into(), o.auxiliary);
        let count = self.axis.drive().count();
        Shows(mode, m, o.coordinate, o.shift, o.rest, o.feedback, count)
    }

    fn seen(&self) -> Seen {
        Seen {
            axis: self.axis.observe(),
            count: self.axis.drive().count(),
        }
    }

    pub(crate) fn act(&mut self, rt: &impl Abort, at: (usize, usize), act: Act, answer: Answer) {
        let before = self.seen();
        same(rt, at, "fault of the store", self.keep(act).err(), None);
        let fault = self.ask(act).err();
        check_answer(rt, at, fault, answer);
        let kept = leaves_all(act, fault);
        let left = left_by(act, fault, before.axis.fault);
        check_left(rt, at, before.left(left), self.seen(), kept);
    }

    pub(crate) fn row(
        &mut self,
        rt: &impl Abort,
        at: (usize, usize),
        acts: &[Act],
        answer: Answer,
    ) {
        for act in acts {
            self.act(rt, at, *act, answer);
        }
        if matches!(answer, Shows(..)) {
            same(rt, at, "what the axis shows", self.shown(), answer);
        }
    }

    fn rows(&mut self, rt: &impl Abort, table: usize, rows: &[Row]) {
        for (row, (acts, answer)) in rows.iter().enumerate() {
            self.row(rt, (table, row), acts, *answer);
        }
    }
}

// What is seen of an axis and of its drive.
#[derive(Clone, Copy)]
struct Seen {
    axis: Observation<AxisFault>,
    count: i64,
}

impl Seen {
    // The same but for the fault.
    fn left(self, fault: Option<AxisFault>) -> Seen {
        let axis = Observation { fault, ..self.axis };
        Seen { axis, ..self }
    }
}

// A failure names what differs, its table and its row.
fn same<T: Copy + PartialEq + Debug>(
    rt: &impl Abort,
    at: (usize, usize),
    what: &str,
    is: T,
    wanted: T,
) {
    assert_eq!(rt; is, wanted, "{what} at {at:?}");
}

fn check_answer(rt: &impl Abort, at: (usize, usize), fault: Option<AxisFault>, answer: Answer) {
    let wanted = match answer {
        Shows(..) => Done,
        answer => answer,
    };
    same(rt, at, "answer", answered(fault, wanted), wanted);
    if let Some(f) = fault {
        same(rt, at, "layer", f.cause.layer(), layer_of(f.cause.number()));
    }
}

// What an act leaves; where it leaves all, nothing but the fault differs.
fn check_left(rt: &impl Abort, at: (usize, usize), left: Seen, after: Seen, all: bool) {
    same(rt, at, "fault", after.axis.fault, left.axis.fault);
    if all {
        same(rt, at, "observation", after.axis, left.axis);
        same(rt, at, "count", after.count, left.count);
    }
    let actual = i64::from(after.axis.coordinate).checked_sub(after.axis.shift);
    same(rt, at, "actual coordinate", Some(after.axis.actual), actual);
}

// The layer of a fault of an axis.
fn layer_of(number: u8) -> Layer {
    match number {
        14 | 17 => Layer::Store,
        21 | 24 => Layer::Drive,
        _ => Layer::Axis,
    }
}

// The answer that a fault is, with its place where such a one is wanted.
fn answered(fault: Option<AxisFault>, wanted: Answer) -> Answer {
    match (fault, wanted) {
        (None, _) => Done,
        (Some(f), At(..)) => At(f.cause.number(), f.program, f.block),
        (Some(f), _) => No(f.cause.number()),
    }
}

// The fault that the axis then has. Calls other than orders and ticks leave the one before.
fn left_by(act: Act, now: Option<AxisFault>, before: Option<AxisFault>) -> Option<AxisFault> {
    match act {
        Ticks(_) => now.or(before),
        Enter(..) | Delete | Levels(..) | Keep(..) | Drop(_) => before,
        _ => now,
    }
}

// Whether an act with this answer leaves all but the fault. 11 also acts as a stop.
fn leaves_all(act: Act, fault: Option<AxisFault>) -> bool {
    match act {
        Levels(..) | Keep(..) | Drop(_) => true,
        Ticks(_) => false,
        _ => fault.is_some_and(|f| f.cause.number() != 11),
    }
}

// What the machine data of an act leave open.
const AXIS_A: RawData = RawData {
    fm: 3_000_000,
    fs: 1_000_000,
    increase: 1_000_000,
    duration: 5,
    patterns: 4,
    units: 4_000,
    pulses: 400,
    low: -1_000,
    high: 200_000,
    reference: 0,
    offsets: [100, 200, -300, 400],
    measure: Measure::Millimetre,
};

// All tables on one axis. A failure names its table and its row, from 0.
pub(crate) fn run(rt: &impl Abort, heap: Global, count: i64, tables: &[&[Row]]) {
    let mut bench = Bench::new(rt, heap, count);
    for (table, rows) in tables.iter().enumerate() {
        bench.rows(rt, table, rows);
    }
}
