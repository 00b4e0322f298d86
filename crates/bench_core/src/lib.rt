//! The core's work that `bench/run` measures, called from C.
#![tactic(auto)]

use axis::{Axis, Levels};
use drives::clock_stage::ClockStage;
use drives::drive::Drive;
use motion::RawData;
use reader::{Block, LineFault, read_line};
use states::{Command, Order, Switches};
use std::alloc::Global;
use store::Store;
use units::Measure;

/// An axis, and the moves to and fro that it makes.
#[repr(C)]
pub struct Course {
    /// maximum frequency, start and stop frequency, increase
    pub fm: u32,
    pub fs: u32,
    pub increase: u32,
    /// the other end of each move, from 0
    pub far: i32,
    /// per minute
    pub speed: u32,
    /// how many ticks one move has
    pub ticks: u32,
    pub moves: u32,
}

fn machine_data(course: &Course) -> RawData {
    RawData {
        fm: course.fm,
        fs: course.fs,
        increase: course.increase,
        duration: 5,
        patterns: 4,
        units: 400,
        pulses: 400,
        low: -40_000_000,
        high: 40_000_000,
        reference: 0,
        offsets: [0, 0, 0, 0],
        measure: Measure::Millimetre,
    }
}

fn order_of(mode: u8, speed: u32, target: i32) -> Order {
    Order {
        mode,
        command: Command::Start,
        byte: 0,
        word: u16::try_from(speed).unwrap_or(0),
        double: target,
    }
}

// An axis with a reference at 0, on a drive that is ready.
fn referenced(store: &Store, course: &Course) -> Option<Axis<ClockStage>> {
    let mut axis = Axis::new(ClockStage::new(0).ok()?);
    axis.enter(machine_data(course)).ok()?;
    axis.level(Levels {
        switches: Switches::default(),
        ready: true,
    });
    axis.order(store, order_of(5, 0, 0)).ok()?;
    Some(axis)
}

// One value of where the axis is.
fn seen(axis: &Axis<ClockStage>) -> i64 {
    let shown = axis.observe();
    let place = i64::from(shown.coordinate).wrapping_mul(256);
    axis.drive()
        .count()
        .wrapping_mul(31)
        .wrapping_add(place)
        .wrapping_add(i64::from(shown.feedback))
}

fn go(axis: &mut Axis<ClockStage>, store: &Store, order: Order, ticks: u32) -> Option<i64> {
    axis.order(store, order).ok()?;
    for _ in 0..ticks {
        axis.tick(store).ok()?;
    }
    Some(seen(axis))
}

fn moved(heap: Global, course: &Course) -> Option<i64> {
    let store = Store::new(heap).ok()?;
    let mut axis = referenced(&store, course)?;
    let mut sum = 0i64;
    for i in 0..course.moves {
        let target = if i % 2 == 0 { course.far } else { 0 };
        let order = order_of(6, course.speed, target);
        let at = go(&mut axis, &store, order, course.ticks)?;
        sum = sum.wrapping_mul(31).wrapping_add(at);
    }
    Some(sum)
}

/// Makes the moves of a course, and answers one value of where each ended; 0 where one was refused.
#[unsafe(no_mangle)]
pub extern "C" fn core_moves(heap: Global, course: &Course) -> i64 {
    moved(heap, course).unwrap_or(0)
}

// One value of what a block says.
fn said(block: Block) -> i64 {
    let values = [
        block.number.map_or(-1, i64::from),
        block.motion.map_or(-1, |g| i64::from(u8::from(g))),
        block.offset.map_or(-1, |g| i64::from(u8::from(g))),
        block.way.map_or(-1, |g| i64::from(u8::from(g))),
        block.target.map_or(-1, i64::from),
        block.feed.map_or(-1, i64::from),
        block.auxiliary.map_or(-1, i64::from),
    ];
    let mut sum = 0i64;
    for value in values {
        sum = sum.wrapping_mul(31).wrapping_add(value);
    }
    sum
}

fn failed(fault: LineFault) -> i64 {
    let place = i64::try_from(fault.place()).unwrap_or(-1);
    i64::from(fault.number())
        .wrapping_mul(100)
        .wrapping_add(place)
}

/// Reads a program line in millimetres, and answers one value of what it says.
#[unsafe(no_mangle)]
pub extern "C" fn core_line(line: &[u8], blocks: usize) -> i64 {
    match read_line(line, Measure::Millimetre, blocks) {
        Ok(Some(block)) => said(block),
        Ok(None) => 0,
        Err(fault) => failed(fault),
    }
}
