use reader::Motion;
use reader::block::{OffsetChoice, Way};

/// A program that runs or is held: what its blocks have chosen so far.
#[derive(Clone, Copy)]
pub struct Run {
    pub program: u8,
    /// how many blocks are taken; the last of them is the block under way
    pub taken: u8,
    pub motion: Motion,
    pub offset: OffsetChoice,
    pub way: Way,
    pub feed: Option<u16>,
    /// the M of the block under way, which acts when the block is done
    pub auxiliary: Option<u8>,
}

/// A move under way. Its ramp step and what is left of it stand beside the machine data.
#[derive(Clone, Copy)]
pub struct Journey {
    pub start: i32,
    pub target: i32,
    /// pulses from where the drive was to those of the target
    pub distance: i64,
    /// the program whose block this is
    pub run: Option<Run>,
}

/// A held program, with the target of its block where that was stopped short.
#[derive(Clone, Copy)]
pub struct Hold {
    pub run: Run,
    pub unfinished: Option<i32>,
}

/// What an axis is doing.
#[derive(Clone, Copy)]
pub enum State {
    Standing,
    Moving(Journey),
    Braking(Journey),
    Held(Hold),
    BetweenBlocks(Run),
}
