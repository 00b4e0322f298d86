//! Drives: what takes the pulses of one axis.
//!
//! A drive means four things: its count, the least and the greatest count, and
//! whether it is ready. `Drive` is the interface, `ClockStage` the stage at the
//! bottom, `TakeUp` a layer that takes up the play of a screw over any drive.
#![tactic(auto)]

pub mod clock_stage;
pub mod direction;
pub mod drive;
pub mod fault;
pub mod replay;
pub mod send;
pub mod take_up;
