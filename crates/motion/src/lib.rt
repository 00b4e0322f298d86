//! The arithmetic of one positioning axis: machine data, ramp, pulses of a coordinate, a move's tick.
//! Everything here is a function of numbers; no drive is known.
#![tactic(auto)]

mod checked;
pub mod fault;
pub mod laws;
pub mod machine;
pub mod mover;
pub mod passed;
mod places;
mod ramp;
mod ranges;
pub mod raw;
mod travel;

pub use fault::DataFault;
pub use machine::MachineData;
pub use mover::Mover;
pub use passed::Passed;
pub use raw::RawData;
pub use units::REACH;
