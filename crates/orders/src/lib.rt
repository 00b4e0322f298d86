//! Orders to one axis: the questions in their order, and what an accepted order does.
#![tactic(auto)]

pub mod asking;
pub mod effects;
mod modes;
pub mod ordering;
pub mod plan;

pub use asking::Request;
pub use ordering::{names_program, order};
pub use plan::{Accepted, Plan};
