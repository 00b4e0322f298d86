//! The module: three axes on three drives of any build, one program store, and the calls of its cable.
#![tactic(auto)]

pub mod call;
mod calls;
mod entries;
pub mod fault;
mod made;
mod one_axis;
mod runs;
pub mod three;

pub use call::{Act, Answer, Call};
pub use fault::{Fault, Place};
pub use runs::{Ran, run};
pub use three::{Drives, Module, NotMade};
