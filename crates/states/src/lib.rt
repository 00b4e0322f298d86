//! The state of one axis without its drive: machine data with the move in progress,
//! limit switches and working values, and what is asked of a move before it begins.
#![tactic(auto)]

pub mod aim;
pub mod asking;
pub mod course;
pub mod effects;
pub mod entry;
pub mod fault;
pub mod mode;
pub mod movers;
pub mod observation;
mod observing;
pub mod order;
pub mod places;
pub mod reading;
pub mod record;
pub mod shift;
pub mod state;
pub mod working;

pub use aim::{Aim, Wish};
pub use asking::{AxisView, Span};
pub use fault::{AxisFault, Cause, Layer};
pub use mode::{Jog, Mode, Pace, UnknownMode};
pub use motion::REACH;
pub use observation::Observation;
pub use order::{Command, Order};
pub use reading::Reading;
pub use record::{Record, Switches};
pub use state::{Hold, Journey, Run, State};
pub use working::{NO_AUXILIARY, Working};
