//! Reading a script of calls: its lines, the drives that it asks for, and what can be wrong with a line.
#![tactic(auto)]

pub mod build;
pub mod line;
pub mod mistake;
pub mod plan;
pub mod words;

pub use build::Build;
pub use line::{Line, read_at, read_line};
pub use mistake::{Field, Mistake, MistakeAt};
pub use plan::Plan;
pub use words::split_lines;
