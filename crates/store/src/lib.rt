//! The program store: at most sixteen traverse programs of at most 64 blocks,
//! each entered line by line under a token.
#![tactic(auto)]

pub mod entry;
pub mod fault;
mod record;
pub mod table;

pub use entry::{CloseRefusal, Entry, HandedBack};
pub use fault::StoreFault;
pub use table::Store;
