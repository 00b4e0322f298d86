//! What a tick makes of one axis, but for the pulses that its drive is sent.
#![tactic(auto)]

pub mod blocks;
pub mod moving;
