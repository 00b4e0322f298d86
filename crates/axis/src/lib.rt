//! One axis over any drive: machine data, orders, levels, ticks and observation.
#![tactic(auto)]

use drives::drive::Drive;
use states::{Record, Switches};
use std::marker::Model;

mod calls;
mod made;
mod tick;

/// The two limit switches and the drive's readiness, as a host tells them.
#[derive(Clone, Copy, PartialEq, Eq, Default, Debug)]
pub struct Levels {
    pub switches: Switches,
    pub ready: bool,
}

/// One axis on its drive. Contracts see what the drive means and what the record says.
#[derive(Drop)]
pub struct Axis<D: Drive> {
    drive: D,
    status: Record,
}

impl<D: Drive> Model for Axis<D> {
    ghost use Rattle.states.specs.State.{AxisState};
    ghost use Rattle.states.specs.View.{status_of};

    ghost Value = { AxisState };

    ghost view = { λ a. record { drive = D.Drive.meaning a.drive; status = status_of a.status } };
}
