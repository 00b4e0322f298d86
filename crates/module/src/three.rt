use axis::Axis;
use drives::drive::Drive;
use std::alloc::AllocError;
use std::marker::Model;
use store::Store;

/// The drives of the three axes.
#[derive(Drop)]
pub struct Drives<X, Y, Z> {
    pub first: X,
    pub second: Y,
    pub third: Z,
}

/// Three axes on their drives, and the store. Contracts see the coordinate machine's state.
#[derive(Drop)]
pub struct Module<X: Drive, Y: Drive, Z: Drive> {
    pub(crate) first: Axis<X>,
    pub(crate) second: Axis<Y>,
    pub(crate) third: Axis<Z>,
    pub(crate) store: Store,
}

impl<X: Drive, Y: Drive, Z: Drive> Model for Module<X, Y, Z> {
    ghost use Rattle.module.specs.State.{Machine};

    ghost Value = { Machine };

    ghost view = { λ m. record { first = m.first; second = m.second; third = m.third; programs = m.store } };
}

/// There is no memory for a store; the drives come back as they were.
#[derive(Drop)]
pub struct NotMade<X, Y, Z> {
    pub error: AllocError,
    pub drives: Drives<X, Y, Z>,
}
