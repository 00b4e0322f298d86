ghost use Rattle.std.specs.Prelude.{◌≡◌};
ghost use Rattle.states.specs.Observation.{shown_by};
ghost use Rattle.module.specs.Machine.{acted, answered, shown_on};
ghost use Rattle.module.specs.Replies.{answer_by};

use crate::call::Act;
use crate::fault::Fault;
use axis::Axis;
use drives::drive::Drive;
use states::{AxisFault, Observation};
use store::Store;

// What an axis does, with the programs in store, and what it shows where it is observed.
pub(crate) fn perform<D: Drive>(
    axis: &mut Axis<D>,
    store: &Store,
    act: Act,
) -> Result<Option<Observation<AxisFault>>, AxisFault>
    ensures value { answer_by result ≡ answered act store.now axis.old }
    ensures after { axis.new ≡ acted act store.now axis.old }
{
    match act {
        Act::Enter(raw) => axis.enter(raw)?,
        Act::Delete => axis.delete()?,
        Act::Order(order) => axis.order(store, order)?,
        Act::Level(levels) => axis.level(levels),
        Act::Tick => axis.tick(store)?,
        Act::Observe => return Ok(Some(axis.observe())),
    }
    Ok(None)
}

// What the axis of a number shows, with the number in the fault.
pub(crate) fn shown_on(axis: u8, observation: Observation<AxisFault>) -> Observation<Fault>
    ensures { shown_by result ≡ shown_on axis (shown_by observation) }
{
    let fault = observation.fault.map(|fault| Fault::from((axis, fault)));
    observation.with_fault(fault)
}
