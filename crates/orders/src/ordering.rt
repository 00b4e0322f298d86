ghost use Rattle.std.specs.Prelude.{◌≡◌};
ghost use Rattle.motion.specs.Travel.{Going};
ghost use Rattle.states.specs.View.{status_of, phase_of};
ghost use Rattle.orders.specs.Orders.{names_program, at_hold, order_fault, order_reply, order_step};

use crate::asking::Request;
use crate::effects::{carry_out, refuse};
use drives::fault::DriveFault;
use states::effects::fault_in;
use states::{AxisFault, Cause, Command, Mode, Order, Reading, Record, State};
use store::Store;

/// An order to an axis whose drive reads so, with the programs in store.
pub fn order(
    axis: &mut Record,
    reading: Reading,
    store: &Store,
    order: Order,
) -> Result<(), AxisFault>
    ensures value { result ≡ order_reply order store.now reading (status_of axis.old) }
    ensures after { status_of axis.new ≡ order_step order store.now reading (status_of axis.old) }
{
    let request = Request {
        axis,
        reading,
        store,
        order,
    };
    match request.answer() {
        Ok(accepted) => {
            carry_out(axis, reading, accepted);
            Ok(())
        }
        Err(cause) => {
            let fault = located(order, &axis.work.state, cause);
            refuse(axis, fault);
            Err(fault)
        }
    }
}

// The fault of a refused order, with its place.
fn located(order: Order, state: &State, cause: Cause) -> AxisFault
    ensures { (g : Going) → result ≡ order_fault order (phase_of g state.now) cause }
{
    if names_program(order) {
        return AxisFault {
            cause,
            program: order.byte,
            block: 0,
        };
    }
    if is_at_hold(order, cause) {
        return fault_in(state.run(), cause);
    }
    cause.into()
}

/// A start of mode 8 or 9 names a program by its byte.
pub fn names_program(order: Order) -> bool
    ensures { result ≡ names_program order }
{
    order.command == Command::Start && matches!(Mode::try_from(order.mode), Ok(Mode::Program(_)))
}

// 17 and 21 at take-over.
fn is_at_hold(order: Order, cause: Cause) -> bool
    ensures { result ≡ at_hold order cause }
{
    order.command == Command::TakeOver
        && matches!(
            cause,
            Cause::HeldNotStored | Cause::OfDrive(DriveFault::NotReadyToMove)
        )
}
