ghost use Rattle.std.specs.Prelude.{◌≡◌};
ghost use Rattle.states.specs.Observation.{shown_by, observed};
ghost use Rattle.states.specs.Entry.{enter_reply, delete_reply};
ghost use Rattle.states.specs.State.{uses};
ghost use Rattle.orders.specs.Orders.{order_reply};
ghost use Rattle.laws.specs.Acts.{enter_axis, delete_axis, order_axis, levels_step};

use crate::{Axis, Levels};
use drives::drive::Drive;
use motion::RawData;
use states::{AxisFault, Observation, Order};
use store::Store;

impl<D: Drive> Axis<D> {
    /// Machine data entry: 3, 4, 5. Entering is a zeroing.
    // Not inlined, since it needs 48 KiB of stack for the ramp, which each call of its caller would prepare.
    #[inline(never)]
    pub fn enter(&mut self, raw: RawData) -> Result<(), AxisFault>
        ensures value { result ≡ enter_reply raw self.old.status }
        ensures after { self.new ≡ enter_axis raw self.old }
    {
        let reading = self.reading();
        self.status.enter(reading, raw)
    }

    /// Machine data deletion: 3, 7.
    pub fn delete(&mut self) -> Result<(), AxisFault>
        ensures value { result ≡ delete_reply self.old.status }
        ensures after { self.new ≡ delete_axis self.old }
    {
        self.status.delete()
    }

    /// An order, with the programs in store. A refusal becomes the axis's fault.
    pub fn order(&mut self, store: &Store, order: Order) -> Result<(), AxisFault>
        ensures value { result ≡ order_reply order store.now self.old.drive self.old.status }
        ensures after { self.new ≡ order_axis order store.now self.old }
    {
        let reading = self.reading();
        orders::order(&mut self.status, reading, store, order)
    }

    /// The limit switches and the drive's readiness; nothing else changes.
    pub fn level(&mut self, levels: Levels)
        ensures { self.new ≡ levels_step levels.switches.begin levels.switches.end levels.ready self.old }
    {
        self.status.switches = levels.switches;
        self.drive.level(levels.ready);
    }

    /// Mode, M number, coordinate, shift, actual value, rest, fault and feedback byte; nothing changes.
    pub fn observe(&self) -> Observation<AxisFault>
        ensures { shown_by result ≡ observed self.now.status }
    {
        self.status.observe()
    }

    /// Whether a program runs or is held on this axis.
    pub fn uses(&self, program: u8) -> bool
        ensures { result ≡ uses program self.now.status.work.phase }
    {
        self.status.work.state.uses(program)
    }
}
