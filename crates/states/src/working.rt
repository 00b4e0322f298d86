ghost use Rattle.std.specs.Prelude.{◌≤◌, unsigned_abs};

use crate::fault::AxisFault;
use crate::mode::Mode;
use crate::state::State;

/// The M number that observing shows where no block has given one.
pub const NO_AUXILIARY: u8 = 2;

/// The working values of an axis.
#[derive(Clone, Copy)]
pub struct Working {
    pub mode: Mode,
    /// the M number that observing shows
    pub auxiliary: u8,
    pub fault: Option<AxisFault>,
    /// the zero offset Z and the tool value T, units
    pub offset: i32,
    pub tool: i32,
    pub coordinate: i32,
    /// the drive's count at zero
    pub zero: i64,
    pub referenced: bool,
    pub in_position: bool,
    pub state: State,
    // so that no difference of counts can wrap
    ghost near: { unsigned_abs zero ≤ 100000000000000 },
}

impl Working {
    ghost use Rattle.std.specs.Prelude.{◌≡◌};
    ghost use Rattle.motion.specs.Travel.{Going};
    ghost use Rattle.states.specs.Entry.{cleared, new_work};
    ghost use Rattle.states.specs.View.{work_of};

    /// Those of a new axis.
    pub fn new() -> Working
        ensures { (g : Going) → work_of g result ≡ new_work }
    {
        Working {
            mode: Mode::AxisOff,
            auxiliary: NO_AUXILIARY,
            fault: None,
            offset: 0,
            tool: 0,
            coordinate: 0,
            zero: 0,
            referenced: false,
            in_position: false,
            state: State::Standing,
        }
    }

    // All but the fault and the count at zero as on a new axis.
    pub(crate) fn clear(&mut self)
        ensures { (g : Going) → work_of g self.new ≡ cleared self.old.zero (work_of g self.old) }
    {
        let (fault, zero) = (self.fault, self.zero);
        *self = Working::new();
        self.fault = fault;
        self.zero = zero;
    }
}
