ghost use Rattle.std.specs.Prelude.{◌≡◌};
ghost use Rattle.states.specs.Observation.{shown_by, shown_with};

use crate::mode::Mode;

/// What observing answers, with a fault of the kind of whoever answers: an axis's own, or the module's.
/// Coordinates, shift and rest are in units.
#[derive(Clone, Copy, PartialEq, Eq, Debug)]
pub struct Observation<F> {
    pub mode: Mode,
    /// the M number
    pub auxiliary: u8,
    pub coordinate: i32,
    pub shift: i64,
    /// coordinate less shift
    pub actual: i64,
    /// what is left of a move
    pub rest: i64,
    pub fault: Option<F>,
    /// the feedback byte
    pub feedback: u8,
}

impl<F: Copy> Observation<F> {
    /// The same with a fault of another kind.
    pub fn with_fault<G>(self, fault: Option<G>) -> Observation<G>
        ensures { shown_by result ≡ shown_with fault (shown_by self) }
    {
        Observation {
            mode: self.mode,
            auxiliary: self.auxiliary,
            coordinate: self.coordinate,
            shift: self.shift,
            actual: self.actual,
            rest: self.rest,
            fault,
            feedback: self.feedback,
        }
    }
}
