/// What a tick of a move answers.
#[derive(Clone, Copy, PartialEq, Eq, Debug)]
pub struct Passed {
    /// how many pulses to send
    pub pulses: u64,
    /// the axis stands: the move is complete, or braking has stopped it short;
    /// the tick that ends a move may send pulses too
    pub ended: bool,
}

impl Passed {
    /// Nothing to send: the axis stands.
    pub const STANDING: Passed = Passed {
        pulses: 0,
        ended: true,
    };
}
