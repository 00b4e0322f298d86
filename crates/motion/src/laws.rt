// Theorems over the definitions that the contracts of this crate cite. Each function is there for its contract alone.
ghost use Rattle.motion.specs.Laws.{RampRises, RampEnds, LastStep, Drift, Arrives, Held, StaysSafe, Movers, WholeMove, NeverPast, FirstTick, SpeedHeld, Stops};

/// The ramp rises by at least 1 a step until its maximum, and ends there.
pub fn ramp_laws()
    ensures rises { RampRises }
    ensures ends { RampEnds }
    ensures last { LastStep }
{}

/// A move does not drift: coordinate and pulses stay within half a unit or half a pulse.
pub fn drift_laws()
    ensures drift { Drift }
    ensures arrives { Arrives }
    ensures held { Held }
{}

/// What is left of a move always suffices to brake it.
pub fn safety_laws()
    ensures stays { StaysSafe }
    ensures movers { Movers }
{}

/// An undisturbed move sends its whole distance, and no move sends more.
pub fn whole_move_laws()
    ensures whole { WholeMove }
    ensures past { NeverPast }
    ensures first { FirstTick }
    ensures speed { SpeedHeld }
{}

/// A stop at ramp step r stands by the r-th braking tick.
pub fn stop_law()
    ensures { Stops }
{}
