ghost use Rattle.std.specs.Prelude.{◌≡◌, Decides};
ghost use Rattle.motion.specs.Data.{Reachable, Frequencies, Signal, Gear, Limits, Offsets, InRange};
ghost use Rattle.motion.specs.Questions.{reachable, frequencies, signal, gear, limits, offsets, in_range};

use crate::raw::RawData;
use units::REACH;

fn is_reachable(c: i32) -> bool
    ensures value { result ≡ reachable c }
    ensures means { Decides result (Reachable c) }
{
    (-REACH..=REACH).contains(&c)
}

impl RawData {
    fn frequencies_fit(&self) -> bool
        ensures value { result ≡ frequencies self.now }
        ensures means { Decides result (Frequencies self.now) }
    {
        (40_000..=100_000_000).contains(&self.fm)
            && (1_000..=10_000_000).contains(&self.fs)
            && (20..=2_599_999).contains(&self.increase)
    }

    fn signal_fits(&self) -> bool
        ensures value { result ≡ signal self.now }
        ensures means { Decides result (Signal self.now) }
    {
        (1..=31).contains(&self.duration) && (4..=40).contains(&self.patterns)
    }

    fn gear_fits(&self) -> bool
        ensures value { result ≡ gear self.now }
        ensures means { Decides result (Gear self.now) }
    {
        (1..=1_000_000).contains(&self.units) && (1..=10_000).contains(&self.pulses)
    }

    fn limits_fit(&self) -> bool
        ensures value { result ≡ limits self.now }
        ensures means { Decides result (Limits self.now) }
    {
        is_reachable(self.low) && is_reachable(self.high) && is_reachable(self.reference)
    }

    fn offsets_fit(&self) -> bool
        ensures value { result ≡ offsets self.now }
        ensures means { Decides result (Offsets self.now) }
    {
        self.offsets.iter().all(|&offset| is_reachable(offset))
    }

    // Each datum is in its range.
    pub(crate) fn is_in_range(&self) -> bool
        ensures value { result ≡ in_range self.now }
        ensures means { Decides result (InRange self.now) }
    {
        self.frequencies_fit()
            && self.signal_fits()
            && self.gear_fits()
            && self.limits_fit()
            && self.offsets_fit()
    }
}
