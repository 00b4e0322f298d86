ghost use Rattle.std.specs.Prelude.{◌≡◌, ◌&&◌, cond, Some, None, ◌+ℤ◌, int_le, nat_le, IfSome, option_map};
ghost use Rattle.motion.specs.Places.{pulses_by};
ghost use Rattle.states.specs.View.{raw_in};
ghost use Rattle.states.specs.Asking.{lowest_of, highest_of, distance_to, aim_for, way_verdict, move_verdict};

use crate::aim::{Aim, Wish};
use crate::fault::Cause;
use crate::reading::Reading;
use crate::record::Record;
use crate::working::Working;
use motion::{MachineData, REACH};

/// A least and a greatest coordinate.
#[derive(Clone, Copy)]
pub struct Span {
    pub low: i32,
    pub high: i32,
}

impl Span {
    /// All coordinates that machine data and orders may name.
    pub const REACH: Span = Span {
        low: -REACH,
        high: REACH,
    };

    /// A coordinate that lies within.
    pub fn within(self, units: i64) -> Option<i32>
        ensures { result ≡ cond (int_le self.low units && int_le units self.high) (Some units) None }
    {
        let units = i32::try_from(units).ok()?;
        (self.low..=self.high).contains(&units).then_some(units)
    }
}

/// An axis that has machine data, with what its drive reads: all that is asked when a move is to begin.
#[derive(Clone, Copy)]
pub struct AxisView<'a> {
    pub work: &'a Working,
    pub machine: &'a MachineData,
    pub reading: Reading,
}

impl Working {
    /// The limits of a move's target: those of the machine data; without a reference those of a jog.
    pub fn limits(&self, machine: &MachineData) -> Span
        ensures { result ≡ record { low = lowest_of machine.now self.now.referenced; high = highest_of machine.now self.now.referenced } }
    {
        if !self.referenced {
            return Span::REACH;
        }
        let values = machine.values();
        Span {
            low: values.low,
            high: values.high,
        }
    }
}

impl Record {
    /// The axis with what its drive reads; none without machine data.
    pub fn view(&self, reading: Reading) -> Option<AxisView<'_>>
        ensures machine { option_map (λ view. view.machine.now) result ≡ raw_in self.now.machine }
        ensures work { IfSome result (λ view. view.work.now ≡ self.now.work) }
        ensures reading { IfSome result (λ view. view.reading ≡ reading) }
    {
        let mover = self.machine.as_ref()?;
        Some(AxisView {
            work: &self.work,
            machine: mover.machine(),
            reading,
        })
    }
}

impl AxisView<'_> {
    /// 18 to 21: may the axis move so? The first no gives the cause.
    pub fn ask_move(&self, wish: Wish) -> Result<Aim, Cause>
        ensures { result ≡ move_verdict self.now.machine.now wish.rate wish.target self.now.reading self.now.work.now.zero self.now.work.now.referenced }
    {
        if !self.rate_fits(wish) {
            return Err(Cause::RateOutside);
        }
        let target = self
            .limits()
            .within(wish.target)
            .ok_or(Cause::TargetOutside)?;
        self.ask_way(target, wish.rate)
    }

    // 20 and 21, of a target that is within the limits.
    fn ask_way(&self, target: i32, rate: u64) -> Result<Aim, Cause>
        ensures { result ≡ way_verdict self.now.machine.now rate target self.now.reading self.now.work.now.zero }
    {
        if !self.count_fits(target) {
            return Err(Cause::CountOutside);
        }
        self.reading.ask_ready()?;
        Ok(self.aim(target, rate))
    }

    fn rate_fits(&self, wish: Wish) -> bool
        ensures { result ≡ (nat_le 1 wish.rate && nat_le wish.rate self.now.machine.now.fm) }
    {
        (1..=u64::from(self.machine.values().fm)).contains(&wish.rate)
    }

    /// The limits of its targets, as its working values have them.
    pub fn limits(&self) -> Span
        ensures { result ≡ record { low = lowest_of self.now.machine.now self.now.work.now.referenced; high = highest_of self.now.machine.now self.now.work.now.referenced } }
    {
        self.work.limits(self.machine)
    }

    /// A move to a target, with its distance from where the drive is.
    pub fn aim(&self, target: i32, rate: u64) -> Aim
        ensures { result ≡ aim_for self.now.machine.now rate target self.now.reading self.now.work.now.zero }
    {
        Aim {
            target,
            rate,
            distance: self.distance(target),
        }
    }

    fn distance(&self, target: i32) -> i64
        ensures { result ≡ distance_to self.now.machine.now target self.now.reading self.now.work.now.zero }
    {
        self.machine.pulses_of(target) - self.work.from_zero(self.reading)
    }

    // The drive's count at the target.
    fn count_at(&self, target: i32) -> i64
        ensures { result ≡ (self.now.work.now.zero +ℤ pulses_by self.now.machine.now target) }
    {
        let pulses = self.machine.pulses_of(target);
        self.work.zero + pulses
    }

    // That count lies between the drive's ends.
    fn count_fits(&self, target: i32) -> bool
        ensures { result ≡ (int_le self.now.reading.least (self.now.work.now.zero +ℤ pulses_by self.now.machine.now target) && int_le (self.now.work.now.zero +ℤ pulses_by self.now.machine.now target) self.now.reading.greatest) }
    {
        self.reading.spans(self.count_at(target))
    }
}
