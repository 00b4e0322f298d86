ghost use Rattle.std.specs.Prelude.{◌≡◌, ℕ, ◌<◌, ◌≤◌, slice_index};
ghost use Rattle.motion.specs.Data.{Frequencies, Ordered};
ghost use Rattle.motion.specs.Ramp.{next_of, after_first};

use crate::machine::STEPS;
use crate::raw::RawData;

// The frequency of the step after one of frequency f.
fn next(raw: &RawData, f: u32) -> u32
    requires fit { Frequencies raw.now }
    requires ordered { Ordered raw.now }
    requires from { raw.now.fs ≤ f }
    requires upto { f ≤ raw.now.fm }
    ensures { result ≡ next_of raw.now.fs raw.now.fm raw.now.increase f }
{
    let h = 20 * u64::from(raw.fm - raw.fs);
    if h == 0 {
        return raw.fm;
    }
    let rise = u64::from(raw.increase) * (h - 19 * u64::from(f - raw.fs)) / h;
    (u64::from(f) + rise).min(u64::from(raw.fm)) as u32
}

// The first steps of the ramp, as many as the longest ramp has; past its end they stay at the maximum frequency.
#[tactic(auto, using(crate::proofs::Rising::steps))]
pub(crate) fn first_steps(raw: &RawData) -> [u32; STEPS]
    requires fit { Frequencies raw.now }
    requires ordered { Ordered raw.now }
    ensures { (k : ℕ) → k < STEPS → slice_index result k ≡ after_first raw.now.fs raw.now.fm raw.now.increase k }
{
    let mut steps = [0; STEPS];
    let mut f = raw.fs;
    for step in &mut steps {
        *step = f;
        f = next(raw, f);
    }
    steps
}
