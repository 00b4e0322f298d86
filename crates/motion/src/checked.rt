ghost use Rattle.std.specs.Prelude.{◌≡◌, ◌&&◌, Decides};
ghost use Rattle.std.specs.Result.{result_err};
ghost use Rattle.motion.specs.Data.{Ordered, Spread, Referenced, Valid};
ghost use Rattle.motion.specs.Questions.{ordered, placed, refusal};
ghost use Rattle.motion.specs.Entry.{Checked, Entered};

use crate::fault::DataFault;
use crate::machine::{MachineData, STEPS};
use crate::ramp::first_steps;
use crate::raw::RawData;

impl RawData {
    // The data agree, as far as is seen without the ramp.
    fn agrees(&self) -> bool
        ensures value { result ≡ (ordered self.now && placed self.now) }
        ensures means { Decides result (Ordered self.now × Spread self.now × Referenced self.now) }
    {
        self.fs <= self.fm
            && self.low < self.high
            && (self.low..=self.high).contains(&self.reference)
    }
}

impl TryFrom<RawData> for MachineData {
    type Error = DataFault;

    ghost try_from_gives = { Entered };

    /// Machine data from what a host sends. The ranges are asked first, then whether the data agree;
    /// the last question, for at most 4,096 steps, is answered by making the ramp.
    fn try_from(raw: RawData) -> Result<MachineData, DataFault>
        ensures value { result_err result ≡ refusal raw }
        ensures says { Checked raw result }
    {
        if !raw.is_in_range() {
            return Err(DataFault::OutOfRange);
        }
        if !raw.agrees() {
            return Err(DataFault::Disagree);
        }
        let table = first_steps(&raw);
        if table[STEPS - 1] != raw.fm {
            return Err(DataFault::Disagree);
        }
        Ok(MachineData { values: raw, table })
    }
}

impl MachineData {
    /// The data as they were sent.
    pub fn values(&self) -> &RawData
        ensures same { result.now ≡ self.now }
        ensures valid { Valid self.now }
    {
        &self.values
    }
}
