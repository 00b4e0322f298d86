ghost use Rattle.std.specs.Prelude.{◌≡◌};
ghost use Rattle.motion.specs.Travel.{Going};
ghost use Rattle.states.specs.State.{stands};
ghost use Rattle.states.specs.View.{phase_of, status_of};
ghost use Rattle.states.specs.Entry.{standing_reply, enter_step, enter_reply, delete_step, delete_reply, Checked};

use crate::fault::{AxisFault, Cause};
use crate::reading::Reading;
use crate::record::Record;
use crate::state::State;
use motion::{MachineData, Mover, RawData};

impl State {
    /// An axis stands when it has neither a move nor a running program that is not held.
    pub fn stands(&self) -> bool
        ensures { (g : Going) → result ≡ stands (phase_of g self.now) }
    {
        matches!(self, State::Standing | State::Held(_))
    }
}

// Machine data that pass 4 and 5.
#[tactic(auto, unfolding(crate::specs::Entry::data_refusal))]
fn checked(raw: RawData) -> Result<MachineData, Cause>
    ensures { Checked raw result }
{
    Ok(MachineData::try_from(raw)?)
}

impl Record {
    /// Enters machine data where the drive reads so: a zeroing.
    pub fn enter(&mut self, reading: Reading, raw: RawData) -> Result<(), AxisFault>
        ensures value { result ≡ enter_reply raw (status_of self.old) }
        ensures after { status_of self.new ≡ enter_step raw reading (status_of self.old) }
    {
        self.ask_standing()?;
        let machine = checked(raw)?;
        self.machine = Some(Mover::new(machine));
        self.work.zero = reading.count;
        self.work.clear();
        Ok(())
    }

    /// Deletes the machine data.
    pub fn delete(&mut self) -> Result<(), AxisFault>
        ensures value { result ≡ delete_reply (status_of self.old) }
        ensures after { status_of self.new ≡ delete_step (status_of self.old) }
    {
        self.ask_standing()?;
        if self.machine.is_none() {
            return Err(Cause::NoMachineData.into());
        }
        self.machine = None;
        self.work.clear();
        Ok(())
    }

    // 3
    fn ask_standing(&self) -> Result<(), Cause>
        ensures { result ≡ standing_reply (status_of self.now) }
    {
        if self.work.state.stands() {
            Ok(())
        } else {
            Err(Cause::DataWhileBusy)
        }
    }
}
