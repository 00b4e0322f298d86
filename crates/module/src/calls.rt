ghost use Rattle.std.specs.Prelude.{◌≡◌, ◌||◌, true, false};
ghost use Rattle.module.specs.declared.call.Act.TheVariants.{Enter, Delete, Order as Ordering, Level, Tick, Observe};
ghost use Rattle.module.specs.declared.call.Call.TheVariants.{OnAxis, DeleteProgram};
ghost use Rattle.module.specs.Machine.{reply, step, in_use};
ghost use Rattle.module.specs.Replies.{reply_by, refusal_in, shown_in};
ghost use Rattle.module.specs.Refusals.{Refusals};
ghost use Rattle.module.specs.Promise.{GoesOn};

use crate::call::{Act, Answer, Call};
use crate::fault::Fault;
use crate::one_axis::{perform, shown_on};
use crate::three::Module;
use axis::Levels;
use drives::drive::Drive;
use motion::RawData;
use states::{Observation, Order};
use store::StoreFault;

// Every call has a form of its own, and one by which it comes over the cable.
impl<X: Drive, Y: Drive, Z: Drive> Module<X, Y, Z> {
    /// A call as it comes over the cable. An entry is then named by its number. Whatever calls came before
    /// it, the promise of a run goes on with it, and a refusal does what its number says and nothing else.
    pub fn call(&mut self, call: Call) -> Result<Answer, Fault>
        ensures value { reply_by result ≡ reply call.entry self.old }
        ensures after { self.new ≡ step call.entry self.old }
        ensures promise { GoesOn call.entry (reply_by result) self.old self.new }
        ensures refusals { Refusals }
    {
        self.make(call)
    }

    // What the call says.
    fn make(&mut self, call: Call) -> Result<Answer, Fault>
        ensures value { reply_by result ≡ reply call.entry self.old }
        ensures after { self.new ≡ step call.entry self.old }
    {
        match call {
            Call::OnAxis { axis, act } => return self.on_axis(axis, act),
            Call::Open { number, measure } => self.store.open_number(number, measure)?,
            Call::Add { number, line } => self.store.add_line(number, line)?,
            Call::Close { number } => self.store.close_number(number)?,
            Call::Abandon { number } => self.store.abandon_number(number)?,
            Call::DeleteProgram { number } => self.delete_program(number)?,
        }
        Ok(Answer::Done)
    }

    fn on_axis(&mut self, axis: u8, act: Act) -> Result<Answer, Fault>
        ensures value { reply_by result ≡ reply (OnAxis axis act) self.old }
        ensures after { self.new ≡ step (OnAxis axis act) self.old }
    {
        let answer = match axis {
            1 => perform(&mut self.first, &self.store, act),
            2 => perform(&mut self.second, &self.store, act),
            3 => perform(&mut self.third, &self.store, act),
            _ => return Err(Fault::NoSuchAxis {
                axis,
                program: act.program(),
            }),
        };
        match answer.map_err(|fault| (axis, fault))? {
            None => Ok(Answer::Done),
            Some(observation) => Ok(Answer::Shown(shown_on(axis, observation))),
        }
    }

    /// Machine data entry: 1, 3, 4, 5.
    pub fn enter(&mut self, axis: u8, raw: RawData) -> Result<(), Fault>
        ensures value { result ≡ refusal_in (reply (OnAxis axis (Enter raw)) self.old) }
        ensures after { self.new ≡ step (OnAxis axis (Enter raw)) self.old }
    {
        self.on_axis(axis, Act::Enter(raw))?;
        Ok(())
    }

    /// Machine data deletion: 1, 3, 7.
    pub fn delete(&mut self, axis: u8) -> Result<(), Fault>
        ensures value { result ≡ refusal_in (reply (OnAxis axis Delete) self.old) }
        ensures after { self.new ≡ step (OnAxis axis Delete) self.old }
    {
        self.on_axis(axis, Act::Delete)?;
        Ok(())
    }

    /// An order. A refusal becomes the axis's fault.
    pub fn order(&mut self, axis: u8, order: Order) -> Result<(), Fault>
        ensures value { result ≡ refusal_in (reply (OnAxis axis (Ordering order)) self.old) }
        ensures after { self.new ≡ step (OnAxis axis (Ordering order)) self.old }
    {
        self.on_axis(axis, Act::Order(order))?;
        Ok(())
    }

    /// The two limit switches of an axis and the readiness of its drive.
    pub fn level(&mut self, axis: u8, levels: Levels) -> Result<(), Fault>
        ensures value { result ≡ refusal_in (reply (OnAxis axis (Level levels)) self.old) }
        ensures after { self.new ≡ step (OnAxis axis (Level levels)) self.old }
    {
        self.on_axis(axis, Act::Level(levels))?;
        Ok(())
    }

    /// One millisecond of an axis.
    pub fn tick(&mut self, axis: u8) -> Result<(), Fault>
        ensures value { result ≡ refusal_in (reply (OnAxis axis Tick) self.old) }
        ensures after { self.new ≡ step (OnAxis axis Tick) self.old }
    {
        self.on_axis(axis, Act::Tick)?;
        Ok(())
    }

    /// What an axis shows; nothing changes.
    pub fn observe(&self, axis: u8) -> Result<Observation<Fault>, Fault>
        ensures { shown_in result ≡ reply (OnAxis axis Observe) self.now }
    {
        let observation = match axis {
            1 => self.first.observe(),
            2 => self.second.observe(),
            3 => self.third.observe(),
            _ => return Err(Fault::NoSuchAxis { axis, program: 0 }),
        };
        Ok(shown_on(axis, observation))
    }

    /// Program deletion: 14, 36.
    pub fn delete_program(&mut self, number: u8) -> Result<(), Fault>
        ensures value { result ≡ refusal_in (reply (DeleteProgram number) self.old) }
        ensures after { self.new ≡ step (DeleteProgram number) self.old }
    {
        if self.store.measure_of(number).is_none() {
            return Err(StoreFault::NotStored(number).into());
        }
        if self.uses(number) {
            return Err(Fault::InUse(number));
        }
        self.store.delete(number)?;
        Ok(())
    }

    fn uses(&self, number: u8) -> bool
        ensures { result ≡ in_use number self.now }
    {
        self.first.uses(number) || self.second.uses(number) || self.third.uses(number)
    }
}
