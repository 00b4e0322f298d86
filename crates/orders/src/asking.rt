ghost use Rattle.std.specs.Prelude.{◌≡◌, cond, ◌+ℤ◌, ◌-ℤ◌, Some, Ok, Err};
ghost use Rattle.motion.specs.Places.{rate_by};
ghost use Rattle.motion.specs.Travel.{Going};
ghost use Rattle.states.specs.Asking.{◌asks◌, move_questions, aim_for};
ghost use Rattle.states.specs.View.{status_of, work_of, phase_of};
ghost use Rattle.states.specs.declared.fault.Cause.TheVariants.{NoMachineData};
ghost use Rattle.orders.specs.Modes.{bare, goes_forward};
ghost use Rattle.orders.specs.Orders.{Answers};
ghost use Rattle.orders.specs.Questions.{jog_target, position_target, relative_target, start_questions, resume_questions, shift_questions, mode_questions, standing_questions, resume_plan, mode_plan, bare_plan, standing_plan, verdict_in, verdict};
ghost use Rattle.orders.specs.declared.plan.Plan.TheVariants.{Go, Begin};

use crate::modes::{admits, needs_reference, values_fit};
use crate::plan::{Accepted, Plan};
use states::{AxisView, Cause, Command, Mode, Order, Reading, Record, Span, State, Wish};
use store::Store;

/// An order to an axis whose drive reads so, with the programs in store.
#[derive(Clone, Copy)]
pub struct Request<'a> {
    pub axis: &'a Record,
    pub reading: Reading,
    pub store: &'a Store,
    pub order: Order,
}

impl Request<'_> {
    /// The questions to an order, in their order: the first no gives the cause, else what the order does.
    pub fn answer(&self) -> Result<Accepted, Cause>
        ensures { Answers self.now.order (verdict self.now.order self.now.store.now self.now.reading (status_of self.now.axis.now)) result }
    {
        let mode = Mode::try_from(self.order.mode)?;
        let plan = self.ask(mode)?;
        Ok(Accepted { mode, plan })
    }

    // 9, 10 and 11; a stop is asked no more after 10.
    fn ask(&self, mode: Mode) -> Result<Plan, Cause>
        ensures { result ≡ verdict_in (Some mode) self.now.order self.now.store.now self.now.reading (status_of self.now.axis.now) }
    {
        if !admits(mode, self.order.command) {
            return Err(Cause::NotAdmitted);
        }
        if let State::Braking(_) = self.axis.work.state {
            return Err(Cause::StillBraking);
        }
        if self.order.command == Command::Stop {
            return Ok(Plan::Halt);
        }
        if !self.axis.work.state.stands() {
            return Err(Cause::NotStanding);
        }
        self.ask_standing(mode)
    }

    // 7, 12 and 13, then the mode's own questions.
    fn ask_standing(&self, mode: Mode) -> Result<Plan, Cause>
        ensures { let s = status_of self.now.axis.now in result ≡ (standing_questions mode self.now.order self.now.store.now self.now.reading s.machine s.work asks Ok (standing_plan mode self.now.order self.now.reading s.machine s.work)) }
    {
        let Some(view) = self.axis.view(self.reading) else {
            return ask_bare(mode);
        };
        if needs_reference(mode) && !self.axis.work.referenced {
            return Err(Cause::NotReferenced);
        }
        if !values_fit(mode, self.order) {
            return Err(Cause::ValueOutside);
        }
        let asked = StandingRequest {
            view,
            store: self.store,
            order: self.order,
        };
        asked.ask(mode)
    }
}

// Without machine data.
fn ask_bare(mode: Mode) -> Result<Plan, Cause>
    ensures { result ≡ cond (bare mode) (Ok (bare_plan mode)) (Err NoMachineData) }
{
    match mode {
        Mode::AxisOff => Ok(Plan::OnlyMode),
        Mode::ClearFault => Ok(Plan::OnlyClear),
        _ => Err(Cause::NoMachineData),
    }
}

// An order to an axis that stands and has machine data.
#[derive(Clone, Copy)]
struct StandingRequest<'a> {
    view: AxisView<'a>,
    store: &'a Store,
    order: Order,
}

impl StandingRequest<'_> {
    fn ask(&self, mode: Mode) -> Result<Plan, Cause>
        ensures { (g : Going) → let d = self.now.view.machine.now in let w = work_of g self.now.view.work.now in result ≡ (mode_questions mode self.now.order self.now.store.now self.now.view.reading d w asks Ok (mode_plan mode self.now.order self.now.view.reading d w)) }
    {
        match mode {
            Mode::AxisOff => Ok(Plan::OnlyMode),
            Mode::ClearFault => Ok(Plan::OnlyClear),
            Mode::Reference => Ok(Plan::Zero),
            Mode::Jog(_) => self.go(self.jog()),
            Mode::Position => self.go(self.position()),
            Mode::Relative => self.go(self.relative()),
            Mode::Program(_) if self.order.command == Command::TakeOver => self.ask_resume(),
            Mode::Program(_) => self.ask_start(),
            Mode::OffsetTo => Ok(Plan::NewOffset(ask_shift(self.given())?)),
            Mode::OffsetBy => Ok(Plan::NewOffset(ask_shift(self.added())?)),
            Mode::ClearOffset => Ok(Plan::NewOffset(0)),
            Mode::ToolTo => Ok(Plan::NewTool(ask_shift(self.given())?)),
            Mode::ClearTool => Ok(Plan::NewTool(0)),
        }
    }

    // 18 to 21.
    fn go(&self, wish: Wish) -> Result<Plan, Cause>
        ensures { let v = self.now.view in result ≡ (move_questions v.machine.now wish.rate wish.target v.reading v.work.now.zero v.work.now.referenced asks Ok (Go (aim_for v.machine.now wish.rate wish.target v.reading v.work.now.zero))) }
    {
        Ok(Plan::Go(self.view.ask_move(wish)?))
    }

    // As far as the axis may go.
    fn jog(&self) -> Wish
        ensures { (g : Going) → result ≡ record { target = jog_target self.now.view.machine.now self.now.order (work_of g self.now.view.work.now); rate = rate_by self.now.view.machine.now self.now.order.word } }
    {
        let span = self.view.limits();
        let target = if self.order.command == Command::Forward {
            span.high
        } else {
            span.low
        };
        Wish {
            target: i64::from(target),
            rate: self.rate(),
        }
    }

    fn position(&self) -> Wish
        ensures { (g : Going) → result ≡ record { target = position_target self.now.order (work_of g self.now.view.work.now); rate = rate_by self.now.view.machine.now self.now.order.word } }
    {
        let shift = self.view.work.own_shift();
        Wish {
            target: i64::from(self.order.double) + shift,
            rate: self.rate(),
        }
    }

    fn relative(&self) -> Wish
        ensures { (g : Going) → result ≡ record { target = relative_target self.now.order (work_of g self.now.view.work.now); rate = rate_by self.now.view.machine.now self.now.order.word } }
    {
        Wish {
            target: self.moved(),
            rate: self.rate(),
        }
    }

    // The rate of the speed that the order gives.
    fn rate(&self) -> u64
        ensures { result ≡ rate_by self.now.view.machine.now self.now.order.word }
    {
        self.view.machine.rate_of(self.order.word)
    }

    fn moved(&self) -> i64
        ensures { result ≡ cond (goes_forward self.now.order.command) (self.now.view.work.now.coordinate +ℤ self.now.order.double) (self.now.view.work.now.coordinate -ℤ self.now.order.double) }
    {
        let here = i64::from(self.view.work.coordinate);
        let distance = i64::from(self.order.double);
        if self.order.command == Command::Forward {
            here + distance
        } else {
            here - distance
        }
    }

    fn given(&self) -> i64
        ensures { result ≡ self.now.order.double }
    {
        i64::from(self.order.double)
    }

    fn added(&self) -> i64
        ensures { result ≡ (self.now.view.work.now.offset +ℤ self.now.order.double) }
    {
        i64::from(self.view.work.offset) + i64::from(self.order.double)
    }

    // 14 and 15.
    fn ask_start(&self) -> Result<Plan, Cause>
        ensures { result ≡ (start_questions self.now.view.machine.now self.now.order self.now.store.now asks Ok (Begin self.now.order.byte)) }
    {
        let program = self.order.byte;
        let measure = self.store.measure_of(program).ok_or(Cause::NotStored)?;
        if measure != self.view.machine.values().measure {
            return Err(Cause::OtherMeasure);
        }
        Ok(Plan::Begin(program))
    }

    // 16 and 17, and 21 where a target is unfinished.
    fn ask_resume(&self) -> Result<Plan, Cause>
        ensures { (g : Going) → let v = self.now.view in let p = phase_of g v.work.now.state in result ≡ (resume_questions self.now.store.now v.reading p asks Ok (resume_plan v.machine.now v.reading p v.work.now.zero)) }
    {
        let State::Held(hold) = self.view.work.state else {
            return Err(Cause::NothingHeld);
        };
        if self.store.measure_of(hold.run.program).is_none() {
            return Err(Cause::HeldNotStored);
        }
        let Some(target) = hold.unfinished else {
            return Ok(Plan::Continue);
        };
        self.view.reading.ask_ready()?;
        let rate = hold.run.rate(self.view.machine);
        Ok(Plan::Resume(self.view.aim(target, rate)))
    }
}

// 22, of a value of the shift.
fn ask_shift(units: i64) -> Result<i32, Cause>
    ensures { result ≡ (shift_questions units asks Ok units) }
{
    Span::REACH.within(units).ok_or(Cause::ShiftOutside)
}
