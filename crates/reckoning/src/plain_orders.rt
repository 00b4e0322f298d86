use crate::data::{Data, REACH, in_reach};
use crate::plain_axis::{Axis, Goal};
use crate::shelf::Shelf;
use crate::trouble::{Trouble, require};
use crate::whole::{Whole, ZERO};
use states::{Command, Order};

/// What an accepted order is to do.
#[derive(Clone, Copy)]
enum Deed {
    Stop,
    Off,
    ClearFault,
    Reference(Data),
    Move(Goal),
    Start(u8),
    TakeOver,
    Offset(Whole),
    Tool(Whole),
}

fn is_known(mode: u8) -> bool {
    matches!(mode, 1 | 2 | 4..=9 | 12..=17)
}

fn admits(mode: u8, command: Command) -> bool {
    match command {
        Command::Stop => matches!(mode, 1 | 2 | 6..=9),
        Command::Forward | Command::Backward => matches!(mode, 1 | 2 | 7),
        Command::TakeOver => matches!(mode, 8 | 9),
        Command::Start => matches!(mode, 4..=6 | 8 | 9 | 12..=17),
    }
}

impl Axis {
    pub fn order(&mut self, order: Order, shelf: &Shelf) -> Result<(), Trouble> {
        match self.ask(order, shelf) {
            Ok(deed) => {
                self.accept(order.mode, deed);
                Ok(())
            }
            Err(number) => {
                let trouble = self.refusal(order, number);
                if number == 11 {
                    self.stop();
                }
                self.trouble = Some(trouble);
                Err(trouble)
            }
        }
    }

    fn refusal(&self, order: Order, number: u8) -> Trouble {
        match (order.mode, order.command, self.running) {
            (8 | 9, Command::Start, _) => Trouble::at(number, self.number, order.byte, 0),
            (8 | 9, Command::TakeOver, Some(held)) if matches!(number, 17 | 21) => {
                Trouble::at(number, self.number, held.program, held.taken)
            }
            _ => Trouble::at(number, self.number, 0, 0),
        }
    }

    fn ask(&self, order: Order, shelf: &Shelf) -> Result<Deed, u8> {
        let braking = matches!(self.travel, Some(travel) if travel.braking);
        let stop = matches!(order.command, Command::Stop);
        require(&[
            (is_known(order.mode), 8),
            (admits(order.mode, order.command), 9),
            (!braking, 10),
            (stop || self.stands(), 11),
        ])?;
        match order.mode {
            _ if stop => Ok(Deed::Stop),
            4 => Ok(Deed::Off),
            17 => Ok(Deed::ClearFault),
            _ => self.ask_with_data(order, shelf),
        }
    }

    fn ask_with_data(&self, order: Order, shelf: &Shelf) -> Result<Deed, u8> {
        let data = self.data.ok_or(7)?;
        let referenced = self.referenced || !matches!(order.mode, 6..=9);
        require(&[(referenced, 12)])?;
        match (order.mode, order.command) {
            (5, _) => Ok(Deed::Reference(data)),
            (8 | 9, Command::TakeOver) => self.ask_take_over(shelf),
            (8 | 9, _) => ask_start(order.byte, data, shelf),
            (12..=16, _) => self.ask_shift(order),
            _ => self.ask_move(order, data),
        }
    }

    fn ask_take_over(&self, shelf: &Shelf) -> Result<Deed, u8> {
        let held = self.running.ok_or(16)?;
        require(&[
            (shelf.find(held.program).is_some(), 17),
            (held.unfinished.is_none() || self.drive.ready, 21),
        ])?;
        Ok(Deed::TakeOver)
    }

    fn ask_shift(&self, order: Order) -> Result<Deed, u8> {
        let value = Whole::of(order.double);
        let (sum, deed) = match order.mode {
            12 => (value, Deed::Offset(value)),
            13 => (self.offset + value, Deed::Offset(self.offset + value)),
            14 => (ZERO, Deed::Offset(ZERO)),
            15 => (value, Deed::Tool(value)),
            _ => (ZERO, Deed::Tool(ZERO)),
        };
        let may_use = in_reach(order.double) || matches!(order.mode, 14 | 16);
        require(&[(may_use, 13), (sum.size() <= REACH, 22)])?;
        Ok(deed)
    }

    fn ask_move(&self, order: Order, data: Data) -> Result<Deed, u8> {
        let speed = Whole::of(order.word);
        require(&[
            (speed.within(Whole(1), Whole(65_000)), 13),
            (in_reach(order.double) || matches!(order.mode, 1 | 2), 13),
            (order.double >= 0 || order.mode != 7, 13),
        ])?;
        let goal = Goal {
            target: self.target_of(order, data),
            rate: data.rate(speed),
        };
        self.ask_goal(goal, self.referenced)?;
        Ok(Deed::Move(goal))
    }

    fn target_of(&self, order: Order, data: Data) -> Whole {
        let value = Whole::of(order.double);
        let backward = matches!(order.command, Command::Backward);
        match order.mode {
            6 => value + self.offset + self.tool,
            7 if backward => self.coordinate - value,
            7 => self.coordinate + value,
            _ if backward && self.referenced => data.low,
            _ if backward => ZERO - REACH,
            _ if self.referenced => data.high,
            _ => REACH,
        }
    }

    fn accept(&mut self, mode: u8, deed: Deed) {
        if !matches!(deed, Deed::Stop | Deed::TakeOver | Deed::ClearFault) {
            self.running = None;
        }
        match deed {
            Deed::Stop => self.stop(),
            Deed::Off | Deed::ClearFault => {}
            Deed::Reference(data) => self.reference(data),
            Deed::Move(goal) => self.begin_move(goal),
            Deed::Start(program) => self.start(program),
            Deed::TakeOver => self.take_over(),
            Deed::Offset(value) => self.offset = value,
            Deed::Tool(value) => self.tool = value,
        }
        self.trouble = None;
        if !matches!(deed, Deed::Stop | Deed::ClearFault) {
            self.mode = mode;
        }
    }

    fn stop(&mut self) {
        if let Some(travel) = &mut self.travel {
            travel.braking = true;
        } else if let Some(running) = &mut self.running {
            running.held = true;
        }
    }

    fn reference(&mut self, data: Data) {
        self.coordinate = data.reference;
        self.zero = self.drive.count - data.pulses(data.reference);
        self.referenced = true;
        self.in_position = true;
    }

    fn take_over(&mut self) {
        if let Some(mut running) = self.running {
            let unfinished = running.unfinished;
            running.unfinished = None;
            running.held = false;
            self.running = Some(running);
            if let Some(goal) = unfinished {
                self.begin_move(goal);
            }
        }
    }
}

fn ask_start(program: u8, data: Data, shelf: &Shelf) -> Result<Deed, u8> {
    let stored = shelf.find(program).ok_or(14)?;
    require(&[(stored.measure == data.measure, 15)])?;
    Ok(Deed::Start(program))
}
