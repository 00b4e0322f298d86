use crate::plain_axis::{Axis, Sight};
use crate::shelf::Shelf;
use crate::stage::Stage;
use crate::trouble::{Trouble, require};
use module::{Act, Call};
use states::{Command, Order};

/// What a call is answered: done, a sight of an axis, or a fault.
pub type Reply = Result<Option<Sight>, Trouble>;

/// Whether an axis has a program.
#[derive(Clone, Copy)]
pub enum Course {
    Idle,
    Runs,
    Held,
}

/// The whole module by the rules.
#[derive(Drop)]
pub struct Plant {
    pub axes: [Axis; 3],
    shelf: Shelf,
}

impl Plant {
    pub fn new(first: Stage, second: Stage, third: Stage) -> Plant {
        Plant {
            axes: [
                Axis::new(1, first),
                Axis::new(2, second),
                Axis::new(3, third),
            ],
            shelf: Shelf::new(),
        }
    }

    pub fn call(&mut self, call: &Call) -> Reply {
        let (program, done) = match *call {
            Call::OnAxis { axis, act } => return self.act(axis, act),
            Call::Add { number, line } => return reply(self.shelf.add(number, line)),
            Call::Open { number, measure } => (number, self.shelf.open(number, measure)),
            Call::Close { number } => (number, self.shelf.close(number)),
            Call::Abandon { number } => (number, self.shelf.abandon(number)),
            Call::DeleteProgram { number } => (number, self.delete_program(number)),
        };
        match done {
            Ok(()) => Ok(None),
            Err(number) => Err(Trouble::of_program(number, program)),
        }
    }

    pub fn courses(&self) -> [Course; 3] {
        let [first, second, third] = &self.axes;
        [first.course(), second.course(), third.course()]
    }

    fn delete_program(&mut self, number: u8) -> Result<(), u8> {
        let [first, second, third] = &self.axes;
        let used = first.uses(number) || second.uses(number) || third.uses(number);
        require(&[(self.shelf.find(number).is_some(), 14), (!used, 36)])?;
        self.shelf.delete(number);
        Ok(())
    }

    fn act(&mut self, number: u8, act: Act) -> Reply {
        let index = usize::from(number).checked_sub(1).unwrap_or(3);
        let Some(axis) = self.axes.get_mut(index) else {
            return Err(Trouble::at(1, number, program_of(act), 0));
        };
        let done = match act {
            Act::Enter(raw) => axis.enter(raw),
            Act::Delete => axis.delete(),
            Act::Order(order) => return reply(axis.order(order, &self.shelf)),
            Act::Tick => return reply(axis.tick(&self.shelf)),
            Act::Observe => return Ok(Some(axis.sight())),
            Act::Level(levels) => {
                axis.begin = levels.switches.begin;
                axis.end = levels.switches.end;
                axis.drive.ready = levels.ready;
                Ok(())
            }
        };
        match done {
            Ok(()) => Ok(None),
            Err(fault) => Err(Trouble::at(fault, number, 0, 0)),
        }
    }
}

fn reply(done: Result<(), Trouble>) -> Reply {
    match done {
        Ok(()) => Ok(None),
        Err(trouble) => Err(trouble),
    }
}

// The program that the place of a refused order names.
fn program_of(act: Act) -> u8 {
    match act {
        Act::Order(
            Order {
                mode: 8 | 9,
                command: Command::Start,
                byte,
                ..
            },
        ) => byte,
        _ => 0,
    }
}
