use crate::block::Block;
use crate::data::{Data, whole_pulses};
use crate::plain_axis::{Axis, Goal, Running, Travel};
use crate::shelf::Shelf;
use crate::trouble::{Trouble, require};
use crate::whole::{MILLION, Whole, ZERO};

impl Axis {
    pub fn tick(&mut self, shelf: &Shelf) -> Result<(), Trouble> {
        match (self.travel, self.running, self.data) {
            (Some(travel), _, Some(data)) => self.tick_move(travel, data),
            (None, Some(running), Some(data)) if !running.held => {
                self.tick_program(running, data, shelf)
            }
            _ => Ok(()),
        }
    }

    // The fault of a tick ends the program and becomes the axis's.
    fn fail(&mut self, number: u8, block: u8) -> Trouble {
        let (program, _) = self.last_block();
        let trouble = Trouble::at(number, self.number, program, block);
        self.running = None;
        self.trouble = Some(trouble);
        trouble
    }

    // The program and its block taken last, 0 for none.
    fn last_block(&self) -> (u8, u8) {
        match self.running {
            Some(running) => (running.program, running.taken),
            None => (0, 0),
        }
    }

    fn tick_program(&mut self, running: Running, data: Data, shelf: &Shelf) -> Result<(), Trouble> {
        let Some(block) = shelf.block(running.program, running.taken) else {
            self.running = None;
            return Ok(());
        };
        let taken = running.taken.saturating_add(1);
        let choices = running.choices.with(&block);
        let after = Running {
            taken,
            choices,
            end: block.auxiliary,
            ..running
        };
        let Some(word) = block.target else {
            self.take_block(after, &block);
            self.block_done(after, false);
            return Ok(());
        };
        let goal = self.goal_of(&after, word, data);
        if let Err(number) = self.ask_goal(goal, true) {
            return Err(self.fail(number, taken));
        }
        self.take_block(after, &block);
        self.begin_move(goal);
        Ok(())
    }

    fn take_block(&mut self, after: Running, block: &Block) {
        self.running = Some(after);
        self.auxiliary = block.auxiliary.unwrap_or(self.auxiliary);
    }

    fn goal_of(&self, running: &Running, word: Whole, data: Data) -> Goal {
        let choices = running.choices;
        let target = match choices.way {
            91 => self.coordinate + word,
            _ => word + self.offset + self.tool + data.offset(choices.offset),
        };
        let rate = match choices.motion {
            1 => data.rate(choices.feed),
            _ => data.greatest_rate,
        };
        Goal { target, rate }
    }

    fn block_done(&mut self, running: Running, moved: bool) {
        let held = Running {
            held: true,
            ..running
        };
        self.running = match running.end {
            Some(2 | 30) => None,
            Some(0) => Some(held),
            _ if moved && self.mode == 9 => Some(held),
            _ => Some(running),
        };
    }

    fn tick_move(&mut self, travel: Travel, data: Data) -> Result<(), Trouble> {
        if let Err(number) = self.ask_tick(&travel) {
            self.come_to(&travel, data);
            self.travel = None;
            self.referenced = false;
            let (_, block) = self.last_block();
            return Err(self.fail(number, block));
        }
        if travel.braking {
            self.tick_brake(travel, data);
        } else {
            self.tick_motion(travel, data);
        }
        Ok(())
    }

    fn ask_tick(&self, travel: &Travel) -> Result<(), u8> {
        let ahead = travel.distance > ZERO && self.end || travel.distance < ZERO && self.begin;
        require(&[(self.drive.ready, 24), (!ahead, 23)])
    }

    // The coordinate after a tick that does not complete the move.
    fn come_to(&mut self, travel: &Travel, data: Data) {
        let nearest = data.nearest(self.pulses());
        self.coordinate = nearest.held(travel.start, travel.goal.target);
    }

    fn run_to(&mut self, travel: &Travel, left: Whole) {
        let all = MILLION * travel.distance.size();
        let pulses = whole_pulses(all - left) - whole_pulses(all - travel.left);
        for _ in 0..pulses.0 {
            self.drive.pulse(travel.distance < ZERO);
        }
    }

    fn tick_motion(&mut self, travel: Travel, data: Data) {
        let rate = travel.goal.rate;
        let steps = [
            travel.step.saturating_add(1),
            travel.step,
            travel.step.saturating_sub(1),
        ];
        for step in steps {
            let (frequency, sum) = data.run_up(rate, step);
            if (1..=travel.last).contains(&step) && sum <= travel.left {
                let left = travel.left - frequency;
                self.run_to(&travel, left);
                self.come_to(&travel, data);
                self.travel = Some(Travel {
                    step,
                    left,
                    ..travel
                });
                return;
            }
        }
        self.run_to(&travel, ZERO);
        self.coordinate = travel.goal.target;
        self.in_position = true;
        self.travel = None;
        if let Some(running) = self.running {
            self.block_done(running, true);
        }
    }

    fn tick_brake(&mut self, travel: Travel, data: Data) {
        let step = travel.step.saturating_sub(1);
        if step == 0 {
            self.come_to(&travel, data);
            self.travel = None;
            if let Some(running) = self.running {
                self.running = Some(Running {
                    held: true,
                    unfinished: Some(travel.goal),
                    ..running
                });
            }
            return;
        }
        let (frequency, _) = data.run_up(travel.goal.rate, step);
        let left = travel.left - frequency;
        self.run_to(&travel, left);
        self.come_to(&travel, data);
        self.travel = Some(Travel {
            step,
            left,
            ..travel
        });
    }
}
