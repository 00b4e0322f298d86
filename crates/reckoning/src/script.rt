use crate::chance::Chance;
use crate::samples::{
    COMMANDS, FAR, FIRST_ROW, MEASURES, MODES, REFUSED, ROWS, SPEEDS, commands_of, record,
};
use crate::sides::{Answers, Sides};
use axis::Levels;
use module::{Act, Call};
use states::{Command, Order, Switches};
use units::Measure;

/// A long run of calls chosen by chance.
#[derive(Drop)]
pub struct Script<'a> {
    pub chance: Chance,
    pub sides: Sides<'a>,
    pub calls: u32,
}

impl Script<'_> {
    /// Makes so many calls.
    pub fn run(&mut self) {
        for axis in 1..=3 {
            self.set_up(axis);
        }
        for _ in 0..self.calls {
            self.step();
        }
    }

    /// Whether the call is accepted.
    /// After the last call of the run, or a difference, no more are made, and none is accepted.
    pub fn make(&mut self, call: &Call) -> bool {
        if self.sides.calls >= self.calls {
            return false;
        }
        matches!(self.sides.make(call), Some(Answers { reply: Ok(_), .. }))
    }

    fn act(&mut self, axis: u8, act: Act) -> bool {
        self.make(&Call::OnAxis { axis, act })
    }

    fn step(&mut self) {
        let axis = self.axis();
        match self.chance.below(200) {
            0..=29 => self.go_on(axis, 8),
            30..=119 => self.order(axis),
            120..=134 => self.levels(axis),
            135..=141 => self.set_up(axis),
            142..=153 => self.call_of_axis(axis),
            154..=159 => {
                let number = self.program();
                self.make(&Call::DeleteProgram { number });
            }
            160..=163 => self.stray_entry(),
            164 => self.fill(),
            165..=179 => {
                let number = self.program();
                self.write(number);
                self.start(axis, number)
            }
            _ => {
                let number = self.program();
                self.start(axis, number)
            }
        }
    }

    fn axis(&mut self) -> u8 {
        if self.chance.one_in(40) {
            self.chance.pick(&[0, 4, 255], 4)
        } else {
            self.chance.small(1, 3)
        }
    }

    pub fn program(&mut self) -> u8 {
        if self.chance.one_in(3) {
            self.chance.small(0, 22)
        } else {
            self.chance.small(1, 4)
        }
    }

    fn call_of_axis(&mut self, axis: u8) {
        let row = self.chance.pick(&REFUSED, FIRST_ROW);
        let act = match self.chance.below(12) {
            0 => Act::Delete,
            1..=3 => Act::Enter(record(row, Measure::Inch)),
            _ => Act::Observe,
        };
        self.act(axis, act);
    }

    // Ticks, and now and then what may come between them.
    fn go_on(&mut self, axis: u8, most: u32) {
        for _ in 0..=self.chance.below(most) {
            match self.chance.below(50) {
                0 => self.levels(axis),
                1 | 2 => {
                    let order = self.of_kind(8, Command::Stop);
                    self.act(axis, Act::Order(order));
                }
                3 => self.set_up(axis),
                4 | 5 => {
                    let order = self.any_order();
                    self.act(axis, Act::Order(order));
                }
                _ => {
                    self.act(axis, Act::Tick);
                }
            }
        }
    }

    fn order(&mut self, axis: u8) {
        let order = self.any_order();
        if self.act(axis, Act::Order(order)) && !self.chance.one_in(4) {
            self.go_on(axis, 9);
        }
    }

    // A program on an axis, held, stopped and taken over on its way.
    fn start(&mut self, axis: u8, byte: u8) {
        let mode = self.chance.small(8, 2);
        let start = Order {
            byte,
            ..self.of_kind(mode, Command::Start)
        };
        if !self.act(axis, Act::Order(start)) {
            return;
        }
        for _ in 0..=self.chance.below(6) {
            self.go_on(axis, 12);
            let mode = self.chance.small(8, 2);
            let on = self.of_kind(mode, Command::TakeOver);
            self.act(axis, Act::Order(on));
        }
    }

    fn any_order(&mut self) -> Order {
        let mut mode = self.chance.pick(&MODES, 4);
        let mut command = self.chance.pick(commands_of(mode), Command::Start);
        if self.chance.one_in(12) {
            mode = self.chance.small(0, 20);
            command = self.chance.pick(&COMMANDS, Command::Start);
        }
        self.of_kind(mode, command)
    }

    fn of_kind(&mut self, mode: u8, command: Command) -> Order {
        let rarity = if matches!(mode, 12..=15) { 3 } else { 7 };
        Order {
            mode,
            command,
            byte: self.program(),
            word: self.chance.pick(&SPEEDS, 60),
            double: self.double(rarity),
        }
    }

    fn double(&mut self, rarity: u32) -> i32 {
        if self.chance.one_in(rarity) {
            return self.chance.pick(&FAR, 0);
        }
        let size = i32::try_from(self.chance.below(120)).unwrap_or(0);
        if self.chance.one_in(4) {
            0i32.saturating_sub(size)
        } else {
            size
        }
    }

    fn levels(&mut self, axis: u8) {
        let switches = Switches {
            begin: self.chance.one_in(4),
            end: self.chance.one_in(4),
        };
        let ready = !self.chance.one_in(3);
        self.act(axis, Act::Level(Levels { switches, ready }));
        for _ in 0..self.chance.below(3) {
            let order = self.any_order();
            self.act(axis, Act::Order(order));
            self.act(axis, Act::Tick);
        }
        self.make_ready(axis)
    }

    fn make_ready(&mut self, axis: u8) {
        if !self.chance.one_in(5) {
            let switches = Switches::default();
            let ready = true;
            self.act(axis, Act::Level(Levels { switches, ready }));
        }
    }

    // Machine data, and mostly a ready drive and a reference.
    fn set_up(&mut self, axis: u8) {
        let row = self.chance.pick(&ROWS, FIRST_ROW);
        let measure = self.chance.pick(&MEASURES, Measure::Millimetre);
        self.act(axis, Act::Enter(record(row, measure)));
        self.make_ready(axis);
        if !self.chance.one_in(5) {
            let reference = self.of_kind(5, Command::Start);
            self.act(axis, Act::Order(reference));
        }
    }
}
