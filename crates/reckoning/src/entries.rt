use crate::chance::Chance;
use crate::samples::{LINES, MEASURES};
use crate::script::Script;
use module::Call;
use units::Measure;

static MOTIONS: [&'static [u8]; 4] = [b"G00", b"G01", b"G01", b"G01F60"];

static OFFSETS: [&'static [u8]; 5] = [b"G53", b"G54", b"G55", b"G56", b"G57"];

static WAYS: [&'static [u8]; 2] = [b"G90", b"G91"];

static FEEDS: [&'static [u8]; 5] = [b"F60", b"F1", b"F6", b"F1800", b"F65000"];

static AUXILIARIES: [&'static [u8]; 5] = [b"M00", b"M00", b"M05", b"M99", b"M03"];

static ENDS: [&'static [u8]; 2] = [b"M02", b"M30"];

/// A program line put together from words.
#[derive(Drop)]
struct Line {
    bytes: [u8; 120],
    length: usize,
}

impl Line {
    fn add(&mut self, text: &[u8]) {
        for byte in text {
            if let Some(free) = self.bytes.get_mut(self.length) {
                *free = *byte;
                self.length = self.length.saturating_add(1);
            }
        }
    }

    fn text(&self) -> &[u8] {
        self.bytes.get(0..self.length).unwrap_or(b"")
    }

    fn add_one(&mut self, chance: &mut Chance, texts: &[&'static [u8]], rarity: u32) {
        if chance.one_in(rarity) {
            self.add(chance.pick(texts, b""));
            if chance.one_in(2) {
                self.add(chance.pick(&[b" ".as_slice(), b"  ", b"(to) "], b" "));
            }
        }
    }

    fn add_target(&mut self, chance: &mut Chance) {
        self.add(chance.pick(&[b"X".as_slice(), b"X", b"X+", b"X-"], b"X"));
        self.add(&[b'0', b'.', chance.small(b'0', 2)]);
        self.add(&[chance.small(b'0', 10), chance.small(b'0', 10)]);
    }

    // A good line; the last of a program ends it.
    fn good(chance: &mut Chance, last: bool) -> Line {
        let mut line = Line {
            bytes: [0; 120],
            length: 0,
        };
        line.add_one(chance, &[b"N10", b"N0001 ", b"N9999"], 9);
        line.add_one(chance, &WAYS, 4);
        line.add_one(chance, &MOTIONS[0..3], 3);
        line.add_one(chance, &OFFSETS, 4);
        if !chance.one_in(4) {
            line.add_target(chance);
        }
        line.add_one(chance, &FEEDS, 3);
        if last {
            line.add_one(chance, &ENDS, 1);
        } else {
            line.add_one(chance, &AUXILIARIES, 7);
        }
        line
    }
}

impl Script<'_> {
    fn add_line(&mut self, number: u8, last: bool) -> bool {
        if self.chance.one_in(8) {
            let line = self.chance.pick(&LINES, b"");
            self.make(&Call::Add { number, line });
        }
        let line = Line::good(&mut self.chance, last);
        self.make(&Call::Add {
            number,
            line: line.text(),
        })
    }

    /// Enters a program; now and then it is too long, not ended, abandoned or left open.
    pub fn write(&mut self, number: u8) {
        let measure = self.chance.pick(&MEASURES, Measure::Millimetre);
        if !self.make(&Call::Open { number, measure }) && !self.chance.one_in(5) {
            return;
        }
        let most = if self.chance.one_in(25) { 130 } else { 5 };
        for _ in 0..=self.chance.below(most) {
            self.add_line(number, false);
        }
        if !self.chance.one_in(12) {
            self.add_line(number, true);
        }
        match self.chance.below(20) {
            0 => self.make(&Call::Abandon { number }),
            1 => true,
            _ => self.make(&Call::Close { number }),
        };
    }

    /// A call on an entry that is mostly not the open one.
    pub fn stray_entry(&mut self) {
        let number = self.program();
        let line = self.chance.pick(&LINES, b"");
        match self.chance.below(3) {
            0 => self.make(&Call::Abandon { number }),
            1 => self.make(&Call::Close { number }),
            _ => self.make(&Call::Add { number, line }),
        };
    }

    /// Programs of one line until the store is full, and more.
    pub fn fill(&mut self) {
        for number in 1..=18u8 {
            let measure = Measure::Millimetre;
            if self.make(&Call::Open { number, measure }) {
                self.add_line(number, true);
                self.make(&Call::Close { number });
            }
        }
    }
}
