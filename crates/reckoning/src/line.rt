use crate::trouble::Trouble;
use crate::whole::{Whole, ZERO};
use units::Measure;

/// A word, read byte by byte.
#[derive(Clone, Copy)]
pub struct Word {
    pub letter: u8,
    /// the byte where it starts
    pub place: usize,
    /// its digits without a sign, as one number
    pub number: Whole,
    signed: bool,
    minus: bool,
    whole: u32,
    point: bool,
    decimals: u32,
    broken: bool,
}

impl Word {
    fn new(letter: u8, place: usize) -> Word {
        Word {
            letter,
            place,
            number: ZERO,
            signed: false,
            minus: false,
            whole: 0,
            point: false,
            decimals: 0,
            broken: false,
        }
    }

    fn take(&mut self, byte: u8) {
        match byte {
            b'.' if !self.point => self.point = true,
            b'+' | b'-' if !self.signed && !self.point && self.whole == 0 => {
                self.signed = true;
                self.minus = byte == b'-';
            }
            b'0'..=b'9' => {
                self.number = self.number * Whole(10) + Whole::of(byte) - Whole(48);
                let digits = if self.point {
                    &mut self.decimals
                } else {
                    &mut self.whole
                };
                *digits = digits.saturating_add(1);
            }
            _ => self.broken = true,
        }
    }

    fn well_formed(&self, measure: Measure) -> bool {
        let plain = !self.signed && !self.point;
        !self.broken
            && match self.letter {
                b'X' => (1..=5).contains(&self.whole) && self.decimals <= places(measure),
                b'N' | b'F' => plain && self.whole >= 1,
                _ => plain && self.whole == 2,
            }
    }

    /// The value in units.
    pub fn units(&self, measure: Measure) -> Whole {
        let mut units = self.number;
        for _ in self.decimals..places(measure) {
            units = units * Whole(10);
        }
        if self.minus { ZERO - units } else { units }
    }
}

fn places(measure: Measure) -> u32 {
    match measure {
        Measure::Inch => 4,
        Measure::Millimetre | Measure::Degree => 3,
    }
}

/// The words of a line, read byte by byte.
#[derive(Drop)]
pub struct Words {
    words: [Option<Word>; 80],
    count: usize,
    open: Option<Word>,
    /// the place of the `(` of a remark not yet ended
    remark: Option<usize>,
    measure: Measure,
}

impl Words {
    /// The words, or 32 with its place.
    pub fn of(line: &[u8], measure: Measure) -> Result<Words, Trouble> {
        let mut words = Words {
            words: [None; 80],
            count: 0,
            open: None,
            remark: None,
            measure,
        };
        for (place, byte) in line.iter().enumerate() {
            words.take(*byte, place)?;
        }
        words.end_word()?;
        match words.remark {
            Some(place) => Err(Trouble::in_line(32, place)),
            None => Ok(words),
        }
    }

    fn take(&mut self, byte: u8, place: usize) -> Result<(), Trouble> {
        if self.remark.is_some() {
            if byte == b')' {
                self.remark = None;
            }
            return Ok(());
        }
        if let (Some(word), b'0'..=b'9' | b'+' | b'-' | b'.') = (&mut self.open, byte) {
            word.take(byte);
            return Ok(());
        }
        self.end_word()?;
        match byte {
            b' ' => {}
            b'(' => self.remark = Some(place),
            b'N' | b'G' | b'X' | b'F' | b'M' => self.open = Some(Word::new(byte, place)),
            _ => return Err(Trouble::in_line(32, place)),
        }
        Ok(())
    }

    fn end_word(&mut self) -> Result<(), Trouble> {
        if let Some(word) = self.open.take() {
            if !word.well_formed(self.measure) {
                return Err(Trouble::in_line(32, word.place));
            }
            if let Some(free) = self.words.get_mut(self.count) {
                *free = Some(word);
            }
            self.count = self.count.saturating_add(1);
        }
        Ok(())
    }

    pub fn list(&self) -> &[Option<Word>] {
        &self.words
    }
}
