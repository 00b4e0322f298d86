use crate::data::REACH;
use crate::line::{Word, Words};
use crate::trouble::Trouble;
use crate::whole::{Whole, ZERO};
use units::Measure;

const LONGEST: usize = 80;

pub const MOST_BLOCKS: usize = 64;

/// What the words of a line choose.
#[derive(Clone, Copy)]
pub struct Block {
    pub motion: Option<u8>,
    pub offset: Option<u8>,
    pub way: Option<u8>,
    pub target: Option<Whole>,
    pub feed: Option<Whole>,
    pub auxiliary: Option<u8>,
}

pub const EMPTY: Block = Block {
    motion: None,
    offset: None,
    way: None,
    target: None,
    feed: None,
    auxiliary: None,
};

/// A line of a program that has so many blocks: its block, or none where it is passed over.
pub fn read(line: &[u8], measure: Measure, blocks: usize) -> Result<Option<Block>, Trouble> {
    if line.len() > LONGEST || blocks >= MOST_BLOCKS {
        return Err(Trouble::in_line(31, 0));
    }
    if blocks == 0 && line.first() == Some(&b'%') {
        return Ok(None);
    }
    let words = Words::of(line, measure)?;
    ask_order(words.list())?;
    let mut block = None;
    for word in words.list().iter().flatten() {
        if !in_range(word, measure) {
            return Err(Trouble::in_line(34, word.place));
        }
        let mut chosen = block.unwrap_or(EMPTY);
        chosen.choose(word, measure);
        block = Some(chosen);
    }
    Ok(block)
}

// Question 33: N G X F M, none but G twice, one G of each group.
fn ask_order(words: &[Option<Word>]) -> Result<(), Trouble> {
    let mut rank = 0;
    let mut groups = [false; 4];
    for word in words.iter().flatten() {
        let own = rank_of(word.letter);
        if own < rank || own == rank && word.letter != b'G' {
            return Err(Trouble::in_line(33, word.place));
        }
        rank = own;
        if let (Some(group), b'G') = (group_of(word.number), word.letter) {
            match groups.get_mut(group) {
                Some(seen) if !*seen => *seen = true,
                _ => return Err(Trouble::in_line(33, word.place)),
            }
        }
    }
    Ok(())
}

fn rank_of(letter: u8) -> u8 {
    match letter {
        b'N' => 1,
        b'G' => 2,
        b'X' => 3,
        b'F' => 4,
        _ => 5,
    }
}

fn group_of(number: Whole) -> Option<usize> {
    match number.0 {
        0 | 1 => Some(0),
        53..=57 => Some(1),
        90 | 91 => Some(2),
        _ => None,
    }
}

fn in_range(word: &Word, measure: Measure) -> bool {
    match word.letter {
        b'N' => word.number.within(Whole(1), Whole(9_999)),
        b'G' => group_of(word.number).is_some(),
        b'X' => word.units(measure).size() <= REACH,
        b'F' => word.number.within(Whole(1), Whole(65_000)),
        _ => true,
    }
}

impl Block {
    fn choose(&mut self, word: &Word, measure: Measure) {
        let number = word.number;
        let short = u8::try_from(number.0).ok();
        match (word.letter, group_of(number)) {
            (b'G', Some(0)) => self.motion = short,
            (b'G', Some(1)) => self.offset = short,
            (b'G', Some(_)) => self.way = short,
            (b'X', _) => self.target = Some(word.units(measure)),
            (b'F', _) => self.feed = Some(number),
            (b'M', _) => self.auxiliary = short,
            _ => {}
        }
    }

    pub fn ends(&self) -> bool {
        matches!(self.auxiliary, Some(2 | 30))
    }
}

/// What a program has chosen so far.
#[derive(Clone, Copy)]
pub struct Choices {
    pub motion: u8,
    pub offset: u8,
    pub way: u8,
    /// 0 for none yet
    pub feed: Whole,
}

pub const OPENING: Choices = Choices {
    motion: 0,
    offset: 53,
    way: 90,
    feed: ZERO,
};

impl Choices {
    pub fn with(self, block: &Block) -> Choices {
        Choices {
            motion: block.motion.unwrap_or(self.motion),
            offset: block.offset.unwrap_or(self.offset),
            way: block.way.unwrap_or(self.way),
            feed: block.feed.unwrap_or(self.feed),
        }
    }
}
