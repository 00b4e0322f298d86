use crate::block::{Block, EMPTY, MOST_BLOCKS, OPENING, read};
use crate::trouble::{Trouble, require};
use units::Measure;

#[derive(Clone, Copy)]
pub struct Program {
    number: u8,
    pub measure: Measure,
    blocks: [Block; MOST_BLOCKS],
    count: usize,
}

impl Program {
    fn block(&self, index: usize) -> Option<Block> {
        if index < self.count {
            self.blocks.get(index).copied()
        } else {
            None
        }
    }

    fn add(&mut self, block: Block) {
        if let Some(free) = self.blocks.get_mut(self.count) {
            *free = block;
        }
        self.count = self.count.saturating_add(1);
    }

    // Question 35.
    fn may_close(&self) -> bool {
        let mut ended = false;
        let mut choices = OPENING;
        for block in self.blocks.iter().take(self.count) {
            choices = choices.with(block);
            let fed = choices.feed.0 > 0 || choices.motion == 0 || block.target.is_none();
            if ended || !fed {
                return false;
            }
            ended = block.ends();
        }
        ended
    }
}

/// The programs stored, and the open entry.
#[derive(Drop)]
pub struct Shelf {
    programs: [Option<Program>; 16],
    entry: Option<Program>,
}

impl Shelf {
    pub fn new() -> Shelf {
        Shelf {
            programs: [None; 16],
            entry: None,
        }
    }

    pub fn find(&self, number: u8) -> Option<&Program> {
        for program in self.programs.iter().flatten() {
            if program.number == number {
                return Some(program);
            }
        }
        None
    }

    /// A block of a stored program, by how many stand before it.
    pub fn block(&self, number: u8, before: u8) -> Option<Block> {
        self.find(number)?.block(usize::from(before))
    }

    pub fn open(&mut self, number: u8, measure: Measure) -> Result<(), u8> {
        let stored = self.programs.iter().flatten().count();
        require(&[
            (number != 0, 26),
            (self.find(number).is_none(), 27),
            (stored < self.programs.len(), 28),
            (self.entry.is_none(), 29),
        ])?;
        self.entry = Some(Program {
            number,
            measure,
            blocks: [EMPTY; MOST_BLOCKS],
            count: 0,
        });
        Ok(())
    }

    pub fn add(&mut self, number: u8, line: &[u8]) -> Result<(), Trouble> {
        match &mut self.entry {
            Some(entry) if entry.number == number => {
                if let Some(block) = read(line, entry.measure, entry.count)? {
                    entry.add(block);
                }
                Ok(())
            }
            _ => Err(Trouble::of_program(30, number)),
        }
    }

    pub fn close(&mut self, number: u8) -> Result<(), u8> {
        let entry = self.take(number)?;
        require(&[(entry.may_close(), 35)])?;
        for place in self.programs.iter_mut() {
            if place.is_none() {
                *place = Some(entry);
                break;
            }
        }
        Ok(())
    }

    pub fn abandon(&mut self, number: u8) -> Result<(), u8> {
        self.take(number)?;
        Ok(())
    }

    fn take(&mut self, number: u8) -> Result<Program, u8> {
        match self.entry {
            Some(entry) if entry.number == number => {
                self.entry = None;
                Ok(entry)
            }
            _ => Err(30),
        }
    }

    pub fn delete(&mut self, number: u8) {
        for place in self.programs.iter_mut() {
            if matches!(place, Some(program) if program.number == number) {
                *place = None;
            }
        }
    }
}
