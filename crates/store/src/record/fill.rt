ghost use Rattle.std.specs.Prelude.{◌≡◌, ◌<◌, Some};
ghost use Rattle.reader.specs.declared.block.Block.{Block as Instruction};
ghost use Rattle.store.specs.Programs.{begun, read, joined_to, line_reply, block_at};

use crate::fault::StoreFault;
use crate::record::Record;
use reader::{Block, MOST_BLOCKS, read_line};
use std::alloc::{AllocError, Global};
use units::Measure;

impl Record {
    // A free record: the only place where room for blocks is taken.
    pub(crate) fn new(heap: Global) -> Result<Record, AllocError> {
        Ok(Record {
            number: 0,
            measure: Measure::Millimetre,
            blocks: Vec::with_capacity(heap, MOST_BLOCKS)?,
        })
    }

    pub(crate) fn begin(&mut self, number: u8, measure: Measure)
        ensures { self.new ≡ begun number measure }
    {
        self.number = number;
        self.measure = measure;
        self.blocks.clear();
    }

    // A line that is passed over adds nothing; nor does a refused one.
    #[tactic(auto, unfolding(crate::specs::Programs::read))]
    pub(crate) fn add(&mut self, line: &[u8]) -> Result<(), StoreFault>
        ensures value { result ≡ line_reply (read self.old line.now) }
        ensures after { self.new ≡ joined_to (read self.old line.now) self.old }
    {
        if let Some(block) = read_line(line, self.measure, self.blocks.len())? {
            self.blocks.push_reserved(block);
        }
        Ok(())
    }

    pub(crate) fn number(&self) -> u8
        ensures { result ≡ self.now.number }
    {
        self.number
    }

    pub(crate) fn measure(&self) -> Measure
        ensures { result ≡ self.now.measure }
    {
        self.measure
    }

    // The block at an index from 0.
    pub(crate) fn block(&self, index: usize) -> Option<Block>
        ensures value { result ≡ block_at self.now.blocks index }
        ensures within { (b : Instruction) → result ≡ Some b → index < MOST_BLOCKS }
    {
        self.blocks.get(index).copied()
    }
}
