ghost use Rattle.std.specs.Prelude.{◌≡◌, ◌<◌, Some, Ok, Err, cond};
ghost use Rattle.std.specs.Option.{IsSome, option_copied};
ghost use Rattle.std.specs.Borrow.{sem};
ghost use Rattle.reader.specs.declared.block.Block.{Block as Instruction};
ghost use Rattle.store.specs.declared.fault.StoreFault.TheVariants.{NotOpen};
ghost use Rattle.store.specs.Programs.{found, Placed, measure_in, block_in};
ghost use Rattle.store.specs.Entry.{open_one, entry_of};
ghost use Rattle.store.specs.Lending.{lent_now, LendsRecord, LendsEntry};

use crate::fault::StoreFault;
use crate::record::Record;
use crate::table::Store;
use reader::Block;
use units::Measure;

impl Store {
    /// The measure of a stored program.
    pub fn measure_of(&self, number: u8) -> Option<Measure>
        ensures { result ≡ measure_in (found number self.now.stored) }
    {
        Some(self.find(number)?.measure())
    }

    /// The block of a stored program at an index from 0.
    pub fn block(&self, number: u8, index: usize) -> Option<Block>
        ensures value { result ≡ block_in (found number self.now.stored) index }
        ensures within { (b : Instruction) → result ≡ Some b → index < 64 }
    {
        self.find(number)?.block(index)
    }

    // The record of a stored program.
    pub(super) fn find(&self, number: u8) -> Option<&Record>
        ensures { option_copied result ≡ found number self.now.stored }
    {
        self.stored.get(self.position(number)?)
    }

    // Where the record of a stored program stands.
    pub(super) fn position(&self, number: u8) -> Option<usize>
        ensures { Placed number self.now.stored result }
    {
        self.stored
            .iter()
            .position(|record| record.number() == number)
    }

    // The question of 30: whether the entry that a number names is the open one.
    pub(super) fn ask_entry(&self, number: u8) -> Result<(), StoreFault>
        ensures { result ≡ cond (open_one number self.now.entry) (Ok tt) (Err (NotOpen number)) }
    {
        match &self.entry {
            Some(record) if record.number() == number => Ok(()),
            _ => Err(StoreFault::NotOpen(number)),
        }
    }

    // The record of the entry that a number names, lent to be changed, if that is the open one; else 30.
    pub(super) fn entry_mut(&mut self, number: u8) -> Result<&mut Record, StoreFault>
        ensures value { lent_now result ≡ entry_of number self.old.entry }
        ensures* writes_back { sem 𝓛 (LendsEntry self.entry result) }
    {
        self.ask_entry(number)?;
        Ok(self.open_entry_mut())
    }

    // The record of the open entry, lent to be changed.
    pub(super) fn open_entry_mut(&mut self) -> &mut Record
        requires { IsSome self.old.entry }
        ensures value { Some result.now ≡ self.old.entry }
        ensures* writes_back { sem 𝓛 (LendsRecord self.entry result) }
    {
        self.entry.as_mut().unwrap()
    }
}
