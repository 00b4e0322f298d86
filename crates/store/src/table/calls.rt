ghost use Rattle.std.specs.Prelude.{◌≡◌, ◌<◌, true, None, Ok, length, cond, Err};
ghost use Rattle.store.specs.Entry.{first_no, open_questions, asked, open_done, open_reply, opened, open_one, add_reply, added, close_reply, closed, close_answer, abandon_reply, abandoned, abandon_answer, delete_reply, deleted};
ghost use Rattle.store.specs.declared.fault.StoreFault.TheVariants.{NotOpen};

use crate::entry::{CloseRefusal, Entry, HandedBack};
use crate::fault::StoreFault;
use crate::table::{MOST_PROGRAMS, Store};
use units::Measure;

// Each call on an entry has two forms, by token and by number: a token is spent
// or handed back, a number is neither. The rules are in the calls by number.
impl Store {
    /// Opens the entry of a program and gives its token.
    pub fn open(&mut self, number: u8, measure: Measure) -> Result<Entry, StoreFault>
        ensures value { result ≡ open_reply number self.old }
        ensures after { self.new ≡ opened number measure self.old }
    {
        self.open_number(number, measure)?;
        Ok(Entry { number })
    }

    /// Adds a line to the open entry.
    pub fn add(&mut self, entry: &Entry, line: &[u8]) -> Result<(), StoreFault>
        ensures value { result ≡ add_reply entry.now.number line.now self.old }
        ensures after { self.new ≡ added entry.now.number line.now self.old }
    {
        self.add_line(entry.number, line)
    }

    /// Closes the open entry: its program is stored, or with 35 the entry ends
    /// with its lines.
    pub fn close(&mut self, entry: Entry) -> Result<(), CloseRefusal>
        ensures value { result ≡ close_answer entry self.old }
        ensures after { self.new ≡ closed entry.number self.old }
    {
        match self.close_number(entry.number) {
            Err(StoreFault::NotOpen(_)) => Err(entry.handed_back().into()),
            answer => {
                entry.spend();
                Ok(answer?)
            }
        }
    }

    /// Ends the open entry; its lines are gone.
    pub fn abandon(&mut self, entry: Entry) -> Result<(), HandedBack>
        ensures value { result ≡ abandon_answer entry self.old }
        ensures after { self.new ≡ abandoned entry.number self.old }
    {
        if self.abandon_number(entry.number).is_err() {
            return Err(entry.handed_back());
        }
        entry.spend();
        Ok(())
    }

    /// Opens the entry of a program and gives no token: for a program that names
    /// entries by number, as one that replays calls.
    pub fn open_number(&mut self, number: u8, measure: Measure) -> Result<(), StoreFault>
        ensures value { result ≡ open_done number self.old }
        ensures after { self.new ≡ opened number measure self.old }
    {
        self.ask_opening(number)?;
        self.entry = self.free.pop();
        self.open_entry_mut().begin(number, measure);
        Ok(())
    }

    /// Adds a line to the entry that a number names: for a program that holds no
    /// tokens, as one that replays calls.
    pub fn add_line(&mut self, number: u8, line: &[u8]) -> Result<(), StoreFault>
        ensures value { result ≡ add_reply number line.now self.old }
        ensures after { self.new ≡ added number line.now self.old }
    {
        self.entry_mut(number)?.add(line)
    }

    /// Closes the entry that a number names.
    pub fn close_number(&mut self, number: u8) -> Result<(), StoreFault>
        ensures value { result ≡ close_reply number self.old }
        ensures after { self.new ≡ closed number self.old }
    {
        self.ask_entry(number)?;
        let record = self.entry.take().unwrap();
        if !record.closable() {
            self.free.push_reserved(record);
            return Err(StoreFault::NotClosable(number));
        }
        self.stored.push_reserved(record);
        Ok(())
    }

    /// Abandons the entry that a number names.
    pub fn abandon_number(&mut self, number: u8) -> Result<(), StoreFault>
        ensures value { result ≡ abandon_reply number self.old }
        ensures after { self.new ≡ abandoned number self.old }
    {
        self.ask_entry(number)?;
        let record = self.entry.take().unwrap();
        self.free.push_reserved(record);
        Ok(())
    }

    /// Deletes a stored program. Whether an axis uses it is the caller's
    /// question.
    pub fn delete(&mut self, number: u8) -> Result<(), StoreFault>
        ensures value { result ≡ delete_reply number self.old }
        ensures after { self.new ≡ deleted number self.old }
    {
        let i = self.position(number).ok_or(StoreFault::NotStored(number))?;
        let record = self.stored.remove(i);
        self.free.push_reserved(record);
        Ok(())
    }

    // The questions of an opening, in their order.
    fn ask_opening(&self, number: u8) -> Result<(), StoreFault>
        ensures { result ≡ asked (first_no (open_questions number self.now)) }
    {
        if number == 0 {
            return Err(StoreFault::OutOfRange(number));
        }
        if self.find(number).is_some() {
            return Err(StoreFault::AlreadyStored(number));
        }
        if self.stored.len() >= MOST_PROGRAMS {
            return Err(StoreFault::StoreFull(number));
        }
        if self.entry.is_some() {
            return Err(StoreFault::EntryOpen(number));
        }
        Ok(())
    }
}
