ghost use Rattle.std.specs.Prelude.{◌≡◌};
ghost use Rattle.store.specs.Entry.{close_answer, abandon_answer};
ghost use Rattle.module.specs.declared.call.Call.TheVariants.{Open, Close, Abandon};
ghost use Rattle.module.specs.Machine.{adding_reply, adding, reply, step};
ghost use Rattle.module.specs.Replies.{opened_reply, reply_of_open, reply_of_close, reply_of_abandon, refusal_in};

use crate::fault::Fault;
use crate::three::Module;
use drives::drive::Drive;
use store::{CloseRefusal, Entry, HandedBack};
use units::Measure;

// An entry by its token, which the host can neither copy nor let go.
impl<X: Drive, Y: Drive, Z: Drive> Module<X, Y, Z> {
    /// Opens the entry of a program and gives its token: 26 to 29.
    pub fn open(&mut self, number: u8, measure: Measure) -> Result<Entry, Fault>
        ensures value { result ≡ opened_reply number self.old }
        ensures reply { reply_of_open result ≡ reply (Open number measure) self.old }
        ensures after { self.new ≡ step (Open number measure) self.old }
    {
        Ok(self.store.open(number, measure)?)
    }

    /// Adds a line to the open entry: 30 to 34.
    pub fn add(&mut self, entry: &Entry, line: &[u8]) -> Result<(), Fault>
        ensures value { result ≡ refusal_in (adding_reply entry.now.number line.now self.old) }
        ensures after { self.new ≡ adding entry.now.number line.now self.old }
    {
        Ok(self.store.add(entry, line)?)
    }

    /// Closes the open entry: 30 hands the token back, 35 ends the entry with its lines.
    pub fn close(&mut self, entry: Entry) -> Result<(), CloseRefusal>
        ensures value { result ≡ close_answer entry self.old.programs }
        ensures reply { reply_of_close result ≡ reply (Close entry.number) self.old }
        ensures after { self.new ≡ step (Close entry.number) self.old }
    {
        self.store.close(entry)
    }

    /// Ends the open entry; its lines are gone. 30 hands the token back.
    pub fn abandon(&mut self, entry: Entry) -> Result<(), HandedBack>
        ensures value { result ≡ abandon_answer entry self.old.programs }
        ensures reply { reply_of_abandon result ≡ reply (Abandon entry.number) self.old }
        ensures after { self.new ≡ step (Abandon entry.number) self.old }
    {
        self.store.abandon(entry)
    }
}
