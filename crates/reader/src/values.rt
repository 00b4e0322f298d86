ghost use Rattle.std.specs.Prelude.{◌≡◌};
ghost use Rattle.reader.specs.Words.{onto, preparatory, within, value_of};

use crate::block::{Preparatory, Value};
use crate::number::{units, value_upto};
use crate::part::{Letter, Word};
use units::Measure;

// The value of digits, from 1 to `most`.
fn counted(digits: &[u8], most: u16) -> Option<u16>
    ensures { result ≡ within 1 most (onto 0 digits.now) }
{
    let n = value_upto(0, digits, u32::from(most))?;
    if n == 0 { None } else { Some(n as u16) }
}

impl Word<'_> {
    // What it says as a G word, if that is known.
    fn preparatory(self) -> Option<Preparatory>
        ensures { result ≡ preparatory (onto 0 self.entry.number.now) }
    {
        Preparatory::try_from(value_upto(0, self.number, 99)? as u8).ok()
    }

    // What it says, if its number is in range.
    pub(crate) fn value(self, measure: Measure) -> Option<Value>
        ensures { result ≡ value_of measure self.entry.letter self.entry.number.now }
    {
        match self.letter {
            Letter::N => counted(self.number, 9_999).map(Value::Number),
            Letter::G => self.preparatory().map(Value::Prepared),
            Letter::X => units(self.number, measure).map(Value::Target),
            Letter::F => counted(self.number, 65_000).map(Value::Rate),
            Letter::M => value_upto(0, self.number, 99).map(|m| Value::Auxiliary(m as u8)),
        }
    }
}
