ghost use Rattle.script.specs.Cuts.{Cut};

use crate::mistake::{Field, Mistake};
use std::alloc::{AllocError, Global};
use std::str::from_utf8;

/// What stands before the first mark, and what follows it where there is one.
pub fn cut(text: &[u8], mark: u8) -> (&[u8], Option<&[u8]>)
    ensures { Cut mark text.now result.0.now result.1 }
{
    match text.iter().position(|byte| *byte == mark) {
        Some(i) => (&text[0..i], Some(&text[i + 1..])),
        None => (text, None),
    }
}

/// The lines of a text, their ends left off.
pub fn split_lines<'a>(heap: Global, text: &'a [u8]) -> Result<Vec<&'a [u8]>, AllocError> {
    text.split(|byte| *byte == b'\n').collect(heap)
}

/// The words of a line, parted by single blanks.
#[derive(Clone, Copy)]
pub struct Words<'a> {
    rest: Option<&'a [u8]>,
}

impl<'a> Iterator for Words<'a> {
    type Item = &'a [u8];

    fn next(&mut self) -> Option<&'a [u8]> {
        let (word, after) = cut(self.rest?, b' ');
        self.rest = after;
        Some(word)
    }
}

impl<'a> Words<'a> {
    pub fn new(line: &'a [u8]) -> Words<'a> {
        Words { rest: Some(line) }
    }

    pub fn word(&mut self, field: Field) -> Result<&'a [u8], Mistake> {
        self.next().ok_or(Mistake::Missing(field))
    }

    /// A decimal number that its type can hold, with `-` where it is negative.
    pub fn number<N: TryFrom<i64>>(&mut self, field: Field) -> Result<N, Mistake>
    where
        N::Error: Drop,
    {
        number_in(self.word(field)?).ok_or(Mistake::Expected(field))
    }

    /// The value of a machine datum, whose key comes here.
    pub fn value(&mut self, key: &'static str) -> Result<&'a [u8], Mistake> {
        let field = Field::Datum(key);
        match cut(self.word(field)?, b'=') {
            (name, Some(value)) if name == key.as_bytes() => Ok(value),
            _ => Err(Mistake::Expected(field)),
        }
    }

    /// A machine datum that is a number.
    pub fn datum<N: TryFrom<i64>>(&mut self, key: &'static str) -> Result<N, Mistake>
    where
        N::Error: Drop,
    {
        number_in(self.value(key)?).ok_or(Mistake::Expected(Field::Datum(key)))
    }

    pub fn flag(&mut self, field: Field) -> Result<bool, Mistake> {
        match self.number::<i64>(field)? {
            0 => Ok(false),
            1 => Ok(true),
            _ => Err(Mistake::Expected(field)),
        }
    }

    /// All that follows the blank after the last word, or nothing. The line is then at its end.
    pub fn take_text(&mut self) -> &'a [u8] {
        self.rest.take().unwrap_or(&[])
    }

    pub fn end(&self) -> Result<(), Mistake> {
        match self.rest {
            Some(_) => Err(Mistake::TooManyWords),
            None => Ok(()),
        }
    }
}

fn number_in<N: TryFrom<i64>>(word: &[u8]) -> Option<N>
where
    N::Error: Drop,
{
    decimal(word).and_then(|number| N::try_from(number).ok())
}

fn decimal(word: &[u8]) -> Option<i64> {
    if word.starts_with(b"+") {
        return None;
    }
    from_utf8(word).ok()?.parse::<i64>().ok()
}
