ghost use Rattle.std.specs.Prelude.{◌≡◌, ◌+◌, ◌≤◌, ◌∷◌, length, ◌≢◌};
ghost use Rattle.std.specs.List.{prefix_len};
ghost use Rattle.std.specs.Result.{result_ok};
ghost use Rattle.reader.specs.Words.{numeric, letter_of, formed};
ghost use Rattle.reader.specs.Lines.{closed_at, Begins, Next};

use crate::block::Unknown;
use crate::fault::{WordCause, WordFault};
use crate::number::{all_digits, take_apart};
use crate::rest::Rest;
use units::Measure;

// The letters of words, in the order in which they may stand.
#[derive(Clone, Copy, PartialEq, Eq, PartialOrd, Ord)]
pub(crate) enum Letter {
    N,
    G,
    X,
    F,
    M,
}

impl TryFrom<u8> for Letter {
    type Error = Unknown;

    ghost try_from_gives = { λ b r. result_ok r ≡ letter_of b };

    fn try_from(b: u8) -> Result<Self, Unknown> {
        match b {
            b'N' => Ok(Letter::N),
            b'G' => Ok(Letter::G),
            b'X' => Ok(Letter::X),
            b'F' => Ok(Letter::F),
            b'M' => Ok(Letter::M),
            _ => Err(Unknown),
        }
    }
}

// A letter, and what stands after it.
#[derive(Clone, Copy)]
pub(crate) struct Word<'a> {
    pub(crate) letter: Letter,
    pub(crate) number: &'a [u8],
}

// A word or a remark of a line, with the byte at which it starts.
#[derive(Clone, Copy)]
pub(crate) enum Part<'a> {
    Word { word: Word<'a>, at: usize },
    Remark { text: &'a [u8], at: usize },
}

impl Word<'_> {
    fn is_well_formed(self, measure: Measure) -> bool
        ensures { result ≡ formed measure self.entry.letter self.entry.number.now }
    {
        match self.letter {
            Letter::N | Letter::F => !self.number.is_empty() && all_digits(self.number),
            Letter::G | Letter::M => self.number.len() == 2 && all_digits(self.number),
            Letter::X => take_apart(self.number).is_some_and(|decimal| decimal.fits(measure)),
        }
    }
}

// How many bytes in front may stand in a word after its letter.
fn number_len(bytes: &[u8]) -> usize
    ensures value { result ≡ prefix_len numeric bytes.now }
    ensures bound { result ≤ length bytes.now }
{
    bytes
        .iter()
        .take_while(|b| b.is_ascii_digit() || matches!(**b, b'+' | b'-' | b'.'))
        .count()
}

// How many bytes a remark has between its marks, where `tail` stands after its `(`.
fn remark_len(tail: &[u8]) -> Option<usize>
    ensures { result ≡ closed_at tail.now }
{
    tail.iter().position(|b| matches!(b, b')'))
}

// The remark whose `(` is the byte at `at`, with `tail` after it.
fn remark_at<'a>(at: usize, tail: Rest<'a>) -> Result<(Part<'a>, Rest<'a>), WordFault>
    requires { tail.at ≡ at + 1 }
    ensures { Begins tail.entry.measure at (40 ∷ tail.entry.bytes.now) result }
{
    let n = remark_len(tail.bytes).ok_or(WordCause::Form.at(at))?;
    let (text, closed) = tail.split_at(n);
    let (_, after) = closed.split_at(1);
    Ok((Part::Remark { text, at }, after))
}

// The word that starts at `at` with the byte `first`, with `tail` after it.
fn word_at<'a>(at: usize, first: u8, tail: Rest<'a>) -> Result<(Part<'a>, Rest<'a>), WordFault>
    requires place { tail.at ≡ at + 1 }
    requires no_blank { first ≢ 32 }
    requires no_remark { first ≢ 40 }
    ensures { Begins tail.entry.measure at (first ∷ tail.entry.bytes.now) result }
{
    let Ok(letter) = Letter::try_from(first) else {
        return Err(WordCause::Form.at(at));
    };
    let (number, after) = tail.split_at(number_len(tail.bytes));
    let word = Word { letter, number };
    if !word.is_well_formed(tail.measure) {
        return Err(WordCause::Form.at(at));
    }
    Ok((Part::Word { word, at }, after))
}

impl<'a> Rest<'a> {
    // The first part, and what is left after it; none where only blanks are left.
    pub(crate) fn next_part(self) -> Option<Result<(Part<'a>, Rest<'a>), WordFault>>
        ensures { Next self.entry result }
    {
        let mut start = self;
        while let Some((first, tail)) = start.split_first() {
            match first {
                b' ' => start = tail,
                b'(' => return Some(remark_at(start.at, tail)),
                _ => return Some(word_at(start.at, first, tail)),
            }
        }
        None
    }
}
