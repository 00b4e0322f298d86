ghost use Rattle.std.specs.Prelude.{◌≡◌};
ghost use Rattle.reader.specs.Lines.{shown};
ghost use Rattle.reader.specs.Summaries.{bars, repeats, added, answered};

use crate::block::{Block, Value};
use crate::fault::{WordCause, WordFault};
use crate::part::{Letter, Part};
use units::Measure;

// What the words of a line so far come to.
#[derive(Clone, Copy, Default)]
pub(crate) struct Summary {
    // the letter of the last word
    last: Option<Letter>,
    // where the first word starts that may not stand after those before it
    misplaced: Option<usize>,
    // where the first word starts that is out of range
    outside: Option<usize>,
    // what the words in range say
    block: Option<Block>,
}

impl Summary {
    // One part more; a remark says nothing.
    pub(crate) fn add(&mut self, part: Part, measure: Measure)
        ensures { self.new ≡ added measure (shown part.entry) self.old }
    {
        let Part::Word { word, at } = part else {
            return;
        };
        let value = word.value(measure);
        if self.bars(word.letter, value) {
            self.misplaced = self.misplaced.or(Some(at));
        }
        self.last = Some(word.letter);
        match value {
            Some(value) => self.block = Some(self.block.unwrap_or_default().with(value)),
            None => self.outside = self.outside.or(Some(at)),
        }
    }

    // Whether a word of that letter and value may not stand after the words so far, where these are in order.
    fn bars(&self, letter: Letter, value: Option<Value>) -> bool
        ensures { result ≡ bars self.now letter value }
    {
        match letter {
            Letter::G => self.last.is_some_and(|last| last > letter) || self.has_place_of(value),
            _ => self.last.is_some_and(|last| last >= letter),
        }
    }

    // Whether a word has said a value in the place of this one.
    fn has_place_of(&self, value: Option<Value>) -> bool
        ensures { result ≡ repeats self.now.block value }
    {
        match (&self.block, value) {
            (Some(block), Some(value)) => block.has_place_of(value),
            _ => false,
        }
    }

    // What the line gives, if it has no other part.
    pub(crate) fn answer(self) -> Result<Option<Block>, WordFault>
        ensures { result ≡ answered self }
    {
        match (self.misplaced, self.outside) {
            (Some(at), _) => Err(WordCause::Order.at(at)),
            (None, Some(at)) => Err(WordCause::Range.at(at)),
            (None, None) => Ok(self.block),
        }
    }
}
