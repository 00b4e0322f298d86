use crate::whole::{Whole, ZERO};

const FARTHEST: Whole = Whole(1_000_000_000_000);

/// A drive by its meaning. All flanks go with the last pulse, so the play of all layers is taken up together.
#[derive(Drop)]
pub struct Stage {
    pub count: Whole,
    least: Whole,
    pub ready: bool,
    play: Whole,
    backward: bool,
}

impl Stage {
    /// A drive with its motor at this count, below one layer for each play, the innermost first.
    /// None where fault 2 refuses one of them.
    pub fn new(motor: i64, plays: &[u16]) -> Option<Stage> {
        let count = Whole::of(motor);
        let mut least = ZERO - FARTHEST;
        if !count.within(least, FARTHEST) {
            return None;
        }
        for play in plays {
            least = least + Whole::of(*play);
            if count < least {
                return None;
            }
        }
        Some(Stage {
            count,
            least,
            ready: false,
            play: least + FARTHEST,
            backward: false,
        })
    }

    pub fn reaches(&self, count: Whole) -> bool {
        count.within(self.least, FARTHEST)
    }

    /// One pulse, sent where the drive is ready and has room.
    pub fn pulse(&mut self, backward: bool) {
        let step = if backward { Whole(-1) } else { Whole(1) };
        if self.ready && self.reaches(self.count + step) {
            self.count = self.count + step;
            self.backward = backward;
        }
    }

    /// The count of the motor below all layers.
    pub fn motor(&self) -> Whole {
        if self.backward {
            self.count - self.play
        } else {
            self.count
        }
    }
}
