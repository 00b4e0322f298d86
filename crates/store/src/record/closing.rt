ghost use Rattle.std.specs.Prelude.{◌≡◌, None, unwrap_or};
ghost use Rattle.std.specs.Option.{option_or};
ghost use Rattle.store.specs.Closing.{fits_at, closable};

use crate::record::Record;
use reader::{Block, Motion, ends_program};

impl Record {
    pub(crate) fn closable(&self) -> bool
        ensures { result ≡ closable self.now.blocks }
    {
        may_close(self.blocks.as_slice())
    }
}

// Whether the blocks end as a program must: the run is followed block by block
// with the motion group and the feed that would then hold.
#[tactic(auto, using(crate::proofs::Closings::misfit))]
fn may_close(blocks: &[Block]) -> bool
    ensures { result ≡ closable blocks.now }
{
    let mut holding = Holding {
        motion: Motion::Rapid,
        feed: None,
    };
    for (index, block) in blocks.iter().enumerate() {
        holding = holding.in_block(block);
        if !holding.admits(block, index + 1 == blocks.len()) {
            return false;
        }
    }
    !blocks.is_empty()
}

// The motion group and the feed that hold in a block.
#[derive(Clone, Copy)]
struct Holding {
    motion: Motion,
    feed: Option<u16>,
}

impl Holding {
    // The block's own words, else what held before. A feed holds until the next
    // one, whatever the motion group.
    fn in_block(self, block: &Block) -> Holding
        ensures motion { result.motion ≡ unwrap_or block.now.motion self.motion }
        ensures feed { result.feed ≡ option_or block.now.feed self.feed }
    {
        Holding {
            motion: block.motion.unwrap_or(self.motion),
            feed: block.feed.or(self.feed),
        }
    }

    // Whether one block may stand there: the end in the last block and only
    // there, no X under G01 without a feed.
    fn admits(self, block: &Block, last: bool) -> bool
        ensures { result ≡ fits_at last self.motion self.feed block.now }
    {
        if ends_program(block.auxiliary) != last {
            return false;
        }
        match self.motion {
            Motion::Rapid => true,
            Motion::Feed => block.target.is_none() || self.feed.is_some(),
        }
    }
}
