use reader::Block;
use std::marker::Model;
use units::Measure;

mod closing;
mod fill;

/// One program, with room for all its blocks from the beginning.
/// Of a free record the fields mean nothing; it stays a record, whose room for blocks is a fact of its type.
#[derive(Drop)]
pub(crate) struct Record {
    number: u8,
    measure: Measure,
    blocks: Vec<Block>,
}

impl Model for Record {
    ghost use Rattle.std.specs.Prelude.{◌≤◌, vec_len, vec_capacity};
    ghost use Rattle.reader.specs.declared.TheConstants.{MOST_BLOCKS};
    ghost use Rattle.store.specs.Programs.{Program};

    ghost Value = { Program };

    ghost view = { λ r. record { number = r.number; measure = r.measure; blocks = r.blocks.items } };

    ghost invariant = { λ r. (vec_len r.blocks ≤ MOST_BLOCKS) × (MOST_BLOCKS ≤ vec_capacity r.blocks) };
}
