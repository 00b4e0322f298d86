use crate::raw::RawData;
use std::marker::Model;

// How many steps the longest ramp has.
pub(crate) const STEPS: usize = 4096;

/// Machine data that were checked, with their ramp: step i stands at place i - 1 of the table.
#[derive(Drop)]
pub struct MachineData {
    pub(crate) values: RawData,
    pub(crate) table: [u32; STEPS],
}

impl Model for MachineData {
    ghost use Rattle.motion.specs.declared.raw.RawData.{RawData};

    ghost Value = { RawData };

    ghost use Rattle.motion.specs.Data.{Valid, Tabled};

    ghost view = { λ m. m.values };

    ghost invariant = { λ m. Valid m.values × Tabled m.values m.table };
}
