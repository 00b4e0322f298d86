use crate::record::Record;
use std::marker::Model;

mod calls;
mod lookup;
mod made;

const MOST_PROGRAMS: usize = 16;

/// The programs and the open entry, if any. All its memory is taken when it is
/// made: each record is a stored program's, the open entry's or free.
#[derive(Drop)]
pub struct Store {
    stored: Vec<Record>,
    entry: Option<Record>,
    free: Vec<Record>,
}

impl Model for Store {
    ghost use Rattle.std.specs.Prelude.{◌≡◌, ◌+◌, ◌≤◌, if◌then◌else◌, is_some, vec_len, vec_capacity};
    ghost use Rattle.store.specs.declared.table.TheConstants.{MOST_PROGRAMS};
    ghost use Rattle.store.specs.Programs.{Programs};

    ghost Value = { Programs };

    ghost view = { λ s. record { stored = s.stored.items; entry = s.entry } };

    ghost invariant = { λ s.
        (vec_len s.stored + (if is_some s.entry then 1 else 0) + vec_len s.free ≡ MOST_PROGRAMS)
        × (MOST_PROGRAMS ≤ vec_capacity s.stored)
        × (MOST_PROGRAMS ≤ vec_capacity s.free) };
}
