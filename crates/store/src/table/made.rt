ghost use Rattle.std.specs.Prelude.{◌≡◌, ◌≤◌, IfOk, vec_len, vec_capacity};
ghost use Rattle.store.specs.Programs.{empty};
ghost use Rattle.store.specs.Laws.{Runs, Changes, Closes};

use crate::record::Record;
use crate::table::{MOST_PROGRAMS, Store};
use std::alloc::{AllocError, Global};

impl Store {
    /// An empty store. This is the only call that takes memory. Whatever calls
    /// follow, the laws of runs, of changes and of closing hold.
    #[tactic(auto, using(crate::proofs::Laws::changes, crate::proofs::Closings::closes))]
    pub fn new(heap: Global) -> Result<Store, AllocError>
        ensures made { IfOk result (λ s. s ≡ empty) }
        ensures runs { Runs }
        ensures changes { Changes }
        ensures closes { Closes }
    {
        let free = free_records(heap)?;
        let stored = Vec::with_capacity(heap, MOST_PROGRAMS)?;
        Ok(Store {
            stored,
            entry: None,
            free,
        })
    }
}

// As many free records as there are ever programs, in a vector that has room for
// all of them.
fn free_records(heap: Global) -> Result<Vec<Record>, AllocError>
    ensures { IfOk result (λ free. (vec_len free ≡ MOST_PROGRAMS) × (MOST_PROGRAMS ≤ vec_capacity free)) }
{
    let mut free = Vec::with_capacity(heap, MOST_PROGRAMS)?;
    for _ in 0..MOST_PROGRAMS {
        free.push_reserved(Record::new(heap)?);
    }
    Ok(free)
}
