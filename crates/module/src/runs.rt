ghost use Rattle.module.specs.Examples.{WorkedExamples};
ghost use Rattle.module.specs.Promise.{Answered};

use crate::call::{Answer, Call};
use crate::fault::Fault;
use crate::three::{Drives, Module, NotMade};
use drives::drive::Drive;
use std::alloc::Global;

/// What a list of calls was answered, call by call, and the drives after it.
#[derive(Drop)]
pub struct Ran<X, Y, Z> {
    pub replies: Vec<Result<Answer, Fault>>,
    pub drives: Drives<X, Y, Z>,
}

/// Makes a new module on these drives and each call in turn. All memory is taken before the first call:
/// where there is none, the drives come back untouched.
pub fn run<X: Drive, Y: Drive, Z: Drive>(
    heap: Global,
    drives: Drives<X, Y, Z>,
    calls: &[Call],
) -> Result<Ran<X, Y, Z>, NotMade<X, Y, Z>>
    ensures promise { Answered X.Drive.meaning Y.Drive.meaning Z.Drive.meaning drives calls.now result }
    ensures examples { WorkedExamples }
{
    let mut replies = match Vec::with_capacity(heap, calls.len()) {
        Ok(replies) => replies,
        Err(error) => return Err(NotMade { error, drives }),
    };
    let mut module = Module::new(heap, drives)?;
    for call in calls {
        replies.push_reserved(module.call(*call));
    }
    Ok(Ran {
        replies,
        drives: module.into_drives(),
    })
}
