ghost use Rattle.std.specs.Prelude.{◌≡◌};
ghost use Rattle.module.specs.Made.{MadeOf};

use crate::three::{Drives, Module, NotMade};
use axis::Axis;
use drives::drive::Drive;
use std::alloc::Global;
use store::Store;

impl<X: Drive, Y: Drive, Z: Drive> Module<X, Y, Z> {
    /// A new module: all levels off, each axis new, no programs. No later call takes memory.
    pub fn new(heap: Global, drives: Drives<X, Y, Z>) -> Result<Module<X, Y, Z>, NotMade<X, Y, Z>>
        ensures { MadeOf (X.Drive.meaning drives.first) (Y.Drive.meaning drives.second) (Z.Drive.meaning drives.third) drives result }
    {
        let store = match Store::new(heap) {
            Ok(store) => store,
            Err(error) => return Err(NotMade { error, drives }),
        };
        let Drives {
            first,
            second,
            third,
        } = drives;
        Ok(Module {
            first: Axis::new(first),
            second: Axis::new(second),
            third: Axis::new(third),
            store,
        })
    }

    /// The first axis, to be looked at.
    pub fn first(&self) -> &Axis<X>
        ensures { result.now ≡ self.now.first }
    {
        &self.first
    }

    pub fn second(&self) -> &Axis<Y>
        ensures { result.now ≡ self.now.second }
    {
        &self.second
    }

    pub fn third(&self) -> &Axis<Z>
        ensures { result.now ≡ self.now.third }
    {
        &self.third
    }

    /// Gives the drives back.
    pub fn into_drives(self) -> Drives<X, Y, Z>
        ensures first { X.Drive.meaning result.first ≡ self.first.drive }
        ensures second { Y.Drive.meaning result.second ≡ self.second.drive }
        ensures third { Z.Drive.meaning result.third ≡ self.third.drive }
    {
        let Module {
            first,
            second,
            third,
            store: _,
        } = self;
        Drives {
            first: first.into_drive(),
            second: second.into_drive(),
            third: third.into_drive(),
        }
    }
}
