ghost use Rattle.std.specs.Prelude.{◌≡◌, ◌∷◌, []};
ghost use Rattle.module.specs.declared.call.Act.TheVariants.{Tick};
ghost use Rattle.module.specs.declared.call.Call.TheVariants.{OnAxis};
ghost use Rattle.module.specs.Machine.{reply, step};
ghost use Rattle.module.specs.Replies.{reply_by, refusal_in};
ghost use Rattle.rail.specs.declared.bench.NoBench.TheVariants.{Drive as DriveRefused};
ghost use Rattle.rail.specs.Bench.{NewBench};
ghost use Rattle.rail.specs.Ticks.{counted};

use crate::account::Account;
use crate::build::{Layers, Position, drives_of};
use crate::fault::Placed;
use drives::drive::Drive;
use drives::fault::DriveFault;
use module::{Answer, Call, Fault, Module};
use script::Build;
use std::alloc::{AllocError, Global};
use std::fmt;

/// The module on the drives of a script, with an account of each axis.
#[derive(Drop)]
pub struct Bench {
    module: Module<Layers, Layers, Layers>,
    builds: [Build; 3],
    pub accounts: [Account; 3],
}

/// Why there is no bench: a drive that cannot be made, or no memory.
#[derive(Debug, Drop)]
pub enum NoBench {
    Drive(DriveFault),
    Memory(AllocError),
}

impl From<DriveFault> for NoBench {
    ghost from_gives = { λ fault result. result ≡ DriveRefused fault };

    fn from(fault: DriveFault) -> NoBench {
        NoBench::Drive(fault)
    }
}

impl Bench {
    /// Makes the drives that a script asks for, and a new module on them.
    pub fn new(heap: Global, builds: [Build; 3]) -> Result<Bench, NoBench>
        ensures { NewBench builds result }
    {
        let drives = drives_of(builds)?;
        let accounts = [
            Account::new(1, drives.first.count()),
            Account::new(2, drives.second.count()),
            Account::new(3, drives.third.count()),
        ];
        match Module::new(heap, drives) {
            Ok(module) => Ok(Bench {
                module,
                builds,
                accounts,
            }),
            Err(not_made) => Err(NoBench::Memory(not_made.error)),
        }
    }

    /// Makes a call, and keeps for the account what it sent and its fault.
    pub fn call(&mut self, call: Call) -> Result<Answer, Fault>
        ensures value { reply_by result ≡ reply call.entry self.old.module }
        ensures after { self.new.module ≡ step call.entry self.old.module }
    {
        let reply = self.module.call(call);
        self.note(reply.err());
        reply
    }

    // One tick, kept for the account as a call.
    fn tick(&mut self, axis: u8) -> Result<(), Fault>
        ensures value { result ≡ refusal_in (reply (OnAxis axis Tick) self.old.module) }
        ensures after { self.new.module ≡ step (OnAxis axis Tick) self.old.module }
    {
        let reply = self.module.tick(axis);
        self.note(reply.err());
        reply
    }

    fn note(&mut self, fault: Option<Fault>)
        ensures { self.new.module ≡ self.old.module }
    {
        let [first, second, third] = self.counts();
        self.accounts[0].note(first, fault);
        self.accounts[1].note(second, fault);
        self.accounts[2].note(third, fault);
    }

    /// Makes up to so many ticks; the last one made is the first that answers a fault.
    #[tactic(auto, using(crate::proofs::NextTick::next_tick))]
    pub fn ticks(&mut self, axis: u8, count: u32) -> Ticks
        ensures { record { made = result.made; fault = result.fault; left = self.new.module } ≡ counted count 0 axis self.old.module }
    {
        for before in 0..count {
            if let Err(fault) = self.tick(axis) {
                return Ticks {
                    made: before + 1,
                    fault: Some(fault),
                };
            }
        }
        Ticks {
            made: count,
            fault: None,
        }
    }

    /// Where an axis stands, if there is such an axis.
    pub fn position(&self, axis: u8) -> Option<Position> {
        let [first, second, third] = self.builds;
        match axis {
            1 => Some(Position::of(first, self.module.first().drive())),
            2 => Some(Position::of(second, self.module.second().drive())),
            3 => Some(Position::of(third, self.module.third().drive())),
            _ => None,
        }
    }

    /// The counts of the three drives.
    pub fn counts(&self) -> [i64; 3]
        ensures { result ≡ self.now.module.first.drive.count ∷ self.now.module.second.drive.count ∷ self.now.module.third.drive.count ∷ [] }
    {
        [
            self.module.first().drive().count(),
            self.module.second().drive().count(),
            self.module.third().drive().count(),
        ]
    }
}

/// How many ticks were made, and the fault of the last one.
#[derive(Clone, Copy)]
pub struct Ticks {
    pub made: u32,
    pub fault: Option<Fault>,
}

impl fmt::Display for Ticks {
    fn fmt<W: fmt::Write>(&self, f: &mut fmt::Formatter<W>) -> fmt::Result {
        let made = self.made;
        match self.fault.map(Placed) {
            None => write!(f, "{made} ticks ok"),
            Some(fault) => write!(f, "{made} ticks {fault}"),
        }
    }
}
