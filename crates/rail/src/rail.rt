use crate::bench::Bench;
use crate::build::Layers;
use crate::explain::{Explained, done_in_words, in_words};
use crate::fault::Placed;
use crate::observed::Observed;
use crate::reading::Reading;
use drives::drive::Drive;
use module::{Act, Answer, Call, Drives, run};
use script::Line;
use std::alloc::AllocError;
use std::fmt;

// The most calls that are made again: their list is kept in memory.
const MOST_AGAIN: usize = 1_000_000;

/// What a script acts on, and where its answers go.
#[derive(Drop)]
pub struct Rail<'r, 'a> {
    rt: &'r HostRuntime,
    bench: Bench,
    explain: bool,
    /// the calls made, up to one more than are made again, where they are to be explained
    calls: Vec<Call<'a>>,
}

impl<'r, 'a> Rail<'r, 'a> {
    /// A script's calls go to this bench, and each answer is told in plain words too where it is to be explained.
    pub fn new(rt: &'r HostRuntime, bench: Bench, explain: bool) -> Rail<'r, 'a> {
        Rail {
            rt,
            bench,
            explain,
            calls: Vec::new(rt.alloc()),
        }
    }

    /// Makes a call and prints its answer.
    pub fn answer(&mut self, line: Line<'a>) -> anyhow::Result<()> {
        match line {
            Line::Drive { .. } => Ok(()),
            Line::Call(call) => self.call(call),
            Line::Ticks { axis, count } => self.ticks(axis, count),
            Line::Read { measure, text } => {
                let reading = Reading::of(text, measure);
                self.tell(0, &reading, &reading.in_words())
            }
        }
    }

    fn call(&mut self, call: Call<'a>) -> anyhow::Result<()> {
        let axis = axis_of(call);
        self.keep(call, 1)?;
        match self.bench.call(call) {
            Ok(Answer::Done) => self.tell(axis, &"ok", &done_in_words(call)),
            Ok(Answer::Shown(observation)) => {
                self.tell(axis, &Observed(observation), &Explained(observation))
            }
            Err(fault) => self.tell(axis, &Placed(fault), &in_words(fault)),
        }
    }

    fn ticks(&mut self, axis: u8, count: u32) -> anyhow::Result<()> {
        let ticks = self.bench.ticks(axis, count);
        let act = Act::Tick;
        self.keep(Call::OnAxis { axis, act }, ticks.made)?;
        let words = ticks.fault.map_or("every tick is made", in_words);
        self.tell(axis, &ticks, &words)
    }

    // Keeps a call that is made so many times.
    fn keep(&mut self, call: Call<'a>, times: u32) -> anyhow::Result<()> {
        if self.explain {
            let count = self.calls.len().saturating_add(times as usize);
            self.calls.resize(count.min(MOST_AGAIN + 1), call)?;
        }
        Ok(())
    }

    // Prints a reply, and what it means where that is wanted.
    fn tell<R: fmt::Display, W: fmt::Display>(
        &self,
        axis: u8,
        reply: &R,
        words: &W,
    ) -> anyhow::Result<()> {
        self.show(reply)?;
        if self.explain {
            self.say(axis, words)?;
        }
        Ok(())
    }

    fn show<T: fmt::Display>(&self, reply: &T) -> anyhow::Result<()> {
        let [x, y, z] = self.bench.counts();
        println!(self.rt; "{reply} | {x} {y} {z}")?;
        Ok(())
    }

    // What an answer means and where the axis of the call stands after it.
    fn say<T: fmt::Display>(&self, axis: u8, words: &T) -> anyhow::Result<()> {
        match self.bench.position(axis) {
            Some(position) => println!(self.rt; "  {words}; axis {axis}: {position}")?,
            None => println!(self.rt; "  {words}")?,
        }
        Ok(())
    }

    /// A short account of each axis at the end, where that is wanted, and all calls once more on new drives.
    pub fn account(&self, drives: Drives<Layers, Layers, Layers>) -> anyhow::Result<()> {
        if !self.explain {
            return Ok(());
        }
        for account in self.bench.accounts {
            let axis = account.axis;
            if let Some(position) = self.bench.position(axis) {
                println!(self.rt; "axis {axis}: {position}; {account}")?;
            }
        }
        self.again(drives)
    }

    // Whether the same calls as one list leave the same counts.
    fn again(&self, drives: Drives<Layers, Layers, Layers>) -> anyhow::Result<()> {
        let count = self.calls.len();
        if count > MOST_AGAIN {
            println!(self.rt; "more than {MOST_AGAIN} calls: not made again as one list")?;
            return Ok(());
        }
        let verdict = if self.counts_again(drives)? == self.bench.counts() {
            "the same counts"
        } else {
            "other counts"
        };
        println!(self.rt; "{count} calls made again as one list: {verdict}")?;
        Ok(())
    }

    fn counts_again(&self, drives: Drives<Layers, Layers, Layers>) -> Result<[i64; 3], AllocError> {
        match run(self.rt.alloc(), drives, &self.calls) {
            Ok(ran) => Ok([
                ran.drives.first.count(),
                ran.drives.second.count(),
                ran.drives.third.count(),
            ]),
            Err(not_made) => Err(not_made.error),
        }
    }
}

// The axis that a call names, 0 for none.
fn axis_of(call: Call) -> u8 {
    match call {
        Call::OnAxis { axis, .. } => axis,
        _ => 0,
    }
}
