use crate::plant::{Course, Reply};
use module::{Act, Call};
use states::Command;
use std::io;

/// What the runs have reached.
#[derive(Clone, Copy)]
pub struct Tally {
    /// how often each fault number was answered
    seen: [u32; 37],
    /// accepted orders of each mode, and the stops and take-overs among all
    orders: [u32; 18],
    stops: u32,
    resumed: u32,
    /// programs held, and programs ended
    holds: u32,
    ends: u32,
}

fn add(number: Option<&mut u32>) {
    if let Some(number) = number {
        *number = number.saturating_add(1);
    }
}

impl Tally {
    pub fn new() -> Tally {
        Tally {
            seen: [0; 37],
            orders: [0; 18],
            stops: 0,
            resumed: 0,
            holds: 0,
            ends: 0,
        }
    }

    pub fn count_fault(&mut self, number: u8) {
        add(self.seen.get_mut(usize::from(number)));
    }

    pub fn count(&mut self, call: &Call, reply: Reply) {
        match (reply, *call) {
            (Err(trouble), _) => self.count_fault(trouble.number),
            (
                Ok(_),
                Call::OnAxis {
                    act: Act::Order(order),
                    ..
                },
            ) => {
                add(self.orders.get_mut(usize::from(order.mode)));
                match order.command {
                    Command::Stop => add(Some(&mut self.stops)),
                    Command::TakeOver => add(Some(&mut self.resumed)),
                    _ => {}
                }
            }
            _ => {}
        }
    }

    /// What became of the programs of the axes in a call.
    pub fn count_courses(&mut self, before: [Course; 3], after: [Course; 3]) {
        let [first, second, third] = before;
        let [one, two, three] = after;
        self.count_course(first, one);
        self.count_course(second, two);
        self.count_course(third, three);
    }

    fn count_course(&mut self, before: Course, after: Course) {
        match (before, after) {
            (Course::Runs, Course::Held) => add(Some(&mut self.holds)),
            (Course::Runs | Course::Held, Course::Idle) => add(Some(&mut self.ends)),
            _ => {}
        }
    }

    pub fn print(&self, rt: &HostRuntime) -> io::Result<()> {
        println!(rt; "mode accepted")?;
        for (mode, accepted) in self.orders.iter().enumerate() {
            if *accepted > 0 {
                println!(rt; "{mode:>4} {accepted:>8}")?;
            }
        }
        println!(rt; "stops {}, take-overs {}", self.stops, self.resumed)?;
        println!(rt; "programs held {}, ended {}", self.holds, self.ends)?;
        println!(rt; "fault  seen")?;
        for (number, seen) in self.seen.iter().enumerate() {
            if !matches!(number, 0 | 6 | 25) {
                println!(rt; "{number:>5} {seen:>5}")?;
            }
        }
        Ok(())
    }
}
