use crate::build::Build;
use crate::line::{Line, read_at};
use crate::mistake::{Mistake, MistakeAt};

/// The drives that a script asks for; an axis without one has a stage at 0.
#[derive(Clone, Copy, Default)]
pub struct Plan {
    builds: [Option<Build>; 3],
}

impl Plan {
    /// The plan of the drive lines before the first call.
    pub fn of(lines: &[&[u8]]) -> Result<Plan, MistakeAt> {
        let mut plan = Plan::default();
        for (i, line) in lines.iter().enumerate() {
            match read_at(*line, i)? {
                None => {}
                Some(Line::Drive { axis, build }) => {
                    plan.add(axis, build).map_err(|mistake| mistake.at(i))?
                }
                Some(_) => break,
            }
        }
        Ok(plan)
    }

    pub fn add(&mut self, axis: u8, build: Build) -> Result<(), Mistake> {
        let index = axis.checked_sub(1).ok_or(Mistake::NoSuchAxis)?;
        let slot = self
            .builds
            .get_mut(usize::from(index))
            .ok_or(Mistake::NoSuchAxis)?;
        match slot.replace(build) {
            Some(_) => Err(Mistake::DriveTwice),
            None => Ok(()),
        }
    }

    pub fn builds(self) -> [Build; 3] {
        self.builds
            .map(|build| build.unwrap_or(Build::Clock { count: 0 }))
    }
}
