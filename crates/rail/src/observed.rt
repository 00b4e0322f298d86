use crate::fault::Placed;
use module::Fault;
use states::Observation;
use std::fmt;

/// An observation as `rail` prints it.
#[derive(Clone, Copy)]
pub struct Observed(pub Observation<Fault>);

impl fmt::Display for Observed {
    fn fmt<W: fmt::Write>(&self, f: &mut fmt::Formatter<W>) -> fmt::Result {
        let Observation {
            mode,
            auxiliary,
            coordinate,
            shift,
            actual,
            rest,
            fault,
            feedback,
        } = self.0;
        let mode = u8::from(mode);
        write!(
            f,
            "mode {mode} m {auxiliary} coordinate {coordinate} shift {shift}"
        )?;
        write!(f, " actual {actual} rest {rest} feedback {feedback:02X}")?;
        match fault.map(Placed) {
            None => f.write_str(" fault none"),
            Some(fault) => write!(f, " {fault}"),
        }
    }
}
