use crate::explain::in_words;
use module::Fault;
use std::fmt;

/// What the closing account tells of an axis beside its place.
#[derive(Clone, Copy)]
pub struct Account {
    pub axis: u8,
    count: i64,
    /// pulses sent, either way
    sent: u64,
    fault: Option<Fault>,
}

impl Account {
    pub fn new(axis: u8, count: i64) -> Account {
        Account {
            axis,
            count,
            sent: 0,
            fault: None,
        }
    }

    /// After a call: what was sent since the one before, and the fault where it is this axis's.
    pub fn note(&mut self, count: i64, fault: Option<Fault>) {
        self.sent = self.sent.saturating_add(count.abs_diff(self.count));
        self.count = count;
        match fault {
            Some(Fault::OfAxis { axis, .. }) if axis == self.axis => self.fault = fault,
            _ => {}
        }
    }
}

/// What the axis sent, and the last fault that it answered, cleared since or not.
impl fmt::Display for Account {
    fn fmt<W: fmt::Write>(&self, f: &mut fmt::Formatter<W>) -> fmt::Result {
        let sent = self.sent;
        write!(f, "{sent} pulses sent; ")?;
        match self.fault {
            None => f.write_str("no fault"),
            Some(fault) => {
                let number = fault.number();
                let words = in_words(fault);
                write!(f, "last fault {number}: {words}")
            }
        }
    }
}
