use states::{Aim, Mode};

/// What an accepted order does.
#[derive(Clone, Copy)]
pub enum Plan {
    /// brakes, then holds the program
    Halt,
    /// only sets the mode
    OnlyMode,
    /// only clears the fault
    OnlyClear,
    /// the axis is where the reference coordinate is
    Zero,
    Go(Aim),
    /// starts a program
    Begin(u8),
    /// goes on to the unfinished target of the held program
    Resume(Aim),
    /// goes on with the next block of the held program
    Continue,
    NewOffset(i32),
    NewTool(i32),
}

/// An accepted order: its mode, and what it does.
#[derive(Clone, Copy)]
pub struct Accepted {
    pub mode: Mode,
    pub plan: Plan,
}
