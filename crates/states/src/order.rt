/// What an order asks of its axis.
#[derive(Clone, Copy, PartialEq, Eq, Debug)]
pub enum Command {
    Start,
    Stop,
    Forward,
    Backward,
    TakeOver,
}

/// An order to one axis, any values. What a mode does not use is ignored.
#[derive(Clone, Copy, Debug)]
pub struct Order {
    /// a number as the host sends it, which may be of no mode
    pub mode: u8,
    pub command: Command,
    /// the program of a start of modes 8 and 9
    pub byte: u8,
    /// a speed per minute
    pub word: u16,
    /// a target, a distance or a value of the shift, in units
    pub double: i32,
}
