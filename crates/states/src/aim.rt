/// Where a move is wanted to go and how fast, before it is asked whether it can.
#[derive(Clone, Copy)]
pub struct Wish {
    /// units
    pub target: i64,
    /// mHz
    pub rate: u64,
}

/// A move that can begin.
#[derive(Clone, Copy)]
pub struct Aim {
    pub target: i32,
    pub rate: u64,
    /// pulses from where the axis is to the target
    pub distance: i64,
}
