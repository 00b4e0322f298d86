use units::Measure;

/// Machine data as a host sends them: any numbers.
#[derive(Clone, Copy)]
pub struct RawData {
    /// maximum frequency, mHz
    pub fm: u32,
    /// start and stop frequency, mHz
    pub fs: u32,
    /// increase of the frequency, mHz per ms
    pub increase: u32,
    /// pulse duration, µs
    pub duration: u32,
    pub patterns: u32,
    /// units per turn
    pub units: u32,
    /// pulses per turn
    pub pulses: u32,
    /// the limits and the reference coordinate, units
    pub low: i32,
    pub high: i32,
    pub reference: i32,
    /// the four program offsets, units
    pub offsets: [i32; 4],
    pub measure: Measure,
}
