use motion::RawData;
use states::Command;
use units::Measure;

/// Axis A of the worked examples.
pub const AXIS_A: RawData = RawData {
    fm: 3_000_000,
    fs: 1_000_000,
    increase: 1_000_000,
    duration: 5,
    patterns: 4,
    units: 4_000,
    pulses: 400,
    low: -1_000,
    high: 200_000,
    reference: 0,
    offsets: [50, -20, 0, 40_000_000],
    measure: Measure::Millimetre,
};

/// Axis A with another turn.
pub fn turned(units: u32, pulses: u32) -> RawData {
    RawData {
        units,
        pulses,
        ..AXIS_A
    }
}

/// fm, fs, a, W, P, low, high, reference.
type Row = [i32; 8];

pub const FIRST_ROW: Row = [
    3_000_000, 1_000_000, 1_000_000, 4_000, 400, -1_000, 200_000, 0,
];

/// Many units or many pulses, a flat ramp, a long one, narrow limits and wide ones.
pub static ROWS: [Row; 8] = [
    FIRST_ROW,
    [3_000_000, 1_000_000, 1_000_000, 10, 1, -1_000, 200_000, 5],
    [
        20_000_000,
        5_000_000,
        2_000_000,
        3,
        10,
        -40_000_000,
        40_000_000,
        -7,
    ],
    [40_000, 40_000, 20, 1_000_000, 1, -1_000, 2_000, -999],
    [
        100_000_000,
        10_000_000,
        2_599_999,
        1_000,
        10_000,
        -3,
        120,
        0,
    ],
    [1_000_000, 1_000, 1_000, 7, 3, -1_000, 200_000, 0],
    [3_000_000, 39_000, 100_000, 1_000, 300, -1_000, 200_000, 33],
    [3_000_000, 1_000_000, 1_000_000, 1, 1, 0, 40, 20],
];

/// What 4 or 5 refuses.
pub static REFUSED: [Row; 10] = [
    [39_999, 1_000, 1_000, 4_000, 400, 0, 1, 0],
    [3_000_000, 3_000_001, 1_000, 4_000, 400, 0, 1, 0],
    [3_000_000, 1_000_000, 2_600_000, 4_000, 400, 0, 1, 0],
    [3_000_000, 1_000_000, 20, 4_000, 400, 0, 1, 0],
    [3_000_000, 1_000_000, 1_000_000, 0, 400, 0, 1, 0],
    [3_000_000, 1_000_000, 1_000_000, 4_000, 10_001, 0, 1, 0],
    [3_000_000, 1_000_000, 1_000_000, 4_000, 400, 1, 1, 1],
    [3_000_000, 1_000_000, 1_000_000, 4_000, 400, 0, 2, -1],
    [3_000_000, 1_000_000, 1_000_000, 4_000, 400, 0, 2, 3],
    [
        3_000_000, 1_000_000, 1_000_000, 4_000, 400, 0, 40_000_001, 0,
    ],
];

/// Machine data of a row.
pub fn record(row: Row, measure: Measure) -> RawData {
    let [fm, fs, increase, units, pulses, low, high, reference] = row;
    RawData {
        fm: fm.unsigned_abs(),
        fs: fs.unsigned_abs(),
        increase: increase.unsigned_abs(),
        units: units.unsigned_abs(),
        pulses: pulses.unsigned_abs(),
        low,
        high,
        reference,
        measure,
        ..AXIS_A
    }
}

/// Modes, the more useful ones more often.
pub static MODES: [u8; 24] = [
    1, 1, 2, 4, 5, 5, 5, 6, 6, 6, 6, 7, 7, 7, 8, 8, 9, 9, 12, 13, 14, 15, 16, 17,
];

/// Commands that a mode admits, the more useful ones more often.
pub fn commands_of(mode: u8) -> &'static [Command] {
    match mode {
        1 | 2 | 7 => &COMMANDS[1..4],
        6 => &POSITION,
        8 | 9 => &PROGRAM,
        _ => &COMMANDS[0..1],
    }
}

static POSITION: [Command; 3] = [Command::Start, Command::Start, Command::Stop];

static PROGRAM: [Command; 4] = [
    Command::Start,
    Command::Stop,
    Command::TakeOver,
    Command::TakeOver,
];

pub static MEASURES: [Measure; 6] = [
    Measure::Millimetre,
    Measure::Millimetre,
    Measure::Millimetre,
    Measure::Millimetre,
    Measure::Inch,
    Measure::Degree,
];

pub static COMMANDS: [Command; 5] = [
    Command::Start,
    Command::Stop,
    Command::Forward,
    Command::Backward,
    Command::TakeOver,
];

pub static SPEEDS: [u16; 14] = [
    1, 2, 6, 60, 60, 600, 1_800, 1_800, 1_800, 1_801, 65_000, 65_001, 0, 65_535,
];

pub static FAR: [i32; 12] = [
    40_000_000,
    -40_000_000,
    40_000_001,
    -40_000_001,
    200_000,
    200_001,
    -1_000,
    -1_001,
    39_999_999,
    i32::MAX,
    i32::MIN,
    0,
];

/// Lines that are passed over or refused, with words well formed and not.
pub static LINES: [&'static [u8]; 50] = [
    b"",
    b"   ",
    b"% what stands here is not read X1 (",
    b" % X1",
    b"(only a remark)",
    b"(open",
    b"X1 ( ( ) M00 (",
    b")",
    b"x1",
    b"\tX1",
    b"X1\r",
    b"12",
    b"+X1",
    b"X",
    b"X.5",
    b"X+",
    b"X1-2",
    b"X1..2",
    b"X000001",
    b"X1.2345",
    b"X1.23456",
    b"X12.",
    b"X-0 F0600",
    b"X40000",
    b"X40000.001",
    b"X4000.0001",
    b"X-99999.999 M00",
    b"N",
    b"N0",
    b"N00009999",
    b"N10000",
    b"N1.",
    b"N999999999999999999999999999999999999999999999999999999999999999999999999999999",
    b"G1",
    b"G001",
    b"G02",
    b"G 01",
    b"G(a)01",
    b"G01G01",
    b"G02 G02",
    b"G90 G54 G57",
    b"X1 X2",
    b"M00 M01",
    b"F60 X1",
    b"G01 N5 (late) X",
    b"G99 F65001 N1",
    b"F0",
    b"F65001",
    b"M3",
    b"X1 M00 (this line of more than eighty bytes is too long for the reader of the module)",
];
