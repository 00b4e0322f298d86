use crate::bench::Act::{
    Delete, Drop, Enter, Halt, Keep, Levels, Order, Resume, Run, Set, Ticks, To,
};
use crate::bench::Answer::{At, Done, No, Shows};
use crate::bench::{Act, Answer, Row};
use drives::clock_stage::FARTHEST;
use states::Command;
use states::Command::{Backward, Forward, Start, Stop, TakeOver};
use units::Measure::{Degree, Inch, Millimetre};

// fm, units and pulses per turn, low, reference coordinate, measure
pub(crate) const AXIS: Act = Enter(3_000_000, 4_000, 400, -1_000, 0, Millimetre);

const INCHES: Act = Enter(3_000_000, 4_000, 400, -1_000, 105, Inch);

const DEGREES: Act = Enter(3_000_000, 4_000, 400, -1_000, 0, Degree);

const SLOW: Act = Enter(3_000_000, 1_000_000, 1, -1_000, 0, Millimetre);

const THIRDS: Act = Enter(3_000_000, 1_000, 300, -1_000, 0, Millimetre);

// Low is high; in the second a datum is out of its range too.
const APART: Act = Enter(3_000_000, 4_000, 400, 200_000, 0, Millimetre);

const WRONG: Act = Enter(39_999, 4_000, 400, 200_000, 0, Millimetre);

pub(crate) const READY: Act = Levels(false, false, true);

const OFF: Act = Levels(false, false, false);

pub(crate) const REFERENCE: Act = Set(5, 50_000_000);

pub(crate) const HOME: &[Row] = &[
    (&[], Shows(4, 2, 0, 0, 0, 0xE0, 500)),
    (&[AXIS], Shows(4, 2, 0, 0, 0, 0xA2, 500)),
    (&[READY, REFERENCE], Shows(5, 2, 0, 0, 0, 0x8E, 500)),
];

// Whether a mode admits a command.
fn admits(mode: u8, command: Command) -> bool {
    match command {
        Start => matches!(mode, 4..=6 | 8 | 9 | 12..=17),
        Stop => matches!(mode, 1 | 2 | 6..=9),
        Forward | Backward => matches!(mode, 1 | 2 | 7),
        TakeOver => matches!(mode, 8 | 9),
    }
}

// What an order without a speed is answered by a new axis, by one in motion and by one that brakes.
pub(crate) fn answers(mode: u8, command: Command) -> (Answer, Answer, Answer) {
    match (mode, command) {
        (0 | 3 | 10 | 11 | 18.., _) => (No(8), No(8), No(8)),
        _ if !admits(mode, command) => (No(9), No(9), No(9)),
        (_, Stop) => (Done, Done, No(10)),
        (4 | 17, _) => (Done, No(11), No(10)),
        _ => (No(7), No(11), No(10)),
    }
}

// Without data, without reference, with both; the drive is not ready.
pub(crate) const WITHOUT_DATA: &[Row] = &[
    (&[To(40_000_001), Set(12, 40_000_001)], No(7)),
    (&[Run(8, 5)], At(7, 5, 0)),
    (&[Resume(9)], At(7, 0, 0)),
];

pub(crate) const WITHOUT_REFERENCE: &[Row] = &[
    (&[AXIS, Set(17, 0)], Shows(4, 2, 0, 0, 0, 0xA2, 500)),
    (&[Set(6, 0), Order(7, Forward, 0, -1), Resume(9)], No(12)),
    (&[Run(8, 5)], At(12, 5, 0)),
    (&[Order(1, Forward, 0, 0)], No(13)),
    (&[Order(2, Forward, 65_001, 0)], No(13)),
    (&[Order(1, Backward, 65_000, 0)], No(18)),
    (&[Order(2, Forward, 1_801, 0)], No(18)),
    (&[Order(1, Forward, 1_800, 50_000_000)], No(21)),
    (&[Order(2, Backward, 1_800, 0)], No(21)),
];

pub(crate) const WITH_BOTH: &[Row] = &[
    (&[REFERENCE], Shows(5, 2, 0, 0, 0, 0x8E, 500)),
    (&[Set(6, 200_001), To(-40_000_001)], No(13)),
    (&[Order(6, Start, 1_801, 40_000_001)], No(13)),
    (&[Order(6, Start, 1_801, 40_000_000)], No(18)),
    (&[To(-40_000_000), To(200_001), To(-1_001)], No(19)),
    (&[To(200_000), Order(6, Start, 1, -1_000)], No(21)),
    (&[Order(7, Forward, 1_801, -1)], No(13)),
    (&[Order(7, Backward, 0, 1)], No(13)),
    (&[Order(7, Backward, 1_801, 40_000_001)], No(13)),
    (&[Order(7, Forward, 1_801, 200_001)], No(18)),
    (&[Order(7, Forward, 1_800, 200_001)], No(19)),
    (&[Order(7, Backward, 1_800, 1_001)], No(19)),
    (&[Order(7, Backward, 1_800, 1_000)], No(21)),
];

pub(crate) const FOR_PROGRAMS: &[Row] = &[
    (&[Run(8, 5)], At(14, 5, 0)),
    (&[Keep(5, Inch, &[b"X0.01 M30"])], Done),
    (&[Run(9, 5)], At(15, 5, 0)),
    (&[Resume(9)], At(16, 0, 0)),
    (&[SLOW], Done),
    (&[Order(2, Forward, 59, 0)], No(18)),
    (&[Order(2, Forward, 60, 0)], No(21)),
];

pub(crate) const SHIFTS: &[Row] = &[
    (&[Set(12, 40_000_001), Set(13, -40_000_001)], No(13)),
    (&[Set(12, 40_000_000)], Done),
    (&[Set(13, 40_000_001), Set(15, -40_000_001)], No(13)),
    (&[Set(13, 1)], No(22)),
    (&[], Shows(12, 2, 0, 40_000_000, 0, 0x8E, 500)),
    (&[Set(13, -40_000_000)], Shows(13, 2, 0, 0, 0, 0x8E, 500)),
    (&[Set(13, -40_000_000), Set(15, -40_000_000)], Done),
    (&[Set(13, -1)], No(22)),
    (&[To(-40_000_000)], No(19)),
    (&[], Shows(15, 2, 0, -80_000_000, 0, 0x8E, 500)),
    (&[Set(14, 1)], Shows(14, 2, 0, -40_000_000, 0, 0x8E, 500)),
    (&[Set(15, 30), Set(12, 50)], Done),
    (&[To(199_921)], No(19)),
    (&[To(20)], Shows(6, 2, 0, 80, 100, 0x0A, 500)),
    (&[Ticks(7)], Shows(6, 2, 100, 80, 0, 0x8E, 510)),
    (&[Order(7, Backward, 1_800, 100)], Done),
    (&[], Shows(7, 2, 100, 80, -100, 0x0A, 510)),
    (&[Ticks(7)], Shows(7, 2, 0, 80, 0, 0x8E, 500)),
    (&[Set(16, 1)], Shows(16, 2, 0, 50, 0, 0x8E, 500)),
];

// Five pulses below the greatest count.
pub(crate) const NEAR_END: &[Row] = &[
    (&[AXIS], Done),
    (&[Order(1, Forward, 1_801, 0)], No(18)),
    (&[Order(1, Forward, 1_800, 0)], No(20)),
    (&[REFERENCE], Done),
    (&[To(200_001)], No(19)),
    (&[To(200_000), Order(7, Forward, 1_800, 55)], No(20)),
    (&[Order(7, Forward, 1_800, 54)], No(21)),
    (&[Keep(1, Millimetre, &[b"X0.055 M30"]), Run(8, 1)], Done),
    (&[Ticks(1)], At(20, 1, 1)),
    (&[READY, To(54)], Done),
    (&[Ticks(5)], Shows(6, 2, 54, 0, 0, 0x8E, FARTHEST)),
];

pub(crate) const AT_LEAST: &[Row] = &[
    (&[AXIS], Done),
    (&[Order(1, Backward, 1_800, 0)], No(20)),
    (&[Order(1, Forward, 1_800, 0)], No(21)),
];

// In motion and braking.
pub(crate) const BUSY: &[Row] = &[
    (&[To(200_000)], Shows(6, 2, 0, 0, 200_000, 0x0A, 500)),
    (&[WRONG, Delete], No(3)),
    (&[Halt(3)], No(8)),
    (&[Halt(4)], No(9)),
    (&[Ticks(1)], Shows(6, 2, 10, 0, 199_990, 0x0A, 501)),
    (&[Set(17, 0)], No(11)),
    (&[Halt(17), Resume(6)], No(9)),
    (&[Halt(1), Set(6, 0)], No(10)),
    (&[Run(8, 5)], At(10, 5, 0)),
    (&[AXIS], No(3)),
    (&[Ticks(1)], Shows(6, 2, 10, 0, 0, 0x8A, 501)),
    (&[Halt(1), To(200_000), Ticks(2)], Done),
    (&[Set(6, 40_000_001)], No(11)),
    (&[Ticks(2)], Shows(6, 2, 50, 0, 0, 0x8A, 505)),
    (&[Resume(9)], No(16)),
];

// 0 to 100 at speed 1800, then forward to the limit and to it again.
pub(crate) const WORKED: &[Row] = &[
    (&[To(100)], Shows(6, 2, 0, 0, 100, 0x0A, 500)),
    (&[Ticks(1)], Shows(6, 2, 10, 0, 90, 0x0A, 501)),
    (&[Ticks(1)], Shows(6, 2, 30, 0, 70, 0x0A, 503)),
    (&[Ticks(1)], Shows(6, 2, 50, 0, 50, 0x0A, 505)),
    (&[Ticks(1)], Shows(6, 2, 70, 0, 30, 0x0A, 507)),
    (&[Ticks(1)], Shows(6, 2, 80, 0, 20, 0x0A, 508)),
    (&[Ticks(1)], Shows(6, 2, 90, 0, 10, 0x0A, 509)),
    (&[Ticks(1)], Shows(6, 2, 100, 0, 0, 0x8E, 510)),
    (&[Order(1, Forward, 1_800, 0), Ticks(7_000)], Done),
    (&[], Shows(1, 2, 200_000, 0, 0, 0x8E, 20_500)),
    (&[Order(2, Forward, 1_800, 0)], Done),
    (&[], Shows(2, 2, 200_000, 0, 0, 0x0A, 20_500)),
    (&[Ticks(1)], Shows(2, 2, 200_000, 0, 0, 0x8E, 20_500)),
];

// The same move stopped after the third tick.
pub(crate) const STOPPED: &[Row] = &[
    (&[To(100), Ticks(3)], Shows(6, 2, 50, 0, 50, 0x0A, 505)),
    (&[Halt(6), Ticks(1)], Shows(6, 2, 70, 0, 30, 0x0A, 507)),
    (&[Ticks(1)], Shows(6, 2, 80, 0, 20, 0x0A, 508)),
    (&[Ticks(1)], Shows(6, 2, 80, 0, 0, 0x8A, 508)),
    (&[Ticks(1)], Shows(6, 2, 80, 0, 0, 0x8A, 508)),
];

// Three moves by 5 send 2, 1, 2.
pub(crate) const BY_FIVE: &[Row] = &[
    (&[THIRDS, REFERENCE, Order(7, Forward, 600, 5)], Done),
    (&[Ticks(3)], Shows(7, 2, 5, 0, 0, 0x8E, 502)),
    (&[Order(7, Forward, 600, 5)], Done),
    (&[Ticks(2)], Shows(7, 2, 10, 0, 0, 0x8E, 503)),
    (&[Order(7, Forward, 600, 5)], Done),
    (&[Ticks(3)], Shows(7, 2, 15, 0, 0, 0x8E, 505)),
];

// Every G word.
const WORDS: &[&[u8]] = &[
    b"%7",
    b"N1 G00 G54 G90 X0.1 M07",
    b"G01 G91 X-0.05 F600",
    b"G55 F300 (no move)",
    b"G90 G56 X0.3 M11",
    b"G57",
    b"G53 M00",
    b"G00 X0 M30",
];

pub(crate) const BETWEEN_BLOCKS: &[Row] = &[
    (&[Set(12, 50), Set(15, 30)], Done),
    (
        &[Keep(6, Millimetre, &[b"X0.1 M00", b"X0.1", b"M02"])],
        Done,
    ),
    (&[Keep(7, Millimetre, WORDS)], Done),
    (&[Run(8, 7)], Shows(8, 2, 0, 80, 0, 0x0E, 500)),
    (&[WRONG], No(3)),
    (&[Halt(9)], Shows(8, 2, 0, 80, 0, 0x8E, 500)),
    (&[Ticks(2), Resume(8)], Shows(8, 2, 0, 80, 0, 0x0E, 500)),
    (&[Set(12, 1)], No(11)),
    (&[], Shows(8, 2, 0, 80, 0, 0x8E, 500)),
    (&[Resume(8), Ticks(1)], Shows(8, 7, 0, 180, 280, 0x0A, 500)),
];

// Moving, then braking.
pub(crate) const MOVING: &[Row] = &[
    (&[Ticks(1)], Shows(8, 7, 10, 180, 270, 0x0A, 501)),
    (&[Resume(8)], At(11, 0, 0)),
    (&[Resume(8), Halt(8)], No(10)),
    (&[Run(8, 6)], At(10, 6, 0)),
    (&[Ticks(1)], Shows(8, 7, 10, 180, 0, 0x8A, 501)),
];

pub(crate) const HELD: &[Row] = &[
    (&[Halt(8), Set(17, 0), OFF], Done),
    (&[Set(6, 0)], No(13)),
    (&[Resume(8)], At(21, 7, 1)),
    (&[], Shows(8, 7, 10, 180, 0, 0x8A, 501)),
    (&[READY, Resume(9)], Shows(9, 7, 10, 180, 270, 0x0A, 501)),
    (&[Ticks(12)], Shows(9, 7, 270, 180, 10, 0x0A, 527)),
    (&[Ticks(1)], Shows(9, 7, 280, 180, 0, 0x8E, 528)),
    (&[Resume(8)], Shows(8, 7, 280, 180, 0, 0x0E, 528)),
    (&[Ticks(1)], Shows(8, 7, 280, 180, -50, 0x0A, 528)),
    (&[Ticks(6)], Shows(8, 7, 230, 180, 0, 0x0E, 523)),
    (&[Ticks(1)], Shows(8, 7, 230, 280, 0, 0x0E, 523)),
    (&[Ticks(1)], Shows(8, 11, 230, -220, -150, 0x0A, 523)),
];

// Stopped amid a pulse, which is dropped; the feed stays.
pub(crate) const AMID_A_PULSE: &[Row] = &[
    (&[Ticks(11), Halt(8), Ticks(1)], Done),
    (&[], Shows(8, 11, 180, -220, 0, 0x8A, 518)),
    (&[Resume(8)], Shows(8, 11, 180, -220, -100, 0x0A, 518)),
    (&[Ticks(20)], Shows(8, 11, 80, -220, 0, 0x0A, 508)),
    (&[Ticks(1)], Shows(8, 11, 80, -220, 0, 0x0E, 508)),
    (&[Ticks(1)], Shows(8, 11, 80, 480, 0, 0x0E, 508)),
    (&[Ticks(1)], Shows(8, 0, 80, 80, 0, 0x8E, 508)),
    (&[Ticks(1), Resume(8)], Shows(8, 0, 80, 80, 0, 0x0E, 508)),
    (&[Ticks(1)], Shows(8, 30, 80, 80, 0, 0x0A, 508)),
    (&[Ticks(1)], Shows(8, 30, 80, 80, 0, 0x8E, 508)),
    (&[Resume(8)], No(16)),
    (&[Set(4, 0)], Shows(4, 2, 80, 80, 0, 0x8E, 508)),
];

// Held after each move and no other block.
pub(crate) const BY_BLOCK: &[Row] = &[
    (&[Run(9, 7)], Shows(9, 2, 80, 80, 0, 0x0E, 508)),
    (&[Ticks(1)], Shows(9, 7, 80, 180, 200, 0x0A, 508)),
    (&[Ticks(10)], Shows(9, 7, 280, 180, 0, 0x8E, 528)),
    (&[Resume(9), Ticks(7)], Shows(9, 7, 230, 180, 0, 0x8E, 523)),
    (&[Resume(9), Ticks(1)], Shows(9, 7, 230, 280, 0, 0x0E, 523)),
    (&[Ticks(32)], Shows(9, 11, 80, -220, 0, 0x8E, 508)),
    (&[Resume(9), Ticks(1)], Shows(9, 11, 80, 480, 0, 0x0E, 508)),
    (&[Ticks(1)], Shows(9, 0, 80, 80, 0, 0x8E, 508)),
    (&[Resume(9), Ticks(2)], Shows(9, 30, 80, 80, 0, 0x8E, 508)),
    (&[Resume(9)], No(16)),
];

// A start ends a hold and begins with G00 G53 G90.
pub(crate) const STARTED_ANEW: &[Row] = &[
    (&[Run(8, 7), Ticks(13), Halt(8), Ticks(1)], Done),
    (&[], Shows(8, 7, 270, 180, 0, 0x8A, 527)),
    (&[Run(9, 6)], Shows(9, 2, 270, 80, 0, 0x0A, 527)),
    (&[Ticks(1)], Shows(9, 0, 270, 80, -90, 0x0A, 527)),
    (&[Ticks(5)], Shows(9, 0, 190, 80, -10, 0x0A, 519)),
    (&[Ticks(1)], Shows(9, 0, 180, 80, 0, 0x8E, 518)),
    (&[Resume(9), Ticks(2)], Shows(9, 0, 180, 80, 0, 0x8E, 518)),
    (&[Resume(9), Ticks(1)], Shows(9, 2, 180, 80, 0, 0x8E, 518)),
    (&[Resume(9)], No(16)),
];

// So does a move, which takes no offset, and every order but stop, take-over and 17.
pub(crate) const HOLD_ENDED: &[Row] = &[
    (&[Run(8, 7), Ticks(2), Halt(8), Ticks(1)], Done),
    (&[], Shows(8, 7, 190, 180, 0, 0x8A, 519)),
    (&[To(0)], Shows(6, 2, 190, 80, -110, 0x0A, 519)),
    (&[Ticks(20)], Shows(6, 2, 80, 80, 0, 0x8E, 508)),
    (&[Run(8, 7), Ticks(1), Halt(8), Ticks(1)], Done),
    (&[], Shows(8, 7, 80, 180, 0, 0x8A, 508)),
    (&[Set(13, 0)], Shows(13, 2, 80, 80, 0, 0x8A, 508)),
    (&[Resume(8)], No(16)),
    (&[Run(9, 7), Halt(9), Set(4, 0)], Done),
    (&[Resume(9)], No(16)),
    (&[Run(9, 7), Halt(9), REFERENCE], Done),
    (&[Resume(9)], No(16)),
    (&[], Shows(5, 2, 0, 80, 0, 0x8E, 508)),
];

// The store alone lets a held program go.
pub(crate) const LET_GO: &[Row] = &[
    (&[Run(8, 7), Halt(8), Drop(7)], Done),
    (&[Resume(8)], At(17, 7, 0)),
    (&[Run(8, 7)], At(14, 7, 0)),
    (&[Run(8, 6), Ticks(1), Halt(8), Ticks(1)], Done),
    (&[Drop(6), OFF], Done),
    (&[Resume(9)], At(17, 6, 1)),
    (&[Delete], Shows(4, 2, 0, 0, 0, 0xE0, 508)),
    (&[Resume(9)], No(7)),
];

pub(crate) const TROUBLE: &[Row] = &[
    (&[Levels(false, true, true), To(100)], Done),
    (&[Ticks(1)], At(23, 0, 0)),
    (&[], Shows(6, 2, 0, 0, 0, 0xA2, 500)),
    (&[To(100)], No(12)),
    (&[Set(17, 0)], Shows(6, 2, 0, 0, 0, 0xA2, 500)),
    (&[REFERENCE, Levels(true, false, true)], Done),
    (&[Order(7, Backward, 1_800, 10)], Done),
    (&[Ticks(1)], No(23)),
    // a switch behind, and both without a pulse to run
    (&[REFERENCE, To(100), Ticks(7)], Done),
    (&[Levels(true, true, true), To(100), Ticks(1)], Done),
    (&[], Shows(6, 2, 100, 0, 0, 0x8E, 510)),
];

pub(crate) const TROUBLE_BRAKING: &[Row] = &[
    (&[Levels(false, true, true), To(0), Ticks(2)], Done),
    (&[Halt(6), Levels(true, true, false)], Done),
    (&[Ticks(1)], At(24, 0, 0)),
    (&[], Shows(6, 2, 70, 0, 0, 0xA2, 507)),
    (&[REFERENCE, READY, To(100), Ticks(1), Halt(6)], Done),
    (&[Levels(false, true, true)], Done),
    (&[Ticks(1)], At(23, 0, 0)),
    (&[], Shows(6, 2, 10, 0, 0, 0xA2, 508)),
    // not ready, without a pulse to run
    (&[REFERENCE, To(0), OFF], Done),
    (&[Ticks(1)], At(24, 0, 0)),
    (&[], Shows(6, 2, 0, 0, 0, 0xA2, 508)),
    (&[REFERENCE], Shows(5, 2, 0, 0, 0, 0x8E, 508)),
];

const BEYOND: &[&[u8]] = &[b"M07", b"G54 X199.901 M05", b"M02"];

const TO_HIGH: &[&[u8]] = &[b"G54 X199.9 F2 M05", b"M30"];

// Blocks that are refused, and faults while a block moves.
pub(crate) const REFUSED_BLOCKS: &[Row] = &[
    (&[Keep(1, Millimetre, BEYOND)], Done),
    (&[Keep(2, Millimetre, TO_HIGH)], Done),
    (&[Keep(3, Millimetre, &[b"G01 X300 F1801 M30"])], Done),
    (&[Keep(4, Millimetre, &[b"G91 X-1.001 M30"])], Done),
    (&[Keep(5, Millimetre, &[b"G91 X-0.1 M30"])], Done),
    (&[Run(8, 1), Levels(true, true, false)], Done),
    (&[Ticks(1)], Shows(8, 7, 0, 0, 0, 0x0E, 508)),
    (&[Ticks(1)], At(19, 1, 2)),
    (&[], Shows(8, 7, 0, 0, 0, 0x8E, 508)),
    (&[Resume(9)], No(16)),
    (&[Set(17, 0)], Shows(8, 7, 0, 0, 0, 0x8E, 508)),
    (&[Run(8, 2)], Done),
    (&[Ticks(1)], At(21, 2, 1)),
    (&[Run(9, 3)], Shows(9, 2, 0, 0, 0, 0x0E, 508)),
    (&[Ticks(1)], At(18, 3, 1)),
    (&[Run(9, 4)], Done),
    (&[Ticks(1)], At(19, 4, 1)),
];

pub(crate) const SWITCH_IN_PROGRAM: &[Row] = &[
    (&[Levels(true, true, true), Run(8, 2), Ticks(1)], Done),
    (&[], Shows(8, 5, 0, 100, 200_000, 0x0A, 508)),
    (&[Ticks(1)], At(23, 2, 1)),
    (&[], Shows(8, 5, 0, 0, 0, 0xA2, 508)),
    (&[Run(8, 2)], At(12, 2, 0)),
];

pub(crate) const TROUBLE_BY_BLOCK: &[Row] = &[
    (&[REFERENCE, READY, Run(9, 5), Ticks(3)], Done),
    (&[OFF], Shows(9, 30, -30, 0, -70, 0x0A, 505)),
    (&[Ticks(1)], At(24, 5, 1)),
    (&[], Shows(9, 30, -30, 0, 0, 0xA2, 505)),
    (&[Set(17, 0), REFERENCE, READY, Run(8, 5)], Done),
    (&[Ticks(4), Halt(8), Ticks(1)], Done),
    (&[], Shows(8, 30, -70, 0, -30, 0x0A, 498)),
    (&[Levels(true, false, true)], Done),
    (&[Ticks(1)], At(23, 5, 1)),
    (&[], Shows(8, 30, -70, 0, 0, 0xA2, 498)),
    (&[REFERENCE], Done),
    (&[Resume(8)], No(16)),
    (&[READY, Run(8, 5), Ticks(2), Halt(8)], Done),
    (&[Levels(true, false, false)], Done),
    (&[Ticks(1)], At(24, 5, 1)),
    (&[], Shows(8, 30, -10, 0, 0, 0xA2, 497)),
];

// Data entered and deleted: standing, braking and held. The levels stay.
pub(crate) const DATA: &[Row] = &[
    (&[WRONG], At(4, 0, 0)),
    (&[APART], At(5, 0, 0)),
    (&[Delete], At(7, 0, 0)),
    (&[Levels(false, true, true)], Done),
    (&[DEGREES], Shows(4, 2, 0, 0, 0, 0xA1, 500)),
    (&[INCHES], Shows(4, 2, 0, 0, 0, 0xA0, 500)),
    (&[REFERENCE], Shows(5, 2, 105, 0, 0, 0x8C, 500)),
    (&[WRONG], No(4)),
    (&[APART], No(5)),
];

pub(crate) const DATA_OF_INCHES: &[Row] = &[
    (&[Order(6, Start, 181, 0)], No(18)),
    (&[Order(6, Start, 180, 0)], Done),
    (&[], Shows(6, 2, 105, 0, -105, 0x08, 500)),
    (&[Ticks(20)], Shows(6, 2, 0, 0, 0, 0x8C, 489)),
    (&[Order(6, Start, 180, 100)], Done),
    (&[Ticks(1)], No(23)),
    (&[], Shows(6, 2, 0, 0, 0, 0xA0, 489)),
    (&[REFERENCE, READY, Set(12, 5), Set(15, 7)], Done),
    (&[Keep(5, Inch, &[b"G54 X0.01 M30"]), Run(8, 5)], Done),
    (&[Ticks(1)], Shows(8, 30, 105, 112, 107, 0x08, 489)),
    (&[Ticks(7)], Shows(8, 30, 212, 12, 0, 0x8C, 499)),
];

pub(crate) const DATA_HELD: &[Row] = &[
    (&[Run(9, 5), Ticks(1), Halt(9)], Done),
    (&[WRONG, Delete], At(3, 0, 0)),
    (&[Ticks(1)], Shows(9, 30, 212, 112, 0, 0x88, 499)),
    (&[Set(6, 0)], No(13)),
    (&[AXIS], Shows(4, 2, 0, 0, 0, 0xA2, 499)),
    (&[REFERENCE], Shows(5, 2, 0, 0, 0, 0x8E, 499)),
    (&[Run(8, 5)], No(15)),
    (&[Levels(false, true, true)], Done),
    (&[Delete], Shows(4, 2, 0, 0, 0, 0xE0, 499)),
    (&[Delete], No(7)),
    (&[AXIS, REFERENCE], Shows(5, 2, 0, 0, 0, 0x8E, 499)),
    (&[Order(7, Forward, 1_800, 10)], Done),
    (&[Ticks(1)], No(23)),
];
