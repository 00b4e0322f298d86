// Lines with the answers that the rules give them.
#![tactic(auto)]

#[cfg(test)]
mod tests {
    use reader::{Block, Motion, OffsetChoice, Way, read_line};
    use std::process::Abort;
    use std::test::Fail;
    use units::Measure;

    // A line in millimetres, and its block.
    type Says = (&'static [u8], Block);

    const NOTHING: Block = Block {
        number: None,
        motion: None,
        offset: None,
        way: None,
        target: None,
        feed: None,
        auxiliary: None,
    };

    const G00: Option<Motion> = Some(Motion::Rapid);

    const G01: Option<Motion> = Some(Motion::Feed);

    const G53: Option<OffsetChoice> = Some(OffsetChoice::Without);

    const G54: Option<OffsetChoice> = Some(OffsetChoice::First);

    const G55: Option<OffsetChoice> = Some(OffsetChoice::Second);

    const G56: Option<OffsetChoice> = Some(OffsetChoice::Third);

    const G57: Option<OffsetChoice> = Some(OffsetChoice::Fourth);

    const G90: Option<Way> = Some(Way::Absolute);

    const G91: Option<Way> = Some(Way::Relative);

    // An X word, and its units.
    type InUnits = (&'static [u8], Measure, i32);

    // A line in millimetres of a new program, with the number and the byte of its fault.
    type Refused = (&'static [u8], u8, usize);

    const WORDS: [Says; 27] = [
        (
            b"N1",
            Block {
                number: Some(1),
                ..NOTHING
            },
        ),
        (
            b"G00",
            Block {
                motion: G00,
                ..NOTHING
            },
        ),
        (
            b"G01",
            Block {
                motion: G01,
                ..NOTHING
            },
        ),
        (
            b"G53",
            Block {
                offset: G53,
                ..NOTHING
            },
        ),
        (
            b"G54",
            Block {
                offset: G54,
                ..NOTHING
            },
        ),
        (
            b"G55",
            Block {
                offset: G55,
                ..NOTHING
            },
        ),
        (
            b"G56",
            Block {
                offset: G56,
                ..NOTHING
            },
        ),
        (
            b"G57",
            Block {
                offset: G57,
                ..NOTHING
            },
        ),
        (
            b"G90",
            Block {
                way: G90,
                ..NOTHING
            },
        ),
        (
            b"G91",
            Block {
                way: G91,
                ..NOTHING
            },
        ),
        (
            b"X0",
            Block {
                target: Some(0),
                ..NOTHING
            },
        ),
        (
            b"F1",
            Block {
                feed: Some(1),
                ..NOTHING
            },
        ),
        (
            b"M00",
            Block {
                auxiliary: Some(0),
                ..NOTHING
            },
        ),
        (
            b"M30",
            Block {
                auxiliary: Some(30),
                ..NOTHING
            },
        ),
        (
            b"M99",
            Block {
                auxiliary: Some(99),
                ..NOTHING
            },
        ),
        (
            b"N10 G01 G54 G90 X10 F100 M30",
            Block {
                number: Some(10),
                motion: G01,
                offset: G54,
                way: G90,
                target: Some(10000),
                feed: Some(100),
                auxiliary: Some(30),
            },
        ),
        (
            b"N10G01G54G90X10F100M30",
            Block {
                number: Some(10),
                motion: G01,
                offset: G54,
                way: G90,
                target: Some(10000),
                feed: Some(100),
                auxiliary: Some(30),
            },
        ),
        (
            b"G91 G57 G00",
            Block {
                motion: G00,
                offset: G57,
                way: G91,
                ..NOTHING
            },
        ),
        (
            b"N7 M02",
            Block {
                number: Some(7),
                auxiliary: Some(2),
                ..NOTHING
            },
        ),
        (
            b"  N5   X1  ",
            Block {
                number: Some(5),
                target: Some(1000),
                ..NOTHING
            },
        ),
        (
            b"N9999",
            Block {
                number: Some(9999),
                ..NOTHING
            },
        ),
        (
            b"N0001",
            Block {
                number: Some(1),
                ..NOTHING
            },
        ),
        (
            b"N0000000000000000000000000000000000000007",
            Block {
                number: Some(7),
                ..NOTHING
            },
        ),
        (
            b"F65000",
            Block {
                feed: Some(65000),
                ..NOTHING
            },
        ),
        (
            b"F0000000001",
            Block {
                feed: Some(1),
                ..NOTHING
            },
        ),
        (
            b"F0000000000000000000000000000000000065000",
            Block {
                feed: Some(65000),
                ..NOTHING
            },
        ),
        (
            b"                                                                             N42",
            Block {
                number: Some(42),
                ..NOTHING
            },
        ),
    ];

    const REMARKS: [Says; 8] = [
        (
            b"(remark)N1",
            Block {
                number: Some(1),
                ..NOTHING
            },
        ),
        (
            b"N1(remark)",
            Block {
                number: Some(1),
                ..NOTHING
            },
        ),
        (
            b"N1 (a) X2 (b)",
            Block {
                number: Some(1),
                target: Some(2000),
                ..NOTHING
            },
        ),
        (
            b"G00()G53",
            Block {
                motion: G00,
                offset: G53,
                ..NOTHING
            },
        ),
        (
            b"(a(b)X1",
            Block {
                target: Some(1000),
                ..NOTHING
            },
        ),
        (
            b"(% n X.)N3",
            Block {
                number: Some(3),
                ..NOTHING
            },
        ),
        (
            b"(\xc3\xa4\xff\x00)X1",
            Block {
                target: Some(1000),
                ..NOTHING
            },
        ),
        (
            b"( )( )M02( )",
            Block {
                auxiliary: Some(2),
                ..NOTHING
            },
        ),
    ];

    const NUMBERS: [InUnits; 28] = [
        (b"X1", Measure::Millimetre, 1000),
        (b"X+1", Measure::Millimetre, 1000),
        (b"X-1", Measure::Millimetre, -1000),
        (b"X1.", Measure::Millimetre, 1000),
        (b"X-1.", Measure::Millimetre, -1000),
        (b"X1.5", Measure::Millimetre, 1500),
        (b"X1.25", Measure::Millimetre, 1250),
        (b"X1.125", Measure::Millimetre, 1125),
        (b"X0.001", Measure::Millimetre, 1),
        (b"X-0.001", Measure::Millimetre, -1),
        (b"X00000", Measure::Millimetre, 0),
        (b"X-0", Measure::Millimetre, 0),
        (b"X00012", Measure::Millimetre, 12000),
        (b"X40000", Measure::Millimetre, 40000000),
        (b"X-40000", Measure::Millimetre, -40000000),
        (b"X40000.000", Measure::Millimetre, 40000000),
        (b"X39999.999", Measure::Millimetre, 39999999),
        (b"X+12345.678", Measure::Millimetre, 12345678),
        (b"X1", Measure::Inch, 10000),
        (b"X1.2345", Measure::Inch, 12345),
        (b"X0.0001", Measure::Inch, 1),
        (b"X-0.5", Measure::Inch, -5000),
        (b"X4000", Measure::Inch, 40000000),
        (b"X-4000.0000", Measure::Inch, -40000000),
        (b"X3999.9999", Measure::Inch, 39999999),
        (b"X360", Measure::Degree, 360000),
        (b"X0.001", Measure::Degree, 1),
        (b"X-40000.", Measure::Degree, -40000000),
    ];

    const PASSED: [(&'static [u8], usize); 11] = [
        (b"", 0),
        (b" ", 0),
        (b"(only)", 0),
        (b"()", 0),
        (b" (a) (b) ", 0),
        (b"%", 0),
        (b"%1 any (text) is\tnot read", 0),
        (
            b"%xxxxxxxxxxxxxxxxxxxxxxxxxxxxxxxxxxxxxxxxxxxxxxxxxxxxxxxxxxxxxxxxxxxxxxxxxxxxxxx",
            0,
        ),
        (
            b"                                                                                ",
            0,
        ),
        (
            b"                                                                                ",
            63,
        ),
        (b"(r)", 63),
    ];

    // Lines of programs with so many blocks, that are past a limit.
    const LIMITS: [(&'static [u8], usize); 9] = [
        (
            b"                                                                                 ",
            0,
        ),
        (
            b"%xxxxxxxxxxxxxxxxxxxxxxxxxxxxxxxxxxxxxxxxxxxxxxxxxxxxxxxxxxxxxxxxxxxxxxxxxxxxxxxx",
            0,
        ),
        (
            b"N1                                                                               ",
            0,
        ),
        (b"N1", 64),
        (b"", 64),
        (b"(r)", 64),
        (b"%", 64),
        (b"n", 65),
        (b"N1", usize::MAX),
    ];

    const FORMS: [Refused; 62] = [
        (b"n1", 32, 0),
        (b"N1 x1", 32, 3),
        (b"\tN1", 32, 0),
        (b"N1\tX1", 32, 2),
        (b"N1\r", 32, 2),
        (b")", 32, 0),
        (b"N1)", 32, 2),
        (b"1", 32, 0),
        (b"N1 5", 32, 3),
        (b"+1", 32, 0),
        (b".", 32, 0),
        (b"A1", 32, 0),
        (b"L1", 32, 0),
        (b"Y5", 32, 0),
        (b"N1 H2", 32, 3),
        (b"N1,X1", 32, 2),
        (b" %", 32, 1),
        (b"\xc3\xa4", 32, 0),
        (b"N1\xff", 32, 2),
        (b"N1 \x00", 32, 3),
        (b"N", 32, 0),
        (b"N 1", 32, 0),
        (b"N+1", 32, 0),
        (b"N-1", 32, 0),
        (b"N1.", 32, 0),
        (b"F", 32, 0),
        (b"F1.5", 32, 0),
        (b"F-1", 32, 0),
        (b"G", 32, 0),
        (b"G1", 32, 0),
        (b"G001", 32, 0),
        (b"G-1", 32, 0),
        (b"G0.", 32, 0),
        (b"G 00", 32, 0),
        (b"M", 32, 0),
        (b"M3", 32, 0),
        (b"M030", 32, 0),
        (b"M3.", 32, 0),
        (b"X", 32, 0),
        (b"X 1", 32, 0),
        (b"X+", 32, 0),
        (b"X-", 32, 0),
        (b"X.", 32, 0),
        (b"X.5", 32, 0),
        (b"X-.5", 32, 0),
        (b"X123456", 32, 0),
        (b"X000001", 32, 0),
        (b"X1.2345", 32, 0),
        (b"X1.2.3", 32, 0),
        (b"X1..", 32, 0),
        (b"X--1", 32, 0),
        (b"X+-1", 32, 0),
        (b"X1-", 32, 0),
        (b"X1+2", 32, 0),
        (b"X1.-2", 32, 0),
        (b"(open", 32, 0),
        (b"N1 (open", 32, 3),
        (b"N1(", 32, 2),
        (b"(a)(b", 32, 3),
        (b"X1 N1 g", 32, 6),
        (b"N0 q", 32, 3),
        (b"N1 G5 X.", 32, 3),
    ];

    const ORDERS: [Refused; 34] = [
        (b"G00 N1", 33, 4),
        (b"X1 N1", 33, 3),
        (b"F1 N1", 33, 3),
        (b"M00 N1", 33, 4),
        (b"X1 G00", 33, 3),
        (b"F1 G90", 33, 3),
        (b"M00 G53", 33, 4),
        (b"F1 X1", 33, 3),
        (b"M00 X1", 33, 4),
        (b"M00 F1", 33, 4),
        (b"N1 N1", 33, 3),
        (b"X1 X1", 33, 3),
        (b"F1 F2", 33, 3),
        (b"M00 M01", 33, 4),
        (b"G00 G01", 33, 4),
        (b"G01 G00", 33, 4),
        (b"G00 G00", 33, 4),
        (b"G01G01", 33, 3),
        (b"G53 G57", 33, 4),
        (b"G54 G53", 33, 4),
        (b"G55 G56", 33, 4),
        (b"G56 G55", 33, 4),
        (b"G57 G57", 33, 4),
        (b"G90 G91", 33, 4),
        (b"G91 G90", 33, 4),
        (b"G90 G90", 33, 4),
        (b"N1 G00 G90 G01", 33, 11),
        (b"N1 G54 G91 G56 X1", 33, 11),
        (b"X1 (r) N1", 33, 7),
        (b"(r)G00G01", 33, 6),
        (b"N1 X1 F1 X2 N2", 33, 9),
        (b"N0 N1", 33, 3),
        (b"G99 G00 G01", 33, 8),
        (b"N99999 G00 G01", 33, 11),
    ];

    const RANGES: [Refused; 24] = [
        (b"N0", 34, 0),
        (b"N00000", 34, 0),
        (b"N10000", 34, 0),
        (b"N9999999999999999999999999999999999999999", 34, 0),
        (b"N10000000000000000000000000000000000000000", 34, 0),
        (b"F0", 34, 0),
        (b"F65001", 34, 0),
        (b"F99999999999999999999", 34, 0),
        (b"G02", 34, 0),
        (b"G52", 34, 0),
        (b"G58", 34, 0),
        (b"G89", 34, 0),
        (b"G92", 34, 0),
        (b"G99", 34, 0),
        (b"G99 G99", 34, 0),
        (b"G02 G03", 34, 0),
        (b"N1 G02 G00", 34, 3),
        (b"X40000.001", 34, 0),
        (b"X-40000.001", 34, 0),
        (b"X99999.999", 34, 0),
        (b"N0 F0", 34, 0),
        (b"N1 F0", 34, 3),
        (b"(r) F0", 34, 4),
        (b"N1 X99999 F0", 34, 3),
    ];

    // The same in other measures, and after some blocks.
    const OTHERS: [(&'static [u8], Measure, usize, u8, usize); 9] = [
        (b"X1.23456", Measure::Inch, 0, 32, 0),
        (b"X123456", Measure::Inch, 0, 32, 0),
        (b"X1.2345", Measure::Degree, 0, 32, 0),
        (b"%", Measure::Millimetre, 1, 32, 0),
        (b"%", Measure::Millimetre, 63, 32, 0),
        (b"X4000.0001", Measure::Inch, 0, 34, 0),
        (b"X-4000.0001", Measure::Inch, 0, 34, 0),
        (b"X40000", Measure::Inch, 0, 34, 0),
        (b"X40000.001", Measure::Degree, 0, 34, 0),
    ];

    fn fault_of(line: &[u8], measure: Measure, blocks: usize) -> Result<(u8, usize), Fail> {
        match read_line(line, measure, blocks) {
            Ok(_) => Err(Fail::new("a line was taken that is refused")),
            Err(fault) => Ok((fault.number(), fault.place())),
        }
    }

    fn all_refused(rt: &impl Abort, cases: &[Refused]) -> Result<(), Fail> {
        for (line, number, place) in cases {
            assert_eq!(rt; fault_of(*line, Measure::Millimetre, 0)?, (*number, *place));
        }
        Ok(())
    }

    fn all_say(rt: &impl Abort, cases: &[Says], blocks: usize) {
        for (line, block) in cases {
            assert_eq!(rt;
                read_line(*line, Measure::Millimetre, blocks),
                Ok(Some(*block))
            );
        }
    }

    #[test]
    fn words(rt: HostRuntime) {
        all_say(&rt, &WORDS, 0);
    }

    #[test]
    fn remarks(rt: HostRuntime) {
        all_say(&rt, &REMARKS, 63);
    }

    #[test]
    fn numbers(rt: HostRuntime) -> Result<(), Fail> {
        for (word, measure, units) in &NUMBERS {
            match read_line(*word, *measure, 0) {
                Ok(Some(block)) => assert_eq!(rt; block.target, Some(*units)),
                _ => return Err(Fail::new("an X word was not taken")),
            }
        }
        Ok(())
    }

    #[test]
    fn passed_over(rt: HostRuntime) {
        for (line, blocks) in &PASSED {
            assert_eq!(rt; read_line(*line, Measure::Degree, *blocks), Ok(None));
        }
    }

    #[test]
    fn past_limits(rt: HostRuntime) -> Result<(), Fail> {
        for (line, blocks) in &LIMITS {
            assert_eq!(rt; fault_of(*line, Measure::Inch, *blocks)?, (31, 0));
        }
        Ok(())
    }

    #[test]
    fn malformed(rt: HostRuntime) -> Result<(), Fail> {
        all_refused(&rt, &FORMS)
    }

    #[test]
    fn out_of_order(rt: HostRuntime) -> Result<(), Fail> {
        all_refused(&rt, &ORDERS)
    }

    #[test]
    fn out_of_range(rt: HostRuntime) -> Result<(), Fail> {
        all_refused(&rt, &RANGES)
    }

    #[test]
    fn other_measures(rt: HostRuntime) -> Result<(), Fail> {
        for (line, measure, blocks, number, place) in &OTHERS {
            assert_eq!(rt; fault_of(*line, *measure, *blocks)?, (*number, *place));
        }
        Ok(())
    }
}
