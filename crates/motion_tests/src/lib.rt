// Tests of motion by table: every end of every range, ramps at their longest, moves at their shortest and longest.
#![tactic(auto)]

#[cfg(test)]
mod tests {
    use motion::{DataFault, MachineData, Mover, Passed, RawData};
    use std::test::Fail;
    use units::Measure;

    const AXIS: RawData = RawData {
        fm: 3_000_000,
        fs: 1_000_000,
        increase: 1_000_000,
        duration: 5,
        patterns: 4,
        units: 4_000,
        pulses: 400,
        low: -1_000,
        high: 200_000,
        reference: 0,
        offsets: [0, 0, 0, 0],
        measure: Measure::Millimetre,
    };

    // The number of the fault of machine data, 0 where they are taken.
    fn answer(raw: RawData) -> u8 {
        match MachineData::try_from(raw) {
            Ok(_) => 0,
            Err(fault) => fault.number(),
        }
    }

    #[test]
    fn frequencies(rt: HostRuntime) {
        // maximum, start and stop frequency, increase, fault
        let table = [
            (39_999, 1_000, 1_000_000, 4),
            (40_000, 1_000, 1_000_000, 0),
            (100_000_000, 10_000_000, 2_599_999, 0),
            (100_000_001, 10_000_000, 2_599_999, 4),
            (40_000, 999, 1_000_000, 4),
            (100_000_000, 10_000_001, 2_599_999, 4),
            (40_000, 39_000, 19, 4),
            (40_000, 39_000, 20, 0),
            (100_000_000, 10_000_000, 2_600_000, 4),
            (0, 0, 0, 4),
            (4_294_967_295, 4_294_967_295, 4_294_967_295, 4),
            (40_000, 40_000, 20, 0),
            (40_000, 40_001, 20, 5),
            (40_000, 18_055, 20, 0),
            (40_000, 18_054, 20, 5),
            (100_000_000, 10_000_000, 20, 5),
        ];
        for (fm, fs, increase, fault) in table {
            assert_eq!(rt;
                answer(RawData {
                    fm,
                    fs,
                    increase,
                    ..AXIS
                }),
                fault
            );
        }
    }

    #[test]
    fn signal_and_gear(rt: HostRuntime) {
        // pulse duration, patterns, units and pulses per turn, fault
        let table = [
            (0, 4, 4_000, 400, 4),
            (1, 4, 1, 1, 0),
            (31, 40, 1_000_000, 10_000, 0),
            (32, 4, 4_000, 400, 4),
            (5, 3, 4_000, 400, 4),
            (5, 41, 4_000, 400, 4),
            (5, 4, 0, 400, 4),
            (5, 4, 1_000_001, 400, 4),
            (5, 4, 4_000, 0, 4),
            (5, 4, 4_000, 10_001, 4),
        ];
        for (duration, patterns, units, pulses, fault) in table {
            assert_eq!(rt;
                answer(RawData {
                    duration,
                    patterns,
                    units,
                    pulses,
                    ..AXIS
                }),
                fault
            );
        }
    }

    #[test]
    fn limits(rt: HostRuntime) {
        // low, high, reference coordinate, fault
        let table = [
            (-40_000_000, 40_000_000, 0, 0),
            (-40_000_001, 40_000_000, 0, 4),
            (-40_000_000, 40_000_001, 0, 4),
            (40_000_001, 40_000_000, 0, 4),
            (-40_000_000, -40_000_001, 0, 4),
            (-40_000_000, 40_000_000, -40_000_000, 0),
            (-40_000_000, 40_000_000, 40_000_000, 0),
            (-40_000_000, 40_000_000, -40_000_001, 4),
            (-40_000_000, 40_000_000, 40_000_001, 4),
            (39_999_999, 40_000_000, 40_000_000, 0),
            (7, 7, 7, 5),
            (7, 6, 7, 5),
            (7, 8, 6, 5),
            (7, 8, 7, 0),
            (7, 8, 8, 0),
            (7, 8, 9, 5),
            (-2_147_483_648, 2_147_483_647, 0, 4),
            // a range comes before an agreement
            (8, 7, 40_000_001, 4),
        ];
        for (low, high, reference, fault) in table {
            assert_eq!(rt;
                answer(RawData {
                    low,
                    high,
                    reference,
                    ..AXIS
                }),
                fault
            );
        }
    }

    #[test]
    fn offsets(rt: HostRuntime) {
        let table = [
            ([-40_000_000, 40_000_000, -40_000_000, 40_000_000], 0),
            ([-40_000_001, 0, 0, 0], 4),
            ([0, 40_000_001, 0, 0], 4),
            ([0, 0, -40_000_001, 0], 4),
            ([0, 0, 0, 40_000_001], 4),
            ([40_000_001, 0, 0, 0], 4),
            ([0, -40_000_001, 0, 0], 4),
            ([0, 0, 40_000_001, 0], 4),
            ([0, 0, 0, -40_000_001], 4),
        ];
        for (offsets, fault) in table {
            assert_eq!(rt; answer(RawData { offsets, ..AXIS }), fault);
        }
    }

    #[test]
    fn numbers(rt: HostRuntime) {
        let faults = [DataFault::OutOfRange, DataFault::Disagree];
        assert_eq!(rt; faults.map(|fault| fault.number()), [4, 5]);
    }

    #[test]
    fn places(rt: HostRuntime) -> Result<(), Fail> {
        // units and pulses per turn; a coordinate and its pulses; pulses and their nearest unit
        let table = [
            (4_000, 400, 0, 0, 5, 50),
            (4_000, 400, 5, 1, -5, -50),
            (4_000, 400, -5, 0, 1, 10),
            (1_000, 300, 0, 0, 5, 17),
            (1_000, 300, 5, 2, -5, -17),
            (1_000, 300, -5, -1, 1, 3),
            (10, 1, 0, 0, 5, 50),
            (10, 1, 5, 1, -5, -50),
            (10, 1, -5, 0, 1, 10),
            (
                10,
                1,
                40_000_000,
                4_000_000,
                2_400_000_000_000,
                24_000_000_000_000,
            ),
            (
                10,
                1,
                -40_000_000,
                -4_000_000,
                -2_400_000_000_000,
                -24_000_000_000_000,
            ),
            (
                10,
                1,
                -2_147_483_648,
                -214_748_365,
                -9_223_372_036_854_775_808,
                -92_233_720_368_547_758_080,
            ),
            (
                10,
                1,
                2_147_483_647,
                214_748_365,
                9_223_372_036_854_775_807,
                92_233_720_368_547_758_070,
            ),
            (3, 10, 0, 0, 5, 2),
            (3, 10, 5, 17, -5, -1),
            (3, 10, -5, -17, 1, 0),
            (
                3,
                10,
                40_000_000,
                133_333_333,
                2_400_000_000_000,
                720_000_000_000,
            ),
            (
                3,
                10,
                -40_000_000,
                -133_333_333,
                -2_400_000_000_000,
                -720_000_000_000,
            ),
            (
                3,
                10,
                -2_147_483_648,
                -7_158_278_827,
                -9_223_372_036_854_775_808,
                -2_767_011_611_056_432_742,
            ),
            (
                3,
                10,
                2_147_483_647,
                7_158_278_823,
                9_223_372_036_854_775_807,
                2_767_011_611_056_432_742,
            ),
            (1, 10_000, 0, 0, 5, 0),
            (1, 10_000, 5, 50_000, -5, 0),
            (1, 10_000, -5, -50_000, 1, 0),
            (
                1,
                10_000,
                40_000_000,
                400_000_000_000,
                2_400_000_000_000,
                240_000_000,
            ),
            (
                1,
                10_000,
                -40_000_000,
                -400_000_000_000,
                -2_400_000_000_000,
                -240_000_000,
            ),
            (
                1,
                10_000,
                -2_147_483_648,
                -21_474_836_480_000,
                -9_223_372_036_854_775_808,
                -922_337_203_685_478,
            ),
            (
                1,
                10_000,
                2_147_483_647,
                21_474_836_470_000,
                9_223_372_036_854_775_807,
                922_337_203_685_478,
            ),
            (1_000_000, 1, 0, 0, 5, 5_000_000),
            (1_000_000, 1, 5, 0, -5, -5_000_000),
            (1_000_000, 1, -5, 0, 1, 1_000_000),
            (
                1_000_000,
                1,
                40_000_000,
                40,
                2_400_000_000_000,
                2_400_000_000_000_000_000,
            ),
            (
                1_000_000,
                1,
                -40_000_000,
                -40,
                -2_400_000_000_000,
                -2_400_000_000_000_000_000,
            ),
            (
                1_000_000,
                1,
                -2_147_483_648,
                -2_147,
                -9_223_372_036_854_775_808,
                -9_223_372_036_854_775_808_000_000,
            ),
            (
                1_000_000,
                1,
                2_147_483_647,
                2_147,
                9_223_372_036_854_775_807,
                9_223_372_036_854_775_807_000_000,
            ),
            (1_000_000, 10_000, 0, 0, 5, 500),
            (1_000_000, 10_000, 5, 0, -5, -500),
            (1_000_000, 10_000, -5, 0, 1, 100),
            (
                1_000_000,
                10_000,
                40_000_000,
                400_000,
                2_400_000_000_000,
                240_000_000_000_000,
            ),
            (
                1_000_000,
                10_000,
                -40_000_000,
                -400_000,
                -2_400_000_000_000,
                -240_000_000_000_000,
            ),
            (
                1_000_000,
                10_000,
                -2_147_483_648,
                -21_474_836,
                -9_223_372_036_854_775_808,
                -922_337_203_685_477_580_800,
            ),
            (
                1_000_000,
                10_000,
                2_147_483_647,
                21_474_836,
                9_223_372_036_854_775_807,
                922_337_203_685_477_580_700,
            ),
            (1, 1, 0, 0, 5, 5),
            (1, 1, 5, 5, -5, -5),
            (1, 1, -5, -5, 1, 1),
            (
                1,
                1,
                40_000_000,
                40_000_000,
                2_400_000_000_000,
                2_400_000_000_000,
            ),
            (
                1,
                1,
                -40_000_000,
                -40_000_000,
                -2_400_000_000_000,
                -2_400_000_000_000,
            ),
            (
                1,
                1,
                -2_147_483_648,
                -2_147_483_648,
                -9_223_372_036_854_775_808,
                -9_223_372_036_854_775_808,
            ),
            (
                1,
                1,
                2_147_483_647,
                2_147_483_647,
                9_223_372_036_854_775_807,
                9_223_372_036_854_775_807,
            ),
        ];
        for (units, pulses, coordinate, of_coordinate, n, nearest) in table {
            let machine = MachineData::try_from(RawData {
                units,
                pulses,
                ..AXIS
            })?;
            let found = (machine.pulses_of(coordinate), machine.nearest_to(n));
            assert!(rt; found == (of_coordinate, nearest), "{coordinate} {n}");
        }
        Ok(())
    }

    #[test]
    fn held_coordinates(rt: HostRuntime) -> Result<(), Fail> {
        let machine = MachineData::try_from(AXIS)?;
        // pulses from zero, start, target, coordinate
        let table = [
            (8, 0, 100, 80),
            (11, 0, 100, 100),
            (-1, 0, 100, 0),
            (5, 100, 0, 50),
            (-3, 100, 0, 0),
            (
                9_223_372_036_854_775_807,
                -2_147_483_648,
                2_147_483_647,
                2_147_483_647,
            ),
            (
                -9_223_372_036_854_775_808,
                -2_147_483_648,
                2_147_483_647,
                -2_147_483_648,
            ),
            (7, 70, 70, 70),
        ];
        for (n, start, target, coordinate) in table {
            assert_eq!(rt; machine.coordinate(n, start, target), coordinate);
        }
        Ok(())
    }

    #[test]
    fn rates(rt: HostRuntime) -> Result<(), Fail> {
        // measure, units and pulses per turn, speed, rate
        let table = [
            (Measure::Millimetre, 4_000, 400, 1_800, 3_000_000),
            (Measure::Inch, 4_000, 400, 1_800, 30_000_000),
            (Measure::Degree, 4_000, 400, 1_800, 3_000_000),
            (Measure::Inch, 1, 10_000, 65_535, 109_225_000_000_000),
            (Measure::Inch, 1_000_000, 1, 0, 0),
            (Measure::Millimetre, 1_000_000, 1, 1, 0),
            (Measure::Degree, 1_000_000, 1, 59, 0),
            (Measure::Degree, 1_000_000, 1, 60, 1),
            (Measure::Millimetre, 7, 3, 11, 78_571),
        ];
        for (measure, units, pulses, speed, rate) in table {
            let machine = MachineData::try_from(RawData {
                measure,
                units,
                pulses,
                ..AXIS
            })?;
            assert_eq!(rt; machine.rate_of(speed), rate);
        }
        Ok(())
    }

    #[test]
    fn moves(rt: HostRuntime) -> Result<(), Fail> {
        // maximum, start and stop frequency, increase; rate, distance; ticks, pulses
        let table = [
            (3_000_000, 1_000_000, 1_000_000, 3_000_000, 10, 7, 10),
            (3_000_000, 1_000_000, 1_000_000, 3_000_000, -10, 7, 10),
            (3_000_000, 1_000_000, 1_000_000, 3_000_000, 1, 2, 1),
            (3_000_000, 1_000_000, 1_000_000, 3_000_000, -1, 2, 1),
            (3_000_000, 1_000_000, 1_000_000, 3_000_000, 0, 1, 0),
            (3_000_000, 1_000_000, 1_000_000, 0, 0, 1, 0),
            (3_000_000, 1_000_000, 1_000_000, 500_000, 3, 7, 3),
            (3_000_000, 1_000_000, 1_000_000, 2_000_000, 1, 2, 1),
            (3_000_000, 1_000_000, 1_000_000, 2_000_001, 5, 5, 5),
            (
                3_000_000, 1_000_000, 1_000_000, 3_000_000, 1_000, 337, 1_000,
            ),
            (
                3_000_000,
                1_000_000,
                1_000_000,
                4_294_967_295,
                1_000,
                337,
                1_000,
            ),
            (
                3_000_000,
                1_000_000,
                1_000_000,
                18_446_744_073_709_551_615,
                1_000,
                337,
                1_000,
            ),
            (3_000_000, 1_000_000, 1_000_000, 999_999, 2, 3, 2),
            (100_000_000, 10_000_000, 2_599_999, 100_000_000, 1, 1, 1),
            (100_000_000, 10_000_000, 2_599_999, 100_000_000, 9, 1, 9),
            (100_000_000, 10_000_000, 2_599_999, 100_000_000, 10, 2, 10),
            (100_000_000, 10_000_000, 2_599_999, 100_000_000, 11, 2, 11),
            (
                100_000_000,
                10_000_000,
                2_599_999,
                100_000_000,
                5_000,
                98,
                5_000,
            ),
            (40_000, 40_000, 20, 40_000, 1, 26, 1),
            (40_000, 18_055, 20, 40_000, 300, 8_650, 300),
        ];
        for (fm, fs, increase, rate, distance, ticks, pulses) in table {
            let mut mover = Mover::new(MachineData::try_from(RawData {
                fm,
                fs,
                increase,
                ..AXIS
            })?);
            mover.begin(rate, distance);
            let mut sent = 0u64;
            for turn in 1..=ticks {
                let passed = mover.tick();
                sent = sent.saturating_add(passed.pulses);
                assert_eq!(rt; passed.ended, turn == ticks);
            }
            assert_eq!(rt; sent, pulses);
        }
        Ok(())
    }

    // What three ticks and then three braking ticks of the axis send.
    fn stopped(rate: u64, distance: i64) -> Result<[u64; 6], DataFault> {
        let mut mover = Mover::new(MachineData::try_from(AXIS)?);
        mover.begin(rate, distance);
        let passed = [
            mover.tick(),
            mover.tick(),
            mover.tick(),
            mover.brake(),
            mover.brake(),
            mover.brake(),
        ];
        Ok(passed.map(|passed| passed.pulses))
    }

    #[test]
    fn stops(rt: HostRuntime) -> Result<(), Fail> {
        // the longest distances there are among them
        for distance in [10, i64::MAX, i64::MIN] {
            assert_eq!(rt; stopped(3_000_000, distance)?, [1, 2, 2, 2, 1, 0]);
        }
        Ok(())
    }

    // Without a move the first braking tick stands.
    #[test]
    fn standing(rt: HostRuntime) -> Result<(), Fail> {
        let mut mover = Mover::new(MachineData::try_from(AXIS)?);
        let standing = Passed {
            pulses: 0,
            ended: true,
        };
        assert_eq!(rt; [mover.brake(), Passed::STANDING], [standing; 2]);
        mover.begin(3_000_000, 10);
        assert!(rt; mover.step() == 0 && mover.brake().ended);
        Ok(())
    }
}
