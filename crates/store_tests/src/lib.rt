// Runs of store calls with the answers that the rules give them.
#![tactic(auto)]

#[cfg(test)]
mod tests {
    use reader::{LineFault, read_line};
    use std::process::Abort;
    use std::test::Fail;
    use store::{Store, StoreFault};
    use units::Measure;

    #[derive(Clone, Copy)]
    enum Act {
        Open(u8),
        Add(u8, &'static [u8]),
        Close(u8),
        Abandon(u8),
        Delete(u8),
    }

    // A call, and the number that it is answered.
    type Row = (Act, Option<u8>);

    // The number of a fault.
    fn number_of(r: Result<(), StoreFault>) -> Option<u8> {
        r.err().map(|fault| fault.number())
    }

    fn answer(store: &mut Store, measure: Measure, act: Act) -> Option<u8> {
        match act {
            Act::Open(number) => number_of(store.open_number(number, measure)),
            Act::Add(number, line) => number_of(store.add_line(number, line)),
            Act::Close(number) => number_of(store.close_number(number)),
            Act::Abandon(number) => number_of(store.abandon_number(number)),
            Act::Delete(number) => number_of(store.delete(number)),
        }
    }

    // Every number of the store and of a line, and what each leaves.
    const CALLS: &[Row] = &[
        (Act::Delete(1), Some(14)),
        (Act::Open(0), Some(26)),
        (Act::Add(1, b"X1"), Some(30)),
        (Act::Close(1), Some(30)),
        (Act::Abandon(1), Some(30)),
        (Act::Open(1), None),
        (Act::Open(2), Some(29)),
        (Act::Open(1), Some(29)),
        (Act::Add(2, b"X1"), Some(30)),
        (Act::Close(2), Some(30)),
        (Act::Abandon(2), Some(30)),
        (Act::Add(1, b"%1"), None),
        (Act::Add(1, b"x1"), Some(32)),
        (Act::Add(1, b"X1 X2"), Some(33)),
        (Act::Add(1, b"F0"), Some(34)),
        (Act::Add(1, b""), None),
        (Act::Add(1, b"G01 X1 F100"), None),
        (Act::Add(1, b"%1"), Some(32)),
        (Act::Add(1, b"G00 X2"), None),
        (Act::Add(1, b"G01 X3 M30"), None),
        (Act::Close(1), None),
        (Act::Close(1), Some(30)),
        (Act::Open(1), Some(27)),
        (Act::Open(2), None),
        (Act::Delete(2), Some(14)),
        (Act::Close(2), Some(35)),
        (Act::Add(2, b"X1"), Some(30)),
        (Act::Open(2), None),
        (Act::Add(2, b"G01 X1 M02"), None),
        (Act::Close(2), Some(35)),
        (Act::Open(2), None),
        (Act::Add(2, b"X1 M30"), None),
        (Act::Add(2, b"X2 M30"), None),
        (Act::Close(2), Some(35)),
        (Act::Open(2), None),
        (Act::Add(2, b"X1"), None),
        (Act::Close(2), Some(35)),
        (Act::Open(2), None),
        (Act::Add(2, b"X1"), None),
        (Act::Abandon(2), None),
        (Act::Open(2), None),
        (Act::Add(2, b"M02"), None),
        (Act::Close(2), None),
        (Act::Delete(1), None),
    ];

    // Makes the calls; entries are opened in this measure.
    fn run(rt: &impl Abort, store: &mut Store, measure: Measure, rows: &[Row]) {
        for (row, (act, number)) in rows.iter().enumerate() {
            assert_eq!(rt; answer(store, measure, *act), *number, "row {row}");
        }
    }

    #[test]
    fn every_number(rt: HostRuntime) -> Result<(), Fail> {
        let mut store = Store::new(rt.alloc())?;
        run(&rt, &mut store, Measure::Millimetre, CALLS);
        let measures = [store.measure_of(1), store.measure_of(2)];
        assert_eq!(rt; measures, [None, Some(Measure::Millimetre)]);
        Ok(())
    }

    const LINE: &[u8] = b"G01 X1.5 F200";

    const LAST: &[u8] = b"X0 M30";

    // A program of 64 blocks; then there is no room for a line.
    fn fill(rt: &impl Abort, store: &mut Store, number: u8) {
        run(rt, store, Measure::Inch, &[(Act::Open(number), None)]);
        for _ in 0..63 {
            run(rt, store, Measure::Inch, &[(Act::Add(number, LINE), None)]);
        }
        run(
            rt,
            store,
            Measure::Inch,
            &[
                (Act::Add(number, LAST), None),
                (Act::Add(number, LINE), Some(31)),
                (Act::Add(number, b""), Some(31)),
                (Act::Close(number), None),
            ],
        );
    }

    fn is_full(rt: &impl Abort, store: &Store, number: u8) -> Result<(), LineFault> {
        let line = read_line(LINE, Measure::Inch, 0)?;
        let last = read_line(LAST, Measure::Inch, 63)?;
        for k in 0usize..65 {
            let block = match k {
                63 => last,
                64 => None,
                _ => line,
            };
            assert_eq!(rt; store.block(number, k), block, "block {k} of {number}");
        }
        assert_eq!(rt; store.measure_of(number), Some(Measure::Inch), "{number}");
        Ok(())
    }

    // Room for one program more only where one is deleted.
    const FULL: &[Row] = &[
        (Act::Open(17), Some(28)),
        (Act::Delete(9), None),
        (Act::Open(17), None),
        (Act::Abandon(17), None),
    ];

    #[test]
    fn sixteen_of_sixty_four(rt: HostRuntime) -> Result<(), Fail> {
        let mut store = Store::new(rt.alloc())?;
        for number in 1u8..17 {
            fill(&rt, &mut store, number);
        }
        for number in 1u8..17 {
            is_full(&rt, &store, number)?;
        }
        run(&rt, &mut store, Measure::Inch, FULL);
        Ok(())
    }
}
