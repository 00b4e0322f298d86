// Every number that a call of the cable can answer, in one list of calls on a new module.
#![tactic(auto)]

#[cfg(test)]
mod tests {
    use axis::Levels;
    use drives::clock_stage::ClockStage;
    use drives::drive::Drive;
    use module::{Act, Answer, Call, Drives, Fault, Module, Place, Ran, run};
    use motion::RawData;
    use states::{Command, Layer, Order, Switches};
    use std::alloc::Global;
    use std::fmt::Debug;
    use std::process::Abort;
    use std::test::Fail;
    use store::{CloseRefusal, HandedBack};
    use units::Measure;

    // What is asked, in fewer words than a call.
    #[derive(Clone, Copy)]
    enum Ask {
        Data(u8, Data),
        NoData(u8),
        Order(u8, u8, Command, u8, u16, i32),
        Levels(u8, bool, bool),
        Tick(u8),
        Observe(u8),
        Open(u8, Measure),
        Add(u8, &'static [u8]),
        Close(u8),
        Abandon(u8),
        Delete(u8),
    }

    #[derive(Clone, Copy)]
    enum Data {
        Good,
        OutOfRange,
        Disagreeing,
    }

    use Ask::{Abandon, Add, Close, Delete, Levels as Level, NoData, Observe, Open, Tick};
    use Command::{Forward, Start, Stop, TakeOver};

    const LONG: &[u8] =
        b"(2345678901234567890123456789012345678901234567890123456789012345678901234567890)";

    // The machine data of the worked examples, or such as 4 and 5 refuse.
    fn raw(data: Data) -> RawData {
        let (patterns, reference) = match data {
            Data::Good => (4, 0),
            Data::OutOfRange => (3, 0),
            Data::Disagreeing => (4, 200_001),
        };
        RawData {
            fm: 3_000_000,
            fs: 1_000_000,
            increase: 1_000_000,
            duration: 5,
            patterns,
            units: 4_000,
            pulses: 400,
            low: -1_000,
            high: 200_000,
            reference,
            offsets: [0, 0, 0, 0],
            measure: Measure::Millimetre,
        }
    }

    fn levels(end: bool, ready: bool) -> Levels {
        Levels {
            switches: Switches { begin: false, end },
            ready,
        }
    }

    fn call_of(ask: Ask) -> Call<'static> {
        let (axis, act) = match ask {
            Ask::Data(axis, data) => (axis, Act::Enter(raw(data))),
            Ask::NoData(axis) => (axis, Act::Delete),
            Ask::Order(axis, mode, command, byte, word, double) => {
                let order = Order {
                    mode,
                    command,
                    byte,
                    word,
                    double,
                };
                (axis, Act::Order(order))
            }
            Ask::Levels(axis, end, ready) => (axis, Act::Level(levels(end, ready))),
            Ask::Tick(axis) => (axis, Act::Tick),
            Ask::Observe(axis) => (axis, Act::Observe),
            Ask::Open(number, measure) => return Call::Open { number, measure },
            Ask::Add(number, line) => return Call::Add { number, line },
            Ask::Close(number) => return Call::Close { number },
            Ask::Abandon(number) => return Call::Abandon { number },
            Ask::Delete(number) => return Call::DeleteProgram { number },
        };
        Call::OnAxis { axis, act }
    }

    type Stages = Module<ClockStage, ClockStage, ClockStage>;

    fn stages() -> Result<Drives<ClockStage, ClockStage, ClockStage>, Fail> {
        Ok(Drives {
            first: ClockStage::new(0)?,
            second: ClockStage::new(999_999_999_990)?,
            third: ClockStage::new(0)?,
        })
    }

    fn new_module(heap: Global) -> Result<Stages, Fail> {
        Ok(Module::new(heap, stages()?).map_err(|refused| refused.error)?)
    }

    // Where a comparison stands, for its failure: a table and its row from 0, a program, a drive.
    type At = (&'static str, usize);

    fn same<T: Copy + PartialEq + Debug>(rt: &impl Abort, at: At, is: T, wanted: T) {
        assert_eq!(rt; is, wanted, "{at:?}");
    }

    fn number_of(reply: Result<Answer, Fault>) -> Option<u8> {
        reply.err().map(|fault| fault.number())
    }

    // What a call is answered, by number.
    fn answers(rt: &impl Abort, at: At, module: &mut Stages, ask: Ask, number: Option<u8>) {
        same(rt, at, number_of(module.call(call_of(ask))), number);
    }

    static CALLS: [(Ask, Option<u8>); 66] = [
        (Tick(4), Some(1)),
        (Observe(0), Some(1)),
        (Observe(1), None),
        (NoData(1), Some(7)),
        (Ask::Data(1, Data::OutOfRange), Some(4)),
        (Ask::Data(1, Data::Disagreeing), Some(5)),
        (Ask::Data(1, Data::Good), None),
        (Ask::Order(1, 3, Start, 0, 0, 0), Some(8)),
        (Ask::Order(1, 4, Forward, 0, 0, 0), Some(9)),
        (Ask::Order(1, 6, Start, 0, 1_800, 100), Some(12)),
        (Ask::Order(1, 5, Start, 0, 0, 0), None),
        (Ask::Order(1, 6, Start, 0, 0, 100), Some(13)),
        (Ask::Order(1, 6, Start, 0, 65_000, 100), Some(18)),
        (Ask::Order(1, 6, Start, 0, 1_800, 200_001), Some(19)),
        (Ask::Order(1, 6, Start, 0, 1_800, 200_000), Some(21)),
        (Level(1, false, true), None),
        (Ask::Order(1, 6, Start, 0, 1_800, 100), None),
        (Ask::Data(1, Data::Good), Some(3)),
        (Ask::Order(1, 6, Start, 0, 1_800, 50), Some(11)),
        (Ask::Order(1, 6, Stop, 0, 0, 0), Some(10)),
        (Tick(1), None),
        (Ask::Order(1, 12, Start, 0, 0, 1), None),
        (Ask::Order(1, 13, Start, 0, 0, 40_000_000), Some(22)),
        (Ask::Order(1, 12, Start, 0, 0, 0), None),
        (Ask::Order(1, 8, Start, 7, 0, 0), Some(14)),
        (Ask::Order(1, 8, TakeOver, 7, 0, 0), Some(16)),
        (Ask::Order(1, 6, Start, 0, 1_800, 100), None),
        (Level(1, true, true), None),
        (Tick(1), Some(23)),
        (Level(1, false, true), None),
        (Ask::Order(1, 5, Start, 0, 0, 0), None),
        (Ask::Order(1, 6, Start, 0, 1_800, 100), None),
        (Level(1, false, false), None),
        (Tick(1), Some(24)),
        (Level(1, false, true), None),
        (Ask::Order(1, 5, Start, 0, 0, 0), None),
        (Ask::Data(2, Data::Good), None),
        (Level(2, false, true), None),
        (Ask::Order(2, 5, Start, 0, 0, 0), None),
        (Ask::Order(2, 6, Start, 0, 1_800, 100), None),
        (Tick(2), None),
        (Ask::Order(2, 6, Stop, 0, 0, 0), None),
        (Tick(2), None),
        (Ask::Order(2, 6, Start, 0, 1_800, 110), Some(20)),
        (Open(0, Measure::Millimetre), Some(26)),
        (Open(7, Measure::Inch), None),
        (Open(8, Measure::Inch), Some(29)),
        (Add(8, b"X1"), Some(30)),
        (Add(7, LONG), Some(31)),
        (Add(7, b"Y1"), Some(32)),
        (Add(7, b"X1 X2"), Some(33)),
        (Add(7, b"F0"), Some(34)),
        (Close(7), Some(35)),
        (Abandon(7), Some(30)),
        (Open(7, Measure::Inch), None),
        (Add(7, b"X1 M30"), None),
        (Close(7), None),
        (Open(7, Measure::Inch), Some(27)),
        (Ask::Order(1, 8, Start, 7, 0, 0), Some(15)),
        (Open(9, Measure::Millimetre), None),
        (Add(9, b"X1 M30"), None),
        (Close(9), None),
        (Ask::Order(1, 8, Start, 9, 0, 0), None),
        (Delete(9), Some(36)),
        (Delete(7), None),
        (Delete(7), Some(14)),
    ];

    // 17 answers no call, and 2 belongs to making a drive.
    #[test]
    fn every_number(rt: HostRuntime) -> Result<(), Fail> {
        let mut module = new_module(rt.alloc())?;
        for (row, (ask, number)) in CALLS.iter().enumerate() {
            answers(&rt, ("CALLS", row), &mut module, *ask, *number);
        }
        // Sixteen programs are stored; there is room for no other.
        for number in 10u8..25 {
            store(&rt, &mut module, number);
        }
        let no_room = Open(25, Measure::Inch);
        answers(&rt, ("program", 25), &mut module, no_room, Some(28));
        Ok(())
    }

    fn store(rt: &impl Abort, module: &mut Stages, number: u8) {
        let at = ("program", number.into());
        answers(rt, at, module, Open(number, Measure::Inch), None);
        answers(rt, at, module, Add(number, b"M02"), None);
        answers(rt, at, module, Close(number), None);
    }

    // What goes wrong after some of the calls above, whole: number, layer and place.
    static PLACES: [(Ask, u8, Layer, Place); 7] = [
        (
            Tick(4),
            1,
            Layer::Axis,
            Place::At {
                axis: 4,
                program: 0,
                block: 0,
            },
        ),
        (
            Ask::Order(0, 9, Start, 7, 0, 0),
            1,
            Layer::Axis,
            Place::At {
                axis: 0,
                program: 7,
                block: 0,
            },
        ),
        (
            NoData(3),
            7,
            Layer::Axis,
            Place::At {
                axis: 3,
                program: 0,
                block: 0,
            },
        ),
        (
            Ask::Order(3, 8, Start, 7, 0, 0),
            7,
            Layer::Axis,
            Place::At {
                axis: 3,
                program: 7,
                block: 0,
            },
        ),
        (
            Delete(7),
            14,
            Layer::Store,
            Place::At {
                axis: 0,
                program: 7,
                block: 0,
            },
        ),
        (
            Open(0, Measure::Inch),
            26,
            Layer::Store,
            Place::At {
                axis: 0,
                program: 0,
                block: 0,
            },
        ),
        (
            Close(7),
            30,
            Layer::Store,
            Place::At {
                axis: 0,
                program: 7,
                block: 0,
            },
        ),
    ];

    // What a call is answered, whole: number, layer and place.
    fn fails(rt: &impl Abort, at: At, module: &mut Stages, trouble: (Ask, u8, Layer, Place)) {
        let (ask, number, layer, place) = trouble;
        let fault = module.call(call_of(ask)).err();
        tells(rt, at, fault, (number, layer, place));
    }

    fn tells(rt: &impl Abort, at: At, fault: Option<Fault>, told: (u8, Layer, Place)) {
        let (number, layer, place) = told;
        same(rt, at, fault.map(|fault| fault.number()), Some(number));
        same(rt, at, fault.map(|fault| fault.layer()), Some(layer));
        same(rt, at, fault.map(|fault| fault.place()), Some(place));
    }

    #[test]
    fn faults_with_their_places(rt: HostRuntime) -> Result<(), Fail> {
        let mut module = new_module(rt.alloc())?;
        for (row, trouble) in PLACES.iter().enumerate() {
            fails(&rt, ("PLACES", row), &mut module, *trouble);
        }
        module.call(call_of(Open(7, Measure::Inch)))?;
        let wrong = (Add(7, b"X1 Y2"), 32, Layer::Line, Place::Byte(3));
        fails(&rt, ("program", 7), &mut module, wrong);
        Ok(())
    }

    fn place(axis: u8, program: u8) -> Place {
        Place::At {
            axis,
            program,
            block: 0,
        }
    }

    // The fault that an axis shows is told with the axis.
    #[test]
    fn shown_fault(rt: HostRuntime) -> Result<(), Fail> {
        let mut module = new_module(rt.alloc())?;
        let told = (7, Layer::Axis, place(3, 9));
        let refused = module.call(call_of(Ask::Order(3, 8, Start, 9, 0, 0)));
        tells(&rt, ("order", 3), refused.err(), told);
        tells(&rt, ("observe", 3), module.observe(3)?.fault, told);
        Ok(())
    }

    // A token whose entry is over is refused with 30, whole, and serves for the next entry of its number.
    #[test]
    fn refused_tokens(rt: HostRuntime) -> Result<(), Fail> {
        let mut module = new_module(rt.alloc())?;
        let entry = module.open(7, Measure::Inch)?;
        let _ = module.call(call_of(Abandon(7)));
        let not_open = (30, Layer::Store, place(0, 7));
        let Err(refusal) = module.close(entry) else {
            return Err("a token without its entry closes".into());
        };
        tells(&rt, ("close", 7), Some(Fault::from(&refusal)), not_open);
        let entry = match refusal {
            CloseRefusal::NotThisOne(HandedBack { entry, fault: _ }) => entry,
            CloseRefusal::Ended(_) => return Err("a token without its entry is spent".into()),
        };
        let Err(back) = module.abandon(entry) else {
            return Err("a token without its entry abandons".into());
        };
        tells(&rt, ("abandon", 7), Some(Fault::from(&back)), not_open);
        let HandedBack { entry, fault: _ } = back;
        let _ = module.call(call_of(Open(7, Measure::Inch)));
        match module.abandon(entry) {
            Ok(()) => Ok(()),
            Err(_back) => panic!(rt; "the token of the open entry is refused"),
        }
    }

    // The calls as one list, which has all its memory before the first: the same answers.
    #[test]
    fn one_list(rt: HostRuntime) -> Result<(), Fail> {
        let ran = run_calls(rt.alloc())?;
        compare(&rt, &ran.replies);
        let (first, second) = (ran.drives.first.count(), ran.drives.second.count());
        same(&rt, ("drive", 1), first, 0);
        same(&rt, ("drive", 2), second, 999_999_999_991);
        Ok(())
    }

    fn run_calls(heap: Global) -> Result<Ran<ClockStage, ClockStage, ClockStage>, Fail> {
        let mut calls = Vec::new(heap);
        for (ask, _) in &CALLS {
            calls.push(call_of(*ask))?;
        }
        Ok(run(heap, stages()?, &calls).map_err(|refused| refused.error)?)
    }

    fn compare(rt: &impl Abort, replies: &[Result<Answer, Fault>]) {
        same(rt, ("replies", 0), replies.len(), CALLS.len());
        for (row, (_, number)) in CALLS.iter().enumerate() {
            let reply = replies.get(row).and_then(|reply| number_of(*reply));
            same(rt, ("CALLS", row), reply, *number);
        }
    }
}
