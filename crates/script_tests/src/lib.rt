// Lines of a script: those that are read, and what is wrong with others.
#![tactic(auto)]

#[cfg(test)]
mod tests {
    use module::Call;
    use script::{Build, Field, Line, Mistake, Plan, read_line};
    use units::Measure;

    const READ: [&[u8]; 33] = [
        b"",
        b"# a remark",
        b"#",
        b"drive 1 clock 0",
        b"drive 3 clock -9223372036854775808",
        b"drive 2 takeup 65535 clock 5",
        b"drive 2 takeup 0 takeup 7 clock 005",
        b"drive 255 clock 0",
        b"data 1 measure=mm fm=3000000 fs=1000000 a=1000000 duration=5 patterns=4 W=4000 P=400 low=-1000 high=200000 reference=0 o1=500 o2=0 o3=0 o4=0",
        b"data 0 measure=degree fm=4294967295 fs=-0 a=007 duration=0 patterns=0 W=0 P=0 low=-2147483648 high=2147483647 reference=-0 o1=-001 o2=0 o3=0 o4=0",
        b"nodata 255",
        b"order 1 6 start 0 1800 -2147483648",
        b"order 000 255 take-over 255 65535 2147483647",
        b"order 1 1 forward -0 0 -0",
        b"order 1 2 backward 0 0 0",
        b"order 1 2 stop 0 0 0",
        b"levels 1 0 0 1",
        b"levels 0 1 01 -0",
        b"levels 0 1 1 0",
        b"tick 1",
        b"tick 1 4294967295",
        b"tick 001 -0",
        b"observe 4",
        b"read mm",
        b"read inch  two blanks and a return\r",
        b"read degree \xff",
        b"open 0 mm",
        b"add 255",
        b"add 7  N10 X1 ",
        b"close 7",
        b"abandon 007",
        b"delete 7",
        b"delete 255",
    ];

    const REFUSED: [(&[u8], Mistake); 58] = [
        (b" levels 1 0 0 1", Mistake::UnknownCall),
        (b"level 1 0 0 1", Mistake::UnknownCall),
        (b"Levels 1 0 0 1", Mistake::UnknownCall),
        (b"pulse 1 forward", Mistake::UnknownCall),
        (b"Delete 7", Mistake::UnknownCall),
        (b"\r", Mistake::UnknownCall),
        (b"\xff", Mistake::UnknownCall),
        (b"data", Mistake::Missing(Field::Axis)),
        (b"data 1", Mistake::Missing(Field::Datum("measure"))),
        (b"data 1 mm", Mistake::Expected(Field::Datum("measure"))),
        (b"data 1 measure=", Mistake::Expected(Field::Measure)),
        (b"data 1 measure=MM", Mistake::Expected(Field::Measure)),
        (
            b"data 1 fm=1 measure=mm",
            Mistake::Expected(Field::Datum("measure")),
        ),
        (b"data 1 measure=mm", Mistake::Missing(Field::Datum("fm"))),
        (
            b"data 1 measure=mm fs=1 fm=1",
            Mistake::Expected(Field::Datum("fm")),
        ),
        (
            b"data 1 measure=mm fm=-1",
            Mistake::Expected(Field::Datum("fm")),
        ),
        (
            b"data 1 measure=mm fm=4294967296",
            Mistake::Expected(Field::Datum("fm")),
        ),
        (
            b"data 1 measure=mm fm=1=1",
            Mistake::Expected(Field::Datum("fm")),
        ),
        (
            b"data 1 measure=mm fm=1 fm=1",
            Mistake::Expected(Field::Datum("fs")),
        ),
        (
            b"data 1 measure=mm fm=1 fs=1 a=1 duration=1 patterns=1 w=1",
            Mistake::Expected(Field::Datum("W")),
        ),
        (
            b"data 1 measure=mm fm=1 fs=1 a=1 duration=1 patterns=1 W=1 P=1 low=-2147483649",
            Mistake::Expected(Field::Datum("low")),
        ),
        (
            b"data 1 measure=mm fm=1 fs=1 a=1 duration=1 patterns=1 W=1 P=1 low=1 high=2147483648",
            Mistake::Expected(Field::Datum("high")),
        ),
        (
            b"data 1 measure=mm fm=1 fs=1 a=1 duration=1 patterns=1 W=1 P=1 low=1 high=1 reference=1 o1=1 o2=1 o3=1",
            Mistake::Missing(Field::Datum("o4")),
        ),
        (
            b"data 1 measure=mm fm=1 fs=1 a=1 duration=1 patterns=1 W=1 P=1 low=1 high=1 reference=1 o1=1 o2=1 o3=1 o4=1 o5=1",
            Mistake::TooManyWords,
        ),
        (b"nodata 1 1", Mistake::TooManyWords),
        (b"order 1 256 start 0 0 0", Mistake::Expected(Field::Mode)),
        (
            b"order 1 6 takeover 0 0 0",
            Mistake::Expected(Field::Command),
        ),
        (b"order 1 6 start -1 0 0", Mistake::Expected(Field::Byte)),
        (b"order 1 6 start 0 65536 0", Mistake::Expected(Field::Word)),
        (
            b"order 1 6 start 0 0 2147483648",
            Mistake::Expected(Field::DoubleWord),
        ),
        (b"order 1 6 start 0 0", Mistake::Missing(Field::DoubleWord)),
        (b"levels", Mistake::Missing(Field::Axis)),
        (b"levels 1 0 0", Mistake::Missing(Field::Ready)),
        (b"levels 256 0 0 1", Mistake::Expected(Field::Axis)),
        (b"levels -1 0 0 1", Mistake::Expected(Field::Axis)),
        (b"levels 1 2 0 1", Mistake::Expected(Field::Begin)),
        (b"levels 1 0  1", Mistake::Expected(Field::End)),
        (b"levels 1 0 0 1\r", Mistake::Expected(Field::Ready)),
        (b"levels 1 0 0 1 ", Mistake::TooManyWords),
        (b"tick 1 +1", Mistake::Expected(Field::Ticks)),
        (b"tick 1 4294967296", Mistake::Expected(Field::Ticks)),
        (b"tick 1 1 1", Mistake::TooManyWords),
        (b"observe", Mistake::Missing(Field::Axis)),
        (b"read", Mistake::Missing(Field::Measure)),
        (b"read cm X1", Mistake::Expected(Field::Measure)),
        (b"open 7", Mistake::Missing(Field::Measure)),
        (b"open 256 mm", Mistake::Expected(Field::Number)),
        (b"add", Mistake::Missing(Field::Number)),
        (b"close 7 ", Mistake::TooManyWords),
        (b"delete", Mistake::Missing(Field::Number)),
        (b"delete 256", Mistake::Expected(Field::Number)),
        (b"delete 7 8", Mistake::TooManyWords),
        (b"drive 1", Mistake::Missing(Field::Stage)),
        (b"drive 1 stepper 0", Mistake::Expected(Field::Stage)),
        (
            b"drive 1 takeup 65536 clock 0",
            Mistake::Expected(Field::Play),
        ),
        (b"drive 1 clock", Mistake::Missing(Field::StageCount)),
        (
            b"drive 1 clock 9223372036854775808",
            Mistake::Expected(Field::StageCount),
        ),
        (
            b"drive 1 takeup 1 takeup 1 takeup 1 clock 0",
            Mistake::TooManyLayers,
        ),
    ];

    #[test]
    fn lines_of_the_form_are_read(rt: HostRuntime) {
        for line in READ {
            assert!(rt; read_line(line).is_ok());
        }
    }

    // Each call of the store, by its own word.
    #[test]
    fn words_of_the_store_are_its_calls(rt: HostRuntime) {
        assert!(rt;
            matches!(
                read(b"open 7 inch"),
                Some(Call::Open {
                    number: 7,
                    measure: Measure::Inch
                })
            )
        );
        assert!(rt;
            matches!(
                read(b"add 7 M30"),
                Some(Call::Add {
                    number: 7,
                    line: b"M30"
                })
            )
        );
        assert!(rt; matches!(read(b"close 7"), Some(Call::Close { number: 7 })));
        assert!(rt; matches!(read(b"abandon 7"), Some(Call::Abandon { number: 7 })));
        assert!(rt; matches!(read(b"delete 7"), Some(Call::DeleteProgram { number: 7 })));
    }

    // The call that a line makes, if it is one.
    fn read<'a>(line: &'a [u8]) -> Option<Call<'a>> {
        match read_line(line) {
            Ok(Some(Line::Call(call))) => Some(call),
            _ => None,
        }
    }

    #[test]
    fn other_lines_are_told_what_is_wrong(rt: HostRuntime) {
        for (line, mistake) in REFUSED {
            assert_eq!(rt; read_line(line).err(), Some(mistake));
        }
    }

    #[test]
    fn an_axis_without_a_drive_has_a_stage_at_zero(rt: HostRuntime) {
        for build in Plan::default().builds() {
            assert!(rt; matches!(build, Build::Clock { count: 0 }));
        }
    }
}
