/// How a script says that a drive is built; the outer layer comes first.
#[derive(Clone, Copy)]
pub enum Build {
    Clock { count: i64 },
    TakeUp { play: u16, count: i64 },
    TakeUpTwice { outer: u16, inner: u16, count: i64 },
}
