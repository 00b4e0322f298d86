ghost use Rattle.std.specs.Prelude.{◌≡◌};
ghost use Rattle.std.specs.Result.{result_ok};
ghost use Rattle.reader.specs.Words.{motion_code, offset_code, way_code, preparatory, ends_by};
ghost use Rattle.reader.specs.Questions.{holding};
ghost use Rattle.reader.specs.Summaries.{held};

/// How an X is run, each with the number of its G word.
#[derive(Clone, Copy, PartialEq, Eq, Debug)]
pub enum Motion {
    Rapid = 0,
    Feed = 1,
}

/// Which of the program offsets is added to the shift, each with the number of its G word.
#[derive(Clone, Copy, PartialEq, Eq, Debug)]
pub enum OffsetChoice {
    Without = 53,
    First = 54,
    Second = 55,
    Third = 56,
    Fourth = 57,
}

/// What an X is reckoned from, each with the number of its G word.
#[derive(Clone, Copy, PartialEq, Eq, Debug)]
pub enum Way {
    Absolute = 90,
    Relative = 91,
}

// What a G word says, by its group.
#[derive(Clone, Copy)]
pub(crate) enum Preparatory {
    OfMotion(Motion),
    OfOffset(OffsetChoice),
    OfWay(Way),
}

// A number that no G word has, or a byte that no word's letter has.
#[derive(Clone, Copy)]
pub(crate) struct Unknown;

// What a word says.
#[derive(Clone, Copy)]
pub(crate) enum Value {
    Number(u16),
    Prepared(Preparatory),
    Target(i32),
    Rate(u16),
    Auxiliary(u8),
}

/// What the words of one line say; what no word says is absent.
#[derive(Clone, Copy, PartialEq, Eq, Debug, Default)]
pub struct Block {
    pub number: Option<u16>,
    pub motion: Option<Motion>,
    pub offset: Option<OffsetChoice>,
    pub way: Option<Way>,
    /// in units of the measure
    pub target: Option<i32>,
    pub feed: Option<u16>,
    pub auxiliary: Option<u8>,
}

impl Block {
    // The block with one value more.
    pub(crate) fn with(mut self, value: Value) -> Block
        ensures { result ≡ holding value self }
    {
        match value {
            Value::Number(n) => self.number = Some(n),
            Value::Prepared(Preparatory::OfMotion(motion)) => self.motion = Some(motion),
            Value::Prepared(Preparatory::OfOffset(offset)) => self.offset = Some(offset),
            Value::Prepared(Preparatory::OfWay(way)) => self.way = Some(way),
            Value::Target(units) => self.target = Some(units),
            Value::Rate(feed) => self.feed = Some(feed),
            Value::Auxiliary(m) => self.auxiliary = Some(m),
        }
        self
    }

    // Whether it has a value in the place of this one.
    pub(crate) fn has_place_of(&self, value: Value) -> bool
        ensures { result ≡ held value self.now }
    {
        match value {
            Value::Number(_) => self.number.is_some(),
            Value::Prepared(Preparatory::OfMotion(_)) => self.motion.is_some(),
            Value::Prepared(Preparatory::OfOffset(_)) => self.offset.is_some(),
            Value::Prepared(Preparatory::OfWay(_)) => self.way.is_some(),
            Value::Target(_) => self.target.is_some(),
            Value::Rate(_) => self.feed.is_some(),
            Value::Auxiliary(_) => self.auxiliary.is_some(),
        }
    }
}

/// The number of its G word.
impl From<Motion> for u8 {
    ghost from_gives = { λ motion number. number ≡ motion_code motion };

    fn from(motion: Motion) -> u8 {
        motion as u8
    }
}

/// The number of its G word.
impl From<OffsetChoice> for u8 {
    ghost from_gives = { λ offset number. number ≡ offset_code offset };

    fn from(offset: OffsetChoice) -> u8 {
        offset as u8
    }
}

/// The number of its G word.
impl From<Way> for u8 {
    ghost from_gives = { λ way number. number ≡ way_code way };

    fn from(way: Way) -> u8 {
        way as u8
    }
}

// What the G word of a number says.
impl TryFrom<u8> for Preparatory {
    type Error = Unknown;

    ghost try_from_gives = { λ number r. result_ok r ≡ preparatory number };

    fn try_from(number: u8) -> Result<Self, Unknown> {
        match number {
            0 => Ok(Preparatory::OfMotion(Motion::Rapid)),
            1 => Ok(Preparatory::OfMotion(Motion::Feed)),
            53 => Ok(Preparatory::OfOffset(OffsetChoice::Without)),
            54 => Ok(Preparatory::OfOffset(OffsetChoice::First)),
            55 => Ok(Preparatory::OfOffset(OffsetChoice::Second)),
            56 => Ok(Preparatory::OfOffset(OffsetChoice::Third)),
            57 => Ok(Preparatory::OfOffset(OffsetChoice::Fourth)),
            90 => Ok(Preparatory::OfWay(Way::Absolute)),
            91 => Ok(Preparatory::OfWay(Way::Relative)),
            _ => Err(Unknown),
        }
    }
}

/// Whether the M number of a block ends a program: M02 or M30.
pub fn ends_program(auxiliary: Option<u8>) -> bool
    ensures { result ≡ ends_by auxiliary }
{
    matches!(auxiliary, Some(2 | 30))
}
