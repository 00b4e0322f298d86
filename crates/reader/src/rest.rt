ghost use Rattle.std.specs.Prelude.{◌≡◌, ◌+◌, ◌≤◌, length, take, drop};
ghost use Rattle.reader.specs.declared.rest.TheConstants.{MOST_BYTES};

use units::Measure;

// The most bytes of a line.
pub(crate) const MOST_BYTES: usize = 80;

// What is left of a line of at most that many bytes, the byte at which it starts,
// and the measure in which the line is read.
#[derive(Clone, Copy)]
pub(crate) struct Rest<'a> {
    pub(crate) bytes: &'a [u8],
    pub(crate) at: usize,
    pub(crate) measure: Measure,
    ghost within: { at + length bytes.now ≤ MOST_BYTES },
}

impl<'a> Rest<'a> {
    ghost use Rattle.reader.specs.Lines.{First};

    // A whole line.
    pub(crate) fn of(line: &'a [u8], measure: Measure) -> Rest<'a>
        requires { length line.now ≤ MOST_BYTES }
        ensures bytes { result.bytes.now ≡ line.now }
        ensures place { result.at ≡ 0 }
        ensures measure { result.measure ≡ measure }
    {
        Rest {
            bytes: line,
            at: 0,
            measure,
        }
    }

    // The first `n` bytes, and what is left after them.
    pub(crate) fn split_at(self, n: usize) -> (&'a [u8], Rest<'a>)
        requires { n ≤ length self.bytes.now }
        ensures front { result.0.now ≡ take n self.entry.bytes.now }
        ensures back { result.1.bytes.now ≡ drop n self.entry.bytes.now }
        ensures place { result.1.at ≡ self.entry.at + n }
        ensures measure { result.1.measure ≡ self.entry.measure }
    {
        let (front, bytes) = self.bytes.split_at(n);
        (
            front,
            Rest {
                bytes,
                at: self.at + n,
                measure: self.measure,
            },
        )
    }

    // The first byte, and what is left after it.
    pub(crate) fn split_first(self) -> Option<(u8, Rest<'a>)>
        ensures { First self.entry result }
    {
        let [first, bytes @ ..] = self.bytes else {
            return None;
        };
        Some((
            *first,
            Rest {
                bytes,
                at: self.at + 1,
                measure: self.measure,
            },
        ))
    }
}
