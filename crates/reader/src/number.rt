ghost use Rattle.std.specs.Prelude.{◌≡◌, ◌≤◌, length, IfSome, Some, None};
ghost use Rattle.std.specs.List.{prefix_len};
ghost use Rattle.std.specs.Option.{option_map};
ghost use Rattle.reader.specs.Words.{digit, all_digits, onto, upto, negative, body, fraction, Split, decimal, limited, units_of};

use units::{Measure, REACH};

// The greatest X, in units, as a magnitude.
const MOST_UNITS: u32 = REACH as u32;

// How many digits stand in front.
fn digit_len(bytes: &[u8]) -> usize
    ensures value { result ≡ prefix_len digit bytes.now }
    ensures bound { result ≤ length bytes.now }
{
    bytes.iter().take_while(|b| b.is_ascii_digit()).count()
}

pub(crate) fn all_digits(bytes: &[u8]) -> bool
    ensures { result ≡ all_digits bytes.now }
{
    bytes.iter().all(|b| b.is_ascii_digit())
}

// `start` with the digits written after it, if that is at most `most`.
pub(crate) fn value_upto(start: u32, digits: &[u8], most: u32) -> Option<u32>
    requires start { start ≤ most }
    requires most { most ≤ 100000000 }
    ensures value { result ≡ upto most (onto start digits.now) }
    ensures bound { IfSome result (λ n. n ≤ most) }
{
    let mut n = start;
    for b in digits {
        n = n * 10 + u32::from(b.saturating_sub(b'0'));
        if n > most {
            return None;
        }
    }
    Some(n)
}

// A number of an X word, taken apart at its sign and its point.
#[derive(Clone, Copy)]
pub(crate) struct Decimal<'a> {
    pub(crate) negative: bool,
    pub(crate) whole: &'a [u8],
    pub(crate) decimals: &'a [u8],
}

// Whether a number is negative, and the number without its sign.
fn sign_of<'a>(number: &'a [u8]) -> (bool, &'a [u8])
    ensures sign { result.0 ≡ negative number.now }
    ensures rest { result.1.now ≡ body number.now }
{
    match number {
        [b'-', tail @ ..] => (true, tail),
        [b'+', tail @ ..] => (false, tail),
        _ => (false, number),
    }
}

// The decimals of a number, from what stands after its whole digits.
fn decimals_of<'a>(rest: &'a [u8]) -> Option<&'a [u8]>
    ensures { option_map (λ x. x.now) result ≡ fraction rest.now }
{
    match rest {
        [] => Some(rest),
        [b'.', tail @ ..] => Some(tail),
        _ => None,
    }
}

pub(crate) fn take_apart<'a>(number: &'a [u8]) -> Option<Decimal<'a>>
    ensures { Split number.now result }
{
    let (negative, body) = sign_of(number);
    let (whole, rest) = body.split_at(digit_len(body));
    let decimals = decimals_of(rest)?;
    Some(Decimal {
        negative,
        whole,
        decimals,
    })
}

impl Decimal<'_> {
    pub(crate) fn fits(self, measure: Measure) -> bool
        ensures { result ≡ decimal measure self.entry.whole.now (Some self.entry.decimals.now) }
    {
        (1..=5).contains(&self.whole.len())
            && self.decimals.len() <= measure.places()
            && all_digits(self.decimals)
    }
}

// The units of the number of an X word, if they are at most 40,000,000 either way.
pub(crate) fn units(number: &[u8], measure: Measure) -> Option<i32>
    ensures { result ≡ units_of measure number.now }
{
    let decimal = take_apart(number)?;
    let whole = value_upto(0, decimal.whole, MOST_UNITS)?;
    let digits = value_upto(whole, decimal.decimals, MOST_UNITS)?;
    let missing = measure.places().saturating_sub(decimal.decimals.len());
    let magnitude = u64::from(digits) * 10u64.pow(missing as u32);
    with_sign(decimal.negative, magnitude)
}

// The units of a magnitude with its sign, if they are at most 40,000,000 either way.
fn with_sign(negative: bool, magnitude: u64) -> Option<i32>
    ensures { result ≡ limited negative magnitude }
{
    if magnitude > u64::from(MOST_UNITS) {
        return None;
    }
    let units = magnitude as i32;
    if negative { Some(-units) } else { Some(units) }
}
