//! Numbers of JSON by their values.
ghost use Rattle.std.specs.Prelude.{◌≡◌, option_map, pos};
ghost use Rattle.std.specs.Ordering.{float_partial_cmp, ordering_reverse};
ghost use Rattle.serde_json.specs.View.{number_view, view};
ghost use Rattle.olk_numbers.specs.Numbers.{num_of, of_whole, exact, is_below, is_same_number, is_at_most, is_integral, is_beyond_64_bits, is_written_whole, is_natural, natural_float, natural_of, natural};
ghost use Rattle.olk_numbers.specs.Multiples.{is_multiple_of};

use crate::divisors::Divisor;
use serde_json::{Number, Value};
use std::cmp::Ordering;
use std::num::{nearest_u64_to_f64, saturating_f64_to_u64};

const TWO_TO_53: f64 = 9007199254740992.0;

pub(crate) const TWO_TO_64: f64 = 18446744073709551616.0;

const MINUS_TWO_TO_63: f64 = -9223372036854775808.0;

/// A number of JSON: a whole number of 64 bits, or else the double that was read.
///
/// Numbers are compared by value and without rounding, so 1.0 is 1, and a double is never taken for
/// the whole number next to it.
#[derive(Clone, Copy)]
pub enum JsonNumber {
    /// A number that answers `as_u64`.
    Unsigned(u64),
    /// A number that answers `as_i64` alone.
    Negative(i64),
    /// Every other number.
    Float(f64),
}

impl JsonNumber {
    /// The number of a value of JSON.
    pub fn of(number: &Number) -> JsonNumber
        ensures { num_of result ≡ number_view number.now }
    {
        match (number.as_u64(), number.as_i64()) {
            (Some(n), _) => JsonNumber::Unsigned(n),
            (None, Some(n)) => JsonNumber::Negative(n),
            (None, None) => JsonNumber::Float(number.as_f64().unwrap()),
        }
    }

    /// Whether this is below the other, which `maximum` and its three kin ask (JSON Schema 2020-12
    /// Validation 6.2.2 to 6.2.5).
    pub fn is_below(self, other: JsonNumber) -> bool
        ensures { result ≡ is_below (num_of self) (num_of other) }
    {
        self.compare(other).is_some_and(Ordering::is_lt)
    }

    /// Whether this is not above the other.
    pub fn is_at_most(self, other: JsonNumber) -> bool
        ensures { result ≡ is_at_most (num_of self) (num_of other) }
    {
        self.is_below(other) || self.equals(other)
    }

    /// Whether both are the same number, as 1.0 and 1 are (JSON Schema 2020-12 Core 4.2.2).
    pub fn equals(self, other: JsonNumber) -> bool
        ensures { result ≡ is_same_number (num_of self) (num_of other) }
    {
        self.compare(other).is_some_and(Ordering::is_eq)
    }

    /// Whether it has no fraction, as an `integer` has none (JSON Schema 2020-12 Validation 6.1.1).
    pub fn is_integral(self) -> bool
        ensures { result ≡ is_integral (exact (num_of self)) }
    {
        match self {
            JsonNumber::Unsigned(_) => true,
            JsonNumber::Negative(_) => true,
            JsonNumber::Float(x) => has_no_fraction(x),
        }
    }

    /// Whether it was written without a fraction, as an `integer` of draft 4 is (JSON Schema draft 4
    /// Core, 3.5): 1 was, and 1.0 wasn't.
    ///
    /// A number beyond 64 bits is read as a double either way, and taken for one that was. -0 is
    /// read as -0.0, and taken for one that wasn't.
    pub fn is_written_whole(self) -> bool
        ensures { result ≡ is_written_whole (num_of self) }
    {
        match self {
            JsonNumber::Unsigned(_) => true,
            JsonNumber::Negative(_) => true,
            JsonNumber::Float(x) => has_no_fraction(x) && is_beyond_64_bits(x),
        }
    }

    /// The whole number from 0 to 2^64 - 1 that it is, as 2.0 is 2 (JSON Schema 2020-12 Core 4.2.3).
    pub fn natural(self) -> Option<u64>
        ensures { result ≡ natural_of (num_of self) }
    {
        match self {
            JsonNumber::Unsigned(n) => Some(n),
            JsonNumber::Negative(_) => None,
            JsonNumber::Float(x) => natural_float(x),
        }
    }

    /// Whether it is a multiple of what `multipleOf` names (JSON Schema 2020-12 Validation 6.2.1).
    ///
    /// A number with a fraction is the decimal of the fewest places that reads as its double, and a
    /// multiple of nothing where none of 15 digits or so does.
    pub fn is_multiple_of(self, divisor: Divisor) -> bool
        ensures { result ≡ is_multiple_of (num_of self) (num_of divisor.number) }
    {
        match self {
            JsonNumber::Unsigned(n) => divisor.divides_whole(n),
            JsonNumber::Negative(n) => divisor.divides_whole(n.unsigned_abs()),
            JsonNumber::Float(x) => divisor.divides_double(x),
        }
    }

    /// How both compare as numbers (JSON Schema 2020-12 Validation 6.2). None where one is a NaN,
    /// which no number of JSON is.
    pub fn compare(self, other: JsonNumber) -> Option<Ordering>
        ensures { result ≡ float_partial_cmp (exact (num_of self)) (exact (num_of other)) }
    {
        match (self, other) {
            (JsonNumber::Unsigned(m), JsonNumber::Unsigned(n)) => Some(m.cmp(&n)),
            (JsonNumber::Unsigned(m), JsonNumber::Negative(n)) => {
                Some(i128::from(m).cmp(&i128::from(n)))
            }
            (JsonNumber::Negative(m), JsonNumber::Unsigned(n)) => {
                Some(i128::from(m).cmp(&i128::from(n)))
            }
            (JsonNumber::Negative(m), JsonNumber::Negative(n)) => Some(m.cmp(&n)),
            (JsonNumber::Unsigned(m), JsonNumber::Float(y)) => reversed(compare_to_unsigned(y, m)),
            (JsonNumber::Negative(m), JsonNumber::Float(y)) => reversed(compare_to_signed(y, m)),
            (JsonNumber::Float(x), JsonNumber::Unsigned(n)) => compare_to_unsigned(x, n),
            (JsonNumber::Float(x), JsonNumber::Negative(n)) => compare_to_signed(x, n),
            (JsonNumber::Float(x), JsonNumber::Float(y)) => x.partial_cmp(&y),
        }
    }
}

/// The whole number from 0 to 2^64 - 1 that a value is, as 2.0 is 2.
pub fn natural(value: &Value) -> Option<u64>
    ensures { result ≡ natural (view value.now) }
{
    match value {
        Value::Number(number) => JsonNumber::of(number).natural(),
        _ => None,
    }
}

/// Whether a double has no fraction, as none has from 2^53 on.
pub(crate) fn has_no_fraction(x: f64) -> bool
    ensures { result ≡ is_integral x }
{
    let size = x.abs();
    if size < TWO_TO_53 {
        nearest_u64_to_f64(saturating_f64_to_u64(size)) == size
    } else {
        size.is_finite()
    }
}

/// Whether whole numbers of more than 64 bits are read as this double, as -2^63 - 1 is as -2^63.
fn is_beyond_64_bits(x: f64) -> bool
    ensures { result ≡ is_beyond_64_bits x }
{
    x <= MINUS_TWO_TO_63 || TWO_TO_64 <= x
}

fn natural_float(x: f64) -> Option<u64>
    ensures { result ≡ natural_float x }
{
    if is_natural(x) {
        Some(saturating_f64_to_u64(x))
    } else {
        None
    }
}

fn is_natural(x: f64) -> bool
    ensures { result ≡ is_natural x }
{
    0.0 <= x && x < TWO_TO_64 && has_no_fraction(x)
}

fn compare_to_unsigned(x: f64, n: u64) -> Option<Ordering>
    ensures { result ≡ float_partial_cmp x (of_whole (pos n)) }
{
    if x < 0.0 {
        Some(Ordering::Less)
    } else if x < TWO_TO_64 {
        let whole = saturating_f64_to_u64(x);
        if whole == n && !has_no_fraction(x) {
            Some(Ordering::Greater)
        } else {
            Some(whole.cmp(&n))
        }
    } else if x.is_nan() {
        None
    } else {
        Some(Ordering::Greater)
    }
}

fn compare_to_signed(x: f64, n: i64) -> Option<Ordering>
    ensures { result ≡ float_partial_cmp x (of_whole n) }
{
    if n < 0 {
        reversed(compare_to_unsigned(-x, n.unsigned_abs()))
    } else {
        compare_to_unsigned(x, n.unsigned_abs())
    }
}

fn reversed(order: Option<Ordering>) -> Option<Ordering>
    ensures { result ≡ option_map ordering_reverse order }
{
    order.map(Ordering::reverse)
}
