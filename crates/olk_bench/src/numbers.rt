//! Whole numbers of 64 bits.
ghost use Rattle.std.specs.Prelude.{◌≡◌, ◌≢◌, OnOk, string_bytes, ◌++◌, option_map, ◌==◌, IsSome, IfSome, ◌↔◌, ◌≤◌, ◌%◌, unsigned_abs};

use serde_json::Number;
use std::alloc::AllocError;
use std::fmt::Write;

/// A JSON number that answers `as_u64`, or else `as_i64`.
#[derive(Clone, Copy)]
pub enum WholeNumber {
    /// A number that answers `as_u64`.
    Unsigned(u64),
    /// A number that answers `as_i64` alone.
    Negative(i64),
}

impl WholeNumber {
    ghost use Rattle.serde_json.specs.View.{number_view};
    ghost use Rattle.serde_json.specs.Written.{number_text};
    ghost use Rattle.olk_spec.specs.Bench.{whole_value, is_same_number};
    ghost use Rattle.olk_bench.specs.Numbers.{num_of, as_whole};

    /// The number, where it is whole.
    pub fn of(number: &Number) -> Option<WholeNumber>
        ensures { option_map num_of result ≡ as_whole (number_view number.now) }
    {
        match number.as_u64() {
            Some(n) => Some(WholeNumber::Unsigned(n)),
            None => number.as_i64().map(WholeNumber::Negative),
        }
    }

    /// The value.
    pub fn value(self) -> i128
        ensures { result ≡ whole_value (num_of self) }
    {
        match self {
            WholeNumber::Unsigned(n) => i128::from(n),
            WholeNumber::Negative(n) => i128::from(n),
        }
    }

    /// The value without its sign.
    pub fn magnitude(self) -> u64
        ensures { result ≡ unsigned_abs (whole_value (num_of self)) }
    {
        match self {
            WholeNumber::Unsigned(n) => n,
            WholeNumber::Negative(n) => n.unsigned_abs(),
        }
    }

    /// Whether both are the same number.
    pub fn equals(self, other: WholeNumber) -> bool
        ensures { result ≡ is_same_number (num_of self) (num_of other) }
    {
        match (self, other) {
            (WholeNumber::Unsigned(m), WholeNumber::Unsigned(n)) => m == n,
            (WholeNumber::Negative(m), WholeNumber::Negative(n)) => m == n,
            _ => false,
        }
    }

    /// Appends the digits.
    pub(crate) fn write_to(self, text: &mut String) -> Result<(), AllocError>
        ensures { OnOk result (string_bytes text.new
            ≡ string_bytes text.old ++ number_text (num_of self)) }
    {
        match self {
            WholeNumber::Unsigned(n) => write!(text, "{n}"),
            WholeNumber::Negative(n) => write!(text, "{n}"),
        }
    }
}

/// A number other than zero.
#[derive(Clone, Copy)]
pub struct Divisor {
    pub value: u64,
    ghost nonzero: { value ≢ 0 },
}

impl Divisor {
    /// The number, where it is not zero.
    pub fn new(value: u64) -> Option<Divisor>
        ensures zero { IsSome result ↔ (1 ≤ value) }
        ensures value { IfSome result (λ d. d.value ≡ value) }
    {
        if value == 0 {
            None
        } else {
            Some(Divisor { value })
        }
    }

    /// Whether the number is a multiple of this one.
    pub fn divides(self, number: u64) -> bool
        ensures { result ≡ (number % self.value == 0) }
    {
        number % self.value == 0
    }
}
