//! What `multipleOf` divides by.
ghost use Rattle.std.specs.Prelude.{◌≡◌, ◌≢◌, ◌<◌, ◌≤◌, ◌*◌, ◌%◌, ◌^◌, Some, true, false, IfSome, is_some};
ghost use Rattle.std.specs.Float.{float_is_finite, is_sign_negative};
ghost use Rattle.serde_json.specs.View.{number_view};
ghost use Rattle.olk_numbers.specs.Decimals.{IsShort};
ghost use Rattle.olk_numbers.specs.Numbers.{num_of, whole_part};
ghost use Rattle.olk_numbers.specs.Multiples.{whole_divisor, double_divisor, divisor_of, whole_is_multiple, decimal_is_multiple, fraction_is_multiple, double_is_multiple};

use crate::decimals::{Decimal, scaled};
use crate::numbers::{JsonNumber, TWO_TO_64, has_no_fraction};
use serde_json::Number;
use std::num::saturating_f64_to_u64;

/// A number above 0 whose digits are known (JSON Schema 2020-12 Validation 6.2.1).
#[derive(Clone, Copy)]
pub struct Divisor {
    /// The number as it is in JSON.
    pub number: JsonNumber,
    decimal: Decimal,
    ghost stands: { divisor_of (num_of number) ≡ Some decimal },
    ghost above_zero: { 0 < decimal.digits },
    ghost few_places: { decimal.places ≤ 22 },
    ghost few_digits: { 0 < decimal.places → decimal.digits < 2 ^ 53 },
}

impl Divisor {
    /// The number, where it is a whole one from 1 below 2^64, as 2.0 is, or a fraction above 0 that
    /// reads as a decimal of at most 22 places and 15 digits or so.
    pub fn of(number: &Number) -> Option<Divisor>
        ensures known { is_some result ≡ is_some (divisor_of (number_view number.now)) }
        ensures same { IfSome result (λ d. num_of d.number ≡ number_view number.now) }
    {
        let number = JsonNumber::of(number);
        match decimal_divisor(number) {
            Some(decimal) => Some(Divisor { number, decimal }),
            None => None,
        }
    }

    pub(crate) fn divides_whole(self, number: u64) -> bool
        ensures { result ≡ whole_is_multiple number self.decimal }
    {
        self.divides_remainder(number % self.decimal.digits)
    }

    pub(crate) fn divides_double(self, x: f64) -> bool
        ensures { result ≡ double_is_multiple x self.decimal }
    {
        if has_no_fraction(x) {
            self.divides_remainder(remainder(x.abs(), self.decimal.digits))
        } else {
            self.divides_fraction(x)
        }
    }

    fn divides_remainder(self, remainder: u64) -> bool
        requires { remainder < self.decimal.digits }
        ensures { result ≡ whole_is_multiple remainder self.decimal }
    {
        scaled(remainder, self.decimal.places) % u128::from(self.decimal.digits) == 0
    }

    fn divides_fraction(self, x: f64) -> bool
        ensures { result ≡ fraction_is_multiple x self.decimal }
    {
        match Decimal::of(x.abs()) {
            Some(decimal) => self.divides_decimal(decimal),
            None => false,
        }
    }

    fn divides_decimal(self, decimal: Decimal) -> bool
        requires { IsShort decimal }
        ensures { result ≡ decimal_is_multiple decimal self.decimal }
    {
        if self.decimal.places == 0 {
            return false;
        }
        let step = scaled(self.decimal.digits, decimal.places);
        scaled(decimal.digits, self.decimal.places) % step == 0
    }
}

fn decimal_divisor(number: JsonNumber) -> Option<Decimal>
    ensures { result ≡ divisor_of (num_of number) }
{
    match number {
        JsonNumber::Unsigned(n) => whole_divisor(n),
        JsonNumber::Negative(_) => None,
        JsonNumber::Float(x) => double_divisor(x),
    }
}

fn whole_divisor(number: u64) -> Option<Decimal>
    ensures { result ≡ whole_divisor number }
{
    if 1 <= number {
        Some(Decimal {
            digits: number,
            places: 0,
        })
    } else {
        None
    }
}

fn double_divisor(x: f64) -> Option<Decimal>
    ensures { result ≡ double_divisor x }
{
    if has_no_fraction(x) {
        JsonNumber::Float(x).natural().and_then(whole_divisor)
    } else if 0.0 < x {
        Decimal::of(x)
    } else {
        None
    }
}

/// What a whole double that is not negative leaves, divided by a whole number.
fn remainder(x: f64, divisor: u64) -> u64
    requires nonzero { divisor ≢ 0 }
    requires finite { float_is_finite x ≡ true }
    requires sign { is_sign_negative x ≡ false }
    ensures { result ≡ whole_part x % divisor }
{
    if x < TWO_TO_64 {
        saturating_f64_to_u64(x) % divisor
    } else {
        twice(remainder(x / 2.0, divisor), divisor)
    }
}

/// Twice a number, divided by another: what it leaves.
fn twice(number: u64, divisor: u64) -> u64
    requires { divisor ≢ 0 }
    ensures { result ≡ (2 * number) % divisor }
{
    (2 * u128::from(number) % u128::from(divisor)) as u64
}
