//! Decimals that doubles stand for.
ghost use Rattle.std.specs.Prelude.{◌≡◌, ◌<◌, ◌≤◌, ◌*◌, ◌^◌, IfSome, pos};
ghost use Rattle.std.specs.Float.{binary64};
ghost use Rattle.std.specs.Float.Ieee.{of_int};

use std::num::{nearest_u64_to_f64, saturating_f64_to_u64};

const TWO_TO_53: u64 = 9007199254740992;

/// The number digits / 10^places.
#[derive(Clone, Copy)]
pub struct Decimal {
    pub digits: u64,
    pub places: u32,
}

impl Decimal {
    ghost use Rattle.olk_numbers.specs.Decimals.{ReadsAs, reads_as, candidate, decimal_at, decimal_of, nearest_double};

    /// The decimal of the fewest places that reads as the double, of up to 22 places and with
    /// digits below 2^53.
    pub(crate) fn of(x: f64) -> Option<Decimal>
        ensures first { result ≡ decimal_of x }
        ensures reads { IfSome result (ReadsAs x) }
    {
        for places in 0..23 {
            if let Some(decimal) = Decimal::at(x, places) {
                return Some(decimal);
            }
        }
        None
    }

    fn at(x: f64, places: u32) -> Option<Decimal>
        requires { places ≤ 22 }
        ensures { result ≡ decimal_at x places }
    {
        let candidate = Decimal::candidate(x, places);
        if candidate.reads_as(x) {
            Some(candidate)
        } else {
            None
        }
    }

    fn candidate(x: f64, places: u32) -> Decimal
        requires { places ≤ 22 }
        ensures { result ≡ candidate x places }
    {
        let scaled = x * power_of_ten(places);
        Decimal {
            digits: saturating_f64_to_u64(scaled.round()),
            places,
        }
    }

    /// Whether the double is the one nearest to this.
    fn reads_as(self, x: f64) -> bool
        requires { self.places ≤ 22 }
        ensures { result ≡ reads_as x self }
    {
        0 < self.digits && self.digits < TWO_TO_53 && self.nearest_double() == x
    }

    fn nearest_double(self) -> f64
        requires digits { self.digits < 2 ^ 53 }
        requires places { self.places ≤ 22 }
        ensures { result ≡ nearest_double self }
    {
        nearest_u64_to_f64(self.digits) / power_of_ten(self.places)
    }
}

/// 10^places, which is a double.
fn power_of_ten(places: u32) -> f64
    requires { places ≤ 22 }
    ensures { result ≡ of_int binary64 (pos (10 ^ places)) }
{
    let fewer = places / 2;
    let others = places - fewer;
    nearest_u64_to_f64(10u64.pow(fewer)) * nearest_u64_to_f64(10u64.pow(others))
}

/// The digits with so many zeros behind them.
pub(crate) fn scaled(digits: u64, places: u32) -> u128
    requires places { places ≤ 22 }
    requires fits { digits * 10 ^ places < 2 ^ 128 }
    ensures { result ≡ digits * 10 ^ places }
{
    u128::from(digits) * 10u128.pow(places)
}
