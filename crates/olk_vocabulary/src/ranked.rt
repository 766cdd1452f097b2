//! Numbers of JSON in their order.
ghost use Rattle.std.specs.Prelude.{◌≡◌, Some};
ghost use Rattle.std.specs.Ordering.{is_eq, nan_last_cmp};
ghost use Rattle.std.specs.Float.{NotNan};
ghost use Rattle.std.specs.Cmp;
ghost use Rattle.std.specs.Cmp.{on_total, eq_by_cmp_equiv, partial_order_from_total};
ghost use Rattle.std.proofs.lemmas.Float.{nan_last};
ghost use Rattle.std.proofs.Common.{rules};
ghost use Rattle.serde_json.specs.View.{number_view};
ghost use Rattle.olk_numbers.specs.Numbers.{num_of, exact};

use olk_numbers::JsonNumber;
use serde_json::Number;
use std::cmp::Ordering;

/// A number in the order of exact values.
#[derive(Clone, Copy)]
pub(crate) struct RankedNumber {
    number: JsonNumber,
    ghost known: { NotNan (exact (num_of number)) },
}

impl RankedNumber {
    /// The number of a value of JSON.
    pub(crate) fn of(number: &Number) -> RankedNumber
        ensures { num_of result.number ≡ number_view number.now }
    {
        RankedNumber {
            number: JsonNumber::of(number),
        }
    }
}

impl PartialEq for RankedNumber {
    ghost use Rattle.olk_vocabulary.specs.Candidates.{rank};

    ghost eq = { λ x y. is_eq (nan_last_cmp (rank x) (rank y)) };

    ghost laws = { Cmp.partial_equiv_from_equiv (eq_by_cmp_equiv (on_total rank nan_last)) };

    fn eq(&self, other: &RankedNumber) -> bool {
        self.cmp(other).is_eq()
    }
}

impl Eq for RankedNumber {
    ghost use Rattle.olk_vocabulary.specs.Candidates.{rank};

    ghost laws = { eq_by_cmp_equiv (on_total rank nan_last) };
}

impl PartialOrd for RankedNumber {
    ghost use Rattle.olk_vocabulary.specs.Candidates.{rank};

    ghost partial_cmp = { λ x y. Some (nan_last_cmp (rank x) (rank y)) };

    ghost laws = { partial_order_from_total (on_total rank nan_last) };

    fn partial_cmp(&self, other: &RankedNumber) -> Option<Ordering> {
        Some(self.cmp(other))
    }
}

impl Ord for RankedNumber {
    ghost use Rattle.olk_vocabulary.specs.Candidates.{rank};

    ghost cmp = { λ x y. nan_last_cmp (rank x) (rank y) };

    ghost total = { on_total rank nan_last };

    ghost matches_partial_cmp = { Prim.search rules };

    ghost matches_eq = { Prim.search rules };

    fn cmp(&self, other: &RankedNumber) -> Ordering {
        self.number.compare(other.number).unwrap()
    }
}
