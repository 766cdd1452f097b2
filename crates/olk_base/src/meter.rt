//! The counts of building and asking.
ghost use Rattle.std.specs.Prelude.{◌≡◌, ℕ, ◌+◌, ◌≤◌};
ghost use Rattle.olk_base.specs.Count.{no_counts, raised, count_compiled, count_leaf, count_made, count_asked, count_unfinished};

use std::marker::Model;

/// How many schemas were compiled, leaves and matchers made, matchers asked and matches left
/// unfinished.
///
/// No call lowers a count, and a count at `u64::MAX` stays there.
#[derive(Drop)]
pub struct Meter {
    compiled: u64,
    leaves: u64,
    made: u64,
    asked: u64,
    unfinished: u64,
}

impl Model for Meter {
    ghost use Rattle.olk_base.specs.Count.{Counts};

    ghost Value = { Counts };

    ghost view = { λ m. record {
      compiled = m.compiled;
      leaves = m.leaves;
      made = m.made;
      asked = m.asked;
      unfinished = m.unfinished;
    } };
}

impl Meter {
    /// A meter with all counts zero.
    pub fn new() -> Meter
        ensures { result ≡ no_counts }
    {
        Meter {
            compiled: 0,
            leaves: 0,
            made: 0,
            asked: 0,
            unfinished: 0,
        }
    }

    /// How many schemas were compiled.
    pub fn compiled(&self) -> u64
        ensures { result ≡ self.now.compiled }
    {
        self.compiled
    }

    /// How many times a leaf was to be made.
    pub fn leaves(&self) -> u64
        ensures { result ≡ self.now.leaves }
    {
        self.leaves
    }

    /// How many times a matcher was to be made.
    pub fn made(&self) -> u64
        ensures { result ≡ self.now.made }
    {
        self.made
    }

    /// How many times a matcher was asked.
    pub fn asked(&self) -> u64
        ensures { result ≡ self.now.asked }
    {
        self.asked
    }

    /// How many matches were left unfinished.
    pub fn unfinished(&self) -> u64
        ensures { result ≡ self.now.unfinished }
    {
        self.unfinished
    }

    /// Counts a schema that is compiled; the other counts stay.
    pub fn tick_compiled(&mut self)
        ensures { self.new ≡ count_compiled self.old }
    {
        self.compiled = self.compiled.saturating_add(1);
    }

    /// Counts a leaf that is to be made; the other counts stay.
    pub fn tick_leaves(&mut self)
        ensures { self.new ≡ count_leaf self.old }
    {
        self.leaves = self.leaves.saturating_add(1);
    }

    /// Counts a matcher that is to be made; the other counts stay.
    pub fn tick_made(&mut self)
        ensures { self.new ≡ count_made self.old }
    {
        self.made = self.made.saturating_add(1);
    }

    /// Counts a matcher that is asked; the other counts stay.
    pub fn tick_asked(&mut self)
        ensures { self.new ≡ count_asked self.old }
    {
        self.asked = self.asked.saturating_add(1);
    }

    /// Counts a match that is left unfinished; the other counts stay.
    pub fn tick_unfinished(&mut self)
        ensures { self.new ≡ count_unfinished self.old }
    {
        self.unfinished = self.unfinished.saturating_add(1);
    }
}

/// The law of counts: a count is never lowered, is exact up to `u64::MAX`, and stays there.
pub fn law_of_counts()
    ensures never_lowered { (count n : ℕ) → count ≤ raised count n }
    ensures exact { (count n : ℕ) → count + n ≤ u64.MAX → raised count n ≡ count + n }
    ensures stays { (n : ℕ) → raised u64.MAX n ≡ u64.MAX }
{}
