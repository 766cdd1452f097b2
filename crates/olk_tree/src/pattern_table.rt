//! What patterns say of declared names (JSON Schema 2020-12 Core, 10.3.2.2 and 10.3.2.3).
ghost use Rattle.std.specs.Prelude.{◌≡◌, ℕ, ◌/◌, ◌*◌, ◌<◌, ◌≤◌, ◌≢◌, ◌==◌, IsTrue, true, false, IfOk, OnOk, OnErr, length, map};
ghost use Rattle.std.specs.List.{AllZip, list_all};
ghost use Rattle.serde_json.specs.View.{members_view};
ghost use Rattle.olk_spec.specs.Schemas.{listed};
ghost use Rattle.olk_spec.specs.World.{unmatched, unfinished};
ghost use Rattle.olk_base.specs.Lawful.{said};
ghost use Rattle.olk_tree.specs.Sorted.{name_of};
ghost use Rattle.olk_tree.specs.Tables.{patterns_of, has_bit, row_says, HasWord, no_table, table_says, known_says, matched_in, unfinished_in, index_said, indices_below, indices_in, IsRowOf, IsTableOf, how_many_cost, count_asks, AsksAtMost, is_blank, is_blank_at};

use crate::names::SortedNames;
use crate::sorted_name::SortedName;
use olk_base::{CompiledPattern, Meter, RegexEngine, Unfinished};
use serde_json::{Map, Value};
use std::alloc::{AllocError, Global};
use std::marker::Model;

// So many patterns have their bits in one word.
const WORD_BITS: usize = 64;

/// A pattern that matches a name, or was left unfinished at it.
#[derive(Clone, Copy)]
pub struct PatternIndex {
    /// Its place among the patterns.
    pub index: usize,
    /// Whether the match was decided, and so the pattern matches.
    pub finished: bool,
}

/// Names, and beside each what patterns say of it, as far as that is known.
#[derive(Drop)]
pub struct PatternTable {
    names: SortedNames,
    rows: Vec<PatternRow>,
    patterns: usize,
}

impl Model for PatternTable {
    ghost use Rattle.olk_tree.specs.Tables.{Table};

    ghost Value = { Table };

    ghost view = { λ t. record { names = t.names; patterns = t.patterns; rows = t.rows.items } };
}

impl PatternTable {
    /// A table of no names, in which nothing is known. Takes no memory.
    pub fn none(alloc: Global) -> PatternTable
        ensures { result ≡ no_table }
    {
        PatternTable {
            names: SortedNames::none(alloc),
            rows: Vec::new(alloc),
            patterns: 0,
        }
    }

    /// Whether the pattern matches the name at the place, and `None` where that is not known: the
    /// match was left unfinished, or no name stands there. Takes no memory.
    #[inline(always)]
    pub fn known(&self, place: usize, index: usize) -> Option<bool>
        ensures { known_says result ≡ table_says self.now place index }
    {
        match self.rows.get(place) {
            Some(row) => row.known(index),
            None => None,
        }
    }

    /// Whether it is known of each pattern that it does not match the name at the place. Takes no
    /// memory.
    #[inline(always)]
    pub fn matches_nothing(&self, place: usize) -> bool
        ensures value { result ≡ is_blank_at self.now place }
        ensures unmatched { IsTrue result
            → (i : ℕ) → table_says self.now place i ≡ unmatched }
    {
        match self.rows.get(place) {
            Some(row) => row.is_blank(),
            None => false,
        }
    }

    /// Whether the name is one of the table and the pattern matches it; none matches where no
    /// pattern has this index. Takes no memory.
    pub fn is_matched(&self, name: &str, index: usize) -> bool
        ensures { result ≡ matched_in self.now name.now index }
    {
        match self.names.find(name) {
            Some(place) if index < self.patterns => matches!(self.known(place, index), Some(true)),
            _ => false,
        }
    }

    /// Whether the name is one of the table and the pattern was left unfinished at it; none was
    /// where no pattern has this index. Takes no memory.
    pub fn is_unfinished(&self, name: &str, index: usize) -> bool
        ensures { result ≡ unfinished_in self.now name.now index }
    {
        match self.names.find(name) {
            Some(place) if index < self.patterns => self.known(place, index).is_none(),
            _ => false,
        }
    }

    /// The patterns that match the name and those that were left unfinished at it, in ascending
    /// order; none for a name that is not one of the table.
    ///
    /// # Errors
    ///
    /// Out of memory.
    pub fn indices(&self, alloc: Global, name: &str) -> Result<Vec<PatternIndex>, AllocError>
        ensures { IfOk result (λ indices. indices.items ≡ indices_in self.now name.now) }
    {
        match self.names.find(name) {
            Some(place) => self.indices_at(alloc, place),
            None => Ok(Vec::new(alloc)),
        }
    }

    /// The patterns that match the name at the place, and those that were left unfinished at it.
    fn indices_at(&self, alloc: Global, place: usize) -> Result<Vec<PatternIndex>, AllocError>
        ensures { IfOk result (λ indices. indices.items
            ≡ indices_below (table_says self.now place) self.now.patterns) }
    {
        let mut indices = Vec::new(alloc);
        for index in 0..self.patterns {
            if let Some(entry) = self.index_at(place, index) {
                indices.push(entry)?;
            }
        }
        Ok(indices)
    }

    /// The pattern, if it matches the name at the place or was left unfinished at it.
    fn index_at(&self, place: usize, index: usize) -> Option<PatternIndex>
        ensures { result ≡ index_said index (table_says self.now place index) }
    {
        match self.known(place, index) {
            Some(false) => None,
            known => Some(PatternIndex {
                index,
                finished: known.is_some(),
            }),
        }
    }
}

/// The table of the names of an object's members: each pattern is asked once of each name.
///
/// Of the counts only that of matchers that were asked rises: by the names times the patterns that
/// cost.
///
/// # Errors
///
/// Out of memory. No more is counted then.
pub fn precompute_property_pattern_indices<R: RegexEngine, N>(
    alloc: Global,
    properties: &Map<String, Value>,
    patterns: &[(CompiledPattern<R>, N)],
    meter: &mut Meter,
) -> Result<PatternTable, AllocError>
    ensures names { IfOk result (λ t. t.names ≡ map (λ m. m.0)
        (listed (members_view properties.now.entries))) }
    ensures patterns { IfOk result (λ t. t.patterns ≡ length patterns.now) }
    ensures answers { IfOk result (λ t. IsTableOf R.answers (patterns_of patterns.now) t) }
    ensures nothing_else { IfOk result
        (λ t. (p i : ℕ) → length t.names ≤ p → table_says t p i ≡ unfinished) }
    ensures asked { OnOk result (meter.new ≡ count_asks
        (length (listed (members_view properties.now.entries))
        * how_many_cost R.costs (patterns_of patterns.now))
        meter.old) }
    ensures asked_at_most { OnErr result (AsksAtMost
        (length (listed (members_view properties.now.entries))
        * how_many_cost R.costs (patterns_of patterns.now))
        meter.old meter.new) }
{
    let names = SortedNames::of(alloc, properties)?;
    let rows = rows_of(alloc, names.as_slice(), patterns, meter)?;
    Ok(PatternTable {
        names,
        rows,
        patterns: patterns.len(),
    })
}

/// A row for each name: each pattern is asked once of each, on the meter.
fn rows_of<R: RegexEngine, N>(
    alloc: Global,
    names: &[SortedName],
    patterns: &[(CompiledPattern<R>, N)],
    meter: &mut Meter,
) -> Result<Vec<PatternRow>, AllocError>
    ensures answers { IfOk result (λ rows. AllZip (IsRowOf R.answers (patterns_of patterns.now))
        (map name_of names.now) rows.items) }
    ensures asked { OnOk result (meter.new
        ≡ count_asks (length names.now * how_many_cost R.costs (patterns_of patterns.now))
        meter.old) }
    ensures asked_at_most { OnErr result (AsksAtMost
        (length names.now * how_many_cost R.costs (patterns_of patterns.now)) meter.old meter.new) }
{
    let mut rows = Vec::with_capacity(alloc, names.len())?;
    for name in names {
        rows.push(row_of(alloc, name.as_str(), patterns, meter)?)?;
    }
    Ok(rows)
}

/// The row of a name: each pattern is asked of it once, on the meter, once there is memory for the
/// row.
fn row_of<R: RegexEngine, N>(
    alloc: Global,
    name: &str,
    patterns: &[(CompiledPattern<R>, N)],
    meter: &mut Meter,
) -> Result<PatternRow, AllocError>
    ensures answers { IfOk result (IsRowOf R.answers (patterns_of patterns.now) name.now) }
    ensures asked { OnOk result
        (meter.new ≡ count_asks (how_many_cost R.costs (patterns_of patterns.now)) meter.old) }
    ensures unasked { OnErr result (meter.new ≡ meter.old) }
{
    let mut row = PatternRow::unmatched(alloc, patterns.len())?;
    for (index, entry) in patterns.iter().enumerate() {
        row.note(index, entry.0.is_match(name, meter));
    }
    Ok(row)
}

/// What patterns say of one name: those that match it, and those that were left unfinished at it.
#[derive(Drop)]
struct PatternRow {
    matched: PatternBits,
    unfinished: PatternBits,
}

impl Model for PatternRow {
    ghost use Rattle.olk_tree.specs.Tables.{Row};

    ghost Value = { Row };

    ghost view = { λ r. record { matched = r.matched; unfinished = r.unfinished } };
}

impl PatternRow {
    /// So many patterns, none of which matches.
    fn unmatched(alloc: Global, patterns: usize) -> Result<PatternRow, AllocError>
        ensures unmatched { IfOk result (λ r. (i : ℕ) → row_says r i ≡ unmatched) }
        ensures words { IfOk result (λ r. (i : ℕ) → i < patterns → HasWord i r) }
    {
        Ok(PatternRow {
            matched: PatternBits::unset(alloc, patterns)?,
            unfinished: PatternBits::unset(alloc, patterns)?,
        })
    }

    /// Whether the pattern matches. `None` where it was left unfinished.
    #[inline(always)]
    fn known(&self, index: usize) -> Option<bool>
        ensures { known_says result ≡ row_says self.now index }
    {
        if self.unfinished.has(index) {
            None
        } else {
            Some(self.matched.has(index))
        }
    }

    /// Whether no pattern matches, and none was left unfinished.
    #[inline(always)]
    fn is_blank(&self) -> bool
        ensures value { result ≡ is_blank self.now }
        ensures unmatched { IsTrue result → (i : ℕ) → row_says self.now i ≡ unmatched }
    {
        self.matched.are_zero() && self.unfinished.are_zero()
    }

    /// Notes what a pattern says of which nothing was noted.
    fn note(&mut self, index: usize, answer: Result<bool, Unfinished>)
        requires word { HasWord index self.old }
        requires unmatched { row_says self.old index ≡ unmatched }
        ensures noted { row_says self.new index ≡ said answer }
        ensures others { (i : ℕ) → i ≢ index → row_says self.new i ≡ row_says self.old i }
        ensures words { (i : ℕ) → HasWord i self.old → HasWord i self.new }
    {
        match answer {
            Ok(true) => self.matched.set(index),
            Ok(false) => {}
            Err(_) => self.unfinished.set(index),
        }
    }
}

/// A bit for each pattern: those of the first 64 in a word in place, the others behind it.
#[derive(Drop)]
struct PatternBits {
    first: u64,
    more: Vec<u64>,
}

impl Model for PatternBits {
    ghost use Rattle.std.specs.Prelude.{ℕ, List, ◌∷◌};

    ghost Value = { List ℕ };

    ghost view = { λ b. b.first ∷ b.more.items };
}

impl PatternBits {
    /// Bits for so many patterns, none of which is set.
    fn unset(alloc: Global, patterns: usize) -> Result<PatternBits, AllocError>
        ensures unset { IfOk result (λ bits. (i : ℕ) → has_bit bits i ≡ false) }
        ensures words { IfOk result (λ bits. (i : ℕ) → i < patterns → i / 64 < length bits) }
    {
        let more = patterns.div_ceil(WORD_BITS).saturating_sub(1);
        Ok(PatternBits {
            first: 0,
            more: vec![in alloc; 0; more]?,
        })
    }

    /// Whether the pattern's bit is set.
    #[inline(always)]
    fn has(&self, index: usize) -> bool
        ensures { result ≡ has_bit self.now index }
    {
        if index < WORD_BITS {
            return (self.first >> index) & 1 == 1;
        }
        match self.more.get(index / WORD_BITS - 1) {
            Some(word) => (word >> (index % WORD_BITS)) & 1 == 1,
            None => false,
        }
    }

    /// Whether no bit is set.
    #[inline(always)]
    fn are_zero(&self) -> bool
        ensures { result ≡ list_all (λ w. w == 0) self.now }
    {
        self.first == 0 && are_zero(&self.more)
    }

    /// Sets the pattern's bit.
    fn set(&mut self, index: usize)
        requires { index / 64 < length self.old }
        ensures length { length self.new ≡ length self.old }
        ensures set { has_bit self.new index ≡ true }
        ensures others { (i : ℕ) → i ≢ index → has_bit self.new i ≡ has_bit self.old i }
    {
        if index < WORD_BITS {
            self.first |= 1 << index;
        } else {
            self.more[index / WORD_BITS - 1] |= 1 << (index % WORD_BITS);
        }
    }
}

#[inline(always)]
fn are_zero(words: &[u64]) -> bool
    ensures { result ≡ list_all (λ w. w == 0) words.now }
{
    words.iter().all(|word| *word == 0)
}
