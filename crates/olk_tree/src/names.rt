//! Names in order, found by their first bytes.
ghost use Rattle.std.specs.Ordering.{nat_cmp};
ghost use Rattle.std.specs.Result.{result_ok};
ghost use Rattle.std.specs.Cmp.Lexicographic.{slice_cmp};
ghost use Rattle.std.specs.declared.cmp.Ordering.TheVariants.{Greater};
ghost use Rattle.std.specs.Prelude.{[], ◌≡◌, ◌<◌, ◌↔◌, IsTrue, IfOk, IfSome, Some, bytes_eq, length, map, nat_lt, slice_index, slice_index_or, position};
ghost use Rattle.serde_json.specs.View.{members_view};
ghost use Rattle.olk_spec.specs.Schemas.{listed};
ghost use Rattle.olk_tree.specs.Ascending.{Ascend, IsBefore, IsFirst, IsPlaceOf, Rise, first_bytes};
ghost use Rattle.olk_tree.specs.Sorted.{name_of, names_of, heads_of};

use crate::sorted_name::{SortedName, head_of};
use olk_base::is_same_text;
use serde_json::{Map, Value};
use std::alloc::{AllocError, Global};
use std::cmp::Ordering;
use std::marker::Model;

/// Names in strictly ascending order of their bytes.
#[derive(Drop)]
pub struct SortedNames {
    names: Vec<SortedName>,
}

impl Model for SortedNames {
    ghost use Rattle.std.specs.Prelude.{ℕ, List};
    ghost use Rattle.olk_tree.specs.Ascending.{Ascend};
    ghost use Rattle.olk_tree.specs.Sorted.{names_of};

    ghost Value = { List (List ℕ) };

    ghost view = { λ m. names_of m.names.items };

    ghost invariant = { λ m. Ascend (names_of m.names.items) };
}

// So many names are passed in turn, before the rest is bisected.
const NEAR: usize = 8;

impl SortedNames {
    /// No names. Takes no memory.
    pub fn none(alloc: Global) -> SortedNames
        ensures { result ≡ [] }
    {
        SortedNames {
            names: Vec::new(alloc),
        }
    }

    /// The names of an object's members.
    ///
    /// # Errors
    ///
    /// Out of memory.
    pub fn of(alloc: Global, object: &Map<String, Value>) -> Result<SortedNames, AllocError>
        ensures { IfOk result (λ names. names ≡ map (λ m. m.0)
            (listed (members_view object.now.entries))) }
    {
        let mut names = Vec::with_capacity(alloc, object.len())?;
        for (name, _) in object {
            names.push(SortedName::of(name.clone()?))?;
        }
        Ok(SortedNames { names })
    }

    /// How many names there are.
    pub fn len(&self) -> usize
        ensures len { result ≡ length self.now }
        ensures ordered { Ascend self.now }
    {
        self.names.len()
    }

    /// The names, in order.
    #[inline(always)]
    pub fn as_slice(&self) -> &[SortedName]
        ensures names { names_of result.now ≡ self.now }
        ensures ordered { Ascend (names_of result.now) }
    {
        &self.names
    }

    /// At which place the name stands.
    pub fn find(&self, name: &str) -> Option<usize>
        ensures { result ≡ position (λ k. bytes_eq k name.now) self.now }
    {
        find_apart(self.as_slice(), 0, name).ok()
    }
}

/// Whether the name stands at the place.
#[inline(always)]
pub(crate) fn stands_at(names: &[SortedName], place: usize, name: &str) -> bool
    requires { Ascend (names_of names.now) }
    ensures { IsTrue result
        ↔ (position (λ k. bytes_eq k name.now) (names_of names.now) ≡ Some place) }
{
    place < names.len() && is_same_text(names[place].as_str(), name)
}

/// Where the name stands if it stands at another place than `hint`, or else where to look first for
/// a later name.
#[inline(never)]
pub(crate) fn find_apart(names: &[SortedName], hint: usize, name: &str) -> Result<usize, usize>
    requires { Ascend (names_of names.now) }
    ensures { result_ok result ≡ position (λ k. bytes_eq k name.now) (names_of names.now) }
{
    let head = head_of(name);
    if hint > 0 && hint <= names.len() && names[hint - 1].head == head {
        return find_alike(names, hint, name);
    }
    match first_near(names, hint, head) {
        Some(place) => find_at(names, place, head, name),
        None => find_far(names, head, name),
    }
}

/// What `find_apart` tells among names that begin alike: some are compared whole from the place on,
/// before the rest is bisected.
#[inline(never)]
fn find_alike(names: &[SortedName], start: usize, name: &str) -> Result<usize, usize>
    requires { Ascend (names_of names.now) }
    ensures { result_ok result ≡ position (λ k. bytes_eq k name.now) (names_of names.now) }
{
    let end = names.len().min(start.saturating_add(NEAR));
    for place in start..end {
        match names[place].as_str().cmp(name) {
            Ordering::Less => {}
            Ordering::Equal => return Ok(place),
            Ordering::Greater => return find_before(names, place, name),
        }
    }
    place_of(names, name)
}

/// What `find_apart` tells, if the name at the place is greater.
#[inline(always)]
fn find_before(names: &[SortedName], place: usize, name: &str) -> Result<usize, usize>
    requires ascend { Ascend (names_of names.now) }
    requires inside { place < length names.now }
    requires greater { slice_cmp nat_cmp (slice_index_or (names_of names.now) place [])
        name.now ≡ Greater }
    ensures { result_ok result ≡ position (λ k. bytes_eq k name.now) (names_of names.now) }
{
    if place > 0 {
        if let Ordering::Less = names[place - 1].as_str().cmp(name) {
            return Err(place);
        }
    }
    place_of(names, name)
}

/// What `find_apart` tells, found by bisection.
#[inline(never)]
fn find_far(names: &[SortedName], head: u64, name: &str) -> Result<usize, usize>
    requires ascend { Ascend (names_of names.now) }
    requires head { head ≡ first_bytes name.now }
    ensures { result_ok result ≡ position (λ k. bytes_eq k name.now) (names_of names.now) }
{
    find_at(names, first_of_all(names, head), head, name)
}

/// What `find_apart` tells, if the first head that is not less than the name's is at the place.
#[inline(always)]
fn find_at(names: &[SortedName], place: usize, head: u64, name: &str) -> Result<usize, usize>
    requires ascend { Ascend (names_of names.now) }
    requires head { head ≡ first_bytes name.now }
    requires first { IsFirst (heads_of names.now) head place }
    ensures { result_ok result ≡ position (λ k. bytes_eq k name.now) (names_of names.now) }
{
    if place >= names.len() {
        return Err(place);
    }
    if names[place].head != head {
        return Err(place);
    }
    if stands_with_head(names, place, name) {
        return Ok(place);
    }
    find_alike(names, place, name)
}

/// Whether the name stands at the place, where one of its first bytes does: up to eight bytes
/// aren't compared again.
#[inline(always)]
fn stands_with_head(names: &[SortedName], place: usize, name: &str) -> bool
    requires ascend { Ascend (names_of names.now) }
    requires inside { place < length names.now }
    requires head { slice_index (heads_of names.now) place ≡ first_bytes name.now }
    ensures { IsTrue result
        → Some place ≡ position (λ k. bytes_eq k name.now) (names_of names.now) }
{
    let found = names[place].as_str();
    let count = name.as_bytes().len();
    if found.len() != count {
        return false;
    }
    count <= 8 || found == name
}

/// At which place the first head stands that is not less than this one, if that isn't far from the
/// hint.
#[inline(always)]
#[tactic(auto, using(crate::proofs::Heads::first_places))]
fn first_near(names: &[SortedName], hint: usize, head: u64) -> Option<usize>
    requires { Rise (heads_of names.now) }
    ensures { IfSome result (IsFirst (heads_of names.now) head) }
{
    let start = start_from(names, hint, head);
    if NEAR <= names.len() - start && names[start + NEAR - 1].head < head {
        return None;
    }
    for place in start..names.len() {
        if names[place].head >= head {
            return Some(place);
        }
    }
    Some(names.len())
}

/// The hint, if the head before it is less, and else the start.
#[inline(always)]
#[tactic(auto, using(crate::proofs::Heads::first_places))]
fn start_from(names: &[SortedName], hint: usize, head: u64) -> usize
    requires { Rise (heads_of names.now) }
    ensures { IsBefore (heads_of names.now) head result }
{
    if hint > 0 && hint <= names.len() && names[hint - 1].head < head {
        return hint;
    }
    0
}

/// At which place the first head stands that is not less than this one.
#[inline(always)]
fn first_of_all(names: &[SortedName], head: u64) -> usize
    requires { Rise (heads_of names.now) }
    ensures { IsFirst (heads_of names.now) head result }
{
    names.partition_point(
        |it: &SortedName| -> bool
            ensures { result ≡ nat_lt it.now.head head }
        { it.head < head },
    )
}

/// Where the name stands, or else where it would stand, found by bisection.
#[inline(never)]
fn place_of(names: &[SortedName], name: &str) -> Result<usize, usize>
    requires { Ascend (names_of names.now) }
    ensures { IsPlaceOf (names_of names.now) name.now result }
{
    names.binary_search_by(
        |k: &SortedName| -> Ordering
            ensures { result ≡ slice_cmp nat_cmp (name_of k.now) name.entry.now }
        { k.as_str().cmp(name) },
    )
}
