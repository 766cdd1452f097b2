//! Looking up names, in maps of few and of many.
use crate::objects::{add_names, beside, sorted_names};
use olk_tree::declared::DeclaredMembers;
use olk_tree::properties_map::PropertiesMap;
use olk_tree::{BigMap, Entries, PropertiesValidatorsMap, SmallMap};
use serde_json::{Map, Value};
use std::alloc::{AllocError, Global};
use std::test::Fail;

const DECLARED: &str =
    "01 03 05 07 09 11 13 15 17 19 21 23 25 27 29 31 33 35 37 39 41 43 45 47 49 51 53 55 57 59 61 63 65 67 69 71 73 75 77 79";

// Below, between and above those.
const OTHERS: &str =
    " 00 02 04 06 08 10 12 14 16 18 20 22 24 26 28 30 32 34 36 38 40 42 44 46 48 50 52 54 56 58 60 62 64 66 68 70 72 74 76 78 80";

fn positions(alloc: Global, count: usize) -> Result<Vec<usize>, AllocError> {
    let mut positions = Vec::new(alloc);
    for position in 0..count {
        positions.push(position)?;
    }
    Ok(positions)
}

/// The first so many names, each with its position.
fn first_names(alloc: Global, count: usize) -> Result<SmallMap<usize>, AllocError> {
    beside(
        sorted_names(alloc, DECLARED, count),
        positions(alloc, count),
    )
}

/// The first names in a map of many, each with its place.
fn first_of_many(alloc: Global, count: usize) -> Result<BigMap<usize>, AllocError> {
    let SmallMap { names, nodes } = first_names(alloc, count)?;
    Ok(BigMap { names, nodes })
}

/// A map that lends its entries.
trait LendsEntries: PropertiesValidatorsMap<usize> + Drop {
    fn lent(&self) -> Entries<'_, usize>;
}

impl LendsEntries for SmallMap<usize> {
    fn lent(&self) -> Entries<'_, usize> {
        self.entries()
    }
}

impl LendsEntries for BigMap<usize> {
    fn lent(&self) -> Entries<'_, usize> {
        self.entries()
    }
}

impl LendsEntries for PropertiesMap<usize> {
    fn lent(&self) -> Entries<'_, usize> {
        self.entries()
    }
}

// ---- looking up

/// Whether each look-up finds the name at this position, or none does.
fn is_at<M: LendsEntries>(map: &M, name: &str, position: Option<usize>) -> bool {
    let is_keyed_so = match (map.get_key_validator(name), position) {
        (Some((key, found)), Some(position)) => key == name && *found == position,
        (None, None) => true,
        _ => false,
    };
    let is_placed_so = match (map.lent().placed_from(0, name).1, position) {
        (Some((place, found)), Some(position)) => place == position && *found == position,
        (None, None) => true,
        _ => false,
    };
    is_keyed_so && is_placed_so && map.get_validator(name).copied() == position
}

/// The first of these names that is not found as it is to be: the first so many stand in the map,
/// and no other.
fn wrong_name<M: LendsEntries>(map: &M, names: &'static str, count: usize) -> Option<&'static str> {
    for (i, name) in names.split(" ").enumerate() {
        let position = if i < count { Some(i) } else { None };
        if !is_at(map, name, position) {
            return Some(name);
        }
    }
    None
}

/// What is not found as it is to be in a map of the first so many names.
fn wrong_look_up<M: LendsEntries>(map: &M, count: usize) -> Option<&'static str> {
    if map.lent().len() == count {
        wrong_name(map, DECLARED, count).or(wrong_name(map, OTHERS, 0))
    } else {
        Some("another length")
    }
}

/// Nothing is wrong in a map of so many names.
fn expect_none(wrong: Option<&str>, count: usize) -> Result<(), Fail> {
    match wrong {
        None => Ok(()),
        Some(wrong) => Err(Fail::new(format_args!("{count}: {wrong}"))),
    }
}

fn expect_found<M: LendsEntries>(map: Result<M, AllocError>, count: usize) -> Result<(), Fail> {
    let map = map?;
    let wrong = wrong_look_up(&map, count);
    drop(map);
    expect_none(wrong, count)
}

#[test]
fn names_are_found(rt: HostRuntime) -> Result<(), Fail> {
    let alloc = rt.alloc();
    for count in [0usize, 1, 2, 13, 14, 15, 16, 40] {
        expect_found(first_names(alloc, count), count)?;
        expect_found(first_of_many(alloc, count), count)?;
    }
    Ok(())
}

#[test]
fn names_are_found_in_either_map(rt: HostRuntime) -> Result<(), Fail> {
    let alloc = rt.alloc();
    expect_found(first_names(alloc, 3).map(PropertiesMap::Small), 3)?;
    expect_found(first_of_many(alloc, 16).map(PropertiesMap::Big), 16)
}

// ---- walking

fn is_declared_at(position: usize, name: &str) -> bool {
    DECLARED.split(" ").nth(position) == Some(name)
}

/// Whether a walk gives this name, with its position and its value.
fn is_met(member: Option<(&str, &usize, &Value)>, expected: &str) -> bool {
    match member {
        Some((name, position, value)) => {
            name == expected && is_declared_at(*position, name) && value.as_str() == Some(name)
        }
        None => false,
    }
}

/// What is not walked as it is to be: the walk over the members gives the first so many of these
/// names, and ends.
fn wrong_walk<M: LendsEntries>(
    map: &M,
    members: &Map<String, Value>,
    names: &'static str,
    count: usize,
) -> Option<&'static str> {
    let mut walk = DeclaredMembers::of(map.lent(), members);
    for expected in names.split(" ").take(count) {
        if !is_met(walk.next(), expected) {
            return Some(expected);
        }
    }
    if walk.next().is_none() {
        None
    } else {
        Some("no end")
    }
}

// So few that they are walked, and those of them that are declared.
const FEW: &str = "00 03 04 27 28 29 30 31 32 79 80";

const DECLARED_OF_FEW: &str = "03 27 29 31 79";

// Every name, so that the declared ones are walked.
const ALL: &str =
    " 00 01 02 03 04 05 06 07 08 09 10 11 12 13 14 15 16 17 18 19 20 21 22 23 24 25 26 27 28 29 30 31 32 33 34 35 36 37 38 39 40 41 42 43 44 45 46 47 48 49 50 51 52 53 54 55 56 57 58 59 60 61 62 63 64 65 66 67 68 69 70 71 72 73 74 75 76 77 78 79 80";

/// What is not walked as it is to be over an object with these names, each with itself.
fn wrong_walk_over<M: LendsEntries>(
    alloc: Global,
    map: &M,
    names: &str,
    expected: &'static str,
    count: usize,
) -> Result<Option<&'static str>, AllocError> {
    let mut members = Map::new(alloc);
    let added = add_names(&mut members, alloc, names, 82);
    let wrong = wrong_walk(map, &members, expected, count);
    drop(members);
    added?;
    Ok(wrong)
}

/// Over the few members, so many of those that are declared are given, and over all, so many
/// declared ones.
fn wrong_walks<M: LendsEntries>(
    alloc: Global,
    map: &M,
    met: usize,
    declared: usize,
) -> Result<Option<&'static str>, AllocError> {
    let of_few = wrong_walk_over(alloc, map, FEW, DECLARED_OF_FEW, met)?;
    let of_all = wrong_walk_over(alloc, map, ALL, DECLARED, declared)?;
    Ok(of_few.or(of_all))
}

fn expect_walks<M: LendsEntries>(
    alloc: Global,
    map: Result<M, AllocError>,
    declared: usize,
    met: usize,
) -> Result<(), Fail> {
    let map = map?;
    let wrong = wrong_walks(alloc, &map, met, declared);
    drop(map);
    expect_none(wrong?, declared)
}

#[test]
fn declared_members_are_walked(rt: HostRuntime) -> Result<(), Fail> {
    let alloc = rt.alloc();
    for (declared, met) in [(14usize, 2usize), (15, 3), (16, 4), (40, 5)] {
        expect_walks(alloc, first_names(alloc, declared), declared, met)?;
        expect_walks(alloc, first_of_many(alloc, declared), declared, met)?;
    }
    Ok(())
}

// ---- a growth that is refused

/// A map of many names, made again where memory was wanting.
fn many_at_last(alloc: Global) -> Result<BigMap<usize>, AllocError> {
    match first_of_many(alloc, 40) {
        Ok(map) => Ok(map),
        Err(_) => first_of_many(alloc, 40),
    }
}

/// With each growth refused in turn (tools/refused_growths), a map that is made again has every
/// name.
#[test]
fn a_map_of_many_names_after_a_refused_growth(rt: HostRuntime) -> Result<(), Fail> {
    expect_found(many_at_last(rt.alloc()), 40)
}
