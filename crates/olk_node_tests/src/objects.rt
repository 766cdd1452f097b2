//! Objects and sorted names that are made of names in one text.
use olk_tree::{SmallMap, SortedNames};
use serde_json::{Map, Value};
use std::alloc::{AllocError, Global};

/// Adds the name, with a text.
pub(crate) fn add_text(
    members: &mut Map<String, Value>,
    alloc: Global,
    name: &str,
    text: &str,
) -> Result<(), AllocError> {
    let (name, text) = both(String::from_str(alloc, name), String::from_str(alloc, text))?;
    members.insert(name, Value::String(text))?;
    Ok(())
}

/// Adds the first so many of these names, each with itself.
pub(crate) fn add_names(
    members: &mut Map<String, Value>,
    alloc: Global,
    names: &str,
    count: usize,
) -> Result<(), AllocError> {
    for name in names.split(" ").take(count) {
        add_text(members, alloc, name, name)?;
    }
    Ok(())
}

/// Both, unless memory was wanting at one of them.
pub(crate) fn both<A: Drop, B: Drop>(
    first: Result<A, AllocError>,
    second: Result<B, AllocError>,
) -> Result<(A, B), AllocError> {
    Ok((first?, second?))
}

/// What is made, unless memory was wanting before.
pub(crate) fn unless_refused<T: Drop>(
    before: Result<(), AllocError>,
    made: Result<T, AllocError>,
) -> Result<T, AllocError> {
    match before {
        Ok(()) => made,
        Err(error) => Err(error),
    }
}

/// The names, and beside each its node.
pub(crate) fn beside<N: Drop>(
    names: Result<SortedNames, AllocError>,
    nodes: Result<Vec<N>, AllocError>,
) -> Result<SmallMap<N>, AllocError> {
    let (names, nodes) = both(names, nodes)?;
    Ok(SmallMap { names, nodes })
}

/// The first so many of these names.
pub(crate) fn sorted_names(
    alloc: Global,
    names: &str,
    count: usize,
) -> Result<SortedNames, AllocError> {
    let mut members = Map::new(alloc);
    let added = add_names(&mut members, alloc, names, count);
    let names = SortedNames::of(alloc, &members);
    drop(members);
    unless_refused(added, names)
}
