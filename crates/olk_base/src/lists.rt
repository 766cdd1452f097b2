//! Lists that grow.
ghost use Rattle.std.specs.Prelude.{◌≡◌, ◌++◌, ◌∷◌, [], IfOk, OnOk, OnErr};

use std::alloc::{AllocError, Global};

/// Adds an item at the end.
///
/// # Errors
///
/// Out of memory, and then the list is as before.
#[inline]
pub fn append<T: Drop>(items: &mut Vec<T>, item: T) -> Result<(), AllocError>
    ensures items { OnOk result (items.new.items ≡ items.old.items ++ item ∷ []) }
    ensures memory { OnErr result (items.new.items ≡ items.old.items) }
{
    items.push(item)?;
    Ok(())
}

/// A list of one item.
///
/// # Errors
///
/// Out of memory.
#[inline]
pub fn one<T: Drop>(alloc: Global, item: T) -> Result<Vec<T>, AllocError>
    ensures { IfOk result (λ items. items.items ≡ item ∷ []) }
{
    let mut items = Vec::with_capacity(alloc, 1)?;
    append(&mut items, item)?;
    Ok(items)
}
