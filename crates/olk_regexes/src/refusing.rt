//! Whether a pattern is refused.
ghost use Rattle.std.specs.Prelude.{◌≡◌, IfOk, is_some, not};
ghost use Rattle.olk_regexes.specs.Says.{builds};

use crate::pattern::{Pattern, characters};
use crate::reason::Refusal;
use crate::section::explain;
use std::alloc::{AllocError, Global};

/// Why the pattern is refused by `Regexes`; none where it is not.
///
/// # Errors
///
/// There is no memory.
pub fn why_refused(alloc: Global, pattern: &str) -> Result<Option<Refusal>, AllocError>
    ensures { IfOk result (λ o. is_some o ≡ not (builds pattern.now)) }
{
    match Pattern::new(alloc, pattern)? {
        Some(_) => Ok(None),
        None => Ok(Some(explain(alloc, &characters(alloc, pattern)?)?)),
    }
}
