//! Building the expression of a pattern that was read.
ghost use Rattle.std.specs.Prelude.{◌≡◌, true, IfOk};
ghost use Rattle.olk_regexes.specs.Language.{blank, one, seq, alt, star};
ghost use Rattle.olk_regexes.specs.Limits.{fits};
ghost use Rattle.olk_regexes.specs.Marks.{expr};
ghost use Rattle.olk_regexes.specs.Syntax.{up_to_more, times_then, exactly, between, repeated};
ghost use Rattle.olk_regexes.specs.Trees.{expr_of};

use crate::class::Class;
use crate::part::Part;
use crate::tree::Tree;
use std::alloc::{AllocError, Global};

fn of_class(alloc: Global, class: &Class) -> Result<Part, AllocError>
    requires { fits (one class.now.negated class.now.members.items) ≡ true }
    ensures { IfOk result (λ p. expr p.regex ≡ one class.now.negated class.now.members.items) }
{
    let members = Vec::from_slice(alloc, &class.members)?;
    Ok(Part::one(Class {
        negated: class.negated,
        members,
    }))
}

/// The expression of the tree.
///
/// # Errors
///
/// There is no memory.
#[cycle(build)]
pub fn build(alloc: Global, tree: &Tree) -> Result<Part, AllocError>
    requires { fits (expr_of tree.now) ≡ true }
    ensures { IfOk result (λ p. expr p.regex ≡ expr_of tree.now) }
{
    match tree {
        Tree::Blank => Ok(Part::nothing()),
        Tree::One(class) => Ok(of_class(alloc, class)?),
        Tree::Then { first, second } => {
            let last = build(alloc, second)?;
            Ok(before(alloc, first, last)?)
        }
        Tree::Or { first, second } => {
            let part = build(alloc, first)?;
            let other = build(alloc, second)?;
            Ok(part.or(alloc, other)?)
        }
        Tree::Repeat { part, counts } => match counts.1 {
            Some(most) => Ok(between(alloc, counts.0, most.saturating_sub(counts.0), part)?),
            None => Ok(at_least(alloc, counts.0, part)?),
        },
    }
}

// The part, and then `last`.
#[cycle(build)]
fn before(alloc: Global, part: &Tree, last: Part) -> Result<Part, AllocError>
    requires { fits (seq (expr_of part.now) (expr last.regex)) ≡ true }
    ensures { IfOk result (λ p. expr p.regex ≡ seq (expr_of part.now) (expr last.regex)) }
{
    let first = build(alloc, part)?;
    Ok(first.then(alloc, last)?)
}

// The part and then `last`, or nothing.
#[cycle(build)]
fn maybe_before(alloc: Global, part: &Tree, last: Part) -> Result<Part, AllocError>
    requires { fits (alt (seq (expr_of part.now) (expr last.regex)) blank) ≡ true }
    ensures { IfOk result
        (λ p. expr p.regex ≡ alt (seq (expr_of part.now) (expr last.regex)) blank) }
{
    let both = before(alloc, part, last)?;
    Ok(both.or(alloc, Part::nothing())?)
}

// The part so many times, and then `last`.
#[cycle(build)]
fn times_then(alloc: Global, times: u32, part: &Tree, last: Part) -> Result<Part, AllocError>
    requires { fits (times_then times (expr_of part.now) (expr last.regex)) ≡ true }
    ensures { IfOk result
        (λ p. expr p.regex ≡ times_then times (expr_of part.now) (expr last.regex)) }
{
    let mut all = last;
    for _ in 0..times {
        all = before(alloc, part, all)?;
    }
    Ok(all)
}

// The part so many times and once more, or fewer times.
#[cycle(build)]
fn up_to_more(alloc: Global, times: u32, part: &Tree) -> Result<Part, AllocError>
    requires { fits (up_to_more times (expr_of part.now)) ≡ true }
    ensures { IfOk result (λ p. expr p.regex ≡ up_to_more times (expr_of part.now)) }
{
    let mut all = maybe(alloc, part)?;
    for _ in 0..times {
        all = maybe_before(alloc, part, all)?;
    }
    Ok(all)
}

// The part, or nothing.
#[cycle(build)]
fn maybe(alloc: Global, part: &Tree) -> Result<Part, AllocError>
    requires { fits (alt (expr_of part.now) blank) ≡ true }
    ensures { IfOk result (λ p. expr p.regex ≡ alt (expr_of part.now) blank) }
{
    let one = build(alloc, part)?;
    Ok(one.or(alloc, Part::nothing())?)
}

// The part any number of times.
#[cycle(build)]
fn any_times(alloc: Global, part: &Tree) -> Result<Part, AllocError>
    requires { fits (star (expr_of part.now)) ≡ true }
    ensures { IfOk result (λ p. expr p.regex ≡ star (expr_of part.now)) }
{
    let one = build(alloc, part)?;
    Ok(one.star(alloc)?)
}

// The part at least so many times.
#[cycle(build)]
fn at_least(alloc: Global, times: u32, part: &Tree) -> Result<Part, AllocError>
    requires { fits (repeated (expr_of part.now) (times, None)) ≡ true }
    ensures { IfOk result (λ p. expr p.regex ≡ repeated (expr_of part.now) (times, None)) }
{
    let last = any_times(alloc, part)?;
    Ok(times_then(alloc, times, part, last)?)
}

// The part at least so many times, and at most so many times more.
#[cycle(build)]
fn between(alloc: Global, times: u32, more: u32, part: &Tree) -> Result<Part, AllocError>
    requires { fits (between times more (expr_of part.now)) ≡ true }
    ensures { IfOk result (λ p. expr p.regex ≡ between times more (expr_of part.now)) }
{
    if more == 0 {
        return Ok(exactly(alloc, times, part)?);
    }
    let last = up_to_more(alloc, more - 1, part)?;
    Ok(times_then(alloc, times, part, last)?)
}

// The part so many times.
#[cycle(build)]
fn exactly(alloc: Global, times: u32, part: &Tree) -> Result<Part, AllocError>
    requires { fits (exactly times (expr_of part.now)) ≡ true }
    ensures { IfOk result (λ p. expr p.regex ≡ exactly times (expr_of part.now)) }
{
    if times == 0 {
        return Ok(Part::nothing());
    }
    let last = build(alloc, part)?;
    Ok(times_then(alloc, times - 1, part, last)?)
}
