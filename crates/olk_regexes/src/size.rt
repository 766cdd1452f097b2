//! How large the expression of a pattern is, told before any of it is built.
ghost use Rattle.std.specs.Prelude.{◌≡◌, ◌<◌, ◌*◌, max};
ghost use Rattle.olk_regexes.specs.Sizes.{IsSmall, IsCounted, bounded, then_size, or_size, star_size, times_size, up_to_size, exactly_size, between_size, repeated_size, is_never, measured};
ghost use Rattle.olk_regexes.specs.Trees.{expr_of};

use crate::counts::Counts;
use crate::tree::Tree;

/// How many marks an expression may have.
pub const MARKS: usize = 1024;

/// How deep an expression may be: the matcher goes as deep.
pub const DEPTH: usize = 1024;

/// How many parts and ranges an expression may have: the matcher looks at each for each character.
pub const PARTS: usize = 65_536;

/// How large an expression is.
#[derive(Clone, Copy)]
pub struct Size {
    pub marks: usize,
    pub depth: usize,
    pub parts: usize,
}

const NOTHING: Size = Size {
    marks: 0,
    depth: 0,
    parts: 1,
};

/// The larger of two numbers.
pub fn larger(a: usize, b: usize) -> usize
    ensures { result ≡ max a b }
{
    if a < b { b } else { a }
}

// The size, if it is not too large.
fn bounded(size: Size) -> Option<Size>
    ensures { result ≡ bounded size }
{
    if size.marks <= MARKS && size.depth <= DEPTH && size.parts <= PARTS {
        Some(size)
    } else {
        None
    }
}

fn then(first: Size, second: Size) -> Option<Size>
    requires first { IsSmall first }
    requires second { IsSmall second }
    ensures { result ≡ bounded (then_size first second) }
{
    bounded(Size {
        marks: 1 + first.marks + second.marks,
        depth: 1 + larger(first.depth, second.depth),
        parts: 1 + first.parts + second.parts,
    })
}

fn or(first: Size, second: Size) -> Option<Size>
    requires first { IsSmall first }
    requires second { IsSmall second }
    ensures { result ≡ bounded (or_size first second) }
{
    bounded(Size {
        marks: first.marks + second.marks,
        depth: 1 + larger(first.depth, second.depth),
        parts: 1 + first.parts + second.parts,
    })
}

fn star(part: Size) -> Size
    requires { IsSmall part }
    ensures { result ≡ star_size part }
{
    Size {
        marks: 1 + part.marks,
        depth: 1 + part.depth,
        parts: 1 + part.parts,
    }
}

// So many of them.
fn product(times: u32, each: usize) -> usize
    requires { each < 1048576 }
    ensures { result ≡ times * each }
{
    times as usize * each
}

// The part so many times, and then `last`.
fn times_then(times: u32, part: Size, last: Size) -> Size
    requires part { IsSmall part }
    requires last { IsCounted last }
    ensures { result ≡ times_size times part last }
{
    if times == 0 {
        return last;
    }
    Size {
        marks: product(times, 1 + part.marks) + last.marks,
        depth: times as usize + larger(part.depth, last.depth),
        parts: product(times, 1 + part.parts) + last.parts,
    }
}

// The part so many times and once more, or fewer times.
fn up_to_more(times: u32, part: Size) -> Size
    requires { IsSmall part }
    ensures is { result ≡ up_to_size times part }
    ensures counted { IsCounted result }
{
    Size {
        marks: product(times, 1 + part.marks) + part.marks,
        depth: 2 * (times as usize) + 1 + part.depth,
        parts: product(times, 3 + part.parts) + part.parts + 2,
    }
}

fn exactly(times: u32, part: Size) -> Size
    requires { IsSmall part }
    ensures { result ≡ exactly_size times part }
{
    if times == 0 {
        return NOTHING;
    }
    times_then(times - 1, part, part)
}

// The part at least so many times, and at most so many times more.
fn between(times: u32, more: u32, part: Size) -> Size
    requires { IsSmall part }
    ensures { result ≡ between_size times more part }
{
    if more == 0 {
        return exactly(times, part);
    }
    times_then(times, part, up_to_more(more - 1, part))
}

fn repeated(part: Size, counts: Counts) -> Size
    requires { IsSmall part }
    ensures { result ≡ repeated_size part counts }
{
    match counts.1 {
        Some(most) => between(counts.0, most.saturating_sub(counts.0), part),
        None => times_then(counts.0, part, star(part)),
    }
}

// Whether nothing is left of a part that is to match so often.
fn is_never(counts: Counts) -> bool
    ensures { result ≡ is_never counts }
{
    counts.0 == 0 && counts.1 == Some(0)
}

/// How large the expression of the tree is; none where it is too large.
pub fn measure(tree: &Tree) -> Option<Size>
    ensures { result ≡ measured (expr_of tree.now) }
{
    match tree {
        Tree::Blank => Some(NOTHING),
        Tree::One(class) => bounded(Size {
            marks: 0,
            depth: 0,
            parts: 1 + class.members.len(),
        }),
        Tree::Then { first, second } => match measure(second) {
            Some(last) => match measure(first) {
                Some(part) => then(part, last),
                None => None,
            },
            None => None,
        },
        Tree::Or { first, second } => match measure(first) {
            Some(part) => match measure(second) {
                Some(other) => or(part, other),
                None => None,
            },
            None => None,
        },
        Tree::Repeat { part, counts } => if is_never(*counts) {
            Some(NOTHING)
        } else {
            match measure(part) {
                Some(size) => bounded(repeated(size, *counts)),
                None => None,
            }
        },
    }
}
