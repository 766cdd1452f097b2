//! Where `^` and `$` stand.
ghost use Rattle.std.specs.Prelude.{◌≡◌};
ghost use Rattle.std.specs.List.{list_all};
ghost use Rattle.olk_regexes.specs.Edges.{is_just, is_edge, are_characters, has_characters, starts_well, ends_well, characters, is_placed};
ghost use Rattle.olk_regexes.specs.Marks.{expr};

use crate::class::{Characters, Class};
use crate::regex::Regex;
use crate::search::{END, START};

fn is_just(edge: u32, characters: &Characters) -> bool
    ensures { result ≡ is_just edge characters.now }
{
    match characters {
        Characters::Range { low, high } => *low == edge && *high == edge,
        Characters::Property { .. } => false,
    }
}

fn is_edge(edge: u32, class: &Class) -> bool
    ensures { result ≡ is_edge edge class.now.negated class.now.members.items }
{
    match class.members.as_slice() {
        [member] => !class.negated && is_just(edge, member),
        _ => false,
    }
}

fn starts_well(first: bool, regex: &Regex) -> bool
    ensures { result ≡ starts_well first (expr regex.now) }
{
    match regex {
        Regex::Empty => true,
        Regex::One(class) => first || !is_edge(START, class),
        Regex::Then {
            first: part,
            second,
            ..
        } => starts_well(first, part) && starts_well(false, second),
        Regex::Or {
            first: part,
            second,
            ..
        } => starts_well(first, part) && starts_well(first, second),
        Regex::Star(part) => starts_well(false, part),
    }
}

fn ends_well(last: bool, regex: &Regex) -> bool
    ensures { result ≡ ends_well last (expr regex.now) }
{
    match regex {
        Regex::Empty => true,
        Regex::One(class) => last || !is_edge(END, class),
        Regex::Then { first, second, .. } => ends_well(false, first) && ends_well(last, second),
        Regex::Or { first, second, .. } => ends_well(last, first) && ends_well(last, second),
        Regex::Star(part) => ends_well(false, part),
    }
}

fn are_characters(characters: &Characters) -> bool
    ensures { result ≡ are_characters characters.now }
{
    match characters {
        Characters::Range { high, .. } => *high <= 0x10_ffff,
        Characters::Property { .. } => true,
    }
}

fn all_are_characters(members: &[Characters]) -> bool
    ensures { result ≡ list_all are_characters members.now }
{
    members.iter().all(|member| are_characters(member))
}

fn has_characters(class: &Class) -> bool
    ensures { result ≡ has_characters class.now.negated class.now.members.items }
{
    if class.negated {
        true
    } else {
        all_are_characters(&class.members)
    }
}

// Whether each class has characters alone, or stands for `^` or `$`.
fn characters(regex: &Regex) -> bool
    ensures { result ≡ characters (expr regex.now) }
{
    match regex {
        Regex::Empty => true,
        Regex::One(class) => is_edge(START, class) || is_edge(END, class) || has_characters(class),
        Regex::Then { first, second, .. } => characters(first) && characters(second),
        Regex::Or { first, second, .. } => characters(first) && characters(second),
        Regex::Star(part) => characters(part),
    }
}

/// Whether `^` stands only where nothing can be before it, and `$` only where nothing can be behind
/// it.
pub fn is_placed(regex: &Regex) -> bool
    ensures { result ≡ is_placed (expr regex.now) }
{
    starts_well(true, regex) && ends_well(true, regex) && characters(regex)
}
