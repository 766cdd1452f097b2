//! Reading a class in brackets.
ghost use Rattle.std.specs.Prelude.{◌≡◌, ◌++◌, OnOk, IfOk};
ghost use Rattle.olk_regexes.specs.Classes.{class_escape, class_item, range_end, up_to, member_from, member, class_end, all_members, class};
ghost use Rattle.olk_regexes.specs.Seen.{seen, seen_item, item_of, seen_member, members_of, seen_members, seen_class};

use crate::class::{Characters, Class};
use crate::escapes::{Item, read_escape};
use std::alloc::{AllocError, Global};

/// A part of a class.
#[derive(Drop)]
pub enum Member {
    One(Characters),
    Set(&'static [Characters]),
}

/// What an escape of a class stands for, and what is behind it. The text begins behind the
/// backslash.
pub fn read_class_escape(text: &[char]) -> Option<(Item, &[char])>
    ensures { seen_item result ≡ class_escape text.now }
{
    match text {
        ['-', rest @ ..] => Some((Item::Char(45), rest)),
        ['b', rest @ ..] => Some((Item::Char(8), rest)),
        _ => read_escape(text),
    }
}

/// A character or a set of a class, and what is behind it.
pub fn read_class_item(text: &[char]) -> Option<(Item, &[char])>
    ensures { seen_item result ≡ class_item text.now }
{
    match text {
        ['\\', rest @ ..] => read_class_escape(rest),
        [c, rest @ ..] => Some((Item::Char(*c as u32), rest)),
        [] => None,
    }
}

// What is behind the `-` of a range.
fn range_end(text: &[char]) -> Option<&[char]>
    ensures { seen result ≡ range_end text.now }
{
    match text {
        ['-', ']', ..] => None,
        ['-', rest @ ..] => if rest.is_empty() { None } else { Some(rest) },
        _ => None,
    }
}

fn up_to(low: u32, high: Item, text: &[char]) -> Option<(Member, &[char])>
    ensures { seen_member result ≡ up_to low (item_of high) text.now }
{
    match high {
        Item::Char(high) => if low <= high {
            Some((Member::One(Characters::Range { low, high }), text))
        } else {
            None
        },
        Item::Set(_) | Item::Property(_) => None,
    }
}

// An item alone, or the range that begins with it.
fn read_member_from<'a>(
    item: Item,
    text: &'a [char],
    end: Option<&'a [char]>,
) -> Option<(Member, &'a [char])>
    ensures { seen_member result ≡ member_from (item_of item) text.now (seen end.entry) }
{
    match (item, end) {
        (Item::Char(c), None) => Some((Member::One(Characters::Range { low: c, high: c }), text)),
        (Item::Char(c), Some(behind)) => {
            let (high, rest) = read_class_item(behind)?;
            up_to(c, high, rest)
        }
        (Item::Set(set), None) => Some((Member::Set(set), text)),
        (Item::Set(_), Some(_)) => None,
        (Item::Property(property), None) => Some((Member::One(property), text)),
        (Item::Property(_), Some(_)) => None,
    }
}

/// A character, a set or a range of a class, and what is behind it.
pub fn read_member(text: &[char]) -> Option<(Member, &[char])>
    ensures { seen_member result ≡ member text.now }
{
    let (item, rest) = read_class_item(text)?;
    read_member_from(item, rest, range_end(rest))
}

// What is behind a closing bracket.
fn class_end(text: &[char]) -> Option<&[char]>
    ensures { seen result ≡ class_end text.now }
{
    match text {
        [']', rest @ ..] => Some(rest),
        _ => None,
    }
}

fn add(members: &mut Vec<Characters>, member: Member) -> Result<(), AllocError>
    ensures { OnOk result (members.new.items ≡ members.old.items ++ members_of member) }
{
    match member {
        Member::One(characters) => members.push(characters)?,
        Member::Set(more) => members.extend_from_slice(more)?,
    }
    Ok(())
}

fn read_members(
    alloc: Global,
    text: &[char],
) -> Result<Option<(Vec<Characters>, &[char])>, AllocError>
    ensures { IfOk result (λ r. seen_members r ≡ all_members text.now) }
{
    let mut members = Vec::new(alloc);
    let mut rest = text;
    for _ in 0..text.len() + 1 {
        if let Some(behind) = class_end(rest) {
            return Ok(Some((members, behind)));
        }
        match read_member(rest) {
            Some((member, behind)) => {
                add(&mut members, member)?;
                rest = behind;
            }
            None => return Ok(None),
        }
    }
    Ok(None)
}

/// The class up to its closing bracket, and what is behind it. The text begins behind the opening
/// bracket. None where it is not of the syntax.
///
/// # Errors
///
/// There is no memory.
pub fn read_class(alloc: Global, text: &[char]) -> Result<Option<(Class, &[char])>, AllocError>
    ensures { IfOk result (λ r. seen_class r ≡ class text.now) }
{
    let (negated, inside) = match text {
        ['^', rest @ ..] => (true, rest),
        _ => (false, text),
    };
    match read_members(alloc, inside)? {
        Some((members, rest)) => Ok(Some((Class { negated, members }, rest))),
        None => Ok(None),
    }
}
