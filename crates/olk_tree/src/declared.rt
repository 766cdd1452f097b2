//! The members of an object whose names are declared.
ghost use Rattle.std.specs.Prelude.{◌≡◌};
ghost use Rattle.serde_json.specs.View.{members_view};
ghost use Rattle.olk_spec.specs.Schemas.{listed};
ghost use Rattle.olk_tree.specs.Entries.{each_left};
ghost use Rattle.olk_tree.specs.Visited.{members_declared, names_met, Yields, left_of};

use crate::entries::{EachEntry, Entries};
use olk_meaning::member;
use serde_json::{Map, Value};
use std::collections::btree_map::Iter;

/// The members of an object whose names are declared, in the order of their names: each with what
/// stands at its name.
///
/// Where there are more members than declared names, each declared name is looked up among the
/// members, and otherwise each member among the declared names, from the place of the last one on.
#[derive(Drop)]
pub struct DeclaredMembers<'a, N> {
    entries: Entries<'a, N>,
    members: &'a Map<String, Value>,
    // whether the members are walked; otherwise the declared names are
    by_members: bool,
    left: Iter<'a, String, Value>,
    // where the next name is looked for first
    hint: usize,
    unasked: EachEntry<'a, N>,
}

impl<'a, N> Iterator for DeclaredMembers<'a, N> {
    ghost use Rattle.std.specs.Iterator.{item_count};
    ghost use Rattle.olk_tree.specs.Visited.{Yields, left_of};

    type Item = (&'a str, &'a N, &'a Value);

    ghost next_gives = { λ s r t. Yields r (left_of s) (left_of t) };

    ghost remaining = { item_count left_of };

    #[inline(always)]
    fn next(&mut self) -> Option<(&'a str, &'a N, &'a Value)> {
        if self.by_members {
            next_member(&self.entries, &mut self.left, &mut self.hint)
        } else {
            next_name(self.members, &mut self.unasked)
        }
    }
}

impl<'a, N> DeclaredMembers<'a, N> {
    /// The members whose names are declared, each with the node that stands beside its name.
    pub fn of(entries: Entries<'a, N>, members: &'a Map<String, Value>) -> DeclaredMembers<'a, N>
        ensures by_members { left_of result
            ≡ members_declared entries.entry (listed (members_view members.now.entries)) }
        ensures by_names { left_of result
            ≡ names_met entries.entry (listed (members_view members.now.entries)) }
    {
        DeclaredMembers {
            by_members: members.len() <= entries.len(),
            unasked: entries.iter(),
            entries,
            members,
            left: members.iter(),
            hint: 0,
        }
    }
}

/// The next member whose name is declared.
#[inline(always)]
fn next_member<'a, N>(
    entries: &Entries<'a, N>,
    left: &mut Iter<'a, String, Value>,
    hint: &mut usize,
) -> Option<(&'a str, &'a N, &'a Value)>
    ensures { Yields result
        (members_declared entries.now (listed (members_view left.old)))
        (members_declared entries.now (listed (members_view left.new))) }
{
    while let Some((name, value)) = left.next() {
        let name = name.as_str();
        let (next, found) = entries.node_from(*hint, name);
        *hint = next;
        if let Some(node) = found {
            return Some((name, node, value));
        }
    }
    None
}

/// The next declared name at which there is a member.
fn next_name<'a, N>(
    members: &'a Map<String, Value>,
    entries: &mut EachEntry<'a, N>,
) -> Option<(&'a str, &'a N, &'a Value)>
    ensures { Yields result
        (names_met (each_left entries.old) (listed (members_view members.now.entries)))
        (names_met (each_left entries.new) (listed (members_view members.now.entries))) }
{
    while let Some((name, node)) = entries.next() {
        if let Some(value) = member(members, name) {
            return Some((name, node, value));
        }
    }
    None
}
