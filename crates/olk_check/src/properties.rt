//! `properties`: its verdict.
ghost use Rattle.std.specs.Prelude.{[], ◌∷◌, option_copied, option_map, option_to_list};
ghost use Rattle.serde_json.specs.View.{view, members_view};
ghost use Rattle.olk_spec.specs.Names.{lookup_name, is_empty};
ghost use Rattle.olk_spec.specs.Accepts.{missing};
ghost use Rattle.olk_spec.specs.Schemas.{listed};
ghost use Rattle.olk_tree.specs.Questions.{always, both, every};
ghost use Rattle.olk_tree.specs.Maps.{named, two_texts};
ghost use Rattle.olk_tree.specs.Properties.{properties_mean};
ghost use Rattle.olk_tree.specs.Visited.{object_of};
ghost use Rattle.olk_check.specs.Asks.{Asks};
ghost use Rattle.olk_check.specs.Together.{AsksOne, AsksTwo};

use crate::Check;
use crate::accepted::Accepted;
use crate::required::{has_both, is_met, is_present};
use olk_base::{Asked, ValidationContext};
use olk_meaning::member;
use olk_tree::entries::Entries;
use olk_tree::map_ref::MapRef;
use olk_tree::properties::{BigProperties, SmallProperties, SmallPropertiesWithRequired2};
use serde_json::{Map, Value};

impl<N: Check> Check for SmallProperties<N> {
    fn check<A: Asked>(&self, asked: A, ctx: &mut ValidationContext) -> bool {
        properties_accept(self.properties.as_map(), asked, ctx).is_some()
    }
}

impl<N: Check> Check for BigProperties<N> {
    fn check<A: Asked>(&self, asked: A, ctx: &mut ValidationContext) -> bool {
        properties_accept(self.properties.as_map(), asked, ctx).is_some()
    }
}

impl<N: Check> Check for SmallPropertiesWithRequired2<N> {
    fn check<A: Asked>(&self, asked: A, ctx: &mut ValidationContext) -> bool {
        properties_with_required2_accept(self, asked, ctx).is_some()
    }
}

/// Whether each member whose name is declared is accepted, where the value is an object.
#[inline(always)]
pub(crate) fn properties_accept<A: Asked, N: Check>(
    properties: MapRef<'_, N>,
    asked: A,
    ctx: &mut ValidationContext,
) -> Accepted
    ensures { AsksOne ctx.old ctx.new
        (properties_mean N.means properties.entry (A.stands_for asked)) result }
{
    match asked.as_object() {
        Some(members) => members_accepted(properties, members, ctx),
        None => Accepted::One,
    }
}

/// Whether each member whose name is declared is accepted, and whether there is a member at the
/// name, where the value is an object.
#[inline(always)]
pub(crate) fn properties_with_required_accept<A: Asked, N: Check>(
    properties: MapRef<'_, N>,
    name: &str,
    asked: A,
    ctx: &mut ValidationContext,
) -> Accepted
    ensures { AsksTwo ctx.old ctx.new
        (properties_mean N.means properties.entry (A.stands_for asked))
        (always (is_empty (missing (name.now ∷ []) (A.stands_for asked)))) result }
{
    match asked.as_object() {
        Some(members) => { members_accepted_with(properties, members, name, ctx) }
        None => Accepted::Two,
    }
}

/// Whether each member whose name is declared is accepted, and there is a member at both names that
/// the keyword holds, where the value is an object.
#[inline(always)]
pub(crate) fn properties_with_required2_accept<A: Asked, N: Check>(
    keyword: &SmallPropertiesWithRequired2<N>,
    asked: A,
    ctx: &mut ValidationContext,
) -> Accepted
    ensures { AsksOne ctx.old ctx.new (both
        (always (is_empty (missing (two_texts keyword.now.first keyword.now.second)
        (A.stands_for asked))))
        (properties_mean N.means (named keyword.now.properties) (A.stands_for asked))) result }
{
    match asked.as_object() {
        Some(members) => members_accepted_with_both(keyword, members, ctx),
        None => Accepted::One,
    }
}

/// Whether each member of an object is accepted whose name is declared; apart, so that the function
/// that asks a keyword stays small.
#[inline(never)]
fn members_accepted<N: Check>(
    properties: MapRef<'_, N>,
    members: &Map<String, Value>,
    ctx: &mut ValidationContext,
) -> Accepted
    ensures { AsksOne ctx.old ctx.new (properties_mean N.means
        properties.entry
        (object_of members.now.entries)) result }
{
    Accepted::one_if(all_accepted(properties, members, ctx))
}

/// Whether each member of an object is accepted whose name is declared, and whether there is a
/// member at the name.
#[inline(never)]
fn members_accepted_with<N: Check>(
    properties: MapRef<'_, N>,
    members: &Map<String, Value>,
    name: &str,
    ctx: &mut ValidationContext,
) -> Accepted
    ensures { AsksTwo ctx.old ctx.new (properties_mean N.means
        properties.entry
        (object_of members.now.entries))
        (always (is_empty (missing (name.now ∷ []) (object_of members.now.entries)))) result }
{
    Accepted::two_if(all_accepted_with(properties, members, name, ctx))
}

/// Whether each member of an object is accepted whose name is declared, and there is a member at
/// both names that the keyword holds.
#[inline(never)]
fn members_accepted_with_both<N: Check>(
    keyword: &SmallPropertiesWithRequired2<N>,
    members: &Map<String, Value>,
    ctx: &mut ValidationContext,
) -> Accepted
    ensures { AsksOne ctx.old ctx.new (both
        (always (is_empty (missing (two_texts keyword.now.first keyword.now.second)
        (object_of members.now.entries))))
        (properties_mean N.means (named keyword.now.properties)
        (object_of members.now.entries))) result }
{
    let (first, second) = (keyword.first.as_str(), keyword.second.as_str());
    Accepted::one_if(all_accepted_with_both(
        keyword.properties.as_map(),
        members,
        first,
        second,
        ctx,
    ))
}

/// Whether each member whose name is declared is accepted. A declared name that is looked up takes
/// as long as two members that are walked.
#[inline(always)]
fn all_accepted<N: Check>(
    properties: MapRef<'_, N>,
    members: &Map<String, Value>,
    ctx: &mut ValidationContext,
) -> bool
    ensures { Asks ctx.old ctx.new (properties_mean N.means
        properties.entry
        (object_of members.now.entries)) result }
{
    if members.len() / 2 < properties.len() {
        each_member_accepted(properties.entries(), members, ctx)
    } else {
        each_name_accepted(properties, members, ctx)
    }
}

/// Whether each member is accepted by what is declared at its name, if anything is, member by
/// member.
fn each_member_accepted<N: Check>(
    properties: Entries<'_, N>,
    members: &Map<String, Value>,
    ctx: &mut ValidationContext,
) -> bool
    ensures { Asks ctx.old ctx.new (every (λ x. every (λ n. N.means n x.1) (option_to_list
        (lookup_name x.0 properties.entry)))
        (listed (members_view members.now.entries))) result }
{
    let mut hint = 0;
    for (name, value) in members {
        let (next, declared) = properties.node_from(hint, name.as_str());
        hint = next;
        if !accepted_if_declared(declared, value, ctx) {
            return false;
        }
    }
    true
}

/// The verdict of `all_accepted`, and whether there is a member at the name, for which few members
/// are walked once.
#[inline(always)]
fn all_accepted_with<N: Check>(
    properties: MapRef<'_, N>,
    members: &Map<String, Value>,
    name: &str,
    ctx: &mut ValidationContext,
) -> bool
    ensures { Asks ctx.old ctx.new (both
        (properties_mean N.means properties.entry
        (object_of members.now.entries))
        (always (is_empty (missing (name.now ∷ []) (object_of members.now.entries))))) result }
{
    if members.len() / 2 < properties.len() {
        each_member_accepted_with(properties.entries(), members, name, ctx)
    } else {
        is_present(members, name) && each_name_accepted(properties, members, ctx)
    }
}

/// The verdict of `each_member_accepted`, and whether there is a member at the name.
fn each_member_accepted_with<N: Check>(
    properties: Entries<'_, N>,
    members: &Map<String, Value>,
    required: &str,
    ctx: &mut ValidationContext,
) -> bool
    ensures { Asks ctx.old ctx.new (both
        (every (λ x. every (λ n. N.means n x.1) (option_to_list
        (lookup_name x.0 properties.entry)))
        (listed (members_view members.now.entries)))
        (always (is_empty (missing (required.now ∷ [])
        (object_of members.now.entries))))) result }
{
    let mut hint = 0;
    let mut met = false;
    for (name, value) in members {
        let name = name.as_str();
        met = is_met(met, name, required);
        let (next, declared) = properties.node_from(hint, name);
        hint = next;
        if !accepted_if_declared(declared, value, ctx) {
            return false;
        }
    }
    met
}

/// The verdict of `all_accepted`, and whether there is a member at both names, for which few
/// members are walked once.
#[inline(always)]
fn all_accepted_with_both<N: Check>(
    properties: MapRef<'_, N>,
    members: &Map<String, Value>,
    first: &str,
    second: &str,
    ctx: &mut ValidationContext,
) -> bool
    ensures { Asks ctx.old ctx.new (both
        (always (is_empty (missing (first.now ∷ second.now ∷ [])
        (object_of members.now.entries))))
        (properties_mean N.means properties.entry
        (object_of members.now.entries))) result }
{
    if members.len() / 2 < properties.len() {
        each_member_accepted_with_both(properties.entries(), members, first, second, ctx)
    } else {
        has_both(members, first, second) && each_name_accepted(properties, members, ctx)
    }
}

/// The verdict of `each_member_accepted`, and whether there is a member at both names.
fn each_member_accepted_with_both<N: Check>(
    properties: Entries<'_, N>,
    members: &Map<String, Value>,
    first: &str,
    second: &str,
    ctx: &mut ValidationContext,
) -> bool
    ensures { Asks ctx.old ctx.new (both
        (always (is_empty (missing (first.now ∷ second.now ∷ [])
        (object_of members.now.entries))))
        (every (λ x. every (λ n. N.means n x.1) (option_to_list
        (lookup_name x.0 properties.entry)))
        (listed (members_view members.now.entries)))) result }
{
    let mut hint = 0;
    let (mut has_first, mut has_second) = (false, false);
    for (name, value) in members {
        let name = name.as_str();
        has_first = is_met(has_first, name, first);
        has_second = is_met(has_second, name, second);
        let (next, declared) = properties.node_from(hint, name);
        hint = next;
        if !accepted_if_declared(declared, value, ctx) {
            return false;
        }
    }
    has_first && has_second
}

#[inline(always)]
fn accepted_if_declared<N: Check>(
    declared: Option<&N>,
    value: &Value,
    ctx: &mut ValidationContext,
) -> bool
    ensures { Asks ctx.old ctx.new (every (λ n. N.means n (view value.now))
        (option_to_list (option_copied declared.entry))) result }
{
    match declared {
        Some(subschema) => subschema.check(value, ctx),
        None => true,
    }
}

/// Whether each member whose name is declared is accepted, declared name by declared name.
fn each_name_accepted<N: Check>(
    properties: MapRef<'_, N>,
    members: &Map<String, Value>,
    ctx: &mut ValidationContext,
) -> bool
    ensures { Asks ctx.old ctx.new (properties_mean N.means
        properties.entry
        (object_of members.now.entries)) result }
{
    for (name, node) in properties.entries().iter() {
        if !accepted_if_present(node, member(members, name), ctx) {
            return false;
        }
    }
    true
}

#[inline(always)]
fn accepted_if_present<N: Check>(
    subschema: &N,
    value: Option<&Value>,
    ctx: &mut ValidationContext,
) -> bool
    ensures { Asks ctx.old ctx.new (every (N.means subschema.now)
        (option_to_list (option_map (λ v. view v.now) value.entry))) result }
{
    match value {
        Some(value) => subschema.check(value, ctx),
        None => true,
    }
}
