//! Reading the document's own keywords in a schema object, as far as this needs no nodes.
ghost use Rattle.std.specs.Prelude.{IfOk, IfErr};
ghost use Rattle.serde_json.specs.View.{view, members_view};
ghost use Rattle.olk_base.specs.Kit.{kit};
ghost use Rattle.olk_document_build.specs.Building.{IsOwn, RefusesOwnValue};

use crate::reading::{least, most, skipped};
use crate::targets::Targets;
use olk_base::{JsonType, Leaf, RegexEngine};
use olk_build::refusal::{Stop, refuse, refuse_type};
use olk_documents::{Bounds, DocumentNode};
use olk_numbers::natural;
use olk_reports::{Location, ValidationErrorKind};
use serde_json::{Map, Value};
use std::alloc::Global;
use std::rc::Rc;

/// A keyword of the document, with what it knows of its neighbours.
pub enum OwnShape<K, R> {
    /// `prefixItems`.
    PrefixItems,
    /// `items`, and how many items before it have a schema of their own.
    Items(usize),
    /// `contains`, and how many items are to be accepted.
    Contains(Bounds),
    /// `$ref`, and the node of the place that it names.
    Reference(Rc<DocumentNode<K, R>>),
    /// `minContains` or `maxContains`, which `contains` reads.
    Bound,
}

/// The shape of a member, if it is one of the document's own: its value read, as far as this needs
/// no nodes but the targets.
///
/// # Errors
///
/// `prefixItems` that is no array, a bound that is no whole number from 0, and `$ref` that is no
/// text. A reference without a target is refused by its name. Else out of memory.
pub fn read_own<'a, K: Leaf, R: RegexEngine>(
    alloc: Global,
    targets: &Targets<K, R>,
    members: &Map<String, Value>,
    location: &Location,
    name: &'a str,
    value: &'a Value,
) -> Result<Option<OwnShape<K, R>>, Stop<'a>>
    ensures read { IfOk result (IsOwn (kit K.Leaf R.RegexEngine) targets.now
        (members_view members.now.entries) name.now (view value.now) location.now) }
    ensures refused { IfErr result (RefusesOwnValue (kit K.Leaf R.RegexEngine) targets.now
        name.now (view value.now) location.now) }
{
    match name {
        "prefixItems" => {
            if !value.is_array() {
                return Err(refuse_type(alloc, JsonType::Array, value, location));
            }
            Ok(Some(OwnShape::PrefixItems))
        }
        "items" => Ok(Some(OwnShape::Items(skipped(members)))),
        "contains" => Ok(Some(OwnShape::Contains(Bounds {
            least: least(members),
            most: most(members),
        }))),
        "minContains" | "maxContains" => {
            if natural(value).is_none() {
                let kind = ValidationErrorKind::LeafRefused { keyword: name };
                return Err(refuse(alloc, kind, value, location));
            }
            Ok(Some(OwnShape::Bound))
        }
        "$ref" => {
            let Value::String(text) = value else {
                return Err(refuse_type(alloc, JsonType::String, value, location));
            };
            match targets.find(text.as_str()) {
                Some(node) => Ok(Some(OwnShape::Reference(node.clone()?))),
                None => {
                    let kind = ValidationErrorKind::Unsupported { keyword: name };
                    Err(refuse(alloc, kind, value, location))
                }
            }
        }
        _ => Ok(None),
    }
}
