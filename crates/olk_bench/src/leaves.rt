//! The maker of leaves.
ghost use Rattle.std.specs.Prelude.{◌≡◌, IfOk, option_map};
ghost use Rattle.serde_json.specs.Find.{as_str};
ghost use Rattle.serde_json.specs.View.{view};
ghost use Rattle.olk_spec.specs.Bench.{leaf_named, type_keyword, const_keyword, minimum, maximum, multiple_of, min_length, max_length};
ghost use Rattle.olk_bench.specs.Numbers.{num_of, whole_in};
ghost use Rattle.olk_bench.specs.Leaves.{keyword_named, IsMade};

use crate::leaf::{BenchLeaf, Constant, ValueKind};
use crate::numbers::{Divisor, WholeNumber};
use olk_base::{MakeError, MakeLeaf, Meter};
use serde_json::Value;
use std::alloc::{AllocError, Global};

/// Makes the leaves of seven keywords.
///
/// `type` takes the name of a kind of values, `const` a whole number or a text, `minimum` and
/// `maximum` a whole number, `multipleOf` a whole number from 1, `minLength` and `maxLength` one
/// from 0.
#[derive(Drop)]
pub struct BenchLeaves;

impl MakeLeaf for BenchLeaves {
    type Leaf = BenchLeaf;

    fn reads(&self, keyword: &str) -> bool {
        keyword_of(keyword).is_some()
    }

    fn make(
        &self,
        alloc: Global,
        keyword: &str,
        value: &Value,
        meter: &mut Meter,
    ) -> Result<BenchLeaf, MakeError> {
        meter.tick_leaves();
        match keyword_of(keyword) {
            Some(keyword) => match leaf_of(alloc, keyword, value)? {
                Some(leaf) => Ok(leaf),
                None => Err(MakeError::Refused),
            },
            None => Err(MakeError::Refused),
        }
    }
}

#[derive(Clone, Copy)]
enum LeafKeyword {
    Type,
    Const,
    Minimum,
    Maximum,
    MultipleOf,
    MinLength,
    MaxLength,
}

fn keyword_of(name: &str) -> Option<LeafKeyword>
    ensures { option_map keyword_named result ≡ leaf_named name.now }
{
    match name {
        "type" => Some(LeafKeyword::Type),
        "const" => Some(LeafKeyword::Const),
        "minimum" => Some(LeafKeyword::Minimum),
        "maximum" => Some(LeafKeyword::Maximum),
        "multipleOf" => Some(LeafKeyword::MultipleOf),
        "minLength" => Some(LeafKeyword::MinLength),
        "maxLength" => Some(LeafKeyword::MaxLength),
        _ => None,
    }
}

fn leaf_of(
    alloc: Global,
    keyword: LeafKeyword,
    value: &Value,
) -> Result<Option<BenchLeaf>, AllocError>
    ensures { IfOk result (IsMade (keyword_named keyword) (view value.now)) }
{
    match keyword {
        LeafKeyword::Type => Ok(type_leaf(value)),
        LeafKeyword::Const => const_leaf(alloc, value),
        LeafKeyword::Minimum => Ok(minimum_leaf(value)),
        LeafKeyword::Maximum => Ok(maximum_leaf(value)),
        LeafKeyword::MultipleOf => Ok(multiple_leaf(value)),
        LeafKeyword::MinLength => Ok(shortest_leaf(value)),
        LeafKeyword::MaxLength => Ok(longest_leaf(value)),
    }
}

fn whole_number(value: &Value) -> Option<WholeNumber>
    ensures { option_map num_of result ≡ whole_in (view value.now) }
{
    match value {
        Value::Number(number) => WholeNumber::of(number),
        _ => None,
    }
}

fn type_leaf(value: &Value) -> Option<BenchLeaf>
    ensures { IsMade type_keyword (view value.now) result }
{
    let name = value.as_str()?;
    let kind = ValueKind::named(name)?;
    Some(BenchLeaf::Type(kind))
}

fn const_leaf(alloc: Global, value: &Value) -> Result<Option<BenchLeaf>, AllocError>
    ensures { IfOk result (IsMade const_keyword (view value.now)) }
{
    match value.as_str() {
        Some(text) => {
            let text = String::from_str(alloc, text)?;
            Ok(Some(BenchLeaf::Const(Constant::Text(text))))
        }
        None => Ok(number_leaf(value)),
    }
}

fn number_leaf(value: &Value) -> Option<BenchLeaf>
    requires { as_str (view value.now) ≡ None }
    ensures { IsMade const_keyword (view value.now) result }
{
    let number = whole_number(value)?;
    Some(BenchLeaf::Const(Constant::Number(number)))
}

fn minimum_leaf(value: &Value) -> Option<BenchLeaf>
    ensures { IsMade minimum (view value.now) result }
{
    let number = whole_number(value)?;
    Some(BenchLeaf::Minimum(number))
}

fn maximum_leaf(value: &Value) -> Option<BenchLeaf>
    ensures { IsMade maximum (view value.now) result }
{
    let number = whole_number(value)?;
    Some(BenchLeaf::Maximum(number))
}

fn multiple_leaf(value: &Value) -> Option<BenchLeaf>
    ensures { IsMade multiple_of (view value.now) result }
{
    let number = value.as_u64()?;
    let divisor = Divisor::new(number)?;
    Some(BenchLeaf::MultipleOf(divisor))
}

fn shortest_leaf(value: &Value) -> Option<BenchLeaf>
    ensures { IsMade min_length (view value.now) result }
{
    let least = value.as_u64()?;
    Some(BenchLeaf::MinLength(least))
}

fn longest_leaf(value: &Value) -> Option<BenchLeaf>
    ensures { IsMade max_length (view value.now) result }
{
    let most = value.as_u64()?;
    Some(BenchLeaf::MaxLength(most))
}
