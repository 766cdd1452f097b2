//! What building and asking count.
use crate::asked::{Asked, Question, told_by};
use crate::rows::{Form, Table, expect, refusal};
use object_logic::{Meter, ValidateError, ValidationContext, Validator, holds_whole_numbers};
use olk_base_tests::counting::Counting;
use olk_bench::{BenchLeaves, BenchRegexes};
use serde_json::Value;
use std::alloc::{AllocError, Global};
use std::cell::Cell;
use std::test::Fail;

#[derive(Drop)]
struct WholeNumbers;

impl Form for WholeNumbers {
    fn answer(
        &self,
        alloc: Global,
        value: &Value,
        _instance: &Value,
    ) -> Result<String, AllocError> {
        format!(in alloc; "{}", holds_whole_numbers(value))
    }
}

// A value, and whether it has only whole numbers.
const WHOLE: &str = r#"{"a":1} | true
{"a":"x"} | true
[1.5] | false"#;

#[test]
fn whole_numbers(rt: HostRuntime) -> Result<(), Fail> {
    expect(&WholeNumbers, rt.alloc(), Table::Schemas(WHOLE))
}

// ---- building

/// Where a schema is refused, if it is.
fn refused_at(
    alloc: Global,
    leaves: &Counting<'_, BenchLeaves>,
    engines: &Counting<'_, BenchRegexes>,
    schema: &Value,
    meter: &mut Meter,
) -> Result<String, AllocError> {
    let built = Validator::build(alloc, leaves, engines, schema, meter);
    let refused = match &built {
        Ok(_) => Ok(String::new(alloc)),
        Err(error) => refusal(alloc, error),
    };
    drop(built);
    refused
}

/// Where a schema is refused, if it is. The cells tell how many leaves and engines are made, and
/// how often engines are asked.
fn refused_with(
    alloc: Global,
    schema: &Value,
    meter: &mut Meter,
    cells: [&Cell<u64>; 3],
) -> Result<String, AllocError> {
    let [leaves, engines, asked] = cells;
    let leaves = Counting {
        maker: BenchLeaves,
        made: leaves,
        asked,
    };
    let engines = Counting {
        maker: BenchRegexes,
        made: engines,
        asked,
    };
    refused_at(alloc, &leaves, &engines, schema, meter)
}

/// A meter has what the cells have, and no unfinished match.
fn unlike(meter: &Meter, made: (u64, u64, u64)) -> &'static str {
    let (leaves, engines, asks) = made;
    let counts = (
        meter.leaves(),
        meter.made(),
        meter.asked(),
        meter.unfinished(),
    );
    if counts == (leaves, engines, asks, 0) {
        ""
    } else {
        ", and the meter has other counts"
    }
}

/// What building counts, and where the schema is refused.
fn counted(alloc: Global, schema: &Value) -> Result<String, AllocError> {
    let (leaves, engines, asked) = (Cell::new(0), Cell::new(0), Cell::new(0));
    let mut meter = Meter::new();
    let refused = refused_with(alloc, schema, &mut meter, [&leaves, &engines, &asked])?;
    let before = if refused.is_empty() { "" } else { ", " };
    let made = (leaves.get(), engines.get(), asked.get());
    let unlike = unlike(&meter, made);
    let (places, leaves, engines, asks) = (meter.compiled(), made.0, made.1, made.2);
    let text = format!(in alloc;
        "{places} places, {leaves} leaves, {engines} engines, {asks} asks{before}{refused}{unlike}"
    );
    drop(refused);
    text
}

#[derive(Drop)]
struct Made;

impl Form for Made {
    fn answer(
        &self,
        alloc: Global,
        schema: &Value,
        _instance: &Value,
    ) -> Result<String, AllocError> {
        counted(alloc, schema)
    }
}

// A schema, and what building counts.
const MADE: &str =
    r##"{"allOf":[{}],"properties":{"a":{"type":"integer"}}} | 3 places, 1 leaves, 0 engines, 0 asks
{"allOf":[{"$ref":"#"},{"type":"integer"}]} | 2 places, 0 leaves, 0 engines, 0 asks, refused at /allOf/0/$ref
{"other":{"type":"null"}} | 1 places, 0 leaves, 0 engines, 0 asks
{"type":5} | 1 places, 1 leaves, 0 engines, 0 asks, refused at /type
{"anyOf":[{"not":{"type":"null"}}]} | 3 places, 1 leaves, 0 engines, 0 asks
{"properties":{"a":{"type":"null"},"b":{}},"required":["a","b"]} | 3 places, 1 leaves, 0 engines, 0 asks
{"allOf":[{"type":"null"},{"properties":{"a":{"type":"null"}}}],"type":"null"} | 4 places, 3 leaves, 0 engines, 0 asks
{"if":{"type":"null"}} | 1 places, 0 leaves, 0 engines, 0 asks
{"else":{"type":"null"},"then":{"type":"null"}} | 1 places, 0 leaves, 0 engines, 0 asks
{"else":{"type":"null"},"if":{"type":"null"},"then":{"type":"null"}} | 4 places, 3 leaves, 0 engines, 0 asks
{"allOf":[{"if":{"type":"integer"},"then":{"minimum":1}},true]} | 5 places, 2 leaves, 0 engines, 0 asks
{"propertyNames":true} | 1 places, 0 leaves, 0 engines, 0 asks
{"propertyNames":false} | 1 places, 0 leaves, 0 engines, 0 asks
{"propertyNames":[{"type":"null"}]} | 1 places, 0 leaves, 0 engines, 0 asks
{"propertyNames":{}} | 2 places, 0 leaves, 0 engines, 0 asks
{"propertyNames":{"minLength":1}} | 2 places, 1 leaves, 0 engines, 0 asks
{"propertyNames":{"not":true}} | 3 places, 0 leaves, 0 engines, 0 asks
{"dependentRequired":{"a":[]}} | 1 places, 0 leaves, 0 engines, 0 asks
{"dependentRequired":{"a":["b"],"b":["a"]}} | 1 places, 0 leaves, 0 engines, 0 asks
{"dependencies":{"a":[]}} | 1 places, 0 leaves, 0 engines, 0 asks
{"dependencies":{"a":false}} | 2 places, 0 leaves, 0 engines, 0 asks
{"dependencies":{"a":["b"],"c":{}}} | 2 places, 0 leaves, 0 engines, 0 asks
{"dependencies":{"a":["b"],"c":{"type":"null"},"d":{"maxLength":2,"minLength":1}}} | 3 places, 3 leaves, 0 engines, 0 asks
{"dependentSchemas":{"a":{"type":"null"},"b":{"dependentSchemas":{"c":{"type":"null"}}}}} | 4 places, 2 leaves, 0 engines, 0 asks
{"propertyDependencies":{"k":{"a":{"type":"string"},"b":{}}}} | 3 places, 1 leaves, 0 engines, 0 asks
{"propertyDependencies":{"k":{},"l":{"t":{"type":"null"}},"m":{"t":{"type":"null"},"u":true}}} | 4 places, 2 leaves, 0 engines, 0 asks"##;

#[test]
fn each_place_and_leaf_is_made_once(rt: HostRuntime) -> Result<(), Fail> {
    expect(&Made, rt.alloc(), Table::Schemas(MADE))
}

// A schema with patterns, and what building counts. In the last row an engine is refused, and in
// the next table patterns are asked of declared names.
const PATTERNS_MADE: &str =
    r#"{"patternProperties":{"a":{"type":"null"}}} | 2 places, 1 leaves, 1 engines, 0 asks
{"patternProperties":{"a":{},"b":true,"^c":{"minLength":1}}} | 4 places, 1 leaves, 2 engines, 0 asks
{"patternProperties":{"^a":{},"a$":{},"^a$":true,"^(a|b)$":false,"^\\S*$":{}}} | 6 places, 0 leaves, 0 engines, 0 asks
{"patternProperties":{"^x":{},"spam$":{"type":"integer"}}} | 3 places, 1 leaves, 0 engines, 0 asks
{"patternProperties":{"a":{"patternProperties":{"a":{}}}}} | 3 places, 0 leaves, 2 engines, 0 asks
{"allOf":[{"patternProperties":{"a":{}}},{"patternProperties":{"a":{},"(slow)b":{}}},{}]} | 7 places, 0 leaves, 3 engines, 0 asks
{"patternProperties":{"a":{"type":"null"}},"properties":{"a":{},"b":{}},"required":["a","b"]} | 4 places, 1 leaves, 1 engines, 0 asks
{"patternProperties":{}} | 1 places, 0 leaves, 0 engines, 0 asks
{"patternProperties":{"^a":{},"a(":{}}} | 1 places, 0 leaves, 1 engines, 0 asks, refused at /patternProperties/a("#;

#[test]
fn each_engine_is_made_once(rt: HostRuntime) -> Result<(), Fail> {
    expect(&Made, rt.alloc(), Table::Schemas(PATTERNS_MADE))
}

const TABLES_MADE: &str =
    r#"{"additionalProperties":false,"properties":{"a":{},"b":{}},"patternProperties":{"x":{},"y$":{},"^z":{}}} | 6 places, 0 leaves, 1 engines, 2 asks
{"additionalProperties":false,"properties":{"ax":{}},"patternProperties":{"(slow)x":{"type":"integer"}}} | 3 places, 1 leaves, 1 engines, 1 asks
{"additionalProperties":false,"properties":{"a":{},"bspam":{}},"patternProperties":{"spam$":{}}} | 4 places, 0 leaves, 0 engines, 0 asks
{"additionalProperties":false,"properties":{"a":{},"b":{}},"patternProperties":{"x":{},"y":{}},"required":["a"]} | 5 places, 0 leaves, 2 engines, 4 asks
{"additionalProperties":{"type":"null"},"properties":{"a":{}},"patternProperties":{"x":{}}} | 4 places, 1 leaves, 1 engines, 1 asks
{"additionalProperties":{"additionalProperties":false,"properties":{"a":{}},"patternProperties":{"x":{}}},"properties":{"b":{}},"patternProperties":{"x":{},"y":{}}} | 7 places, 0 leaves, 3 engines, 3 asks
{"additionalProperties":{},"patternProperties":{"x":{},"y":{}}} | 4 places, 0 leaves, 2 engines, 0 asks
{"additionalProperties":false,"properties":{},"patternProperties":{"x":{}}} | 2 places, 0 leaves, 1 engines, 0 asks
{"additionalProperties":true,"properties":{"a":{}},"patternProperties":{"x":{}}} | 3 places, 0 leaves, 1 engines, 0 asks
{"additionalProperties":true,"patternProperties":{"^x":{"type":"integer"}}} | 2 places, 1 leaves, 0 engines, 0 asks
{"additionalProperties":false,"properties":{"a":{"type":"null"}},"required":["a"]} | 2 places, 1 leaves, 0 engines, 0 asks
{"additionalProperties":{"type":"null"}} | 2 places, 1 leaves, 0 engines, 0 asks
{"additionalProperties":false} | 1 places, 0 leaves, 0 engines, 0 asks
{"additionalProperties":5,"properties":{"a":{}}} | 1 places, 0 leaves, 0 engines, 0 asks, refused at /additionalProperties"#;

#[test]
fn each_engine_is_asked_once_of_each_declared_name(rt: HostRuntime) -> Result<(), Fail> {
    expect(&Made, rt.alloc(), Table::Schemas(TABLES_MADE))
}

// A schema with more patterns than the bits of a word, of which one or two match the declared name,
// and what building counts.
const MANY_MADE: &str =
    r#"{"additionalProperties":false,"properties":{"m64":{}},"patternProperties":{"m00":{},"m01":{},"m02":{},"m03":{},"m04":{},"m05":{},"m06":{},"m07":{},"m08":{},"m09":{},"m10":{},"m11":{},"m12":{},"m13":{},"m14":{},"m15":{},"m16":{},"m17":{},"m18":{},"m19":{},"m20":{},"m21":{},"m22":{},"m23":{},"m24":{},"m25":{},"m26":{},"m27":{},"m28":{},"m29":{},"m30":{},"m31":{},"m32":{},"m33":{},"m34":{},"m35":{},"m36":{},"m37":{},"m38":{},"m39":{},"m40":{},"m41":{},"m42":{},"m43":{},"m44":{},"m45":{},"m46":{},"m47":{},"m48":{},"m49":{},"m50":{},"m51":{},"m52":{},"m53":{},"m54":{},"m55":{},"m56":{},"m57":{},"m58":{},"m59":{},"m60":{},"m61":{},"m62":{},"m63":{},"m64":{}}} | 67 places, 0 leaves, 65 engines, 65 asks
{"additionalProperties":false,"properties":{"m64":{}},"patternProperties":{"m00":{},"m01":{},"m02":{},"m03":{},"m04":{},"m05":{},"m06":{},"m07":{},"m08":{},"m09":{},"m10":{},"m11":{},"m12":{},"m13":{},"m14":{},"m15":{},"m16":{},"m17":{},"m18":{},"m19":{},"m20":{},"m21":{},"m22":{},"m23":{},"m24":{},"m25":{},"m26":{},"m27":{},"m28":{},"m29":{},"m30":{},"m31":{},"m32":{},"m33":{},"m34":{},"m35":{},"m36":{},"m37":{},"m38":{},"m39":{},"m40":{},"m41":{},"m42":{},"m43":{},"m44":{},"m45":{},"m46":{},"m47":{},"m48":{},"m49":{},"m50":{},"m51":{},"m52":{},"m53":{},"m54":{},"m55":{},"m56":{},"m57":{},"m58":{},"m59":{},"m60":{},"m61":{},"m62":{},"m63":{},"m64":{},"(slow)m64":false}} | 68 places, 0 leaves, 66 engines, 66 asks"#;

#[test]
fn a_table_of_65_patterns(rt: HostRuntime) -> Result<(), Fail> {
    expect(&Made, rt.alloc(), Table::Schemas(MANY_MADE))
}

// ---- leaves that are asked

/// How often a verdict asks leaves, which count in the cell.
#[derive(Drop)]
struct AskedLeaves<'c> {
    asked: &'c Cell<u64>,
}

impl Question for AskedLeaves<'_> {
    fn told<V: Asked>(
        &self,
        validator: &V,
        alloc: Global,
        instance: &Value,
    ) -> Result<String, AllocError> {
        let _valid = validator.is_valid(instance, &mut ValidationContext::new(false));
        format!(in alloc; "{}", self.asked.get())
    }
}

#[derive(Drop)]
struct LeafAsks;

impl Form for LeafAsks {
    fn answer(
        &self,
        alloc: Global,
        schema: &Value,
        instance: &Value,
    ) -> Result<String, AllocError> {
        let (made, asked) = (Cell::new(0), Cell::new(0));
        let leaves = Counting {
            maker: BenchLeaves,
            made: &made,
            asked: &asked,
        };
        let question = AskedLeaves { asked: &asked };
        told_by(&question, &leaves, &BenchRegexes, alloc, schema, instance)
    }
}

// A schema, an instance, and how often a verdict asks a leaf.
const ASKED: &str = r#"{"dependentSchemas":{"a":{"minLength":1}}} | {"b":1} | 0
{"dependentSchemas":{"a":{"minLength":1}}} | {"a":1} | 1
{"dependentSchemas":{"a":{"minLength":1},"b":{"minLength":1}}} | {"a":1,"b":2} | 2
{"dependencies":{"a":{"minLength":1},"b":["c"],"d":{"minLength":1}}} | {"a":1,"b":2,"c":3} | 1
{"dependencies":{"a":["b"],"c":{"minLength":1}}} | {"a":1,"c":2} | 0
{"propertyNames":{"minLength":1}} | {} | 0
{"propertyNames":{"minLength":1}} | {"a":1,"b":2,"c":3} | 3
{"propertyNames":{"minLength":2}} | {"ab":1,"c":2,"de":3} | 2
{"propertyNames":{"minLength":2}} | ["c"] | 0
{"propertyDependencies":{"k":{"a":{"minLength":1},"b":{"minLength":1}},"l":{"a":{"minLength":1}}}} | {"k":"a","l":"c"} | 1
{"propertyDependencies":{"k":{"a":{"minLength":1}},"l":{"b":{"minLength":1}}}} | {"k":"a","l":"b"} | 2
{"propertyDependencies":{"k":{"a":{"minLength":1}}}} | {"k":1} | 0
{"additionalProperties":{"minLength":1},"properties":{"a":{}}} | {"a":"x","b":"y","c":"z"} | 2
{"additionalProperties":{"minLength":1},"patternProperties":{"^a":{"minLength":1},"b$":{"minLength":1}}} | {"ab":"x"} | 2
{"additionalProperties":false,"properties":{"a":{"minLength":1},"id":{}},"required":["id"]} | {"a":"x","id":1,"z":1} | 0
{"additionalProperties":false,"properties":{"a":{"minLength":1},"id":{},"q":{}},"required":["id"]} | {"a":"x","id":1,"z":1} | 1
{"additionalProperties":false,"properties":{"a":{"minLength":1},"id":{},"q":{}},"required":["id"]} | {"a":[],"id":1,"z":1} | 0
{"additionalProperties":false,"properties":{"a":{"minLength":1},"id":{}},"required":["id"]} | {"a":[],"id":1} | 1
{"additionalProperties":false,"properties":{"a":{},"b":{},"c":{},"d":{"minLength":1},"id":{},"q":{}},"required":["id"]} | {"a":[],"b":{},"c":[],"d":{},"id":1,"z":1} | 0
{"additionalProperties":false,"properties":{"a":{},"b":{},"c":{},"d":{},"e":{"minLength":1},"id":{},"q":{}},"required":["id"]} | {"a":[],"b":{},"c":[],"d":{},"e":[],"id":1,"z":1} | 1
{"additionalProperties":false,"properties":{"a":{"minLength":1},"q":{}}} | {"a":[],"z":1} | 1"#;

#[test]
fn a_leaf_is_asked_where_it_is_due(rt: HostRuntime) -> Result<(), Fail> {
    expect(&LeafAsks, rt.alloc(), Table::Asked(ASKED))
}

// ---- engines that are asked

fn validate_accepts<V: Asked>(
    validator: &V,
    alloc: Global,
    instance: &Value,
    ctx: &mut ValidationContext,
) -> Result<bool, AllocError> {
    let found = validator.validate(alloc, instance, ctx);
    let accepts = match &found {
        Ok(()) => Ok(true),
        Err(ValidateError::Invalid(_)) => Ok(false),
        Err(ValidateError::Memory(_)) => Err(AllocError),
    };
    drop(found);
    accepts
}

fn collect_errors_accepts<'a, V: Asked>(
    validator: &'a V,
    alloc: Global,
    instance: &'a Value,
    ctx: &mut ValidationContext,
) -> Result<bool, AllocError> {
    let mut errors = Vec::new(alloc);
    let collected = validator.collect_errors(alloc, instance, ctx, &mut errors);
    let accepts = errors.is_empty();
    drop(errors);
    match collected {
        Ok(()) => Ok(accepts),
        Err(error) => Err(error),
    }
}

fn evaluate_accepts<V: Asked>(
    validator: &V,
    alloc: Global,
    instance: &Value,
    ctx: &mut ValidationContext,
) -> Result<bool, AllocError> {
    let evaluated = validator.evaluate(alloc, instance, ctx);
    let accepts = match &evaluated {
        Ok(evaluation) => Ok(evaluation.flag().valid),
        Err(_) => Err(AllocError),
    };
    drop(evaluated);
    accepts
}

/// The four ways of asking.
#[derive(Clone, Copy, Drop)]
enum Way {
    IsValid,
    Validate,
    CollectErrors,
    Evaluate,
}

fn accepts_by<'a, V: Asked>(
    way: Way,
    validator: &'a V,
    alloc: Global,
    instance: &'a Value,
    ctx: &mut ValidationContext,
) -> Result<bool, AllocError> {
    match way {
        Way::IsValid => Ok(validator.is_valid(instance, ctx)),
        Way::Validate => validate_accepts(validator, alloc, instance, ctx),
        Way::CollectErrors => collect_errors_accepts(validator, alloc, instance, ctx),
        Way::Evaluate => evaluate_accepts(validator, alloc, instance, ctx),
    }
}

/// What a way of asking comes to under an answer: whether the instance is accepted, how often
/// engines are asked, how many matches are left unfinished, and what is wrong beside these.
#[derive(Clone, Copy, Drop)]
struct Told {
    accepted: bool,
    asks: u64,
    unfinished: u64,
    wrong: &'static str,
}

/// The context has the same counts and no other, and keeps its answer.
fn wrong_in(ctx: &ValidationContext, asks: u64, answer: bool) -> &'static str {
    let meter = ctx.meter();
    let counts = (
        meter.compiled(),
        meter.leaves(),
        meter.made(),
        meter.asked(),
    );
    if counts != (0, 0, 0, asks) {
        ", another count rose"
    } else if ctx.answer() != answer {
        ", the answer changed"
    } else {
        ""
    }
}

fn told_by_way<'a, V: Asked>(
    way: Way,
    validator: &'a V,
    asked: &Cell<u64>,
    alloc: Global,
    instance: &'a Value,
    answer: bool,
) -> Result<Told, AllocError> {
    asked.set(0);
    let mut ctx = ValidationContext::new(answer);
    let accepted = accepts_by(way, validator, alloc, instance, &mut ctx)?;
    let asks = asked.get();
    Ok(Told {
        accepted,
        asks,
        unfinished: ctx.meter().unfinished(),
        wrong: wrong_in(&ctx, asks, answer),
    })
}

/// Whether the instance is accepted, whether engines are asked at all, and whether some or all of
/// these matches are left unfinished.
fn kind(told: Told) -> (bool, bool, bool, bool) {
    (
        told.accepted,
        told.asks > 0,
        told.unfinished > 0,
        told.unfinished == told.asks,
    )
}

/// Each other way gives the same verdict as `is_valid`, and asks where that asks.
fn wrong_beside(told: Told, other: Told) -> &'static str {
    if kind(told) == kind(other) {
        other.wrong
    } else {
        ", another way tells otherwise"
    }
}

/// The first of two texts that is not empty.
fn first_of(text: &'static str, other: &'static str) -> &'static str {
    if text.is_empty() { other } else { text }
}

/// What a verdict under an answer comes to, and what is wrong with that or with another way of
/// asking.
fn told_by_all<'a, V: Asked>(
    validator: &'a V,
    asked: &Cell<u64>,
    alloc: Global,
    instance: &'a Value,
    answer: bool,
) -> Result<Told, AllocError> {
    let told = told_by_way(Way::IsValid, validator, asked, alloc, instance, answer)?;
    let first = told_by_way(Way::Validate, validator, asked, alloc, instance, answer)?;
    let all = told_by_way(
        Way::CollectErrors,
        validator,
        asked,
        alloc,
        instance,
        answer,
    )?;
    let shown = told_by_way(Way::Evaluate, validator, asked, alloc, instance, answer)?;
    let wrong_in_first = first_of(told.wrong, wrong_beside(told, first));
    let wrong_in_others = first_of(wrong_beside(told, all), wrong_beside(told, shown));
    let wrong = first_of(wrong_in_first, wrong_in_others);
    Ok(Told { wrong, ..told })
}

fn verdict_text(told: Told, told_where_matched: Told) -> &'static str {
    match (told.accepted, told_where_matched.accepted) {
        (true, true) => "accepted",
        (false, false) => "refused",
        (true, false) => "accepted or refused",
        (false, true) => "refused or accepted",
    }
}

fn counts_text(
    alloc: Global,
    verdict: &str,
    asks: u64,
    unfinished: u64,
    wrong: &str,
) -> Result<String, AllocError> {
    format!(in alloc; "{verdict} | {asks} asks, {unfinished} unfinished{wrong}")
}

/// The counts where an unfinished match is none, and where it is one.
fn both_counts_text(
    alloc: Global,
    verdict: &str,
    told: (u64, u64),
    matched: (u64, u64),
    wrong: &str,
) -> Result<String, AllocError> {
    let ((asks, unfinished), (others, left)) = (told, matched);
    format!(in alloc;
        "{verdict} | {asks} asks, {unfinished} unfinished or {others} asks, {left} unfinished{wrong}"
    )
}

/// What a verdict comes to under both answers.
fn told_text(alloc: Global, told: Told, matched: Told) -> Result<String, AllocError> {
    let verdict = verdict_text(told, matched);
    let wrong = first_of(told.wrong, matched.wrong);
    let counts = (told.asks, told.unfinished);
    let where_matched = (matched.asks, matched.unfinished);
    if counts == where_matched {
        counts_text(alloc, verdict, told.asks, told.unfinished, wrong)
    } else {
        both_counts_text(alloc, verdict, counts, where_matched, wrong)
    }
}

fn told_in_all_ways<V: Asked>(
    validator: &V,
    asked: &Cell<u64>,
    alloc: Global,
    instance: &Value,
) -> Result<String, AllocError> {
    let told = told_by_all(validator, asked, alloc, instance, false)?;
    let matched = told_by_all(validator, asked, alloc, instance, true)?;
    told_text(alloc, told, matched)
}

fn told_by_a_verdict<V: Asked>(
    validator: &V,
    asked: &Cell<u64>,
    alloc: Global,
    instance: &Value,
) -> Result<String, AllocError> {
    let told = told_by_way(Way::IsValid, validator, asked, alloc, instance, false)?;
    let matched = told_by_way(Way::IsValid, validator, asked, alloc, instance, true)?;
    told_text(alloc, told, matched)
}

/// What asking comes to in engines, whatever building asked.
#[derive(Clone, Copy, Drop)]
enum AskedEngines {
    InAllWays,
    ByAVerdict,
}

/// How often engines are asked, which count in the cell.
#[derive(Drop)]
struct Engines<'c> {
    form: AskedEngines,
    asked: &'c Cell<u64>,
}

impl Question for Engines<'_> {
    fn told<V: Asked>(
        &self,
        validator: &V,
        alloc: Global,
        instance: &Value,
    ) -> Result<String, AllocError> {
        match self.form {
            AskedEngines::InAllWays => told_in_all_ways(validator, self.asked, alloc, instance),
            AskedEngines::ByAVerdict => told_by_a_verdict(validator, self.asked, alloc, instance),
        }
    }
}

impl Form for AskedEngines {
    fn answer(
        &self,
        alloc: Global,
        schema: &Value,
        instance: &Value,
    ) -> Result<String, AllocError> {
        let (made, asked) = (Cell::new(0), Cell::new(0));
        let patterns = Counting {
            maker: BenchRegexes,
            made: &made,
            asked: &asked,
        };
        let question = Engines {
            form: *self,
            asked: &asked,
        };
        told_by(&question, &BenchLeaves, &patterns, alloc, schema, instance)
    }
}

// A schema, an instance, whether that is accepted (with `or` where an unfinished match is none, and
// where it is one), and how often a verdict asks the engines, and of these how often without an
// end. The first rows ask nothing: a few, and every keyword over a value that is accepted and one
// that is not.
const ENGINES: &str =
    r#"{"allOf":[{}],"properties":{"a":{"type":"integer"}}} | {"a":1} | accepted | 0 asks, 0 unfinished
{"allOf":[{}],"properties":{"a":{"type":"integer"}}} | {"a":"x"} | refused | 0 asks, 0 unfinished
{"allOf":[{}],"properties":{"a":{"type":"integer"}}} | [1.5] | accepted | 0 asks, 0 unfinished
{"allOf":[{"required":["a"]},{"patternProperties":{"^a":{"minimum":5},"d$":false}}],"anyOf":[{"type":"null"},{"type":"object"}],"not":{"required":["b"]},"dependencies":{"a":["c"],"c":{"required":["a"]}},"dependentRequired":{"a":["c"]},"dependentSchemas":{"a":{"required":["c"]}},"propertyDependencies":{"b":{"t":false}},"else":{"required":["c"]},"if":{"required":["b"]},"oneOf":[{"required":["b"]},{"required":["c"]}],"then":false,"properties":{"a":{"minimum":5},"c":true},"propertyNames":{"maxLength":1},"required":["a","c"]} | {"a":5,"c":1} | accepted | 0 asks, 0 unfinished
{"allOf":[{"required":["a"]},{"patternProperties":{"^a":{"minimum":5},"d$":false}}],"anyOf":[{"type":"null"},{"type":"object"}],"not":{"required":["b"]},"dependencies":{"a":["c"],"c":{"required":["a"]}},"dependentRequired":{"a":["c"]},"dependentSchemas":{"a":{"required":["c"]}},"propertyDependencies":{"b":{"t":false}},"else":{"required":["c"]},"if":{"required":["b"]},"oneOf":[{"required":["b"]},{"required":["c"]}],"then":false,"properties":{"a":{"minimum":5},"c":true},"propertyNames":{"maxLength":1},"required":["a","c"]} | {"a":4,"b":"t","dd":1} | refused | 0 asks, 0 unfinished
{"patternProperties":{"a":{"patternProperties":{"b":{}}}}} | {"a":{"b":1},"c":2} | accepted | 3 asks, 0 unfinished
{"patternProperties":{"a":{"type":"integer"}}} | {"a":1,"b":"t","c":null} | accepted | 3 asks, 0 unfinished
{"patternProperties":{"a":{"type":"integer"},"b":{"minimum":1},"^c":{}}} | {"ab":1,"b":2,"c":3} | accepted | 6 asks, 0 unfinished
{"patternProperties":{"a":{"type":"integer"}}} | {"a":"t"} | refused | 1 asks, 0 unfinished
{"patternProperties":{"a":{},"b":{"type":"integer"}}} | {"ab":"t"} | refused | 2 asks, 0 unfinished
{"patternProperties":{"^a":{},"b$":{},"^c$":true,"^(a|d)$":{},"^\\S*$":{}}} | {"a":1,"ab":2,"c":3,"d e":4} | accepted | 0 asks, 0 unfinished
{"patternProperties":{"^a":{"type":"integer"}}} | {"a":"t"} | refused | 0 asks, 0 unfinished
{"patternProperties":{"a":false,"b":false}} | {} | accepted | 0 asks, 0 unfinished
{"patternProperties":{"a":false}} | ["a"] | accepted | 0 asks, 0 unfinished
{"patternProperties":{"(slow)x":false}} | {"ax":1} | accepted or refused | 1 asks, 1 unfinished
{"patternProperties":{"(slow)x":{"type":"integer"}}} | {"ax":1,"x":2} | accepted | 2 asks, 2 unfinished
{"patternProperties":{"(slow)x":true,"(slow)y":{"type":"integer"},"^x":{}}} | {"xy":"t"} | accepted or refused | 2 asks, 2 unfinished
{"not":{"patternProperties":{"(slow)x":false}}} | {"x":1} | refused or accepted | 1 asks, 1 unfinished
{"patternProperties":{"(slow)x":false}} | {"a":1} | accepted | 1 asks, 0 unfinished
{"not":{"patternProperties":{"(slow)x":false}}} | {"a":1} | refused | 1 asks, 0 unfinished
{"not":{"patternProperties":{"x":{"type":"integer"}}}} | {"x":"t"} | accepted | 1 asks, 0 unfinished
{"anyOf":[]} | 1 | refused | 0 asks, 0 unfinished
{"oneOf":[]} | 1 | refused | 0 asks, 0 unfinished
{"additionalProperties":false,"properties":{"a":{},"b":{}},"patternProperties":{"x":{},"y$":{},"^z":{}}} | {"c":1} | refused | 1 asks, 0 unfinished
{"additionalProperties":false,"properties":{"a":{},"b":{}},"patternProperties":{"x":{},"y$":{},"^z":{}}} | {"a":1,"b":2,"by":3} | accepted | 1 asks, 0 unfinished
{"additionalProperties":false,"properties":{"a":{},"bspam":{}},"patternProperties":{"spam$":{}}} | {"a":1,"bspam":2} | accepted | 0 asks, 0 unfinished
{"additionalProperties":false,"properties":{"a":{},"bspam":{}},"patternProperties":{"spam$":{}}} | {"a":1,"xspam":1} | accepted | 0 asks, 0 unfinished
{"patternProperties":{"^x":{},"spam$":{"type":"integer"}}} | {"x1":"t"} | accepted | 0 asks, 0 unfinished
{"additionalProperties":false,"properties":{"a":{},"bspam":{}},"patternProperties":{"spam":{"minimum":2}}} | {"a":1,"bspam":2} | accepted | 0 asks, 0 unfinished
{"additionalProperties":false,"properties":{"a":{},"bspam":{}},"patternProperties":{"spam":{"minimum":2}}} | {"a":1,"bspam":1} | refused | 0 asks, 0 unfinished
{"additionalProperties":false,"properties":{"a":{},"bspam":{}},"patternProperties":{"spam":{}}} | {"a":1,"xspam":1} | accepted | 1 asks, 0 unfinished
{"additionalProperties":false,"properties":{"ax":{}},"patternProperties":{"(slow)x":{"type":"integer"}}} | {"ax":"t"} | accepted or refused | 1 asks, 1 unfinished
{"additionalProperties":false,"patternProperties":{"(slow)x":{}}} | {"ax":1} | refused or accepted | 1 asks, 1 unfinished
{"additionalProperties":{"type":"integer"},"patternProperties":{"x":{},"y":{}}} | {"a":1,"b":2} | accepted | 4 asks, 0 unfinished
{"additionalProperties":true,"properties":{"a":{}},"patternProperties":{"x":{}}} | {"a":1,"b":2} | accepted | 2 asks, 0 unfinished"#;

#[test]
fn an_engine_is_asked_as_often_as_is_counted(rt: HostRuntime) -> Result<(), Fail> {
    expect(&AskedEngines::InAllWays, rt.alloc(), Table::Asked(ENGINES))
}

// A declared name asks no pattern whose match was finished in building, and any other again.
const LEFT_UNFINISHED: &str =
    r#"{"additionalProperties":{},"properties":{"ab":{},"c":{}},"patternProperties":{"(slow)a":{},"b":{},"^c":{}}} | {"ab":1} | accepted | 1 asks, 1 unfinished
{"additionalProperties":{},"properties":{"ab":{},"c":{}},"patternProperties":{"(slow)a":{},"b":{},"^c":{}}} | {"c":1} | accepted | 0 asks, 0 unfinished
{"additionalProperties":{},"properties":{"ab":{},"c":{}},"patternProperties":{"(slow)a":{},"b":{},"^c":{}}} | {"q":1} | accepted | 2 asks, 0 unfinished
{"additionalProperties":{},"properties":{"ab":{},"c":{}},"patternProperties":{"(slow)a":{},"b":{},"^c":{}}} | {"aq":1} | accepted | 2 asks, 1 unfinished
{"additionalProperties":{},"properties":{"ab":{},"c":{}},"patternProperties":{"(slow)a":{},"b":{},"^c":{}}} | {"ab":1,"c":1,"q":1} | accepted | 3 asks, 1 unfinished"#;

#[test]
fn a_declared_name_asks_what_was_left_unfinished(rt: HostRuntime) -> Result<(), Fail> {
    expect(
        &AskedEngines::InAllWays,
        rt.alloc(),
        Table::Asked(LEFT_UNFINISHED),
    )
}

// A declared name beside more patterns than the bits of a word asks none whose match was finished
// in building, and any other again.
const MANY_ASKED: &str =
    r#"{"additionalProperties":false,"properties":{"m64":{}},"patternProperties":{"m00":{},"m01":{},"m02":{},"m03":{},"m04":{},"m05":{},"m06":{},"m07":{},"m08":{},"m09":{},"m10":{},"m11":{},"m12":{},"m13":{},"m14":{},"m15":{},"m16":{},"m17":{},"m18":{},"m19":{},"m20":{},"m21":{},"m22":{},"m23":{},"m24":{},"m25":{},"m26":{},"m27":{},"m28":{},"m29":{},"m30":{},"m31":{},"m32":{},"m33":{},"m34":{},"m35":{},"m36":{},"m37":{},"m38":{},"m39":{},"m40":{},"m41":{},"m42":{},"m43":{},"m44":{},"m45":{},"m46":{},"m47":{},"m48":{},"m49":{},"m50":{},"m51":{},"m52":{},"m53":{},"m54":{},"m55":{},"m56":{},"m57":{},"m58":{},"m59":{},"m60":{},"m61":{},"m62":{},"m63":{},"m64":{}}} | {"m64":1} | accepted | 0 asks, 0 unfinished
{"additionalProperties":false,"properties":{"m64":{}},"patternProperties":{"m00":{},"m01":{},"m02":{},"m03":{},"m04":{},"m05":{},"m06":{},"m07":{},"m08":{},"m09":{},"m10":{},"m11":{},"m12":{},"m13":{},"m14":{},"m15":{},"m16":{},"m17":{},"m18":{},"m19":{},"m20":{},"m21":{},"m22":{},"m23":{},"m24":{},"m25":{},"m26":{},"m27":{},"m28":{},"m29":{},"m30":{},"m31":{},"m32":{},"m33":{},"m34":{},"m35":{},"m36":{},"m37":{},"m38":{},"m39":{},"m40":{},"m41":{},"m42":{},"m43":{},"m44":{},"m45":{},"m46":{},"m47":{},"m48":{},"m49":{},"m50":{},"m51":{},"m52":{},"m53":{},"m54":{},"m55":{},"m56":{},"m57":{},"m58":{},"m59":{},"m60":{},"m61":{},"m62":{},"m63":{},"m64":{},"(slow)m64":false}} | {"m64":1} | accepted or refused | 1 asks, 1 unfinished"#;

#[test]
fn many_patterns_at_a_declared_name(rt: HostRuntime) -> Result<(), Fail> {
    expect(
        &AskedEngines::InAllWays,
        rt.alloc(),
        Table::Asked(MANY_ASKED),
    )
}

// A branch that accepts spares the others, and what they would ask. A verdict ends at the member
// that is refused, so it asks of two members less where an unfinished match is one.
const ENDED: &str =
    r#"{"anyOf":[true,{"patternProperties":{"x":{}}}]} | {"x":1} | accepted | 0 asks, 0 unfinished
{"patternProperties":{"(slow)x":false}} | {"ax":1,"b":1} | accepted or refused | 2 asks, 1 unfinished or 1 asks, 1 unfinished"#;

#[test]
fn a_verdict_ends_where_it_is_known(rt: HostRuntime) -> Result<(), Fail> {
    expect(&AskedEngines::ByAVerdict, rt.alloc(), Table::Asked(ENDED))
}
