//! The table of patterns, made with the bench's matcher.
use olk_base::{CompiledPattern, MakeError, Meter, compile_pattern};
use olk_base_tests::tables::{expect_rows, three};
use olk_bench::{BenchRegex, BenchRegexes};
use olk_tree::pattern_table::{PatternIndex, PatternTable, precompute_property_pattern_indices};
use serde_json::{Map, Value};
use std::alloc::{AllocError, Global};
use std::fmt::Debug;
use std::test::Fail;

type Pattern = CompiledPattern<BenchRegex>;

/// A pattern with no node.
type Alone = (Pattern, ());

fn plain_error(error: MakeError) -> Fail {
    match error {
        MakeError::Refused => Fail::from("refused"),
        MakeError::Memory(error) => Fail::from(error),
    }
}

/// How many patterns there are, and which of them is the test `^c`. Two others are left unfinished
/// at each name with `a`, and all further ones match each name with `b`.
#[derive(Clone, Copy, Drop)]
struct Patterns {
    count: usize,
    test: usize,
}

fn text_of(index: usize, test: usize) -> &'static str {
    if index == test {
        return "^c";
    }
    match index {
        1 | 64 => "(slow)a",
        _ => "b",
    }
}

fn pattern(alloc: Global, text: &str, meter: &mut Meter) -> Result<Pattern, Fail> {
    compile_pattern(alloc, &BenchRegexes, text, meter).map_err(plain_error)
}

fn compiled(alloc: Global, patterns: Patterns) -> Result<Vec<Alone>, Fail> {
    let mut meter = Meter::new();
    let mut compiled = Vec::with_capacity(alloc, patterns.count)?;
    for index in 0..patterns.count {
        let text = text_of(index, patterns.test);
        compiled.push((pattern(alloc, text, &mut meter)?, ()))?;
    }
    Ok(compiled)
}

/// The table of these names and patterns.
fn table_over(
    alloc: Global,
    patterns: Patterns,
    names: &Map<String, Value>,
    meter: &mut Meter,
) -> Result<PatternTable, Fail> {
    let patterns = compiled(alloc, patterns)?;
    let table = precompute_property_pattern_indices(alloc, names, &patterns, meter);
    drop(patterns);
    Ok(table?)
}

fn table_in(
    alloc: Global,
    patterns: Patterns,
    declared: &Value,
    meter: &mut Meter,
) -> Result<PatternTable, Fail> {
    match declared.as_object() {
        Some(names) => table_over(alloc, patterns, names, meter),
        None => Err(Fail::new("no object")),
    }
}

/// The table of these declared names and patterns.
fn table_of(
    alloc: Global,
    patterns: Patterns,
    declared: &str,
    meter: &mut Meter,
) -> Result<PatternTable, Fail> {
    let declared = Value::from_str(alloc, declared)?;
    let table = table_in(alloc, patterns, &declared, meter);
    drop(declared);
    table
}

// The names `ab`, `b` and `cd`, which stand in that order.
const NAMES: &str = r#"{"cd":true,"b":true,"ab":true}"#;

const PATTERNS: Patterns = Patterns { count: 65, test: 3 };

/// The table of these names and 65 patterns.
fn table(alloc: Global, meter: &mut Meter) -> Result<PatternTable, Fail> {
    table_of(alloc, PATTERNS, NAMES, meter)
}

/// No row is answered otherwise than it says.
fn expect_none<R: Debug + Drop>(wrong: Option<R>) -> Result<(), Fail> {
    match wrong {
        None => Ok(()),
        Some(row) => Err(Fail::from(row)),
    }
}

#[test]
fn each_pattern_is_asked_once_for_each_name(rt: HostRuntime) -> Result<(), Fail> {
    let mut meter = Meter::new();
    drop(table(rt.alloc(), &mut meter)?);
    let others = (meter.compiled(), meter.leaves(), meter.made());
    if (meter.asked(), meter.unfinished()) == (3 * 64, 0) && others == (0, 0, 0) {
        Ok(())
    } else {
        Err(Fail::from((meter.asked(), meter.unfinished(), others)))
    }
}

// A place of a name, a pattern, and what is known of them.
const KNOWN: [(usize, usize, Option<bool>); 10] = [
    (0, 0, Some(true)),
    (0, 1, None),
    (0, 3, Some(false)),
    (0, 63, Some(true)),
    (0, 64, None),
    (1, 0, Some(true)),
    (1, 64, Some(false)),
    (2, 3, Some(true)),
    (2, 64, Some(false)),
    (3, 0, None),
];

fn wrong_known(table: &PatternTable) -> Option<(usize, usize, Option<bool>)> {
    for (place, index, known) in KNOWN {
        if table.known(place, index) != known {
            return Some((place, index, known));
        }
    }
    None
}

#[test]
fn what_is_known(rt: HostRuntime) -> Result<(), Fail> {
    let table = table(rt.alloc(), &mut Meter::new())?;
    let wrong = wrong_known(&table);
    drop(table);
    expect_none(wrong)
}

// A name, a pattern, whether it matches, and whether it is unfinished.
const KNOWN_BY_NAME: [(&str, usize, bool, bool); 7] = [
    ("ab", 2, true, false),
    ("ab", 64, false, true),
    ("b", 63, true, false),
    ("b", 64, false, false),
    ("cd", 3, true, false),
    ("bb", 2, false, false),
    ("a", 64, false, false),
];

fn wrong_by_name(table: &PatternTable) -> Option<(&'static str, usize)> {
    for (name, index, matched, unfinished) in KNOWN_BY_NAME {
        if table.is_matched(name, index) != matched
            || table.is_unfinished(name, index) != unfinished
        {
            return Some((name, index));
        }
    }
    None
}

#[test]
fn what_is_known_by_name(rt: HostRuntime) -> Result<(), Fail> {
    let table = table(rt.alloc(), &mut Meter::new())?;
    let wrong = wrong_by_name(&table);
    drop(table);
    expect_none(wrong)
}

fn wrong_nothing(table: &PatternTable) -> Option<(usize, bool)> {
    for (place, nothing) in [(0usize, false), (1, false), (2, true), (3, false)] {
        if table.matches_nothing(place) != nothing {
            return Some((place, nothing));
        }
    }
    None
}

/// At `a` two patterns are left unfinished, at `b` most match, and no pattern matches `dd`.
#[test]
fn a_name_that_nothing_matches(rt: HostRuntime) -> Result<(), Fail> {
    let declared = r#"{"a":true,"b":true,"dd":true}"#;
    let table = table_of(rt.alloc(), PATTERNS, declared, &mut Meter::new())?;
    let wrong = wrong_nothing(&table);
    drop(table);
    expect_none(wrong)
}

/// Each place, with a question mark where the match is left unfinished.
fn push_places(text: &mut String, indices: &[PatternIndex]) -> Result<(), AllocError> {
    for entry in indices {
        let before = if text.is_empty() { "" } else { " " };
        let mark = if entry.finished { "" } else { "?" };
        text.write(format_args!("{before}{}{mark}", entry.index))?;
    }
    Ok(())
}

fn places_text(alloc: Global, indices: &[PatternIndex]) -> Result<String, AllocError> {
    if indices.is_empty() {
        return String::from_str(alloc, "none");
    }
    let mut text = String::new(alloc);
    push_places(&mut text, indices)?;
    Ok(text)
}

fn places_of(alloc: Global, table: &PatternTable, name: &str) -> Result<String, AllocError> {
    let indices = table.indices(alloc, name)?;
    let text = places_text(alloc, &indices);
    drop(indices);
    text
}

fn number(text: &str) -> Result<usize, Fail> {
    text.parse().map_err(|_| Fail::new("no number"))
}

/// The places that a table of such patterns lists of a name.
fn places(alloc: Global, cells: &str) -> Result<String, Fail> {
    let Some((count, test, name)) = three(cells) else {
        return Err(Fail::new("no three cells"));
    };
    let patterns = Patterns {
        count: number(count)?,
        test: number(test)?,
    };
    let table = table_of(alloc, patterns, NAMES, &mut Meter::new())?;
    let text = places_of(alloc, &table, name);
    drop(table);
    Ok(text?)
}

// How many patterns there are, which of them is the test, a name, and the places that are listed of
// it, which follow by hand from `text_of`. The last rows are those of one place alone, on either
// side of a word's end.
const PLACES: &str =
    "65 | 3 | ab | 0 1? 2 4 5 6 7 8 9 10 11 12 13 14 15 16 17 18 19 20 21 22 23 24 25 26 27 28 29 30 31 32 33 34 35 36 37 38 39 40 41 42 43 44 45 46 47 48 49 50 51 52 53 54 55 56 57 58 59 60 61 62 63 64?
65 | 3 | b | 0 2 4 5 6 7 8 9 10 11 12 13 14 15 16 17 18 19 20 21 22 23 24 25 26 27 28 29 30 31 32 33 34 35 36 37 38 39 40 41 42 43 44 45 46 47 48 49 50 51 52 53 54 55 56 57 58 59 60 61 62 63
65 | 3 | cd | 3
65 | 3 | bb | none
66 | 3 | ab | 0 1? 2 4 5 6 7 8 9 10 11 12 13 14 15 16 17 18 19 20 21 22 23 24 25 26 27 28 29 30 31 32 33 34 35 36 37 38 39 40 41 42 43 44 45 46 47 48 49 50 51 52 53 54 55 56 57 58 59 60 61 62 63 64? 65
66 | 3 | b | 0 2 4 5 6 7 8 9 10 11 12 13 14 15 16 17 18 19 20 21 22 23 24 25 26 27 28 29 30 31 32 33 34 35 36 37 38 39 40 41 42 43 44 45 46 47 48 49 50 51 52 53 54 55 56 57 58 59 60 61 62 63 65
66 | 3 | cd | 3
66 | 3 | bb | none
64 | 63 | cd | 63
65 | 64 | cd | 64
66 | 64 | cd | 64
66 | 65 | cd | 65";

#[test]
fn places_of_a_name(rt: HostRuntime) -> Result<(), Fail> {
    expect_rows(rt.alloc(), PLACES, places)
}

fn knows_nothing(alloc: Global, table: &PatternTable) -> Result<bool, AllocError> {
    let found = (
        table.known(0, 0),
        table.is_matched("b", 0),
        table.is_unfinished("b", 0),
    );
    let indices = table.indices(alloc, "b")?;
    Ok(found == (None, false, false) && indices.is_empty())
}

#[test]
fn nothing_is_known_without_names(rt: HostRuntime) -> Result<(), Fail> {
    let table = PatternTable::none(rt.alloc());
    let is_so = knows_nothing(rt.alloc(), &table);
    drop(table);
    if is_so? {
        Ok(())
    } else {
        Err(Fail::new("something is known"))
    }
}
