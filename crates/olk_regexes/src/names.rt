//! Reading the name of a category.
ghost use Rattle.std.specs.Prelude.{◌≡◌};
ghost use Rattle.olk_regexes.specs.Escapes.{behind, name_end, category_in, value, category};
ghost use Rattle.olk_regexes.specs.Categories.{names};
ghost use Rattle.olk_regexes.specs.Seen.{seen, seen_category};

use crate::category::{Category, NAMES};

// What is behind the name, which is of ASCII, if the text begins with it.
fn behind<'a>(name: &str, text: &'a [char]) -> Option<&'a [char]>
    ensures { seen result ≡ behind name.now text.now }
{
    let mut left = name.as_bytes();
    let mut rest = text;
    while let [letter, letters @ ..] = left {
        match rest {
            [c, more @ ..] => {
                if *c as u32 != u32::from(*letter) {
                    return None;
                }
                rest = more;
            }
            [] => return None,
        }
        left = letters;
    }
    Some(rest)
}

// What is behind the closing brace of a name.
fn name_end(text: Option<&[char]>) -> Option<&[char]>
    ensures { seen result ≡ name_end (seen text.entry) }
{
    match text {
        Some(['}', rest @ ..]) => Some(rest),
        _ => None,
    }
}

fn read_name(text: &[char]) -> Option<(Category, &[char])>
    ensures { seen_category result ≡ category_in names text.now }
{
    let mut rows = NAMES.as_slice();
    while let [(name, category), others @ ..] = rows {
        if let Some(rest) = name_end(behind(name, text)) {
            return Some((*category, rest));
        }
        rows = others;
    }
    None
}

// A category's name, without the property's and the `=` before it.
fn value(text: &[char]) -> &[char]
    ensures { result.now ≡ value text.now }
{
    match text {
        ['g', 'c', '=', name @ ..] => name,
        _ => behind("General_Category=", text).unwrap_or(text),
    }
}

/// The category whose name stands in braces, and what is behind these.
pub fn read_category(text: &[char]) -> Option<(Category, &[char])>
    ensures { seen_category result ≡ category text.now }
{
    match text {
        ['{', name @ ..] => read_name(value(name)),
        _ => None,
    }
}
