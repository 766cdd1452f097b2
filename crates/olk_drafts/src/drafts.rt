//! The drafts of JSON Schema, and how `$schema` names them.
ghost use Rattle.std.specs.Prelude.{◌≡◌, option_map};
ghost use Rattle.serde_json.specs.View.{view};
ghost use Rattle.olk_drafts.specs.Drafts.{behind, without_end, path_at_host, path_named, draft_named, draft_of, is_up_to_7, is_up_to_2019};

use serde_json::Value;

/// A draft of JSON Schema.
#[derive(Clone, Copy, Debug, PartialEq, Eq, Drop)]
pub enum Draft {
    Draft4,
    Draft6,
    Draft7,
    Draft201909,
    Draft202012,
}

impl Draft {
    /// The draft whose meta-schema a text names: by `http` or `https`, with or without `#` at the
    /// end. `http://json-schema.org/schema` names the latest.
    pub fn named(text: &str) -> Option<Draft>
        ensures { result ≡ draft_named text.now }
    {
        match path_named(text)? {
            "draft-04/schema" => Some(Draft::Draft4),
            "draft-06/schema" => Some(Draft::Draft6),
            "draft-07/schema" => Some(Draft::Draft7),
            "draft/2019-09/schema" => Some(Draft::Draft201909),
            "draft/2020-12/schema" | "schema" => Some(Draft::Draft202012),
            _ => None,
        }
    }

    /// The draft that `$schema` of a schema names: 2020-12 where it isn't there or is no text, and
    /// none where it names no draft that is known (JSON Schema 2020-12 Core, 8.1.1).
    pub fn of(schema: &Value) -> Option<Draft>
        ensures { result ≡ draft_of (view schema.now) }
    {
        match schema.get("$schema") {
            Some(Value::String(text)) => Draft::named(text.as_str()),
            _ => Some(Draft::Draft202012),
        }
    }

    pub(crate) fn is_up_to_7(self) -> bool
        ensures { result ≡ is_up_to_7 self }
    {
        match self {
            Draft::Draft4 | Draft::Draft6 | Draft::Draft7 => true,
            Draft::Draft201909 | Draft::Draft202012 => false,
        }
    }

    pub(crate) fn is_up_to_2019(self) -> bool
        ensures { result ≡ is_up_to_2019 self }
    {
        match self {
            Draft::Draft202012 => false,
            _ => true,
        }
    }
}

/// The path at `json-schema.org` that a text names.
fn path_named(text: &str) -> Option<&str>
    ensures { option_map (λ t. t.now) result ≡ path_named text.now }
{
    path_at_host(without_end(text, "#"))
}

fn path_at_host(address: &str) -> Option<&str>
    ensures { option_map (λ t. t.now) result ≡ path_at_host address.now }
{
    match behind(address, "http://json-schema.org/") {
        Some(path) => Some(path),
        None => behind(address, "https://json-schema.org/"),
    }
}

/// What stands behind this beginning of a text.
fn behind<'t>(text: &'t str, start: &str) -> Option<&'t str>
    ensures { option_map (λ t. t.now) result ≡ behind start.now text.now }
{
    text.strip_prefix(start)
}

/// The text without this end, if it has it.
fn without_end<'t>(text: &'t str, end: &str) -> &'t str
    ensures { result.now ≡ without_end end.now text.now }
{
    text.strip_suffix(end).unwrap_or(text)
}
