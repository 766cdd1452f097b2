//! The request that a value is.
ghost use Rattle.std.specs.Prelude.{◌≡◌, not, ◌||◌, option_map};
ghost use Rattle.serde_json.specs.Written.{has_float};
ghost use Rattle.serde_json.specs.View.{view, members_view};
ghost use Rattle.olk_cli.specs.Requests.{ask_of, is_request_name, has_only_request_names, asked};
ghost use Rattle.olk_cli.specs.Seen.{seen};

use object_logic::holds_whole_numbers;
use serde_json::{Map, Value};

/// What is asked of a schema and an instance.
#[derive(Clone, Copy, PartialEq, Eq, Drop)]
pub enum Ask {
    /// Whether the schema accepts the instance.
    Valid,
    /// One error of the instance.
    First,
    /// Every error of the instance.
    Errors,
    /// What the schema shows of the instance.
    Evaluate,
}

/// What a line asks.
#[derive(Clone, Copy)]
pub struct Request<'v> {
    pub ask: Ask,
    pub schema: &'v Value,
    pub instance: &'v Value,
    /// The answer for matches that are left unfinished.
    pub unfinished: bool,
}

fn read_ask(word: &str) -> Option<Ask>
    ensures { result ≡ ask_of word.now }
{
    match word {
        "valid" => Some(Ask::Valid),
        "first" => Some(Ask::First),
        "errors" => Some(Ask::Errors),
        "evaluate" => Some(Ask::Evaluate),
        _ => None,
    }
}

fn names_request_member(name: &str) -> bool
    ensures { result ≡ is_request_name name.now }
{
    matches!(name, "ask" | "schema" | "instance" | "unfinished")
}

fn names_request_members(members: &Map<String, Value>) -> bool
    ensures { result ≡ has_only_request_names (members_view members.now.entries) }
{
    for (name, _) in members.iter() {
        if !names_request_member(name.as_str()) {
            return false;
        }
    }
    true
}

/// The request that a value is, if it has the members of one and no other.
pub fn read_request(value: &Value) -> Option<Request<'_>>
    ensures { option_map seen result ≡ asked (view value.now) }
{
    if !names_request_members(value.as_object()?) {
        return None;
    }
    let ask = read_ask(value.get("ask")?.as_str()?)?;
    let schema = value.get("schema")?;
    let instance = value.get("instance")?;
    let unfinished = match value.get("unfinished") {
        Some(unfinished) => unfinished.as_bool()?,
        None => false,
    };
    Some(Request {
        ask,
        schema,
        instance,
        unfinished,
    })
}

impl Request<'_> {
    /// Whether the numbers of the schema and of the instance are whole numbers of 64 bits.
    pub fn holds_whole_numbers(&self) -> bool
        ensures { result
            ≡ not (has_float (seen self.now).schema || has_float (seen self.now).instance) }
    {
        holds_whole_numbers(self.schema) && holds_whole_numbers(self.instance)
    }
}
