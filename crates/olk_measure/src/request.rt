//! What is asked, and how often.
ghost use Rattle.std.specs.Prelude.{◌≡◌, option_map};
ghost use Rattle.serde_json.specs.View.{view};
ghost use Rattle.olk_measure.specs.Requests.{ask_of, asked, seen};

use serde_json::Value;

/// What is asked of a schema and an instance.
#[derive(Clone, Copy, PartialEq, Eq, Drop)]
pub enum Ask {
    /// Whether the schema accepts the instance.
    Valid,
    /// One error of the instance.
    First,
    /// Every error of the instance.
    Errors,
    /// What the schema shows of the instance.
    Evaluate,
    /// The validator of the schema.
    Build,
}

/// A question, and how often it is asked.
#[derive(Clone, Copy)]
pub struct Request<'v> {
    pub ask: Ask,
    pub times: u64,
    pub schema: &'v Value,
    pub instance: &'v Value,
}

fn read_ask(word: &str) -> Option<Ask>
    ensures { result ≡ ask_of word.now }
{
    match word {
        "valid" => Some(Ask::Valid),
        "first" => Some(Ask::First),
        "errors" => Some(Ask::Errors),
        "evaluate" => Some(Ask::Evaluate),
        "build" => Some(Ask::Build),
        _ => None,
    }
}

/// The request that a value is, if it has the members of one.
pub fn read_request(value: &Value) -> Option<Request<'_>>
    ensures { option_map seen result ≡ asked (view value.now) }
{
    let ask = read_ask(value.get("ask")?.as_str()?)?;
    let times = value.get("times")?.as_u64()?;
    let schema = value.get("schema")?;
    let instance = value.get("instance")?;
    Some(Request {
        ask,
        times,
        schema,
        instance,
    })
}
