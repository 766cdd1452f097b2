//! The answer to a line.
ghost use Rattle.std.specs.Prelude.{◌≡◌, false, IfOk, option_map};
ghost use Rattle.serde_json.specs.View.{view};
ghost use Rattle.olk_spec.specs.Bench.{bench};
ghost use Rattle.olk_base.specs.Kit.{kit, world};
ghost use Rattle.object_logic.specs.Validators.{IsValidatorOf};
ghost use Rattle.olk_replies.specs.Replies.{has_fraction};
ghost use Rattle.olk_cli.specs.Answers.{IsReply, IsReplyBy, IsAnswer};
ghost use Rattle.olk_cli.specs.Requests.{value_of, question};
ghost use Rattle.olk_cli.specs.Seen.{seen};

use crate::request::{Ask, Request, read_request};
use object_logic::{BuildError, Leaf, Meter, RegexEngine, Validator};
use olk_answers::{malformation_text, refusal_text};
use olk_bench::{BenchLeaves, BenchRegexes};
use olk_replies::{Question, tell_errors, tell_evaluation, tell_first, tell_verdict};
use serde_json::Value;
use std::alloc::{AllocError, Global};

/// The answer to a line, both without their line feeds. The only error is out of memory.
#[tactic(auto, unfolding(crate::specs::Answers::IsAnswer))]
pub fn answer_line(alloc: Global, line: &[u8]) -> Result<Vec<u8>, AllocError>
    ensures { IfOk result (λ answer. IsAnswer line.now answer.items) }
{
    let value = match read_value(alloc, line)? {
        Some(value) => value,
        None => return refusal_text(alloc, "not JSON"),
    };
    let Some(request) = read_request(&value) else {
        return refusal_text(alloc, "not a request");
    };
    if !request.holds_whole_numbers() {
        return refusal_text(alloc, "a number is not a whole number of 64 bits");
    }
    reply(alloc, &request)
}

/// The value that a line is the text of, if it is one.
fn read_value(alloc: Global, line: &[u8]) -> Result<Option<Value>, AllocError>
    ensures { IfOk result (λ value. option_map view value ≡ value_of line.now) }
{
    match Value::from_slice(alloc, line) {
        Ok(value) => Ok(Some(value)),
        Err(e) => {
            if e.is_memory() {
                return Err(AllocError);
            }
            Ok(None)
        }
    }
}

/// The answer to a request, whose numbers are whole numbers of 64 bits.
fn reply(alloc: Global, request: &Request<'_>) -> Result<Vec<u8>, AllocError>
    requires { has_fraction (question (seen request.now)) ≡ false }
    ensures { IfOk result (λ answer. IsReply (seen request.now) answer.items) }
{
    let mut meter = Meter::new();
    let built = Validator::build(
        alloc,
        &BenchLeaves,
        &BenchRegexes,
        request.schema,
        &mut meter,
    );
    match built {
        Ok(validator) => tell(alloc, request, &validator),
        Err(BuildError::Refused(error)) => malformation_text(alloc, &error),
        Err(BuildError::Memory(error)) => Err(error),
    }
}

/// The answer to what is asked of the validator of the request's schema.
fn tell<K: Leaf, R: RegexEngine>(
    alloc: Global,
    request: &Request<'_>,
    validator: &Validator<K, R>,
) -> Result<Vec<u8>, AllocError>
    requires plain { has_fraction (question (seen request.now)) ≡ false }
    requires bench { world K.Leaf R.RegexEngine ≡ bench }
    requires stands { IsValidatorOf (kit K.Leaf R.RegexEngine) validator.now
        (view request.now.schema.now) }
    ensures { IfOk result
        (λ answer. IsReplyBy request.now.ask (seen request.now) answer.items) }
{
    let question = Question {
        schema: request.schema,
        instance: request.instance,
        unfinished: request.unfinished,
    };
    match request.ask {
        Ask::Valid => tell_verdict(alloc, &question, validator),
        Ask::First => tell_first(alloc, &question, validator),
        Ask::Errors => tell_errors(alloc, &question, validator),
        Ask::Evaluate => tell_evaluation(alloc, &question, validator),
    }
}
