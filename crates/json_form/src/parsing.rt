//! From a text to its JSON value.

ghost use Rattle.serde_json.specs.View.{view};
ghost use Rattle.json_form.specs.Faults.{GivesAs};
ghost use Rattle.json_form.specs.Places.{IsRefusal, nowhere};
ghost use Rattle.json_form.specs.Json.{json_within, or_not_json, json_of};

use crate::fault::ReadError;
use crate::places::At;
use serde_json::Value;
use std::alloc::Global;
use zbx_types::Cause;

/// The refusal of the whole text.
fn refusal(alloc: Global, cause: Cause) -> ReadError
    ensures { IsRefusal nowhere cause result }
{
    At {
        path: "",
        name: None,
        value: None,
    }
    .refused(alloc, cause)
}

#[tactic(auto, using(crate::proofs::Bytes::is_json, crate::proofs::Bytes::not_json))]
fn value_of(alloc: Global, text: &[u8]) -> Result<Value, ReadError>
    ensures { GivesAs view result (or_not_json (json_of text.now)) }
{
    match Value::from_slice(alloc, text) {
        Ok(value) => Ok(value),
        Err(e) if e.is_memory() => Err(ReadError::OutOfMemory),
        Err(_) => Err(refusal(alloc, Cause::NotJson)),
    }
}

/// The JSON value of a text, as `serde_json` reads it. At the empty pointer it is refused as TooLong where it has more
/// bytes than `most`, and else as NotJson where it isn't UTF-8 or no JSON.
#[tactic(auto, unfolding(crate::specs::Json::json_within))]
pub fn parse(alloc: Global, text: &[u8], most: usize) -> Result<Value, ReadError>
    ensures { GivesAs view result (json_within most text.now) }
{
    if text.len() > most {
        return Err(refusal(alloc, Cause::TooLong));
    }
    value_of(alloc, text)
}
