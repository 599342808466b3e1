//! The whole document.

ghost use Rattle.std.specs.Prelude.{◌≤ℤ◌, pos, negsuc, IfOk};
ghost use Rattle.serde_json.specs.View.{view};
ghost use Rattle.json_form.specs.Faults.{Gives};
ghost use Rattle.json_form.specs.Places.{place_of, object_of};
ghost use Rattle.config_read.specs.Document.{offset_of, globals_of, handling_of, document_of, conf_of};

use crate::actions::actions;
use crate::hosts::{hosts, macros};
use crate::maintenances::maintenances;
use crate::raw::{RawConf, RawMacro};
use crate::rules::correlations;
use json_form::{At, Object, ReadError, parse};
use serde_json::Value;
use std::alloc::Global;
use zbx_types::{Action, LONGEST_TEXT, Maintenance, Many, Rule};

/// Local time less UTC, in seconds.
#[tactic(auto, unfolding(crate::specs::Document::offset_of))]
fn offset(alloc: Global, at: &At<'_, '_>) -> Result<i32, ReadError>
    ensures gives { Gives result (offset_of (place_of at.now)) }
    ensures within { IfOk result (λ z. (negsuc 50399 ≤ℤ z) × (z ≤ℤ pos 50400)) }
{
    let seconds = at.whole_or(alloc, 0, -50_400, 50_400)?;
    Ok(seconds as i32)
}

/// The members that are of no host.
#[tactic(auto, unfolding(crate::specs::Document::globals_of))]
fn globals(alloc: Global, object: &Object<'_, '_>) -> Result<(i32, Many<RawMacro>), ReadError>
    ensures { Gives result (globals_of (object_of object.now)) }
{
    let offset = offset(alloc, &object.member("utc_offset"))?;
    let macros = macros(alloc, &object.member("macros"))?;
    Ok((offset, macros))
}

/// What is done about problems.
type Handling = (Many<Rule>, Many<Maintenance>, Many<Action>);

#[tactic(auto, unfolding(crate::specs::Document::handling_of))]
fn handling(alloc: Global, object: &Object<'_, '_>) -> Result<Handling, ReadError>
    ensures { Gives result (handling_of (object_of object.now)) }
{
    let correlations = correlations(alloc, object)?;
    let maintenances = maintenances(alloc, object)?;
    let actions = actions(alloc, object)?;
    Ok((correlations, maintenances, actions))
}

#[tactic(auto, unfolding(crate::specs::Document::document_of))]
fn document(alloc: Global, value: &Value) -> Result<RawConf, ReadError>
    ensures { Gives result (document_of (view value.now)) }
{
    let object = Object::at(alloc, "", value)?;
    let (utc_offset, macros) = globals(alloc, &object)?;
    let (templates, hosts) = hosts(alloc, &object)?;
    let (correlations, maintenances, actions) = handling(alloc, &object)?;
    Ok(RawConf {
        utc_offset,
        macros,
        templates,
        hosts,
        correlations,
        maintenances,
        actions,
    })
}

/// The configuration that a document has. It is refused for its first fault: at the empty pointer TooLong where it has
/// more than 16,777,216 bytes, or NotJson where `serde_json` reads no JSON in it; at a member BadMember where it is
/// missing, of another kind or outside its values, Duplicate where a name stands twice, and TooMany where a list is too
/// long. This project's own.
pub fn read(alloc: Global, text: &[u8]) -> Result<RawConf, ReadError>
    ensures { Gives result (conf_of text.now) }
{
    let value = parse(alloc, text, LONGEST_TEXT)?;
    document(alloc, &value)
}
