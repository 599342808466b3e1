//! Reading of elements.

ghost use Rattle.std.specs.Prelude.{◌≡◌, ◌<◌, ◌≤◌, length, Some, None, IfOk, IfErr, OnOk, OnErr};
ghost use Rattle.serde_json.specs.Data.{Data, Members, object, put};
ghost use Rattle.sender_json.specs.Requests.{asked_of, is_unsupported};
ghost use Rattle.sender_json.specs.Seen.{data_of, plain, Holds, HoldsParts};
ghost use Rattle.sender_json.specs.Tokens.{value_first, members_first};
ghost use Rattle.sender_json.specs.declared.failed.ElementError.TheVariants.{NotJson};

use crate::asked::Asked;
use crate::failed::ElementError;
use crate::parts::{asked_of, is_one};
use crate::passing::{pass, pass_rest};
use crate::seen::Seen;
use json::{Invalid, Reader, Token};
use std::alloc::Global;

/// What is kept of an element: of members with one name the last.
#[derive(Clone, Copy, Drop)]
pub(crate) struct Parts<'a> {
    pub(crate) host: Option<Seen<'a>>,
    pub(crate) key: Option<Seen<'a>>,
    pub(crate) value: Option<Seen<'a>>,
    pub(crate) clock: Option<Seen<'a>>,
    pub(crate) ns: Option<Seen<'a>>,
    pub(crate) state: Option<Seen<'a>>,
}

/// What is kept under the wanted name, behind a member with this name.
pub(crate) fn keep<'a>(
    wanted: &str,
    name: &str,
    seen: Seen<'a>,
    held: Option<Seen<'a>>,
) -> Option<Seen<'a>>
    ensures { (found : Members) (d : Data) → Holds wanted.now held.entry (object found)
        → data_of seen.entry ≡ plain d → Holds wanted.now result (object (put name.now d found)) }
{
    if name == wanted { Some(seen) } else { held }
}

fn no_parts<'a>() -> Parts<'a>
    ensures host { result.host ≡ None }
    ensures key { result.key ≡ None }
    ensures value { result.value ≡ None }
    ensures clock { result.clock ≡ None }
    ensures ns { result.ns ≡ None }
    ensures state { result.state ≡ None }
{
    Parts {
        host: None,
        key: None,
        value: None,
        clock: None,
        ns: None,
        state: None,
    }
}

/// What is kept of the members up to the end of their object.
fn read_members<'a>(reader: &mut Reader<'a>, depth: usize) -> Result<Parts<'a>, Invalid>
    ensures ok { IfOk result (λ parts. (ms : Members) × (members_first depth reader.old ≡ Some (ms, reader.new))
        × HoldsParts parts (object ms)) }
    ensures shorter { OnOk result (length reader.new ≤ length reader.old) }
    ensures err { OnErr result (members_first depth reader.old ≡ None) }
{
    let mut host = None;
    let mut key = None;
    let mut value = None;
    let mut clock = None;
    let mut ns = None;
    let mut state = None;
    'members: while let Some(name) = reader.next_key()? {
        let seen = pass(reader, depth)?;
        host = keep("host", name, seen, host);
        key = keep("key", name, seen, key);
        value = keep("value", name, seen, value);
        clock = keep("clock", name, seen, clock);
        ns = keep("ns", name, seen, ns);
        state = keep("state", name, seen, state);
    }
    Ok(Parts {
        host,
        key,
        value,
        clock,
        ns,
        state,
    })
}

/// What is kept of the element that comes first.
fn read_parts<'a>(reader: &mut Reader<'a>, depth: usize) -> Result<Parts<'a>, Invalid>
    ensures ok { IfOk result (λ parts. (d : Data) × (value_first depth reader.old ≡ Some (d, reader.new))
        × HoldsParts parts d) }
    ensures shorter { OnOk result (length reader.new < length reader.old) }
    ensures err { OnErr result (value_first depth reader.old ≡ None) }
{
    let token = reader.next().ok_or(Invalid)?;
    match token {
        Token::BeginObject => {
            if depth == 0 {
                return Err(Invalid);
            }
            read_members(reader, depth - 1)
        }
        token => {
            pass_rest(token, reader, depth)?;
            Ok(no_parts())
        }
    }
}

/// The asked value of the element that comes first in a reader of JSON, which may nest no deeper than `depth`. Of an
/// element nothing but its host, key, value and moment is kept, and of members with one name the last counts, as
/// `serde_json` reads a text.
///
/// # Errors
///
/// `NotJson` where no JSON value comes first, by the reading of `serde_json`; `OutOfMemory` where memory was refused.
/// After either the reader stands anywhere.
pub fn read_element(
    alloc: Global,
    reader: &mut Reader<'_>,
    depth: usize,
) -> Result<Asked, ElementError>
    ensures ok { IfOk result (λ asked. (d : Data) × (value_first depth reader.old ≡ Some (d, reader.new))
        × (asked ≡ asked_of d)) }
    ensures shorter { OnOk result (length reader.new < length reader.old) }
    ensures err { IfErr result (λ e. e ≡ NotJson → value_first depth reader.old ≡ None) }
{
    let parts = read_parts(reader, depth)?;
    Ok(asked_of(alloc, &parts)?)
}

/// The asked value of the element that comes first, and whether its `state` is the whole number 1, by which an agent
/// says that it doesn't support the item (the Zabbix 6.0 manual, section "Passive and active agent checks"). All else
/// is as in [`read_element`].
///
/// # Errors
///
/// As in [`read_element`].
pub fn read_agent_element(
    alloc: Global,
    reader: &mut Reader<'_>,
    depth: usize,
) -> Result<(Asked, bool), ElementError>
    ensures ok { IfOk result (λ found. (d : Data) × (value_first depth reader.old ≡ Some (d, reader.new))
        × (found.0 ≡ asked_of d) × (found.1 ≡ is_unsupported d)) }
    ensures shorter { OnOk result (length reader.new < length reader.old) }
    ensures err { IfErr result (λ e. e ≡ NotJson → value_first depth reader.old ≡ None) }
{
    let parts = read_parts(reader, depth)?;
    let asked = asked_of(alloc, &parts)?;
    Ok((asked, is_one(parts.state)))
}

/// What is kept of an element of a body's `data`.
pub trait Element: Drop {
    /// What it is of an element.
    ghost of: { Data → Self };

    /// What is kept of the element that comes first in a reader of JSON, which may nest no deeper than `depth`.
    ///
    /// # Errors
    ///
    /// As in [`read_element`].
    fn read(alloc: Global, reader: &mut Reader<'_>, depth: usize) -> Result<Self, ElementError>
        ensures ok { IfOk result (λ found. (d : Data) × (value_first depth reader.old ≡ Some (d, reader.new))
            × (found ≡ of d)) }
        ensures shorter { OnOk result (length reader.new < length reader.old) }
        ensures err { IfErr result (λ e. e ≡ NotJson → value_first depth reader.old ≡ None) };
}

impl Element for Asked {
    ghost of = { asked_of };

    fn read(alloc: Global, reader: &mut Reader<'_>, depth: usize) -> Result<Asked, ElementError> {
        read_element(alloc, reader, depth)
    }
}
