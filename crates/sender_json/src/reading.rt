//! Reading of requests.

ghost use Rattle.std.specs.Prelude.{◌≡◌, ◌<◌, ◌≤◌, length, Some, None, IfOk, IfErr, OnOk};
ghost use Rattle.std.specs.Prelude.{option_map, option_and_then};
ghost use Rattle.serde_json.specs.Data.{Data, Items, Members, object, put};
ghost use Rattle.serde_json.specs.Find.{as_array};
ghost use Rattle.serde_json.specs.Read.{read as read_json};
ghost use Rattle.json_form.specs.Json.{json_of};
ghost use Rattle.sender_json.specs.Requests.{gathered_by, body_of, body_by, is_sender_data, values_or_other, request_made, request_with, request_of};
ghost use Rattle.sender_json.specs.Seen.{HoldsTop};
ghost use Rattle.sender_json.specs.Tokens.{value_first, items_first, members_first};
ghost use Rattle.sender_json.specs.declared.failed.ElementError.TheVariants.{NotJson};

use crate::asked::Asked;
use crate::body::Body;
use crate::element::{Element, keep};
use crate::failed::ElementError;
use crate::gatherer::{Gatherer, Listing};
use crate::parts::copied;
use crate::passing::{pass, pass_rest};
use crate::request::Request;
use crate::seen::Seen;
use json::{Reader, Scratch, Token};
use std::alloc::Global;
use std::convert::AsStr;
use zbx_types::{Many, OutOfMemory, Text};

/// The arrays and objects that a body may nest, as in `serde_json`.
const MOST_DEPTH: usize = 127;

/// What is kept of a body's members: of members with one name the last.
#[derive(Drop)]
pub(crate) struct Top<'a, T> {
    pub(crate) request: Option<Seen<'a>>,
    pub(crate) host: Option<Seen<'a>>,
    /// What is gathered of the elements of `data`, where it is an array.
    pub(crate) elements: Option<T>,
}

/// What is gathered of the elements up to the end of their array.
fn read_items<E: Element, G: Gatherer<E>>(
    alloc: Global,
    gatherer: &G,
    reader: &mut Reader<'_>,
    depth: usize,
) -> Result<G::Gathered, ElementError>
    ensures ok { IfOk result (λ found. (ds : Items) × (items_first depth reader.old ≡ Some (ds, reader.new))
        × (found ≡ gathered_by (G.of gatherer.now) E.of ds)) }
    ensures shorter { OnOk result (length reader.new ≤ length reader.old) }
    ensures err { IfErr result (λ e. e ≡ NotJson → items_first depth reader.old ≡ None) }
{
    let mut found = gatherer.none(alloc);
    'items: while !reader.take_end_array() {
        let element = E::read(alloc, reader, depth)?;
        gatherer.add(&mut found, element)?;
    }
    Ok(found)
}

/// What is gathered of the elements of the value that comes first, where it is an array.
fn read_data<E: Element, G: Gatherer<E>>(
    alloc: Global,
    gatherer: &G,
    reader: &mut Reader<'_>,
    depth: usize,
) -> Result<Option<G::Gathered>, ElementError>
    ensures ok { IfOk result (λ found. (d : Data) × (value_first depth reader.old ≡ Some (d, reader.new))
        × (found ≡ option_map (gathered_by (G.of gatherer.now) E.of) (as_array d))) }
    ensures shorter { OnOk result (length reader.new < length reader.old) }
    ensures err { IfErr result (λ e. e ≡ NotJson → value_first depth reader.old ≡ None) }
{
    let token = reader.next().ok_or(ElementError::NotJson)?;
    match token {
        Token::BeginArray => {
            if depth == 0 {
                return Err(ElementError::NotJson);
            }
            Ok(Some(read_items::<E, G>(alloc, gatherer, reader, depth - 1)?))
        }
        token => {
            pass_rest(token, reader, depth)?;
            Ok(None)
        }
    }
}

/// What is kept of a body behind a member with this name, whose value comes first. A later `data` takes the place of an
/// earlier one, which is given up before it is read.
fn with_member<'a, E: Element, G: Gatherer<E>>(
    alloc: Global,
    gatherer: &G,
    top: Top<'a, G::Gathered>,
    name: &str,
    reader: &mut Reader<'a>,
    depth: usize,
) -> Result<Top<'a, G::Gathered>, ElementError>
    ensures ok { IfOk result (λ more. (d : Data) × (value_first depth reader.old ≡ Some (d, reader.new))
        × ((found : Members) → HoldsTop (gathered_by (G.of gatherer.now) E.of) top.entry (object found)
        → HoldsTop (gathered_by (G.of gatherer.now) E.of) more (object (put name.now d found)))) }
    ensures shorter { OnOk result (length reader.new < length reader.old) }
    ensures err { IfErr result (λ e. e ≡ NotJson → value_first depth reader.old ≡ None) }
{
    let Top {
        request,
        host,
        elements,
    } = top;
    if name == "data" {
        drop(elements);
        let elements = read_data::<E, G>(alloc, gatherer, reader, depth)?;
        return Ok(Top {
            request,
            host,
            elements,
        });
    }
    let seen = pass(reader, depth)?;
    Ok(Top {
        request: keep("request", name, seen, request),
        host: keep("host", name, seen, host),
        elements,
    })
}

/// What is kept of a body's members, up to the end of their object.
fn read_members<'a, E: Element, G: Gatherer<E>>(
    alloc: Global,
    gatherer: &G,
    reader: &mut Reader<'a>,
    depth: usize,
) -> Result<Top<'a, G::Gathered>, ElementError>
    ensures ok { IfOk result (λ top. (ms : Members) × (members_first depth reader.old ≡ Some (ms, reader.new))
        × HoldsTop (gathered_by (G.of gatherer.now) E.of) top (object ms)) }
    ensures shorter { OnOk result (length reader.new ≤ length reader.old) }
    ensures err { IfErr result (λ e. e ≡ NotJson → members_first depth reader.old ≡ None) }
{
    let mut top = Top {
        request: None,
        host: None,
        elements: None,
    };
    'members: while let Some(name) = reader.next_key()? {
        top = with_member::<E, G>(alloc, gatherer, top, name, reader, depth)?;
    }
    Ok(top)
}

/// What is read of a body, by what was kept of its members.
fn body_of<T: Drop>(alloc: Global, top: Top<'_, T>) -> Result<Body<T>, OutOfMemory>
    ensures { IfOk result (λ body. (of : Items → T) → (d : Data) → HoldsTop of top.entry d → body ≡ body_by of d) }
{
    let request = copied(alloc, top.request)?;
    let host = copied(alloc, top.host)?;
    Ok(Body {
        request,
        host,
        elements: top.elements,
    })
}

/// What is read of the value that comes first.
fn read_value<E: Element, G: Gatherer<E>>(
    alloc: Global,
    gatherer: &G,
    reader: &mut Reader<'_>,
    depth: usize,
) -> Result<Body<G::Gathered>, ElementError>
    ensures ok { IfOk result (λ body. (d : Data) × (value_first depth reader.old ≡ Some (d, reader.new))
        × (body ≡ body_by (gathered_by (G.of gatherer.now) E.of) d)) }
    ensures err { IfErr result (λ e. e ≡ NotJson → value_first depth reader.old ≡ None) }
{
    let token = reader.next().ok_or(ElementError::NotJson)?;
    match token {
        Token::BeginObject => {
            if depth == 0 {
                return Err(ElementError::NotJson);
            }
            let top = read_members::<E, G>(alloc, gatherer, reader, depth - 1)?;
            Ok(body_of(alloc, top)?)
        }
        token => {
            pass_rest(token, reader, depth)?;
            Ok(Body {
                request: None,
                host: None,
                elements: None,
            })
        }
    }
}

/// What is read of a text, if it is JSON.
fn read_text<E: Element, G: Gatherer<E>>(
    alloc: Global,
    gatherer: &G,
    text: &str,
) -> Result<Body<G::Gathered>, ElementError>
    ensures ok { IfOk result (λ body. option_map (body_by (gathered_by (G.of gatherer.now) E.of)) (read_json text.now)
        ≡ Some body) }
    ensures err { IfErr result (λ e. e ≡ NotJson → read_json text.now ≡ None) }
{
    let mut scratch = Scratch::new(alloc);
    let mut reader = Reader::new(text, &mut scratch)?;
    let body = read_value::<E, G>(alloc, gatherer, &mut reader, MOST_DEPTH)?;
    match reader.next() {
        Some(_) => Err(ElementError::NotJson),
        None => Ok(body),
    }
}

/// What is read of a body, and what is gathered of its elements, none where it isn't JSON by the reading of `serde_json`.
/// It takes time in proportion to the body, and memory for a body's length and for what is gathered. Of members `data`
/// the last counts: what was gathered of an earlier one is let go before.
///
/// # Errors
///
/// `OutOfMemory` where memory was refused, whatever the body is.
#[tactic(auto, using(json_form::proofs::Bytes::not_json))]
pub fn gather_body<E: Element, G: Gatherer<E>>(
    alloc: Global,
    gatherer: &G,
    body: &[u8],
) -> Result<Option<Body<G::Gathered>>, OutOfMemory>
    ensures { IfOk result (λ found. found
        ≡ option_map (body_by (gathered_by (G.of gatherer.now) E.of)) (json_of body.now)) }
{
    let Ok(text) = str::from_utf8(body) else {
        return Ok(None);
    };
    match read_text::<E, G>(alloc, gatherer, text) {
        Ok(body) => Ok(Some(body)),
        Err(ElementError::NotJson) => Ok(None),
        Err(ElementError::OutOfMemory) => Err(OutOfMemory),
    }
}

/// What is read of a body, with a list of what is kept of its elements, as [`gather_body`] reads one.
///
/// # Errors
///
/// `OutOfMemory` where memory was refused, whatever the body is.
pub fn read_body<E: Element>(
    alloc: Global,
    body: &[u8],
) -> Result<Option<Body<Many<E>>>, OutOfMemory>
    ensures { IfOk result (λ found. found ≡ option_map (body_of E.of) (json_of body.now)) }
{
    gather_body::<E, Listing>(alloc, &Listing, body)
}

fn is_sender_data(request: &Option<Text>) -> bool
    ensures { result ≡ is_sender_data request.now }
{
    match request {
        Some(name) => name.as_str() == "sender data",
        None => false,
    }
}

fn values_or_other<T: Drop>(elements: Option<T>) -> Request<T>
    ensures { result ≡ values_or_other elements }
{
    match elements {
        Some(all) => Request::Values(all),
        None => Request::Other,
    }
}

/// The request that is made of what was read of a body.
fn request_made<T: Drop>(body: Body<T>) -> Request<T>
    ensures { result ≡ request_made body }
{
    let Body {
        request,
        elements,
        ..
    } = body;
    if is_sender_data(&request) {
        values_or_other(elements)
    } else {
        Request::Other
    }
}

/// The request that a body is, by `request_of`, with what is gathered of its asked values. It takes time in proportion
/// to the body, and memory for a body's length and for what is gathered.
///
/// # Errors
///
/// `OutOfMemory` where memory was refused, whatever the body is.
#[tactic(auto, unfolding(crate::specs::Requests::request_of), using(crate::proofs::RequestLaws::some_read, crate::proofs::RequestLaws::none_read))]
pub fn gather<G: Gatherer<Asked>>(
    alloc: Global,
    gatherer: &G,
    body: &[u8],
) -> Result<Request<G::Gathered>, OutOfMemory>
    ensures { IfOk result (λ r. r ≡ request_with (G.of gatherer.now) (request_of body.now)) }
{
    match gather_body::<Asked, G>(alloc, gatherer, body)? {
        Some(found) => Ok(request_made(found)),
        None => Ok(Request::NotJson),
    }
}

/// The request that a body is, by `request_of`, with a list of its asked values. It takes time in proportion to the
/// body, and memory for a body's length and for the asked values.
///
/// # Errors
///
/// `OutOfMemory` where memory was refused, whatever the body is.
#[tactic(auto, using(crate::proofs::RequestLaws::listed))]
pub fn read(alloc: Global, body: &[u8]) -> Result<Request<Many<Asked>>, OutOfMemory>
    ensures { IfOk result (λ r. r ≡ request_of body.now) }
{
    gather(alloc, &Listing, body)
}
