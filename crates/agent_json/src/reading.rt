//! Reading of requests.

ghost use Rattle.std.specs.Prelude.{◌≡◌, IfOk};
ghost use Rattle.agent_json.specs.Requests.{agent_asked_of, is_text, data_or_neither, agent_request, agent_request_with, agent_request_of};

use crate::request::{AgentAsked, AgentRequest};
use json::Reader;
use sender_json::{
    Body, Element, ElementError, Gatherer, Listing, gather_body, read_agent_element,
};
use std::alloc::Global;
use zbx_types::{Many, OutOfMemory, Text};

impl Element for AgentAsked {
    ghost of = { agent_asked_of };

    #[tactic(auto, unfolding(crate::specs::Requests::agent_asked_of))]
    fn read(
        alloc: Global,
        reader: &mut Reader<'_>,
        depth: usize,
    ) -> Result<AgentAsked, ElementError> {
        let (asked, unsupported) = read_agent_element(alloc, reader, depth)?;
        Ok(AgentAsked { asked, unsupported })
    }
}

fn is_text(wanted: &[u8], text: &Option<Text>) -> bool
    ensures { result ≡ is_text wanted.now text.now }
{
    match text {
        Some(text) => text.as_bytes() == wanted,
        None => false,
    }
}

fn data_or_neither<T: Drop>(elements: Option<T>) -> AgentRequest<T>
    ensures { result ≡ data_or_neither elements }
{
    match elements {
        Some(all) => AgentRequest::Data(all),
        None => AgentRequest::Neither,
    }
}

/// The request that a body makes.
#[tactic(auto, unfolding(crate::specs::Requests::agent_request))]
fn agent_request<T: Drop>(body: Body<T>) -> AgentRequest<T>
    ensures { result ≡ agent_request body }
{
    let Body {
        request,
        host,
        elements,
    } = body;
    if is_text(b"active checks", &request) {
        AgentRequest::Checks { host }
    } else if is_text(b"agent data", &request) {
        data_or_neither(elements)
    } else {
        AgentRequest::Neither
    }
}

/// The request of an agent that a body is, by `agent_request_of`, with what is gathered of the elements of its data. It
/// takes time in proportion to the body, and memory for a body's length and for what is gathered.
///
/// # Errors
///
/// `OutOfMemory` where memory was refused, whatever the body is.
#[tactic(auto, unfolding(crate::specs::Requests::agent_request_of), using(crate::proofs::Gathering::some_read, crate::proofs::Gathering::none_read))]
pub fn gather<G: Gatherer<AgentAsked>>(
    alloc: Global,
    gatherer: &G,
    body: &[u8],
) -> Result<AgentRequest<G::Gathered>, OutOfMemory>
    ensures { IfOk result (λ r. r ≡ agent_request_with (G.of gatherer.now) (agent_request_of body.now)) }
{
    match gather_body::<AgentAsked, G>(alloc, gatherer, body)? {
        Some(found) => Ok(agent_request(found)),
        None => Ok(AgentRequest::Neither),
    }
}

/// The request of an agent that a body is, by `agent_request_of`. It takes time in proportion to the body, and memory
/// for a body's length and for its asked values.
///
/// # Errors
///
/// `OutOfMemory` where memory was refused, whatever the body is.
#[tactic(auto, using(crate::proofs::Gathering::listed))]
pub fn read(alloc: Global, body: &[u8]) -> Result<AgentRequest<Many<AgentAsked>>, OutOfMemory>
    ensures { IfOk result (λ r. r ≡ agent_request_of body.now) }
{
    gather(alloc, &Listing, body)
}
