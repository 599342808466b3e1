//! What a body asks.

ghost use Rattle.std.specs.Prelude.{◌≡◌, IfOk};
ghost use Rattle.intake_front.specs.Asking.{agent_ask, ask_of, taken_ask};

use crate::gathering::{Taken, Taking};
use agent_json::AgentRequest;
use sender_json::{Refusal, Request};
use std::alloc::Global;
use zbx_types::{OutOfMemory, Text};

/// What a body asks, where `V` is gathered of the values of a sender, and `D` of those of an agent.
#[derive(Drop)]
pub(crate) enum Ask<V, D> {
    /// Nothing that is answered: the reply says why.
    Refused(Refusal),
    /// That the values of a sender are taken.
    Values(V),
    /// Which items the agent of a host is to bring.
    Checks {
        /// The host's name, where it is a text.
        host: Option<Text>,
    },
    /// That the values of an agent are taken.
    Data(D),
}

fn agent_ask<V: Drop, D: Drop>(request: AgentRequest<D>) -> Ask<V, D>
    ensures { result ≡ agent_ask request }
{
    match request {
        AgentRequest::Neither => Ask::Refused(Refusal::Unsupported),
        AgentRequest::Checks { host } => Ask::Checks { host },
        AgentRequest::Data(all) => Ask::Data(all),
    }
}

/// What a body asks, with what is taken of the values that it brings: each is taken as soon as it is read, and none is
/// held but as an entry. A body that is no request of a sender is read once more, as one of an agent.
#[tactic(auto, unfolding(crate::specs::Asking::ask_of), using(crate::proofs::Gathered::asks_not_json, crate::proofs::Gathered::asks_values, crate::proofs::Gathered::asks_other))]
pub(crate) fn asked(
    alloc: Global,
    by: &Taking<'_>,
    body: &[u8],
) -> Result<Ask<Taken, Taken>, OutOfMemory>
    ensures { IfOk result (λ ask. ask ≡ taken_ask by.now.conf by.now.moment (ask_of body.now)) }
{
    match sender_json::gather(alloc, by, body)? {
        Request::NotJson => Ok(Ask::Refused(Refusal::NotJson)),
        Request::Values(taken) => Ok(Ask::Values(taken)),
        Request::Other => Ok(agent_ask(agent_json::gather(alloc, by, body)?)),
    }
}
