//! Requests of agents.

use sender_json::Asked;
use zbx_types::Text;

/// An element of agent data.
#[derive(Debug, Drop)]
pub struct AgentAsked {
    /// The asked value.
    pub asked: Asked,
    /// Whether its `state` is the number 1: the agent doesn't support the item.
    pub unsupported: bool,
}

/// What the data of a frame asks as a request of an agent, where `T` is gathered of the elements of agent data.
#[derive(Debug, Drop)]
pub enum AgentRequest<T> {
    /// No request of an agent: bytes that aren't JSON, or JSON of another form.
    Neither,
    /// Which items the agent of a host is to bring.
    Checks {
        /// The host's name, where it is a text.
        host: Option<Text>,
    },
    /// What is gathered of the elements of `data`, in order.
    Data(T),
}
