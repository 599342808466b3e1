//! What an agent is told that asks which items it is to bring.

ghost use Rattle.std.specs.Prelude.{◌≡◌, IfOk};
ghost use Rattle.agent_json.specs.Checks.{checks_text, framed_within};
ghost use Rattle.intake_front.specs.Telling.{or_too_many, told_host, told};

use crate::taking::{asked_host, is_enabled_host};
use agent_json::{ChecksRefusal, checks, refusal};
use conf_index::Ready;
use std::alloc::Global;
use zbx_types::{Bytes, Conf, OutOfMemory, Text, by_id};

/// The items of a host, in a frame, or that they are too many for one.
fn told_items(alloc: Global, conf: &Conf, host: u32) -> Result<Bytes, OutOfMemory>
    ensures { IfOk result (λ bytes. bytes ≡ or_too_many (framed_within (checks_text conf.now host))) }
{
    match checks(alloc, conf, host)? {
        Some(bytes) => Ok(bytes),
        None => refusal(alloc, ChecksRefusal::TooManyItems),
    }
}

/// What the agent of a host is told, where there is such a host and it is monitored.
#[tactic(auto, unfolding(crate::specs::Telling::told_host))]
fn told_host(alloc: Global, conf: &Conf, host: Option<u32>) -> Result<Bytes, OutOfMemory>
    ensures { IfOk result (λ bytes. bytes ≡ told_host conf.now host) }
{
    let Some(host) = host else {
        return refusal(alloc, ChecksRefusal::UnknownHost);
    };
    if !is_enabled_host(by_id(conf.hosts.as_slice(), host)) {
        return refusal(alloc, ChecksRefusal::NotMonitored);
    }
    told_items(alloc, conf, host)
}

/// What an agent is told that gives the name of its host.
#[tactic(auto, unfolding(crate::specs::Telling::told))]
pub(crate) fn told(alloc: Global, ready: &Ready, name: &Option<Text>) -> Result<Bytes, OutOfMemory>
    ensures { IfOk result (λ bytes. bytes ≡ told ready.now.conf name.now) }
{
    told_host(alloc, ready.conf(), asked_host(ready, name))
}
