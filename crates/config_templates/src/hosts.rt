//! The hosts that maintenances and actions name.

ghost use Rattle.std.specs.Prelude.{◌≡◌, ◌++◌, None, is_some, position, IfOk, IfErr, OnOk, codes};
ghost use Rattle.std.specs.Fmt.{decimal};
ghost use Rattle.std.specs.Str.{bytes_eq};
ghost use Rattle.host_layout.specs.Answers.{Tells};
ghost use Rattle.host_layout.specs.Elements.{IsRefusal};
ghost use Rattle.config_templates.specs.NamedHosts.{unknown_host, maintenance_at, action_at, maintained, host_of, acted, all_maintained, all_acted, unknown_hosts};
ghost use Rattle.host_layout.specs.Owners.{KnowsHosts};
ghost use Rattle.host_layout.specs.Places.{first_fault};

use config_read::RawConf;
use host_layout::{FirstPlaces, FlatError};
use json_form::element;
use std::alloc::Global;
use std::convert::AsStr;
use zbx_types::{Action, ActionCond, Cause, Maintenance, OutOfMemory, Text};

/// The pointer to an element of a list of an element. The outer list is named with its `/`, and so is the inner one.
fn inner_pointer(
    alloc: Global,
    outer: &str,
    place: usize,
    inner: &str,
    at: usize,
) -> Result<Text, OutOfMemory>
    ensures { IfOk result (λ t. t ≡ ((outer.now ++ codes "/" ++ decimal place) ++ inner.now) ++ codes "/" ++ decimal at) }
{
    let mut list = element(alloc, outer, place)?;
    list.push_str(inner)?;
    element(alloc, list.as_str(), at)
}

/// The pointer to the host of a condition of an action.
fn condition_pointer(alloc: Global, place: usize, at: usize) -> Result<Text, OutOfMemory>
    ensures { IfOk result (λ t. t ≡ (((codes "/actions" ++ codes "/" ++ decimal place) ++ codes "/conditions") ++ codes "/" ++ decimal at) ++ codes "/host") }
{
    let mut path = inner_pointer(alloc, "/actions", place, "/conditions", at)?;
    path.push_str("/host")?;
    Ok(path)
}

/// The refusal of a host that a maintenance names.
fn refused_maintenance(alloc: Global, place: usize, at: usize) -> FlatError
    ensures { IsRefusal (((codes "/maintenances" ++ codes "/" ++ decimal place) ++ codes "/hosts") ++ codes "/" ++ decimal at) Cause.UnknownName result }
{
    match inner_pointer(alloc, "/maintenances", place, "/hosts", at) {
        Ok(path) => FlatError::Refused {
            path,
            cause: Cause::UnknownName,
        },
        Err(OutOfMemory) => FlatError::OutOfMemory,
    }
}

/// The refusal of a host that a condition of an action names.
fn refused_condition(alloc: Global, place: usize, at: usize) -> FlatError
    ensures { IsRefusal ((((codes "/actions" ++ codes "/" ++ decimal place) ++ codes "/conditions") ++ codes "/" ++ decimal at) ++ codes "/host") Cause.UnknownName result }
{
    match condition_pointer(alloc, place, at) {
        Ok(path) => FlatError::Refused {
            path,
            cause: Cause::UnknownName,
        },
        Err(OutOfMemory) => FlatError::OutOfMemory,
    }
}

/// Whether a host has the name.
fn is_host(raw: &RawConf, hosts: &FirstPlaces, name: &Text) -> bool
    requires { KnowsHosts hosts.now raw.now.hosts }
    ensures { result ≡ is_some (position (λ h. bytes_eq h.name name.now) raw.now.hosts) }
{
    hosts.place(name.as_bytes()).is_some()
}

/// Refuses the first host that a maintenance names and that isn't there.
#[tactic(auto, using(crate::proofs::HostFaults::element_passed, crate::proofs::HostFaults::element_told, crate::proofs::HostFaults::elements_done))]
fn maintained(
    alloc: Global,
    raw: &RawConf,
    hosts: &FirstPlaces,
    place: usize,
    maintenance: &Maintenance,
) -> Result<(), FlatError>
    requires { KnowsHosts hosts.now raw.now.hosts }
    ensures none { OnOk result (first_fault (unknown_host raw.now.hosts) (maintained (maintenance_at place maintenance.now)) ≡ None) }
    ensures refused { IfErr result (λ e. Tells e (first_fault (unknown_host raw.now.hosts) (maintained (maintenance_at place maintenance.now)))) }
{
    for (at, name) in maintenance.hosts.as_slice().iter().enumerate() {
        if !is_host(raw, hosts, name) {
            return Err(refused_maintenance(alloc, place, at));
        }
    }
    Ok(())
}

/// Refuses a host that a condition of an action names and that isn't there.
fn condition(
    alloc: Global,
    raw: &RawConf,
    hosts: &FirstPlaces,
    place: usize,
    at: usize,
    condition: &ActionCond,
) -> Result<(), FlatError>
    requires { KnowsHosts hosts.now raw.now.hosts }
    ensures none { OnOk result (first_fault (unknown_host raw.now.hosts) (host_of at (((codes "/actions" ++ codes "/" ++ decimal place) ++ codes "/conditions") ++ codes "/" ++ decimal at) condition.now) ≡ None) }
    ensures refused { IfErr result (λ e. Tells e (first_fault (unknown_host raw.now.hosts) (host_of at (((codes "/actions" ++ codes "/" ++ decimal place) ++ codes "/conditions") ++ codes "/" ++ decimal at) condition.now))) }
{
    match condition {
        ActionCond::Host { host } => {
            if is_host(raw, hosts, host) {
                Ok(())
            } else {
                Err(refused_condition(alloc, place, at))
            }
        }
        _ => Ok(()),
    }
}

/// Refuses the first host that an action names and that isn't there.
#[tactic(auto, using(crate::proofs::HostFaults::list_passed, crate::proofs::HostFaults::list_told, crate::proofs::HostFaults::lists_done))]
fn acted(
    alloc: Global,
    raw: &RawConf,
    hosts: &FirstPlaces,
    place: usize,
    action: &Action,
) -> Result<(), FlatError>
    requires { KnowsHosts hosts.now raw.now.hosts }
    ensures none { OnOk result (first_fault (unknown_host raw.now.hosts) (acted (action_at place action.now)) ≡ None) }
    ensures refused { IfErr result (λ e. Tells e (first_fault (unknown_host raw.now.hosts) (acted (action_at place action.now)))) }
{
    for (at, one) in action.conditions.as_slice().iter().enumerate() {
        condition(alloc, raw, hosts, place, at, one)?;
    }
    Ok(())
}

/// Refuses the first host that the maintenances name and that isn't there.
#[tactic(auto, using(crate::proofs::HostFaults::list_passed, crate::proofs::HostFaults::list_told, crate::proofs::HostFaults::lists_done))]
fn all_maintained(alloc: Global, raw: &RawConf, hosts: &FirstPlaces) -> Result<(), FlatError>
    requires { KnowsHosts hosts.now raw.now.hosts }
    ensures none { OnOk result (first_fault (unknown_host raw.now.hosts) (all_maintained raw.now) ≡ None) }
    ensures refused { IfErr result (λ e. Tells e (first_fault (unknown_host raw.now.hosts) (all_maintained raw.now))) }
{
    for (place, one) in raw.maintenances.as_slice().iter().enumerate() {
        maintained(alloc, raw, hosts, place, one)?;
    }
    Ok(())
}

/// Refuses the first host that the actions name and that isn't there.
#[tactic(auto, using(crate::proofs::HostFaults::list_passed, crate::proofs::HostFaults::list_told, crate::proofs::HostFaults::lists_done))]
fn all_acted(alloc: Global, raw: &RawConf, hosts: &FirstPlaces) -> Result<(), FlatError>
    requires { KnowsHosts hosts.now raw.now.hosts }
    ensures none { OnOk result (first_fault (unknown_host raw.now.hosts) (all_acted raw.now) ≡ None) }
    ensures refused { IfErr result (λ e. Tells e (first_fault (unknown_host raw.now.hosts) (all_acted raw.now))) }
{
    for (place, one) in raw.actions.as_slice().iter().enumerate() {
        acted(alloc, raw, hosts, place, one)?;
    }
    Ok(())
}

/// Refuses the first host that a maintenance or an action names and that isn't there.
///
/// # Errors
///
/// `UnknownName` at its name: those of maintenances in their order, then those of actions in theirs.
#[tactic(auto, using(crate::proofs::HostFaults::hosts_known, crate::proofs::HostFaults::maintained_told, crate::proofs::HostFaults::acted_told))]
pub(crate) fn known_hosts(
    alloc: Global,
    raw: &RawConf,
    hosts: &FirstPlaces,
) -> Result<(), FlatError>
    requires { KnowsHosts hosts.now raw.now.hosts }
    ensures known { OnOk result (unknown_hosts raw.now ≡ None) }
    ensures refused { IfErr result (λ e. Tells e (unknown_hosts raw.now)) }
{
    all_maintained(alloc, raw, hosts)?;
    all_acted(alloc, raw, hosts)
}
