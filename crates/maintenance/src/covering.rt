//! Which hosts a maintenance is of.

ghost use Rattle.std.specs.Prelude.{◌↔◌, IsTrue, Contains, Any};
ghost use Rattle.maintenance.specs.Covering.{IsOf, IsOfHost, IsOfItem};

use zbx_types::{Conf, Host, Maintenance, Text, by_id};

/// Whether a name is among some.
fn is_among(names: &[Text], name: &Text) -> bool
    ensures { IsTrue result ↔ Contains names.now name.now }
{
    names.contains(name)
}

/// Whether a maintenance names one of some groups.
fn names_group(maintenance: &Maintenance, groups: &[Text]) -> bool
    ensures { IsTrue result ↔ Any (Contains maintenance.now.groups) groups.now }
{
    let names = maintenance.groups.as_slice();
    groups.iter().any(|group| is_among(names, group))
}

/// Whether a maintenance is of a host.
fn is_of(maintenance: &Maintenance, host: &Host) -> bool
    ensures { IsTrue result ↔ IsOf maintenance.now host.now }
{
    is_among(maintenance.hosts.as_slice(), &host.name)
        || names_group(maintenance, host.groups.as_slice())
}

/// Whether a maintenance is of the host with an id.
pub(crate) fn is_of_host(conf: &Conf, maintenance: &Maintenance, host: u32) -> bool
    ensures { IsTrue result ↔ IsOfHost conf.now maintenance.now host }
{
    match by_id(conf.hosts.as_slice(), host) {
        Some(host) => is_of(maintenance, host),
        None => false,
    }
}

/// Whether a maintenance is of the host of the item with an id.
fn is_of_item(conf: &Conf, maintenance: &Maintenance, item: u32) -> bool
    ensures { IsTrue result ↔ IsOfItem conf.now maintenance.now item }
{
    match by_id(conf.items.as_slice(), item) {
        Some(item) => is_of_host(conf, maintenance, item.host),
        None => false,
    }
}

/// Whether a maintenance is of the host of one of some items.
pub(crate) fn is_of_some_item(conf: &Conf, maintenance: &Maintenance, items: &[u32]) -> bool
    ensures { IsTrue result ↔ Any (IsOfItem conf.now maintenance.now) items.now }
{
    items
        .iter()
        .any(|item| is_of_item(conf, maintenance, *item))
}
