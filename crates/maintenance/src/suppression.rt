//! What maintenances do to problems and to values.

ghost use Rattle.std.specs.Prelude.{◌≡◌, ◌↔◌, IsTrue, Any};
ghost use Rattle.maintenance.specs.Tags.{IsForTags};
ghost use Rattle.maintenance.specs.Suppression.{Suppresses, IsSuppressed, KeepsOut, Collects, is_suppressed, is_collected};

use crate::covering::{is_of_host, is_of_some_item};
use crate::force::is_active;
use zbx_types::{Conf, Maintenance, Moment, Tag, Trigger, by_id, tests_pass};

/// Whether a maintenance is for problems with these tags.
fn is_for_tags(maintenance: &Maintenance, tags: &[Tag]) -> bool
    ensures { IsTrue result ↔ IsForTags maintenance.now tags.now }
{
    let tests = maintenance.tags.as_slice();
    tests.len() == 0 || tests_pass(maintenance.matching, tests, tags)
}

/// Whether a maintenance suppresses a problem of a trigger with some tags, at a second.
fn suppresses(
    conf: &Conf,
    trigger: &Trigger,
    tags: &[Tag],
    second: u32,
    maintenance: &Maintenance,
) -> bool
    ensures { IsTrue result ↔ Suppresses conf.now trigger.now tags.now second maintenance.now }
{
    is_active(conf, second, maintenance)
        && is_of_some_item(conf, maintenance, trigger.call_items.as_slice())
        && is_for_tags(maintenance, tags)
}

/// Whether some maintenance suppresses such a problem.
fn some_suppresses(conf: &Conf, trigger: &Trigger, tags: &[Tag], second: u32) -> bool
    ensures { IsTrue result ↔ Any (Suppresses conf.now trigger.now tags.now second) conf.now.maintenances }
{
    conf.maintenances.as_slice().iter().any(|maintenance| suppresses(
        conf,
        trigger,
        tags,
        second,
        maintenance,
    ))
}

/// Whether some maintenance suppresses a problem of a trigger with these tags (the Zabbix 6.0 manual, "Maintenance"):
/// one that is in force, is of the host of some item of the trigger's calls, and is for the tags. The trigger's own
/// host counts for nothing, and maintenances with and without data collection suppress alike. False for a trigger id
/// that has none.
pub fn suppressed(conf: &Conf, trigger: u32, tags: &[Tag], now: Moment) -> bool
    ensures value { result ≡ is_suppressed conf.now trigger tags.now now }
    ensures decides { IsTrue result ↔ IsSuppressed conf.now trigger tags.now now }
{
    match by_id(conf.triggers.as_slice(), trigger) {
        Some(trigger) => some_suppresses(conf, trigger, tags, now.sec),
        None => false,
    }
}

/// Whether a maintenance keeps a host's values out, at a second.
fn keeps_out(conf: &Conf, host: u32, second: u32, maintenance: &Maintenance) -> bool
    ensures { IsTrue result ↔ KeepsOut conf.now host second maintenance.now }
{
    !maintenance.collect
        && is_active(conf, second, maintenance)
        && is_of_host(conf, maintenance, host)
}

/// Whether some maintenance keeps a host's values out.
fn some_keeps_out(conf: &Conf, host: u32, second: u32) -> bool
    ensures { IsTrue result ↔ Any (KeepsOut conf.now host second) conf.now.maintenances }
{
    conf.maintenances
        .as_slice()
        .iter()
        .any(|maintenance| keeps_out(conf, host, second, maintenance))
}

/// Whether the values of a host are taken: no maintenance without data collection that is in force is of it (the Zabbix
/// 6.0 manual, "Maintenance", maintenance type). True for a host id that has none.
pub fn collects(conf: &Conf, host: u32, now: Moment) -> bool
    ensures value { result ≡ is_collected conf.now host now }
    ensures decides { IsTrue result ↔ Collects conf.now host now }
{
    !some_keeps_out(conf, host, now.sec)
}
