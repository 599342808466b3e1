//! Maintenances in force.

ghost use Rattle.std.specs.Prelude.{◌≡◌, ◌↔◌, IsTrue, Any};
ghost use Rattle.maintenance.specs.Force.{IsInPeriod, IsActive, InForce, is_in_force};

use crate::periods::in_period;
use zbx_types::{Conf, Maintenance, Moment, by_id};

/// Whether a maintenance is in force at a second.
pub(crate) fn is_active(conf: &Conf, second: u32, maintenance: &Maintenance) -> bool
    ensures { IsTrue result ↔ IsActive conf.now.utc_offset second maintenance.now }
{
    if second < maintenance.since || maintenance.till <= second {
        return false;
    }
    in_some_period(conf, second, maintenance)
}

/// Whether a second is in one of the periods of a maintenance.
fn in_some_period(conf: &Conf, second: u32, maintenance: &Maintenance) -> bool
    ensures { IsTrue result ↔ Any (IsInPeriod conf.now.utc_offset maintenance.now.since second) maintenance.now.periods }
{
    let since = maintenance.since;
    maintenance
        .periods
        .as_slice()
        .iter()
        .any(|period| in_period(conf, since, second, period))
}

/// Whether the maintenance at a place is in force: the moment's second is from its `since` on, before its `till` and in
/// one of its periods (the Zabbix 6.0 manual, "Maintenance"). Places count from 1 in the configuration's order; false
/// at a place that has none. That starts of daily, weekly and monthly periods before `since` count for nothing, and one
/// that is given as a moment counts, is this project's own rule.
pub fn in_force(conf: &Conf, place: u32, now: Moment) -> bool
    ensures value { result ≡ is_in_force conf.now place now }
    ensures decides { IsTrue result ↔ InForce conf.now place now }
{
    match by_id(conf.maintenances.as_slice(), place) {
        Some(maintenance) => is_active(conf, now.sec, maintenance),
        None => false,
    }
}
