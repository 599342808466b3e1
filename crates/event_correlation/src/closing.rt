//! What the rules close.

ghost use Rattle.std.specs.Prelude.{◌≡◌, map, IfOk};
ghost use Rattle.event_correlation.specs.Closings.{closes_of};

use crate::answer::Closes;
use crate::due::closed_events;
use crate::matching::closes_new;
use std::alloc::Global;
use zbx_types::{Conf, OutOfMemory, Rec, groups_of};

/// References to records, in order.
fn references(alloc: Global, records: &[Rec]) -> Result<Vec<&Rec>, OutOfMemory>
    ensures { IfOk result (λ made. map (λ rec. rec.now) made.items ≡ records.now) }
{
    let mut made = Vec::new(alloc);
    for rec in records {
        made.push(rec)?;
    }
    Ok(made)
}

/// Which problems close as a new one opens, where these problems were open when it was made, in the order of making
/// (the Zabbix 6.0 manual, "Global event correlation"; the order is this project's own). The rules are taken in file
/// order. One that closes old problems closes those that it matches and that no rule before it closed, in their order.
/// One that closes the new problem does so where it matches at least one old problem, closed or not. A record that is
/// no problem has no tags, and no host. [`OutOfMemory`] where there is no room for the answer.
pub fn closes(alloc: Global, conf: &Conf, new: &Rec, old: &[Rec]) -> Result<Closes, OutOfMemory>
    ensures { IfOk result (λ made. made ≡ closes_of conf.now new.now old.now) }
{
    let old = references(alloc, old)?;
    closes_among(alloc, conf, new, old.as_slice())
}

/// The same as [`closes`], over references.
pub fn closes_among(
    alloc: Global,
    conf: &Conf,
    new: &Rec,
    old: &[&Rec],
) -> Result<Closes, OutOfMemory>
    ensures { IfOk result (λ made. made ≡ closes_of conf.now new.now (map (λ problem. problem.now) old.now)) }
{
    let groups = groups_of(conf, new);
    let rules = conf.correlations.as_slice();
    Ok(Closes {
        old: closed_events(alloc, groups, new.tags(), rules, old)?,
        new: closes_new(groups, new.tags(), rules, old),
    })
}
