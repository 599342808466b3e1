//! The configuration by which values are taken.

ghost use Rattle.std.specs.Prelude.{◌≡◌, false, IfOk};
ghost use Rattle.intake_front.specs.Taking.{AllCollected};

use crate::gathering::Taking;
use crate::taking::some_keeps_out;
use conf_index::Ready;
use std::marker::Model;
use zbx_types::{Moment, OutOfMemory};

/// Whether some maintenance keeps values out at a moment, and so in the whole second.
#[derive(Clone, Copy)]
pub(crate) struct Found {
    pub(crate) at: Moment,
    pub(crate) some_out: bool,
}

/// The configuration by which values are taken. It remembers what was found of its maintenances at the last moment,
/// so that they are looked through once a second and not for each event. Contracts see the configuration.
#[derive(Drop)]
pub struct Collection<'a> {
    ready: &'a Ready,
    found: Option<Found>,
}

impl<'a> Model for Collection<'a> {
    ghost use Rattle.std.specs.Coded.{codes};
    ghost use Rattle.zbx_types.specs.Tree.{tree_code};
    ghost use Rattle.zbx_types.specs.declared.conf.Conf.{Conf};
    ghost use Rattle.intake_front.specs.Collected.{HasFound};

    ghost Value = { Conf };

    ghost coded = { Prim.hlevel (codes, tree_code) };

    ghost view = { λ c. c.ready.now.conf };

    ghost invariant = { λ c. HasFound c.ready.now.conf c.found };
}

impl<'a> Collection<'a> {
    /// Values are taken by this configuration. Takes no memory.
    pub fn new(ready: &'a Ready) -> Collection<'a>
        ensures { result ≡ ready.now.conf }
    {
        Collection { ready, found: None }
    }

    /// The configuration.
    pub fn ready(&self) -> &'a Ready
        ensures { result.now.conf ≡ self.now }
    {
        self.ready
    }

    /// Whether some maintenance keeps values out at a moment. Where none does, no value need ask for its host.
    #[tactic(auto, using(crate::proofs::Collecting::same_second))]
    fn some_out(&mut self, now: Moment) -> Result<bool, OutOfMemory>
        ensures some { IfOk result (λ some. some ≡ false → AllCollected self.old now) }
        ensures same { self.new ≡ self.old }
    {
        if let Some(found) = self.found {
            if found.at.sec == now.sec {
                return Ok(found.some_out);
            }
        }
        let some_out = some_keeps_out(self.ready.conf(), now)?;
        self.found = Some(Found { at: now, some_out });
        Ok(some_out)
    }

    /// By what values are taken at a moment.
    pub(crate) fn taking(&mut self, now: Moment) -> Result<Taking<'a>, OutOfMemory>
        ensures conf { IfOk result (λ by. by.conf ≡ self.old) }
        ensures moment { IfOk result (λ by. by.moment ≡ now) }
        ensures same { self.new ≡ self.old }
    {
        let some_out = self.some_out(now)?;
        Ok(Taking::new(self.ready, now, some_out))
    }
}
