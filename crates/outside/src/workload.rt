//! The workload of a number: a source that has its configuration, and a wire that makes its events.

ghost use Rattle.std.specs.Prelude.{◌≡◌, ◌≤◌, ◌+◌, false, None, Some, [], IsOk, IfOk, OnErr, IsErrOf};
ghost use Rattle.outside.specs.Calls.{no_calls};
ghost use Rattle.outside.specs.Causes.{HasCause};
ghost use Rattle.outside.specs.Events.{Gives, CountsGiven};
ghost use Rattle.outside.specs.ScriptWire.{CountsRefused};
ghost use Rattle.outside.specs.Workload.{work_text, work_events};
ghost use Rattle.outside.specs.declared.event.Trouble.TheVariants as trouble;

use crate::event::{Failed, Trouble, WireEvent};
use crate::memory::MemSource;
use crate::ports::Wire;
use crate::tally::Tally;
use crate::work::Work;
use crate::work_text::configuration;
use std::alloc::Global;
use std::marker::Model;
use zbx_types::{Bytes, Many, OutOfMemory};

/// A source of the configuration of the workload of this number and so many values. All workloads have the same.
pub fn work_source(alloc: Global, _number: u64, _values: u64) -> Result<MemSource, OutOfMemory>
    ensures { IfOk result (λ source. source ≡ record { left = work_text; faults = 0; calls = no_calls [] }) }
{
    let text = Bytes::of(alloc, configuration().as_bytes())?;
    Ok(MemSource::new(text, Many::new(alloc)))
}

/// A wire with the events of the workload of a number and so many values. It makes each frame when it is asked for it,
/// and keeps nothing of what is sent and closed.
///
/// `next` fails behind the last event, and nowhere else. It finds no memory where there is none for a frame; the next
/// call makes the frame then. Each call of `next` that gives no event raises `faults`. `send` never fails.
#[derive(Drop)]
pub struct WorkWire {
    work: Work,
    faults: u64,
    refused: Tally,
    given: Tally,
    sends: Tally,
}

impl Model for WorkWire {
    ghost use Rattle.std.specs.Prelude.{Some, None};
    ghost use Rattle.outside.specs.Workload.{Working, events_of};

    ghost Value = { Working };

    ghost view = { λ w. record {
      tells = record { left = Some (events_of w.work); given = w.given; sent = None; sends = w.sends; closed = None; faults = w.faults; unsent = 0 };
      refused = w.refused;
    } };
}

impl WorkWire {
    /// A wire that has given no event. Takes no memory.
    pub fn new(_alloc: Global, number: u64, values: u64) -> WorkWire
        requires { (1 ≤ values) × (values ≤ 1000000) }
        ensures tells { result.tells ≡ record { left = Some (work_events number values); given = 0; sent = None; sends = 0; closed = None; faults = 0; unsent = 0 } }
        ensures refused { result.refused ≡ 0 }
    {
        WorkWire {
            work: Work::new(number, values),
            faults: 0,
            refused: Tally::zero(),
            given: Tally::zero(),
            sends: Tally::zero(),
        }
    }
}

impl Wire for WorkWire {
    ghost tells = { λ w. w.tells };

    fn faults(&self) -> u64 {
        self.faults
    }

    /// 0.
    fn unsent(&self) -> u64 {
        // a read of a field opens the view of the wire to the proof
        let _read = self.faults;
        0
    }

    /// Never.
    fn ready(&self) -> bool
        ensures { result ≡ false }
    {
        false
    }

    fn next(&mut self, alloc: Global) -> Result<WireEvent, Trouble>
        ensures behind { self.old.tells.left ≡ Some [] → IsErrOf result trouble.Failed }
        ensures failed { IsErrOf result trouble.Failed → self.old.tells.left ≡ Some [] }
        ensures kept { OnErr result (self.new.tells.left ≡ self.old.tells.left) }
        ensures refused { CountsRefused self.old.refused self.new.refused result }
        ensures event { Gives self.old.tells.left self.new.tells.left result }
        ensures given { CountsGiven self.old.tells.given self.new.tells.given result }
        ensures cause { HasCause self.old.tells.faults self.new.tells.faults result }
        ensures sent { self.new.tells.sent ≡ self.old.tells.sent }
        ensures sends { self.new.tells.sends ≡ self.old.tells.sends }
        ensures closed { self.new.tells.closed ≡ self.old.tells.closed }
        ensures unsent { self.new.tells.unsent ≡ self.old.tells.unsent }
    {
        match self.work.next(alloc) {
            Ok(Some((event, work))) => {
                self.work = work;
                self.given.rise();
                Ok(event)
            }
            Ok(None) => {
                self.faults = self.faults.saturating_add(1);
                Err(Trouble::Failed)
            }
            Err(OutOfMemory) => {
                self.refused.rise();
                self.faults = self.faults.saturating_add(1);
                Err(Trouble::OutOfMemory)
            }
        }
    }

    /// It sends to nobody.
    fn send(&mut self, _conn: u64, _bytes: &[u8]) -> Result<(), Failed>
        ensures ok { IsOk result }
        ensures refused { self.new.refused ≡ self.old.refused }
        ensures untold { self.old.tells.sent ≡ None }
        ensures tells { self.new.tells ≡ record self.old.tells { sends = self.old.tells.sends + 1 } }
    {
        self.sends.rise();
        Ok(())
    }

    fn close(&mut self, _conn: u64)
        ensures untold { self.old.tells.closed ≡ None }
        ensures same { self.new ≡ self.old }
    {
        let _read = self.faults;
    }
}
