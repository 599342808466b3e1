//! What lies under the lock.

ghost use Rattle.std.specs.Prelude.{◌≡◌, ◌⊎◌, ◌≤◌, ◌<◌, ◌+◌, ℕ, true, false, None, is_some, is_none, length};
ghost use Rattle.alert_queue.specs.Queues.{IsOver};
ghost use Rattle.alert_queue.specs.Law.{AreFresh};
ghost use Rattle.alert_sessions.specs.Runs.{fails, succeeds};
ghost use Rattle.alert_sessions.specs.Calls.{AreUnmarked, IsCallAtEnd, HandedOut};
ghost use Rattle.alert_sessions.specs.OnDisk.{IsOnDisk};

use crate::counting::{Mine, count};
use crate::names::CallName;
use alert_marks::{AddError, Marks};
use alert_queue::{NoteMark, Queue, Taken};
use outside::Disk;
use std::marker::{Model, PhantomData};
use std::sync::ledger::{Book, Ledger};
use zbx_types::Moment;

/// A queue and its marks, and what all sessions have counted. Until a mark is refused marks and queue agree; from then on no
/// try is handed out and no mark is made.
pub(crate) struct State<N: CallName, F: Ledger, S: Ledger, D: Disk> {
    queue: Queue,
    marks: Marks<D>,
    failures: Book<F>,
    successes: Book<S>,
    stopped: Option<AddError>,
    of: PhantomData<N>,
}

impl<N: CallName, F: Ledger, S: Ledger, D: Disk> Model for State<N, F, S, D> {
    ghost use Rattle.std.specs.Prelude.{is_some, length};
    ghost use Rattle.alert_sessions.specs.Calls.{IsCall};
    ghost use Rattle.alert_sessions.specs.OnDisk.{Stated, IsOnDisk};

    ghost Value = { Stated D };

    ghost view = { λ s. record { queue = s.queue; marks = s.marks; failures = s.failures.total; successes = s.successes.total; stopped = s.stopped } };

    ghost invariant = { λ s.
        IsCall N.start s.queue N.kept s.marks.list s.failures.total s.successes.total (is_some s.stopped)
        × IsOnDisk N.disk (D.tells s.marks.disk) (length N.kept) s.marks.list s.marks.is_broken s.stopped };
}

/// What a session is to do.
#[derive(Clone, Copy, Debug, PartialEq, Eq)]
pub(crate) enum Next {
    /// Try this note.
    Try(u32),
    /// Rest until this moment.
    Rest(Moment),
    /// Wait until another session has ended a try.
    Wait,
    /// All is done, or the call is stopped.
    End,
}

impl<N: CallName, F: Ledger, S: Ledger, D: Disk> State<N, F, S, D> {
    /// The state at the beginning of a call.
    pub(crate) fn new(
        queue: Queue,
        marks: Marks<D>,
        failures: Book<F>,
        successes: Book<S>,
    ) -> State<N, F, S, D>
        requires start { queue ≡ N.start }
        requires fresh { AreFresh queue }
        requires unmarked { AreUnmarked queue marks.list }
        requires kept { marks.list ≡ N.kept }
        requires disk { IsOnDisk N.disk (D.tells marks.disk) (length N.kept) marks.list marks.is_broken None }
    {
        State {
            queue,
            marks,
            failures,
            successes,
            stopped: None,
            of: PhantomData,
        }
    }

    /// Takes what is to be done now.
    pub(crate) fn next(&mut self, now: Moment) -> Next
        ensures stopped { is_some self.old.stopped ≡ true → (result ≡ Next.End) × (self.new ≡ self.old) }
        ensures same { (self.new.marks ≡ self.old.marks) × (self.new.stopped ≡ self.old.stopped) }
        ensures note { (note : ℕ) → result ≡ Next.Try note → (1 ≤ note) × (note ≤ length N.start.homes) }
        ensures end { result ≡ Next.End → (is_some self.new.stopped ≡ true) ⊎ IsOver self.new.queue }
        ensures taken { is_some self.old.stopped ≡ false → HandedOut self.old.queue now self.new.queue result }
    {
        if self.stopped.is_some() {
            return Next::End;
        }
        match self.queue.take(now) {
            Taken::Try { note } => Next::Try(note),
            Taken::Later { at } => Next::Rest(at),
            Taken::Busy => Next::Wait,
            Taken::Nothing => Next::End,
        }
    }

    /// Stops the call for want of memory, where it isn't stopped.
    pub(crate) fn stop(&mut self)
        ensures same { (self.new.queue ≡ self.old.queue) × (self.new.marks ≡ self.old.marks) }
        ensures stopped { is_some self.new.stopped ≡ true }
        ensures first { is_some self.old.stopped ≡ true → self.new ≡ self.old }
    {
        if self.stopped.is_none() {
            self.stopped = Some(AddError::OutOfMemory);
        }
    }

    /// A try has ended, and is counted. A note that it marks gets its mark; where that is refused, the call is stopped.
    pub(crate) fn settle(&mut self, note: u32, ok: bool, now: Moment, mine: &mut Mine<F, S>)
        requires parts { (0 < mine.old.failures.parts) × (0 < mine.old.successes.parts) }
        ensures same { (mine.new.failures.parts ≡ mine.old.failures.parts) × (mine.new.successes.parts ≡ mine.old.successes.parts) }
        ensures failures { mine.new.failures.amount ≡ mine.old.failures.amount + fails ok }
        ensures successes { mine.new.successes.amount ≡ mine.old.successes.amount + succeeds ok }
        ensures stopped { is_some self.old.stopped ≡ true → (self.new.marks ≡ self.old.marks) × (self.new.stopped ≡ self.old.stopped) }
    {
        count(&mut self.failures, &mut self.successes, mine, ok);
        if self.stopped.is_some() || !self.queue.has_open(note) {
            return;
        }
        let mark = match self.queue.done(note, ok, now) {
            None => return,
            Some(mark) => mark,
        };
        match self.marks.add(NoteMark { note, mark }) {
            Ok(()) => {}
            Err(error) => self.stopped = Some(error),
        }
    }

    /// The marks, why the call stopped where it did, and the books.
    pub(crate) fn into_parts(self) -> (Marks<D>, Option<AddError>, Book<F>, Book<S>)
        requires over { (is_some self.stopped ≡ true) ⊎ IsOver self.queue }
        ensures call { IsCallAtEnd N.start N.kept result.0.list result.2.total result.3.total (is_none result.1) }
        ensures disk { IsOnDisk N.disk (D.tells result.0.disk) (length N.kept) result.0.list result.0.is_broken result.1 }
    {
        let State {
            queue: _,
            marks,
            failures,
            successes,
            stopped,
            of: _,
        } = self;
        (marks, stopped, failures, successes)
    }
}
