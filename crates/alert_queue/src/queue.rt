//! The queue.

ghost use Rattle.std.specs.Prelude.{◌≡◌, ◌≤◌, ◌<◌, ◌+◌, ◌-◌, ◌^◌, ◌↔◌, ℕ, true, length, All, IfOk};
ghost use Rattle.alert_queue.specs.Lanes.{greatest, first_of, IsTried, mark_of, count_marks};
ghost use Rattle.alert_queue.specs.Queues.{lane_at, home, HandsOut, HasOpen, AreFiled, AreAtHome, WaitBeyond, count_left};
ghost use Rattle.alert_queue.specs.Law.{AreFresh};
ghost use Rattle.alert_queue.specs.New.{IsNew};
ghost use Rattle.alert_queue.specs.Events.{Take, End, happens, handed, ended, MayHappen};

use crate::filing::{file_all, file_due, refile};
use crate::filling::{empty_lanes, fill};
use crate::lane::Lane;
use crate::least::{Least, NONE};
use crate::moments::{moment_of, nanoseconds_of};
use crate::types::{Kind, Mark, Taken};
use std::alloc::Global;
use std::marker::Model;
use zbx_types::{Moment, OutOfMemory};

/// Notes that are tried, each recipient's in order and one at a time.
///
/// `take` and `done` take no memory, and the time of two paths in a tree of the recipients; a failed try adds two more to
/// a later `take`.
#[derive(Drop)]
pub struct Queue {
    lanes: Vec<Lane>,
    homes: Vec<u32>,
    ready: Least,
    waiting: Least,
    now: u64,
    left: u64,
}

impl Model for Queue {
    ghost use Rattle.alert_queue.specs.Queues.{Queued, IsKept};

    ghost Value = { Queued };

    ghost view = { λ q. record { lanes = q.lanes.items; homes = q.homes.items; now = q.now } };

    ghost invariant = { λ q. IsKept q.lanes.items q.homes.items q.ready q.waiting q.now q.left };
}

/// What is to be done, where no lane that waits is due.
#[tactic(auto, using(crate::proofs::Filings::moment_early))]
fn next_of(
    lanes: &[Lane],
    homes: &[u32],
    ready: &Least,
    waiting: &Least,
    now: u64,
    left: u64,
) -> Taken
    requires filed { AreFiled now lanes.now ready.now waiting.now }
    requires at_home { AreAtHome homes.now lanes.now }
    requires rest { WaitBeyond now waiting.now }
    requires left { left ≡ count_left lanes.now }
    ensures { HandsOut (record { lanes = lanes.now; homes = homes.now; now = now }) result }
{
    let place = ready.place();
    if ready.key(place) < NONE {
        return Taken::Try {
            note: lanes[place].first(),
        };
    }
    let place = waiting.place();
    let at = waiting.key(place);
    if at < NONE {
        return Taken::Later { at: moment_of(at) };
    }
    if left > 0 {
        Taken::Busy
    } else {
        Taken::Nothing
    }
}

/// A try of a note begins.
fn start(
    lanes: &mut Vec<Lane>,
    homes: &[u32],
    ready: &mut Least,
    waiting: &mut Least,
    now: u64,
    note: u32,
)
    requires filed { AreFiled now lanes.old.items ready.old waiting.old }
    requires at_home { AreAtHome homes.now lanes.old.items }
    requires hands { HandsOut (record { lanes = lanes.old.items; homes = homes.now; now = now }) (Taken.Try note) }
    ensures filed { AreFiled now lanes.new.items ready.new waiting.new }
    ensures at_home { AreAtHome homes.now lanes.new.items }
    ensures left { count_left lanes.new.items ≡ count_left lanes.old.items }
    ensures lanes { lanes.new.items ≡ (handed (record { lanes = lanes.old.items; homes = homes.now; now = now }) (Taken.Try note)).lanes }
{
    let place = homes[note as usize - 1] as usize;
    lanes[place].start();
    refile(&lanes[place], place, ready, waiting, now);
}

/// What was handed out begins.
fn begin(
    lanes: &mut Vec<Lane>,
    homes: &[u32],
    ready: &mut Least,
    waiting: &mut Least,
    now: u64,
    taken: &Taken,
)
    requires filed { AreFiled now lanes.old.items ready.old waiting.old }
    requires at_home { AreAtHome homes.now lanes.old.items }
    requires hands { HandsOut (record { lanes = lanes.old.items; homes = homes.now; now = now }) taken.now }
    ensures filed { AreFiled now lanes.new.items ready.new waiting.new }
    ensures at_home { AreAtHome homes.now lanes.new.items }
    ensures left { count_left lanes.new.items ≡ count_left lanes.old.items }
    ensures lanes { lanes.new.items ≡ (handed (record { lanes = lanes.old.items; homes = homes.now; now = now }) taken.now).lanes }
{
    match taken {
        Taken::Try { note } => start(lanes, homes, ready, waiting, now, *note),
        Taken::Later { at: _ } => {}
        Taken::Busy => {}
        Taken::Nothing => {}
    }
}

/// A try of a note ends. Answers the note's mark, where it has one now.
fn finish(
    lanes: &mut Vec<Lane>,
    homes: &[u32],
    ready: &mut Least,
    waiting: &mut Least,
    now: u64,
    note: u32,
    ok: bool,
) -> Option<Mark>
    requires early { now ≤ greatest }
    requires filed { AreFiled now lanes.old.items ready.old waiting.old }
    requires at_home { AreAtHome homes.now lanes.old.items }
    requires tried { HasOpen (record { lanes = lanes.old.items; homes = homes.now; now = now }) note }
    ensures mark { result ≡ mark_of (lane_at (record { lanes = lanes.old.items; homes = homes.now; now = now }) (home (record { lanes = lanes.old.items; homes = homes.now; now = now }) note)) ok }
    ensures filed { AreFiled now lanes.new.items ready.new waiting.new }
    ensures at_home { AreAtHome homes.now lanes.new.items }
    ensures left { count_left lanes.new.items + count_marks result ≡ count_left lanes.old.items }
    ensures lanes { lanes.new.items ≡ (ended (record { lanes = lanes.old.items; homes = homes.now; now = now }) note ok).lanes }
{
    let place = homes[note as usize - 1] as usize;
    let mark = lanes[place].settle(ok, now);
    refile(&lanes[place], place, ready, waiting, now);
    mark
}

/// How many marks there are.
fn count(mark: Option<Mark>) -> u64
    ensures { result ≡ count_marks mark }
{
    match mark {
        None => 0,
        Some(_) => 1,
    }
}

/// Whether a lane's first note is this one, and has an open try.
fn is_tried(lane: &Lane, note: u32) -> bool
    ensures { (result ≡ true) ↔ (IsTried lane.now × (first_of lane.now ≡ note)) }
{
    lane.is_open() && lane.has_note() && lane.first() == note
}

/// Whether a note has an open try.
fn has_open(lanes: &[Lane], homes: &[u32], note: u32) -> bool
    ensures { (now : ℕ) → (result ≡ true) ↔ HasOpen (record { lanes = lanes.now; homes = homes.now; now = now }) note }
{
    if note == 0 || note as usize > homes.len() {
        return false;
    }
    let place = homes[note as usize - 1] as usize;
    if place >= lanes.len() {
        return false;
    }
    is_tried(&lanes[place], note)
}

impl Queue {
    /// The queue of the notes that have no mark, at moment 0. Each note's recipient is told, from note 1 on, and whether the
    /// note has a mark; and for each recipient how its notes are tried.
    #[tactic(auto, using(crate::proofs::Fillings::all_there, crate::proofs::Fillings::none_left, crate::proofs::Fillings::lanes_fit, crate::proofs::Fillings::keys_none, crate::proofs::Fillings::keys_too, crate::proofs::Fillings::room_for, crate::proofs::Fillings::kept_new, crate::proofs::Fillings::is_new, crate::proofs::Fillings::is_fresh))]
    pub fn new(
        alloc: Global,
        homes: &[u32],
        marked: &[bool],
        kinds: &[Kind],
    ) -> Result<Queue, OutOfMemory>
        requires few { length homes.now < 2 ^ 32 }
        requires few_kinds { length kinds.now < 2 ^ 32 }
        requires told { length marked.now ≡ length homes.now }
        requires there { All (λ home. home < length kinds.now) homes.now }
        requires limited { All (λ kind. 0 < kind.limit) kinds.now }
        ensures is_new { IfOk result (IsNew homes.now marked.now kinds.now) }
        ensures fresh { IfOk result AreFresh }
    {
        let mut lanes = empty_lanes(alloc, kinds)?;
        let left = fill(&mut lanes, homes, marked)?;
        let size = (lanes.len() as u32).max(1);
        let mut ready = Least::new(alloc, size)?;
        let mut waiting = Least::new(alloc, size)?;
        file_all(lanes.as_slice(), &mut ready, &mut waiting);
        let homes = Vec::from_slice(alloc, homes)?;
        Ok(Queue {
            lanes,
            homes,
            ready,
            waiting,
            now: 0,
            left,
        })
    }

    /// Whether a note has an open try.
    pub fn has_open(&self, note: u32) -> bool
        ensures { (result ≡ true) ↔ HasOpen self.entry.now note }
    {
        has_open(self.lanes.as_slice(), self.homes.as_slice(), note)
    }

    /// What is to be done at a moment, in nanoseconds.
    fn take_at(&mut self, now: u64) -> Taken
        requires { now ≤ greatest }
        ensures may { MayHappen self.old (Take now result) }
        ensures queue { self.new ≡ happens self.old (Take now result) }
    {
        self.now = self.now.max(now);
        let now = self.now;
        file_due(
            self.lanes.as_slice(),
            &mut self.ready,
            &mut self.waiting,
            now,
        );
        let taken = next_of(
            self.lanes.as_slice(),
            self.homes.as_slice(),
            &self.ready,
            &self.waiting,
            now,
            self.left,
        );
        begin(
            &mut self.lanes,
            self.homes.as_slice(),
            &mut self.ready,
            &mut self.waiting,
            now,
            &taken,
        );
        taken
    }

    /// The open try of a note ended at a moment, in nanoseconds.
    fn done_at(&mut self, note: u32, ok: bool, now: u64) -> Option<Mark>
        requires tried { HasOpen self.old note }
        requires early { now ≤ greatest }
        ensures mark { result ≡ mark_of (lane_at self.old (home self.old note)) ok }
        ensures queue { self.new ≡ happens self.old (End note ok now) }
    {
        self.now = self.now.max(now);
        let mark = finish(
            &mut self.lanes,
            self.homes.as_slice(),
            &mut self.ready,
            &mut self.waiting,
            self.now,
            note,
            ok,
        );
        self.left -= count(mark);
        mark
    }

    /// What is to be done now. A moment counts as at least the latest. Takes no memory.
    pub fn take(&mut self, now: Moment) -> Taken
        ensures may { MayHappen self.old (Take now result) }
        ensures queue { self.new ≡ happens self.old (Take now result) }
    {
        self.take_at(nanoseconds_of(now))
    }

    /// The open try of a note ended now, well or not. Answers the note's mark, where it has one now. Takes no memory.
    pub fn done(&mut self, note: u32, ok: bool, now: Moment) -> Option<Mark>
        requires { HasOpen self.old note }
        ensures mark { result ≡ mark_of (lane_at self.old (home self.old note)) ok }
        ensures queue { self.new ≡ happens self.old (End note ok now) }
    {
        self.done_at(note, ok, nanoseconds_of(now))
    }
}
