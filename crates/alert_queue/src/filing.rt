//! Where a queue's lanes stand: among those that are due, by their first notes, or among those that wait, by their moments.

ghost use Rattle.std.specs.Prelude.{◌≡◌, ◌≤◌, ◌<◌, ◌+◌, ◌-◌, ◌^◌, ℕ, length, replicate, slice_index};
ghost use Rattle.alert_queue.specs.Lanes.{greatest, first_of, IsDue};
ghost use Rattle.alert_queue.specs.Queues.{no_lane, none, IsFiled, AreFiled, AreRefiled, WaitBeyond, count_due};

use crate::lane::Lane;
use crate::least::{Least, NONE};

/// The keys by which a lane is filed: its first note where it is due, else its moment where it waits.
fn keys(lane: &Lane, now: u64) -> (u64, u64)
    ensures filed { IsFiled now lane.now result.0 result.1 }
    ensures late { IsDue now lane.now → result.1 ≡ none }
{
    if lane.is_open() || !lane.has_note() {
        return (NONE, NONE);
    }
    let due = lane.due();
    if due <= now {
        (lane.first() as u64, NONE)
    } else {
        (NONE, due)
    }
}

/// Files a lane anew.
pub(crate) fn refile(lane: &Lane, place: usize, ready: &mut Least, waiting: &mut Least, now: u64)
    requires ready { place < length ready.old }
    requires waiting { place < length waiting.old }
    ensures { AreRefiled now lane.now place ready.old waiting.old ready.new waiting.new }
{
    let (key, moment) = keys(lane, now);
    ready.set(place, key);
    waiting.set(place, moment);
}

/// Files a lane among those that are due, where its moment has come.
fn file_one(lanes: &[Lane], place: usize, ready: &mut Least, waiting: &mut Least, now: u64)
    requires early { now ≤ greatest }
    requires filed { AreFiled now lanes.now ready.old waiting.old }
    requires inside { place < length ready.old }
    requires due { slice_index waiting.old place ≤ now }
    ensures filed { AreFiled now lanes.now ready.new waiting.new }
    ensures fewer { count_due now waiting.new < count_due now waiting.old }
{
    refile(&lanes[place], place, ready, waiting, now);
}

/// Files the lanes whose moment has come among those that are due.
pub(crate) fn file_due(lanes: &[Lane], ready: &mut Least, waiting: &mut Least, now: u64)
    requires early { now ≤ greatest }
    requires filed { AreFiled now lanes.now ready.old waiting.old }
    ensures filed { AreFiled now lanes.now ready.new waiting.new }
    ensures rest { WaitBeyond now waiting.new }
{
    let mut place = waiting.place();
    while waiting.key(place) <= now {
        file_one(lanes, place, ready, waiting, now);
        place = waiting.place();
    }
}

/// Files all lanes at moment 0, where none was filed.
#[tactic(auto, using(crate::proofs::Filings::none_filed, crate::proofs::Filings::one_filed, crate::proofs::Filings::all_filed))]
pub(crate) fn file_all(lanes: &[Lane], ready: &mut Least, waiting: &mut Least)
    requires ready { ready.old ≡ replicate (length ready.old) none }
    requires waiting { waiting.old ≡ replicate (length ready.old) none }
    requires room { length lanes.now ≤ length ready.old }
    ensures { AreFiled 0 lanes.now ready.new waiting.new }
{
    for place in 0..lanes.len() {
        refile(&lanes[place], place, ready, waiting, 0);
    }
}
