//! What an order needs of the entries and the cells, and what comes of it.

ghost use Rattle.std.specs.Prelude.{◌≡◌, ◌↔◌, ◌≤◌, ◌<◌, true, false, length, map, is_some, All, IfOk, IfErr, OnOk, OnErr, IfSome, IfNone};
ghost use Rattle.footprint.specs.Feet.{feet_of};
ghost use Rattle.syncer_gate.specs.Gate.{AreOffered, IsOpenBatch, batch_of, claimed};
ghost use Rattle.syncer_gate.specs.Chosen.{chosen};
ghost use Rattle.syncer_gate.specs.Marks.{is_open, is_pending};
ghost use Rattle.std.specs.List.{list_any};
ghost use Rattle.trigger_state.specs.Stages.{Stage};
ghost use Rattle.value_cache.specs.Tokens.{CacheId};
ghost use Rattle.entry_step.specs.Parts.{IsPartOf, IsSame};
ghost use Rattle.book.specs.Progress.{entry_at, entries_with, AreHere, IsAmong, AreWithin, IsBlank, AreReady, AreOutputs, IsKept, IsWorkedIn, IsClaim};

use crate::order::{Done, Order};
use book_opening::StartName;
use conf_index::Ready;
use entry_step::{Cells, Part, Steps, WorkedOut, step, work_out};
use std::alloc::Global;
use std::marker::PhantomData;
use std::sync::ledger::Ledger;
use syncer_gate::{Batch, Claims};
use zbx_types::{Many, Numbered, OutOfMemory, Rec, same_entry};

/// Entries in the order of their numbers, and the number before the first of them.
#[derive(Clone, Copy)]
pub(crate) struct Listed<'a> {
    pub(crate) before: u64,
    pub(crate) entries: &'a [Numbered],
}

/// The entry with a number.
fn at<'a>(all: Listed<'a>, number: u64) -> &'a Numbered
    requires { IsAmong all.before (length all.entries.now) number }
    ensures { result.now ≡ entry_at all.entry.before all.entry.entries.now number }
{
    &all.entries[(number - (all.before + 1)) as usize]
}

/// Copies of the entries with these numbers.
fn copies(alloc: Global, all: Listed<'_>, numbers: &[u64]) -> Result<Many<Numbered>, OutOfMemory>
    requires { AreWithin all.before all.entries.now numbers.now }
    ensures { IfOk result (λ made. made ≡ map (entry_at all.entry.before all.entry.entries.now) numbers.now) }
{
    let mut made = Many::new(alloc);
    for number in numbers {
        made.push(at(all, *number).copy(alloc)?)?;
    }
    Ok(made)
}

/// Whether an entry is the one with its number here.
fn is_here(all: Listed<'_>, one: &Numbered) -> bool
    requires within { IsAmong all.before (length all.entries.now) one.now.number }
    ensures { (result ≡ true) ↔ (entry_at all.entry.before all.entry.entries.now one.now.number ≡ one.now) }
{
    let own = at(all, one.number);
    own.number == one.number && same_entry(&own.entry, &one.entry)
}

/// Whether each of these entries is the one with its number here.
fn are_here(all: Listed<'_>, ones: &[Numbered]) -> bool
    requires within { All (λ e. IsAmong all.before (length all.entries.now) e.number) ones.now }
    ensures { (result ≡ true) ↔ AreHere all.entry.before all.entry.entries.now ones.now }
{
    for one in ones {
        if !is_here(all, one) {
            return false;
        }
    }
    true
}

/// Copies of entries, and of the cells in their feet.
#[derive(Drop)]
pub(crate) struct Inputs {
    pub(crate) entries: Many<Numbered>,
    pub(crate) part: Part,
}

/// Copies of the entries with these numbers, and of the cells in their feet.
#[tactic(auto, using(crate::proofs::Claiming::part_at))]
fn inputs_of<S: StartName>(
    alloc: Global,
    ready: &Ready,
    cells: &Cells,
    all: Listed<'_>,
    numbers: &[u64],
) -> Result<Inputs, OutOfMemory>
    requires conf { ready.now ≡ S.start.stage }
    requires ready { AreReady all.before S.start.stage cells.now all.entries.now numbers.now }
    ensures entries { IfOk result (λ made. made.entries ≡ entries_with numbers.now all.entry.entries.now) }
    ensures part { IfOk result (λ made. IsPartOf S.start.stage.conf (entries_with numbers.now all.entry.entries.now)
        cells.now made.part) }
    ensures cache { IfOk result (λ made. made.part.cache ≡ cells.now.cache) }
{
    let entries = copies(alloc, all, numbers)?;
    let part = cells.part(alloc, ready, entries.as_slice())?;
    Ok(Inputs { entries, part })
}

/// Spare cells, or new ones where there are none. Their values are to stand in the cache of these cells.
fn scratch_of<S: StartName>(
    alloc: Global,
    ready: &Ready,
    cells: &Cells,
    spare: &mut Vec<Cells>,
) -> Result<Cells, OutOfMemory>
    requires conf { ready.now ≡ S.start.stage }
    requires cache { cells.now.cache ≡ S.cache }
    requires spare { All (IsBlank S.start.stage S.cache) spare.old.items }
    ensures cells { IfOk result (IsBlank S.start.stage S.cache) }
    ensures spare { All (IsBlank S.start.stage S.cache) spare.new.items }
{
    match spare.pop() {
        Some(scratch) => Ok(scratch),
        None => Cells::new(alloc, ready.conf(), cells.share()?),
    }
}

/// Keeps spare cells, if there is room.
pub(crate) fn put_by(spare: &mut Vec<Cells>, scratch: Cells)
    ensures { (stage : Stage) (cache : CacheId) → All (IsBlank stage cache) spare.old.items → IsBlank stage cache scratch
        → All (IsBlank stage cache) spare.new.items }
{
    let _ = spare.push(scratch);
}

/// The order of a batch. Where memory is refused the batch comes back.
pub(crate) fn order_of<S: StartName>(
    alloc: Global,
    ready: &Ready,
    cells: &Cells,
    all: Listed<'_>,
    spare: &mut Vec<Cells>,
    batch: Batch,
) -> Result<Order<S>, (Batch, OutOfMemory)>
    requires conf { ready.now ≡ S.start.stage }
    requires cache { cells.now.cache ≡ S.cache }
    requires ready { AreReady all.before S.start.stage cells.now all.entries.now batch.numbers }
    requires spare { All (IsBlank S.start.stage S.cache) spare.old.items }
    ensures batch { IfOk result (λ order. order.batch ≡ batch) }
    ensures entries { IfOk result (λ order. order.entries ≡ entries_with batch.numbers all.entry.entries.now) }
    ensures part { IfOk result (λ order. IsPartOf S.start.stage.conf (entries_with batch.numbers all.entry.entries.now) cells.now
        order.part) }
    ensures spare { All (IsBlank S.start.stage S.cache) spare.new.items }
    ensures back { IfErr result (λ refused. refused.0 ≡ batch) }
{
    let numbers = batch.numbers.as_slice();
    let inputs = match inputs_of::<S>(alloc, ready, cells, all, numbers) {
        Ok(inputs) => inputs,
        Err(OutOfMemory) => return Err((batch, OutOfMemory)),
    };
    let scratch = match scratch_of::<S>(alloc, ready, cells, spare) {
        Ok(scratch) => scratch,
        Err(OutOfMemory) => return Err((batch, OutOfMemory)),
    };
    let Inputs { entries, part } = inputs;
    Ok(Order {
        batch,
        entries,
        part,
        scratch,
        of: PhantomData,
    })
}

/// What an order came to, over the cells that are here.
#[derive(Drop)]
pub(crate) struct Outputs {
    pub(crate) batch: Batch,
    pub(crate) entries: Many<Numbered>,
    pub(crate) part: Part,
    pub(crate) made: Many<Many<Rec>>,
    pub(crate) scratch: Cells,
}

/// What comes of entries, over the cells that are here.
#[derive(Drop)]
struct Again {
    entries: Many<Numbered>,
    part: Part,
    made: Many<Many<Rec>>,
}

/// Works the entries with these numbers out anew.
fn rework<S: StartName, L: Ledger>(
    alloc: Global,
    ready: &Ready,
    cells: &Cells,
    all: Listed<'_>,
    numbers: &[u64],
    scratch: &mut Cells,
    steps: &mut Steps<L>,
) -> Result<Again, OutOfMemory>
    requires conf { ready.now ≡ S.start.stage }
    requires ready { AreReady all.before S.start.stage cells.now all.entries.now numbers.now }
    requires cache { cells.now.cache ≡ S.cache }
    requires scratch { IsBlank S.start.stage S.cache scratch.old }
    ensures entries { IfOk result (λ again. again.entries ≡ entries_with numbers.now all.entry.entries.now) }
    ensures made { IfOk result (λ again. AreOutputs S.start.stage cells.now (entries_with numbers.now all.entry.entries.now)
        again.part again.made) }
    ensures cache { IfOk result (λ again. again.part.cache ≡ S.cache) }
    ensures scratch { IsBlank S.start.stage S.cache scratch.new }
{
    let inputs = inputs_of::<S>(alloc, ready, cells, all, numbers)?;
    let own = inputs.entries.as_slice();
    let worked = work_out(alloc, ready, scratch, &inputs.part, own, steps)?;
    Ok(Again {
        entries: inputs.entries,
        part: worked.part,
        made: worked.made,
    })
}

/// Whether entries and copies of cells are what is here.
fn is_usable(cells: &Cells, all: Listed<'_>, given: &[Numbered], copies: &Part) -> bool
    requires within { All (λ e. IsAmong all.before (length all.entries.now) e.number) given.now }
    requires cache { copies.now.cache ≡ cells.now.cache }
    ensures { (result ≡ true) ↔ (AreHere all.entry.before all.entry.entries.now given.now × IsSame cells.now copies.now) }
{
    are_here(all, given) && cells.same(copies)
}

/// What an order came to, where its inputs are what is here; else what comes of it anew. Where memory is refused it
/// comes back.
pub(crate) fn outputs_of<S: StartName, L: Ledger>(
    alloc: Global,
    ready: &Ready,
    cells: &Cells,
    all: Listed<'_>,
    done: Done<S>,
    steps: &mut Steps<L>,
) -> Result<Outputs, (Done<S>, OutOfMemory)>
    requires conf { ready.now ≡ S.start.stage }
    requires cache { cells.now.cache ≡ S.cache }
    requires ready { AreReady all.before S.start.stage cells.now all.entries.now done.order.batch.numbers }
    ensures batch { IfOk result (λ made. made.batch ≡ done.order.batch) }
    ensures entries { IfOk result (λ made. made.entries ≡ entries_with done.order.batch.numbers all.entry.entries.now) }
    ensures made { IfOk result (λ made. AreOutputs S.start.stage cells.now
        (entries_with done.order.batch.numbers all.entry.entries.now) made.part made.made) }
    ensures cache { IfOk result (λ made. made.part.cache ≡ S.cache) }
    ensures scratch { IfOk result (λ made. IsBlank S.start.stage S.cache made.scratch) }
    ensures uncounted { entries_with done.order.batch.numbers all.entry.entries.now ≡ done.order.entries
        → IsSame cells.now done.order.part → steps.new ≡ steps.old }
    ensures back { IfErr result (λ refused. refused.0 ≡ done) }
{
    let Done { order, part, made } = done;
    let Order {
        batch,
        entries: given,
        part: copies,
        mut scratch,
        of,
    } = order;
    if is_usable(cells, all, given.as_slice(), &copies) {
        return Ok(Outputs {
            batch,
            entries: given,
            part,
            made,
            scratch,
        });
    }
    let numbers = batch.numbers.as_slice();
    match rework::<S, L>(alloc, ready, cells, all, numbers, &mut scratch, steps) {
        Ok(again) => Ok(Outputs {
            batch,
            entries: again.entries,
            part: again.part,
            made: again.made,
            scratch,
        }),
        Err(OutOfMemory) => {
            let order = Order {
                batch,
                entries: given,
                part: copies,
                scratch,
                of,
            };
            Err((Done { order, part, made }, OutOfMemory))
        }
    }
}

/// Puts the records of entries into their places.
fn keep(made: &mut Vec<Many<Rec>>, before: u64, entries: &[Numbered], lists: Many<Many<Rec>>)
    requires within { All (λ e. IsAmong before (length made.old.items) e.number) entries.now }
    requires one { length lists ≡ length entries.now }
    ensures size { length made.new.items ≡ length made.old.items }
    ensures kept { IsKept before made.old.items entries.now lists made.new.items }
{
    let mut place = 0;
    for list in lists.into_vec() {
        let at = (entries[place].number - (before + 1)) as usize;
        made[at] = list;
        place += 1;
    }
}

/// Puts results in place, and the records of their entries.
#[tactic(auto, using(crate::proofs::Claiming::put_worked))]
pub(crate) fn put_in(
    cells: &mut Cells,
    made: &mut Vec<Many<Rec>>,
    ones: Listed<'_>,
    part: Part,
    lists: Many<Many<Rec>>,
)
    requires within { All (λ e. IsAmong ones.before (length made.old.items) e.number) ones.entries.now }
    requires one { length lists ≡ length ones.entries.now }
    requires cache { part.cache ≡ cells.old.cache }
    ensures cache { cells.new.cache ≡ cells.old.cache }
    ensures works { (stage : Stage) → AreOutputs stage cells.old ones.entry.entries.now part lists
        → IsWorkedIn ones.entry.before stage ones.entry.entries.now cells.old made.old.items cells.new made.new.items }
{
    cells.put(part);
    keep(made, ones.before, ones.entries, lists);
}

/// Works out the one entry with this number, in the cells themselves, and keeps its records.
pub(crate) fn work_in<S: StartName, L: Ledger>(
    alloc: Global,
    ready: &Ready,
    cells: &mut Cells,
    made: &mut Vec<Many<Rec>>,
    all: Listed<'_>,
    numbers: &[u64],
    steps: &mut Steps<L>,
) -> Result<(), OutOfMemory>
    requires conf { ready.now ≡ S.start.stage }
    requires ready { AreReady all.before S.start.stage cells.old all.entries.now numbers.now }
    requires one { length numbers.now ≡ 1 }
    requires size { length made.old.items ≡ length all.entries.now }
    ensures works { OnOk result (IsWorkedIn all.entry.before S.start.stage (entries_with numbers.now all.entry.entries.now)
        cells.old made.old.items cells.new made.new.items) }
    ensures cache { cells.new.cache ≡ cells.old.cache }
    ensures err { OnErr result ((cells.new ≡ cells.old) × (made.new.items ≡ made.old.items)) }
{
    let number = numbers[0];
    let list = step(alloc, ready, cells, at(all, number), steps)?;
    made[(number - (all.before + 1)) as usize] = list;
    Ok(())
}

/// Takes a batch of at most `limit` of the first `looks` pending entries.
pub(crate) fn take_batch<S: StartName>(
    alloc: Global,
    ready: &Ready,
    claims: &mut Claims,
    entries: &[Numbered],
    looks: u32,
    limit: u32,
) -> Result<Option<Batch>, OutOfMemory>
    requires conf { ready.now ≡ S.start.stage }
    requires looks { 1 ≤ looks }
    requires limit { 1 ≤ limit }
    requires offered { AreOffered claims.old entries.now }
    ensures batch { IfOk result (λ taken. taken ≡ batch_of claims.old.next
        (chosen (feet_of S.start.stage.conf) claims.old entries.now looks limit)) }
    ensures gate { OnOk result (claims.new ≡ claimed claims.old
        (chosen (feet_of S.start.stage.conf) claims.old entries.now looks limit)) }
    ensures some { IfOk result (λ taken. IfSome taken (IsClaim S.start entries.now claims.old claims.new)) }
    ensures few { IfOk result (λ taken. IfSome taken (λ batch. (0 < length batch.numbers)
        × (length batch.numbers ≤ limit))) }
    ensures none { IfOk result (λ taken. IfNone taken (claims.new ≡ claims.old)) }
    ensures idle { IfOk result (λ taken. IfNone taken (list_any is_open claims.old.marks ≡ false
        → list_any is_pending claims.old.marks ≡ false)) }
    ensures pending { IfOk result (λ taken. list_any is_open claims.old.marks ≡ false
        → is_some taken ≡ list_any is_pending claims.old.marks) }
    ensures err { OnErr result (claims.new ≡ claims.old) }
{
    let taken = claims.claim(alloc, ready.feet(), entries, looks, limit)?;
    Ok(taken)
}

/// Whether the batch of an order that was worked out is open.
pub(crate) fn is_open_here<S: StartName>(claims: &Claims, done: &Done<S>) -> bool
    ensures { (result ≡ true) ↔ IsOpenBatch claims.now done.now.order.batch }
{
    claims.is_open(&done.order.batch)
}
