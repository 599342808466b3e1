//! One step: what an entry's value leaves at its item and at those below it is prepared, the triggers over them are
//! evaluated one after another, each over what those before it left in the cells, and then what was prepared is put
//! in place. Where memory is refused, what was changed is put back, also what rules closed of other triggers.

ghost use Rattle.std.specs.Prelude.{◌≡◌, ◌≤◌, ◌+◌, ◌∷◌, ◌++◌, [], ℕ, List, length, filter, Some, is_some, IfSome, IfOk, OnOk, OnErr, if◌then◌else◌};
ghost use Rattle.std.specs.List.{list_any};
ghost use Rattle.zbx_types.specs.declared.entries.Entry.TheVariants.{Value};
ghost use Rattle.zbx_types.specs.declared.entries.Numbered.{Numbered};
ghost use Rattle.zbx_types.specs.declared.entries.Stored.{Stored};
ghost use Rattle.trigger_state.specs.Stages.{OwnsEvents};
ghost use Rattle.entry_step.specs.Start.{Start};
ghost use Rattle.entry_step.specs.Log.{Suits};
ghost use Rattle.preprocess.specs.Visits.{memory_in};
ghost use Rattle.value_cache.specs.Tokens.{CacheId, AreOf};
ghost use Rattle.preprocess.specs.Draft.{stored_at, AreApart, AreIn, HaveRoom};
ghost use Rattle.preprocess.specs.Cells.{Becomes};
ghost use Rattle.entry_step.specs.History.{visits_at};
ghost use Rattle.entry_step.specs.Records.{evaluated, triggers_at, out_of, replay};
ghost use Rattle.conf_index.specs.Timed.{timed_triggers};
ghost use Rattle.entry_step.specs.Calls.{AreSeenIn};
ghost use Rattle.entry_step.specs.Kept.{still_to_come, SeesFor};
ghost use Rattle.entry_step.specs.Represents.{Holds, StepsTo, problems_at};
ghost use Rattle.entry_step.specs.Changes.{is_asked, outcome_records, outcome_rows, put_back, AreTidy, RunsOver, RunsOn, Absorbed, Drafted, TakesIn, TakesTick};
ghost use Rattle.conf_index.specs.Index.{triggers_under};

use crate::call_values::values_of;
use crate::calls::{Calls, Scene};
use crate::cells::Cells;
use crate::changes::{Draft, TriggerOutcome, put_back};
use crate::due::run_due;
use crate::occasions::{Occasion, occasion_of};
use crate::opens::Looked;
use crate::records::judge;
use crate::steps::Steps;
use conf_index::Ready;
use preprocess::{Prepared, commit};
use std::alloc::Global;
use std::sync::ledger::Ledger;
use trigger_state::{Open, held_by};
use value_cache::Cache;
use zbx_types::{Conf, Entry, Many, Moment, Numbered, OutOfMemory, Rec, Text, by_id};

/// Whether the trigger with an id is evaluated: where values are to be stored, it has a call over an item that is to
/// store one.
fn is_asked(conf: &Conf, coming: &Option<preprocess::Draft>, id: u32) -> bool
    ensures { result ≡ is_asked conf.now coming.now id }
{
    let Some(draft) = coming else {
        return true;
    };
    match by_id(conf.triggers.as_slice(), id) {
        None => false,
        Some(trigger) => trigger.enabled && stores_one(draft, trigger.call_items.as_slice()),
    }
}

/// Whether one of these items is to store a value.
fn stores_one(draft: &preprocess::Draft, items: &[u32]) -> bool
    ensures { result ≡ list_any (λ item. is_some (stored_at draft.now.visits item)) items.now }
{
    for item in items {
        if draft.token(*item).is_some() {
            return true;
        }
    }
    false
}

/// What the trigger with an id adds on an occasion. None: nothing changes.
#[tactic(auto, using(crate::proofs::Landing::evaluated_none))]
fn outcome_of(
    alloc: Global,
    scene: &Scene,
    problems: &[Many<Open>],
    id: u32,
) -> Result<Option<TriggerOutcome>, OutOfMemory>
    requires { AreSeenIn scene.now.cache.now scene.now.items.now scene.now.coming.now }
    ensures records { IfOk result (λ made. (histories : ℕ → List Stored)
        → SeesFor scene.now.ready.now.conf scene.now.items.now (still_to_come scene.now.coming.now)
        scene.now.occasion.now histories id
        → outcome_records made ≡ evaluated scene.now.ready.now scene.now.occasion histories (problems_at problems.now) id) }
    ensures rows { IfOk result (λ made. AreTidy scene.now.ready.now scene.now.occasion.number problems.now
        → Absorbed scene.now.ready.now problems.now (outcome_records made) (outcome_rows problems.now id made)) }
{
    let ready = scene.ready;
    let conf = ready.conf();
    let Some(trigger) = by_id(conf.triggers.as_slice(), id) else {
        return Ok(None);
    };
    let calls = Calls {
        ready,
        cache: scene.cache,
        items: scene.items,
        coming: scene.coming,
        occasion: scene.occasion,
        id,
        trigger,
    };
    let values = values_of(alloc, &calls)?;
    let held = held_by(ready.masters(id), &Looked { problems });
    judge(
        alloc,
        &calls,
        values.as_slice(),
        ready.plan(id),
        ready.recovery_plan(id),
        held,
        problems,
    )
}

/// Evaluates the trigger with an id on an occasion, if it is to be evaluated. What it had before is kept in the
/// draft, also at `Err`.
fn evaluate_one<L: Ledger>(
    alloc: Global,
    scene: &Scene,
    problems: &mut Vec<Many<Open>>,
    id: u32,
    draft: &mut Draft,
    steps: &mut Steps<L>,
) -> Result<(), OutOfMemory>
    requires { AreSeenIn scene.now.cache.now scene.now.items.now scene.now.coming.now }
    ensures same { put_back problems.new.items draft.new.taken ≡ put_back problems.old.items draft.old.taken }
    ensures runs { OnOk result (RunsOn scene.now.ready.now scene.now.occasion scene.now.items.now
        (still_to_come scene.now.coming.now) (is_asked scene.now.ready.now.conf scene.now.coming.now id) id
        draft.old.records problems.old.items draft.new.records problems.new.items) }
    ensures counted { OnOk result (steps.new ≡ steps.old
        + (if is_asked scene.now.ready.now.conf scene.now.coming.now id then 1 else 0)) }
    ensures most { steps.new ≤ steps.old + (if is_asked scene.now.ready.now.conf scene.now.coming.now id then 1 else 0) }
{
    if !is_asked(scene.ready.conf(), scene.coming, id) {
        return Ok(());
    }
    let rows = problems.as_slice();
    let outcome = outcome_of(alloc, scene, rows, id)?;
    draft.take(alloc, problems, id, outcome)?;
    steps.tick();
    Ok(())
}

/// Evaluates triggers on an occasion, one after another. What they had before is kept in the draft, also at `Err`.
fn evaluate_all<L: Ledger>(
    alloc: Global,
    scene: &Scene,
    problems: &mut Vec<Many<Open>>,
    ids: &[u32],
    draft: &mut Draft,
    steps: &mut Steps<L>,
) -> Result<(), OutOfMemory>
    requires cached { AreSeenIn scene.now.cache.now scene.now.items.now scene.now.coming.now }
    requires none { draft.old.records ≡ [] }
    ensures same { put_back problems.new.items draft.new.taken ≡ put_back problems.old.items draft.old.taken }
    ensures runs { OnOk result (RunsOver scene.now.ready.now scene.now.occasion scene.now.items.now
        (still_to_come scene.now.coming.now) problems.old.items
        (filter (is_asked scene.now.ready.now.conf scene.now.coming.now) ids.now) draft.new.records problems.new.items) }
    ensures counted { OnOk result (steps.new ≡ steps.old
        + length (filter (is_asked scene.now.ready.now.conf scene.now.coming.now) ids.now)) }
    ensures most { steps.new ≤ steps.old
        + length (filter (is_asked scene.now.ready.now.conf scene.now.coming.now) ids.now) }
{
    for id in ids {
        evaluate_one(alloc, scene, problems, *id, draft, steps)?;
    }
    Ok(())
}

/// Evaluates triggers on an occasion, and answers their records. At `Err` the open problems are as before.
fn evaluated<L: Ledger>(
    alloc: Global,
    scene: &Scene,
    problems: &mut Vec<Many<Open>>,
    ids: &[u32],
    steps: &mut Steps<L>,
) -> Result<Draft, OutOfMemory>
    requires { AreSeenIn scene.now.cache.now scene.now.items.now scene.now.coming.now }
    ensures same { IfOk result (λ draft. put_back problems.new.items draft.taken ≡ problems.old.items) }
    ensures runs { IfOk result (λ draft. RunsOver scene.now.ready.now scene.now.occasion scene.now.items.now
        (still_to_come scene.now.coming.now) problems.old.items
        (filter (is_asked scene.now.ready.now.conf scene.now.coming.now) ids.now) draft.records problems.new.items) }
    ensures counted { OnOk result (steps.new ≡ steps.old
        + length (filter (is_asked scene.now.ready.now.conf scene.now.coming.now) ids.now)) }
    ensures most { steps.new ≤ steps.old
        + length (filter (is_asked scene.now.ready.now.conf scene.now.coming.now) ids.now) }
    ensures err { OnErr result (problems.new.items ≡ problems.old.items) }
{
    let mut draft = Draft {
        records: Many::new(alloc),
        taken: Many::new(alloc),
    };
    match evaluate_all(alloc, scene, problems, ids, &mut draft, steps) {
        Ok(()) => Ok(draft),
        Err(OutOfMemory) => {
            put_back(alloc, problems, draft.taken);
            Err(OutOfMemory)
        }
    }
}

/// Takes a value of an item: it goes through its item and those that depend on it, and what they store goes into the
/// cells; the triggers over what is stored are evaluated, as if it were there already.
fn take_value<L: Ledger>(
    alloc: Global,
    ready: &Ready,
    cells: &mut Cells,
    occasion: &Occasion,
    item: u32,
    time: Moment,
    value: &Text,
    steps: &mut Steps<L>,
) -> Result<Many<Rec>, OutOfMemory>
    ensures cache { cells.new.cache ≡ cells.old.cache }
    ensures ok { IfOk result (λ made. TakesIn ready.now occasion.entry.now
        (visits_at ready.now.conf (memory_in cells.old.memories) occasion.entry.now.number
        (Value occasion.entry.now.now item time value.now))
        (triggers_at ready.now.conf (memory_in cells.old.memories) occasion.entry.now.number
        (Value occasion.entry.now.now item time value.now)) cells.old made cells.new) }
    ensures err { OnErr result (cells.new ≡ cells.old) }
    ensures counted { OnOk result (steps.new ≡ steps.old + length
        (triggers_at ready.now.conf (memory_in cells.old.memories) occasion.entry.now.number
        (Value occasion.entry.now.now item time value.now))) }
    ensures most { steps.new ≤ steps.old + length
        (triggers_at ready.now.conf (memory_in cells.old.memories) occasion.entry.now.number
        (Value occasion.entry.now.now item time value.now)) }
{
    let Prepared { draft, failures } = ready.prepare(
        alloc,
        &cells.cache,
        &mut cells.items,
        item,
        value,
        time,
        occasion.number,
    )?;
    take_draft(
        alloc,
        ready,
        &cells.cache,
        &mut cells.items,
        &mut cells.problems,
        occasion,
        item,
        Some(draft),
        failures,
        steps,
    )
}

/// Takes what was prepared of a value: the triggers over what it is to store are evaluated, and then it is put in
/// place.
fn take_draft<L: Ledger>(
    alloc: Global,
    ready: &Ready,
    cache: &Cache,
    items: &mut preprocess::Cells,
    problems: &mut Vec<Many<Open>>,
    occasion: &Occasion,
    item: u32,
    coming: Option<preprocess::Draft>,
    failures: Many<Rec>,
    steps: &mut Steps<L>,
) -> Result<Many<Rec>, OutOfMemory>
    requires cached { AreIn cache.now items.old.cells.items }
    requires tokens { IfSome coming (λ draft. AreOf cache.now draft.tokens) }
    requires apart { IfSome coming (λ draft. AreApart draft.visits) }
    requires room { IfSome coming (λ draft. HaveRoom items.old.cells.items draft.visits) }
    ensures of { AreIn cache.now items.new.cells.items }
    ensures made { IfOk result (λ made. Drafted ready.now occasion.entry.now coming
        (filter (is_asked ready.now.conf coming) (triggers_under ready.now.conf item)) failures items.old.cells.items
        problems.old.items made problems.new.items) }
    ensures came { OnOk result (IfSome coming (λ draft. Becomes occasion.entry.now.now draft.visits items.old
        items.new)) }
    ensures counted { OnOk result (steps.new ≡ steps.old + length
        (filter (is_asked ready.now.conf coming) (triggers_under ready.now.conf item))) }
    ensures most { steps.new ≤ steps.old + length (filter (is_asked ready.now.conf coming) (triggers_under ready.now.conf item)) }
    ensures items { OnErr result (items.new ≡ items.old) }
    ensures problems { OnErr result (problems.new.items ≡ problems.old.items) }
{
    let scene = Scene {
        ready,
        cache,
        items: items.cells(),
        coming: &coming,
        occasion: *occasion,
    };
    let draft = evaluated(alloc, &scene, problems, ready.over(item), steps)?;
    match behind(failures, draft.records) {
        Ok(records) => {
            settle(items, coming, occasion.now);
            Ok(records)
        }
        Err(OutOfMemory) => {
            put_back(alloc, problems, draft.taken);
            Err(OutOfMemory)
        }
    }
}

/// Puts in place what was prepared, if something was.
fn settle(items: &mut preprocess::Cells, coming: Option<preprocess::Draft>, now: Moment)
    requires apart { IfSome coming (λ draft. AreApart draft.visits) }
    requires room { IfSome coming (λ draft. HaveRoom items.old.cells.items draft.visits) }
    ensures becomes { IfSome coming (λ draft. Becomes now draft.visits items.old items.new) }
    ensures of { (cache : CacheId) → IfSome coming (λ draft. AreOf cache draft.tokens) → AreIn cache items.old.cells.items → AreIn cache items.new.cells.items }
{
    if let Some(draft) = coming {
        commit(items, draft, now);
    }
}

/// Failures, with the records of triggers behind them.
fn behind(failures: Many<Rec>, records: Many<Rec>) -> Result<Many<Rec>, OutOfMemory>
    ensures { IfOk result (λ all. all ≡ failures ++ records) }
{
    if failures.len() == 0 {
        return Ok(records);
    }
    let mut all = failures;
    all.append(records)?;
    Ok(all)
}

/// Takes a Tick: the triggers whose functions change with time are evaluated, and then the steps that are due run.
fn take_tick<L: Ledger>(
    alloc: Global,
    ready: &Ready,
    cells: &mut Cells,
    occasion: &Occasion,
    steps: &mut Steps<L>,
) -> Result<Many<Rec>, OutOfMemory>
    ensures cache { cells.new.cache ≡ cells.old.cache }
    ensures ok { IfOk result (λ made. TakesTick ready.now occasion.entry.now cells.old made cells.new) }
    ensures err { OnErr result (cells.new ≡ cells.old) }
    ensures counted { OnOk result (steps.new ≡ steps.old + length (timed_triggers ready.now.conf)) }
    ensures most { steps.new ≤ steps.old + length (timed_triggers ready.now.conf) }
{
    let scene = Scene {
        ready,
        cache: &cells.cache,
        items: cells.items.cells(),
        coming: &None,
        occasion: *occasion,
    };
    let mut draft = evaluated(alloc, &scene, &mut cells.problems, ready.timed(), steps)?;
    let now = occasion.now;
    match run_due(alloc, ready, now, &mut cells.problems, &mut draft.records) {
        Ok(()) => {
            cells.tick = occasion.tick;
            Ok(draft.records)
        }
        Err(OutOfMemory) => {
            put_back(alloc, &mut cells.problems, draft.taken);
            Err(OutOfMemory)
        }
    }
}

/// Takes an entry, whatever cells these represent.
fn advance<L: Ledger>(
    alloc: Global,
    ready: &Ready,
    cells: &mut Cells,
    entry: &Numbered,
    steps: &mut Steps<L>,
) -> Result<Many<Rec>, OutOfMemory>
    ensures cache { cells.new.cache ≡ cells.old.cache }
    ensures made { IfOk result (λ made. StepsTo ready.now cells.old entry.now made cells.new) }
    ensures counted { OnOk result (steps.new ≡ steps.old + length
        (triggers_at ready.now.conf (memory_in cells.old.memories) entry.now.number entry.now.entry)) }
    ensures most { steps.new ≤ steps.old + length
        (triggers_at ready.now.conf (memory_in cells.old.memories) entry.now.number entry.now.entry) }
    ensures err { OnErr result (cells.new ≡ cells.old) }
{
    let occasion = occasion_of(cells.tick, entry);
    match &entry.entry {
        Entry::Config { .. } => Ok(Many::new(alloc)),
        Entry::Tick { .. } => take_tick(alloc, ready, cells, &occasion, steps),
        Entry::Value {
            item,
            time,
            value,
            ..
        } => take_value(alloc, ready, cells, &occasion, *item, *time, value, steps),
    }
}

/// Takes an entry: answers the records that it makes, in their order, and brings the cells up to it.
///
/// The cells must represent cells to which the entry comes after, the entry's events must be its own, which they are
/// where each event of another configuration is of an earlier entry, and the entry's value must fit this configuration;
/// else the answer means nothing, and the cells are of no more use. Cells that hold a log are such cells, where the
/// log with the entry suits.
///
/// One step is counted for each trigger that is evaluated. `Err` where no memory is to be had. The cells are then as
/// before, no more steps are counted than the entry has triggers to evaluate, and the entry may be taken again.
///
/// Only the triggers over a value's item are looked at, and at a Tick those with a function of time and, where there
/// are actions, the problems that are open. For a new problem of a trigger that a rule of global correlation reaches,
/// all problems that are open are looked at.
pub fn step<L: Ledger>(
    alloc: Global,
    ready: &Ready,
    cells: &mut Cells,
    entry: &Numbered,
    steps: &mut Steps<L>,
) -> Result<Many<Rec>, OutOfMemory>
    ensures cache { cells.new.cache ≡ cells.old.cache }
    ensures made { IfOk result (λ made. StepsTo ready.now cells.old entry.now made cells.new) }
    ensures out { IfOk result (λ made. (start : Start) (log : List Numbered) → start.stage ≡ ready.now
        → OwnsEvents start.stage entry.now.number → Holds start cells.old log → Suits start (entry.now ∷ log)
        → made ≡ out_of start log entry.now entry.now.entry (start.records ++ replay start log)) }
    ensures holds { OnOk result ((start : Start) (log : List Numbered) → start.stage ≡ ready.now
        → OwnsEvents start.stage entry.now.number → Holds start cells.old log → Suits start (entry.now ∷ log)
        → Holds start cells.new (entry.now ∷ log)) }
    ensures counted { OnOk result (steps.new ≡ steps.old + length
        (triggers_at ready.now.conf (memory_in cells.old.memories) entry.now.number entry.now.entry)) }
    ensures most { steps.new ≤ steps.old + length
        (triggers_at ready.now.conf (memory_in cells.old.memories) entry.now.number entry.now.entry) }
    ensures err { OnErr result (cells.new ≡ cells.old) }
{
    advance(alloc, ready, cells, entry, steps)
}
