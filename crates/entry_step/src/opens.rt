//! Open problems of a trigger: copies, and how they are looked up.

ghost use Rattle.std.specs.Prelude.{◌≡◌, IfOk};
ghost use Rattle.trigger_state.specs.Problems.{absorbed_all};
ghost use Rattle.entry_step.specs.Represents.{problems_at};

use std::alloc::Global;
use trigger_state::{InForce, Open, Opens, absorb_into};
use zbx_types::{Many, OutOfMemory, Rec, by_id};

/// The open problems of the trigger with an id.
#[tactic(auto, unfolding(crate::specs::Represents::problems_at))]
pub(crate) fn problems_at(problems: &[Many<Open>], id: u32) -> &[Open]
    ensures { result.now ≡ problems_at problems.now id }
{
    match by_id(problems, id) {
        None => &[],
        Some(opens) => opens.as_slice(),
    }
}

/// The open problems of each trigger, by its id.
#[derive(Clone, Copy)]
pub(crate) struct Looked<'a> {
    pub(crate) problems: &'a [Many<Open>],
}

impl<'a> Opens for Looked<'a> {
    ghost problems = { λ l id. problems_at l.problems.now id };

    fn open(&self, trigger: u32) -> &[Open] {
        problems_at(self.problems, trigger)
    }
}

/// Copies of open problems.
pub(crate) fn copies(alloc: Global, opens: &[Open]) -> Result<Many<Open>, OutOfMemory>
    ensures { IfOk result (λ made. made ≡ opens.now) }
{
    let mut made = Many::new(alloc);
    for one in opens {
        made.push(one.copy(alloc)?)?;
    }
    Ok(made)
}

/// The open problems of the trigger with an id, brought up to more records.
pub(crate) fn absorbed(
    alloc: Global,
    stage: &InForce,
    id: u32,
    opens: Many<Open>,
    more: &[Rec],
) -> Result<Many<Open>, OutOfMemory>
    ensures { IfOk result (λ made. made ≡ absorbed_all stage.now id opens more.now) }
{
    let mut made = opens;
    for rec in more {
        absorb_into(alloc, stage, id, &mut made, rec)?;
    }
    Ok(made)
}

/// Copies of the open problems of the trigger with an id, brought up to more records.
pub(crate) fn absorbed_row(
    alloc: Global,
    stage: &InForce,
    id: u32,
    opens: &[Open],
    more: &[Rec],
) -> Result<Many<Open>, OutOfMemory>
    ensures { IfOk result (λ made. made ≡ absorbed_all stage.now id opens.now more.now) }
{
    absorbed(alloc, stage, id, copies(alloc, opens)?, more)
}
