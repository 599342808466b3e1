//! Values that are taken while a body is read.

ghost use Rattle.std.specs.Prelude.{◌≡◌, ◌+◌, [], ◌++◌, false, OnOk};
ghost use Rattle.intake_front.specs.Taking.{AllCollected, taken_of, agent_taken_of, entry_in, values_taken, data_taken};
ghost use Rattle.intake_front.specs.declared.origin.Origin.TheVariants.{Sender};

use crate::origin::Origin;
use crate::refusal::ValueRefusal;
use crate::taking::{agent_taken, taken};
use agent_json::AgentAsked;
use conf_index::Ready;
use sender_json::{Asked, Gatherer};
use std::alloc::Global;
use std::marker::Model;
use zbx_types::{Entry, Many, Moment, OutOfMemory};

/// What was taken of the values of a body.
#[derive(Drop)]
pub(crate) struct Taken {
    /// The values that are taken, as entries.
    pub(crate) group: Many<Entry>,
    /// How many values there were.
    pub(crate) total: u64,
}

/// By what the values of a body are taken, all at one moment. Contracts see the configuration and the moment.
#[derive(Drop)]
pub(crate) struct Taking<'a> {
    ready: &'a Ready,
    moment: Moment,
    some_out: bool,
}

impl<'a> Model for Taking<'a> {
    ghost use Rattle.std.specs.Coded.{codes};
    ghost use Rattle.std.specs.Prelude.{◌≡◌, false};
    ghost use Rattle.zbx_types.specs.Tree.{tree_code};
    ghost use Rattle.intake_front.specs.Taking.{AllCollected, TakenBy};

    ghost Value = { TakenBy };

    ghost coded = { Prim.hlevel (codes, tree_code) };

    ghost view = { λ t. record { conf = t.ready.now.conf; moment = t.moment } };

    ghost invariant = { λ t. t.some_out ≡ false → AllCollected t.ready.now.conf t.moment };
}

impl<'a> Taking<'a> {
    /// Values are taken by this configuration at this moment, at which it is known of the maintenances whether some
    /// keeps values out.
    pub(crate) fn new(ready: &'a Ready, moment: Moment, some_out: bool) -> Taking<'a>
        requires { some_out ≡ false → AllCollected ready.now.conf moment }
        ensures conf { result.conf ≡ ready.now.conf }
        ensures moment { result.moment ≡ moment }
    {
        Taking {
            ready,
            moment,
            some_out,
        }
    }

    /// The entry that a value of a sender becomes, or the cause for which it is refused.
    fn of_sender(&self, asked: Asked) -> Result<Entry, ValueRefusal>
        ensures { result ≡ taken_of self.now.conf self.now.moment Sender asked }
    {
        taken(
            self.ready,
            self.moment,
            self.some_out,
            Origin::Sender,
            asked,
        )
    }

    /// The entry that an element of agent data becomes, or the cause for which it is refused.
    fn of_agent(&self, one: AgentAsked) -> Result<Entry, ValueRefusal>
        ensures { result ≡ agent_taken_of self.now.conf self.now.moment one }
    {
        agent_taken(self.ready, self.moment, self.some_out, one)
    }
}

fn nothing_taken(alloc: Global) -> Taken
    ensures group { result.group ≡ [] }
    ensures total { result.total ≡ 0 }
{
    Taken {
        group: Many::new(alloc),
        total: 0,
    }
}

/// Counts a value, and adds its entry where it is taken. More values than have a number in 64 bits can't be kept count
/// of.
fn add(taken: &mut Taken, one: Result<Entry, ValueRefusal>) -> Result<(), OutOfMemory>
    ensures group { OnOk result (taken.new.group ≡ taken.old.group ++ entry_in one) }
    ensures total { OnOk result (taken.new.total ≡ taken.old.total + 1) }
{
    let Some(total) = taken.total.checked_add(1) else {
        return Err(OutOfMemory);
    };
    taken.total = total;
    if let Ok(entry) = one {
        taken.group.push(entry)?;
    }
    Ok(())
}

impl<'a> Gatherer<Asked> for Taking<'a> {
    type Gathered = Taken;

    ghost of = { λ by all. values_taken by.conf by.moment all };

    fn none(&self, alloc: Global) -> Taken {
        nothing_taken(alloc)
    }

    #[tactic(auto, using(crate::proofs::Numbers::taken_more))]
    fn add(&self, gathered: &mut Taken, one: Asked) -> Result<(), OutOfMemory> {
        add(gathered, self.of_sender(one))
    }
}

impl<'a> Gatherer<AgentAsked> for Taking<'a> {
    type Gathered = Taken;

    ghost of = { λ by all. data_taken by.conf by.moment all };

    fn none(&self, alloc: Global) -> Taken {
        nothing_taken(alloc)
    }

    #[tactic(auto, using(crate::proofs::Numbers::taken_more))]
    fn add(&self, gathered: &mut Taken, one: AgentAsked) -> Result<(), OutOfMemory> {
        add(gathered, self.of_agent(one))
    }
}
