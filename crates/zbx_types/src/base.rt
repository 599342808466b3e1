//! Bases: the state that stands in place of a journal's entries, once these are copied to it (this project's own). No
//! journal has one yet.

ghost use Rattle.std.specs.Prelude.{◌≡◌, [], None};
ghost use Rattle.zbx_types.specs.Bases.{empty_base};

use crate::entries::Rec;
use crate::many::Many;
use crate::moment::Moment;
use crate::text::Text;
use std::alloc::Global;

/// What entries up to a number have left: the state from which a run goes on as if it had read them.
#[derive(Drop)]
pub struct Base {
    /// The number of the last of these entries, or 0 where there are none.
    pub number: u64,
    /// When that entry was taken.
    pub now: Moment,
    /// When the first Tick among them was taken, if there was one.
    pub first_tick: Option<Moment>,
    /// When the last Tick among them was taken, if there was one.
    pub last_tick: Option<Moment>,
    /// How many bytes the lines of all their records have.
    pub lines: u64,
    /// The configuration document in force behind them.
    pub text: Text,
    /// What each item of that configuration keeps, in the order of ids.
    pub items: Many<BaseItem>,
    /// The problems that are open behind them, in the order in which they were made.
    pub problems: Many<BaseProblem>,
}

/// What an item keeps.
#[derive(Drop)]
pub struct BaseItem {
    /// The values that a later window can ask for, by time, and those of one time by number.
    pub values: Many<BaseValue>,
    /// What each of its preprocessing steps remembers, in their order.
    pub steps: Many<BaseStep>,
}

/// A value that an item keeps.
#[derive(Drop)]
pub struct BaseValue {
    /// The moment that the value is of.
    pub time: Moment,
    /// The number of the entry that stored it.
    pub number: u64,
    /// The value as it is written.
    pub value: Text,
}

/// What a preprocessing step remembers of the last value that it marked.
#[derive(Drop)]
pub struct BaseStep {
    /// Whether it remembers one. Where it doesn't, its time is moment 0 and its value empty.
    pub there: bool,
    /// The moment that the value was of.
    pub time: Moment,
    /// The value that came to the step.
    pub value: Text,
}

/// An open problem.
#[derive(Drop)]
pub struct BaseProblem {
    /// Its Problem record.
    pub problem: Rec,
    /// The last step of each action that ran for it, in byte order of the actions' names.
    pub ran: Many<Ran>,
}

/// The last escalation step that an action ran for a problem.
#[derive(Drop)]
pub struct Ran {
    /// The action, by name.
    pub action: Text,
    /// The step's number, counted from 1.
    pub step: u32,
    /// When it ran.
    pub now: Moment,
}

impl Base {
    /// The base of no entries. Takes no memory.
    pub fn empty(alloc: Global) -> Base
        ensures { result ≡ empty_base }
    {
        Base {
            number: 0,
            now: Moment::zero(),
            first_tick: None,
            last_tick: None,
            lines: 0,
            text: Text::new(alloc),
            items: Many::new(alloc),
            problems: Many::new(alloc),
        }
    }
}
