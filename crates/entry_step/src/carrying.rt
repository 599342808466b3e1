//! Going over to a configuration that follows another one.

ghost use Rattle.std.specs.Prelude.{◌≡◌, map, IfOk, OnErr};
ghost use Rattle.entry_step.specs.InForce.{CarriesOver};
ghost use Rattle.entry_step.specs.Records.{recovery_of};

use crate::cells::Cells;
use crate::opens::Looked;
use conf_index::Ready;
use std::alloc::Global;
use trigger_state::{Carried, carry_over};
use zbx_types::{Cause2, EventId, Many, Moment, OutOfMemory, Rec};

/// The records of problems that are gone, at the entry with this number and moment.
fn removed(
    alloc: Global,
    gone: &[EventId],
    number: u64,
    now: Moment,
) -> Result<Many<Rec>, OutOfMemory>
    ensures { IfOk result (λ made. made ≡ map (recovery_of number now Cause2.Removed) gone.now) }
{
    let mut made = Many::new(alloc);
    for event in gone {
        made.push(Rec::Recovery {
            event: *event,
            by: number,
            now,
            cause: Cause2::Removed,
        })?;
    }
    Ok(made)
}

/// Goes over to a configuration that follows the old one, at the entry with this number and moment, a Config behind
/// others.
///
/// An item goes on as the item of the new configuration with the name of its host, its key and its value type: of its
/// values it keeps what the old configuration's calls ask for at this moment. What a step remembers goes on while it and
/// those before it are equal to the old ones. An open problem goes on with the trigger that has the names of its host and
/// of its trigger, where that has, in order, tags with the names of the problem's tags; the new configuration knows from
/// then on where it comes from. The result has a Recovery of each other open problem, with the cause Removed, in the order
/// of making: it makes no message, and no step is run (what goes on is this project's own).
///
/// [`OutOfMemory`] where there is no room: cells and configuration are then as before. It takes time by the number of
/// items, triggers, values that go on and open problems, and the lengths of their names.
pub fn carry(
    alloc: Global,
    old: &Ready,
    new: &mut Ready,
    cells: &mut Cells,
    number: u64,
    now: Moment,
) -> Result<Many<Rec>, OutOfMemory>
    ensures ok { IfOk result (λ made. CarriesOver old.now new.old.conf number now cells.old made new.new cells.new) }
    ensures cache { cells.new.cache ≡ cells.old.cache }
    ensures err { OnErr result ((cells.new ≡ cells.old) × (new.new ≡ new.old)) }
{
    let opens = Looked {
        problems: cells.problems.as_slice(),
    };
    let Carried {
        rows,
        gone,
        origins,
    } = carry_over(alloc, old.conf(), new.conf(), &opens, old.order())?;
    let made = removed(alloc, gone.as_slice(), number, now)?;
    let told = new.known(alloc, origins)?;
    cells.items.carry(alloc, old.conf(), new.conf(), now)?;
    cells.problems = rows;
    new.know(told);
    Ok(made)
}
