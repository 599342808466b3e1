//! The values that an item keeps for the functions of expressions.
//!
//! The public contract: [`ItemCell::window`] gives the window of everything that was ever inserted into the cell,
//! whatever the order in which it came, as long as it asks for no more than the cell's [`Keep`], which [`keeps`] takes
//! from a configuration.
//!
//! A cell stands for a history, the list of all values that were inserted, by time, and of values with one time by the
//! number of their entry. What it hands out has the oldest first; definitions of histories have the latest first. After
//! each insert it has exactly what the `Keep` asks for at that moment: the values of the last `period` seconds, and the
//! latest `count` of those before. So it may be read at any moment that isn't before that of the last insert, and a
//! value that comes late takes its place as if it had come in time. What follows over many inserts stands in [`laws`].
//!
//! ```text
//! #2                  the latest two values
//! #2 with a shift     the latest two of those at or before now less the shift
//! 5m                  those after now less five minutes, up to now; the value at that very moment isn't in it
//! 5m with a shift     the same, a shift earlier
//! ```
//!
//! An insert of the latest value costs the same at any length of the history, and a late one at most what is kept. The
//! ends of a window are found by search. A window can be copied, or lent as it lies, also beside a value that isn't
//! inserted yet.
//!
//! The values themselves stand once, in a [`Cache`], a vector that only grows and that threads share without waiting for
//! each other. A cell has a [`Token`] of each of its values: an index of the cache, with the time and the number by which
//! values are ordered. So windows are found in the cell alone, a copy of a cell copies no value, and two cells over one
//! cache are the same where their indexes are. Who reads a value has the cache of its token; [`Values`] are those of a
//! window where they stand.
//!
//! ```text
//! let cache = Cache::new(alloc)?;
//! let mut cell = ItemCell::new(alloc, Keep { count: 2, period: 300 });
//! cell.insert(&cache, stored, now)?;                                // refused: the value comes back in the error
//! let latest = cell.window(alloc, &cache, Range::Count(2), 0, now)?;   // the older one first
//! let tokens = cell.window_slice(Range::Count(2), 0, now);          // their tokens; nothing is copied
//! let values = Values::cached(&cache, tokens);
//! ```
#![tactic(auto)]

mod beside;
mod cache;
mod cell;
mod keeping;
pub mod laws;
mod placing;
mod row;
mod same;
mod token;
mod trimming;
mod values;
mod windows;

pub use beside::Window;
pub use cache::Cache;
pub use cell::ItemCell;
pub use keeping::{Keep, keeps, seconds_in};
pub use token::{Place, Token};
pub use values::Values;
