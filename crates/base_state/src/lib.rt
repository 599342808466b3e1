//! Cells from a base, and a base from cells.
//!
//! A base is the state that stands in place of a log's entries. [`restore`] gives the cells of a run that begins with one:
//! they hold the start that the base is, so that the run goes on as if it had read the entries. [`base_of`] gives the base
//! of what a run holds, and [`fits`] tells whether a base fits a configuration, exactly where the definition says so.
#![tactic(auto)]

mod fitting;
mod fitting_items;
mod fitting_problems;
pub mod laws;
mod place;
mod problems;
mod restoring;
mod telling;
mod values;

pub use fitting::fits;
pub use place::Place;
pub use restoring::restore;
pub use telling::base_of;
