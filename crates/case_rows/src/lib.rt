//! Rows of cases: the lines that programs of cases read, and the bytes and long texts that a row writes in short.
//!
//! A program of cases shows what the contracts of calls say on values that come from outside. Each line of its standard
//! input is a row: the kind of the case, what is to come of it, and what it is of, with tabs between. An empty line, and
//! one that begins with `#`, is none. Bytes that can't stand in a line are written as `%HH`, as in addresses of the web,
//! and so is `%` itself; in some kinds a long text is written in short, with `<N*PIECE>` for a piece N times.
//!
//! ```text
//! read <tab> 1500000 <tab> 1.5
//! ```
#![tactic(auto)]

mod long_texts;
mod rows;

pub use long_texts::{long_text, number, shown};
pub use rows::{Row, bytes_of, row_of};
