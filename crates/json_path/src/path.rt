//! Paths, as they stand behind their texts.

use thiserror::Error;
use zbx_types::{Many, OutOfMemory, Text};

/// A path: what it selects, step by step, and what is made of the selected values.
#[derive(Drop)]
pub struct Path {
    /// The segments, in order. Each selects from each value that the ones before it gave, the first one from the whole
    /// document.
    pub segments: Many<Segment>,
    /// The function at the end, if there is one.
    pub function: Option<Function>,
}

/// A segment of a path.
#[derive(Drop)]
pub struct Segment {
    /// It stands behind `..`: it selects from each value so far and from all values inside it.
    pub deep: bool,
    /// What it selects.
    pub selector: Selector,
}

/// What a segment selects from a value.
#[derive(Drop)]
pub enum Selector {
    /// The members of these names, in this order; one or more. `.name` has one.
    Names(Many<Text>),
    /// The elements at these places, in this order; one or more. Places count from 0, negative ones from the end, -1
    /// for the last.
    Indexes(Many<i64>),
    /// The elements from a place up to but not with another, in order. Places are counted as in `Indexes`.
    Slice {
        /// The place of the first one; none is 0.
        from: Option<i64>,
        /// The place behind the last one; none is the number of elements.
        to: Option<i64>,
    },
    /// All members or elements: `*`.
    All,
    /// The members or elements for which a condition holds.
    Where(Condition),
}

/// A condition on a member or an element `@`: the value behind its names is there, and compares so with the literal.
#[derive(Drop)]
pub struct Condition {
    /// The names from `@` to the value that is compared; none where it is `@` itself.
    pub names: Many<Text>,
    /// How it is compared.
    pub op: Comparison,
    /// With what it is compared.
    pub literal: Literal,
}

/// A comparison of a value, on the left, with a literal.
#[derive(Clone, Copy, Debug, PartialEq, Eq)]
pub enum Comparison {
    /// `==`: equal.
    Eq,
    /// `!=`: not equal.
    Ne,
    /// `<=`: at most.
    Le,
    /// `>=`: at least.
    Ge,
    /// `<`: less than.
    Lt,
    /// `>`: greater than.
    Gt,
}

/// What stands at the right of a comparison.
#[derive(Drop)]
pub enum Literal {
    /// A quoted text, without its quotes and with each escaped byte as it is.
    Words(Text),
    /// The text of a JSON number (RFC 8259, section 6).
    Number(Text),
}

/// A function at the end of a path.
#[derive(Clone, Copy, Debug, PartialEq, Eq)]
pub enum Function {
    /// `length()`: how many values there are.
    Length,
    /// `first()`: the first value.
    First,
    /// `min()`: the least number.
    Min,
    /// `max()`: the greatest number.
    Max,
    /// `sum()`: the sum of the numbers.
    Sum,
    /// `avg()`: the sum divided by how many there are.
    Avg,
}

/// Why a text gave no path.
#[derive(Clone, Copy, Debug, PartialEq, Eq, Error)]
pub enum PathError {
    /// The text is no path: the place of the first byte where no path goes on, counted from 0, or the length of the
    /// text where it ends before that.
    #[error("no path goes on at byte {0}")]
    At(u32),
    /// No memory was to be had.
    #[error("out of memory")]
    OutOfMemory,
}
