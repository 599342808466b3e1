//! The operators of `count` and `find`.

ghost use Rattle.std.specs.Prelude.{◌≡◌, IfOk};
ghost use Rattle.zbx_types.specs.Operators.{named, operator_of, pattern_of};

use crate::memory::OutOfMemory;
use crate::text::{Text, same_text};
use std::alloc::Global;
use std::convert::AsStr;

/// An operator (the Zabbix 6.0 manual, "History functions", count).
#[derive(Clone, Copy, Debug, PartialEq, Eq)]
pub enum Operator {
    /// None is written, nor an argument: any value matches.
    Any,
    /// None is written: `eq` on a number, `like` on a text.
    Unwritten,
    /// `eq`: equal.
    Eq,
    /// `ne`: not equal.
    Ne,
    /// `gt`: greater.
    Gt,
    /// `ge`: at least.
    Ge,
    /// `lt`: less.
    Lt,
    /// `le`: at most.
    Le,
    /// `like`: contains.
    Like,
    /// `regexp`: a pattern is found.
    Regexp,
    /// `iregexp`: a pattern is found, in any case of its letters.
    Iregexp,
    /// Any other name: nothing matches.
    Other,
}

fn word(op: &[u8]) -> Operator
    ensures { result ≡ named op.now }
{
    if same_text(op, b"eq") {
        Operator::Eq
    } else if same_text(op, b"ne") {
        Operator::Ne
    } else if same_text(op, b"gt") {
        Operator::Gt
    } else if same_text(op, b"ge") {
        Operator::Ge
    } else if same_text(op, b"lt") {
        Operator::Lt
    } else if same_text(op, b"le") {
        Operator::Le
    } else if same_text(op, b"like") {
        Operator::Like
    } else if same_text(op, b"regexp") {
        Operator::Regexp
    } else if same_text(op, b"iregexp") {
        Operator::Iregexp
    } else {
        Operator::Other
    }
}

/// The operator of a call, of its two arguments behind the range, each empty where it is absent.
pub fn operator_of(op: &[u8], arg: &[u8]) -> Operator
    ensures { result ≡ operator_of op.now arg.now }
{
    if op.is_empty() {
        if arg.is_empty() {
            Operator::Any
        } else {
            Operator::Unwritten
        }
    } else {
        word(op)
    }
}

/// The pattern that an operator searches for: of `regexp` the argument, of `iregexp` the argument behind `(?i)`; no other
/// operator has one. [`OutOfMemory`] where there is no room for its copy.
pub fn pattern_of(
    alloc: Global,
    operator: Operator,
    arg: &Text,
) -> Result<Option<Text>, OutOfMemory>
    ensures { IfOk result (λ pattern. pattern ≡ pattern_of operator arg.now) }
{
    match operator {
        Operator::Regexp => Ok(Some(arg.copy(alloc)?)),
        Operator::Iregexp => {
            let mut pattern = Text::of(alloc, "(?i)")?;
            pattern.push_str(arg.as_str())?;
            Ok(Some(pattern))
        }
        Operator::Any
        | Operator::Unwritten
        | Operator::Eq
        | Operator::Ne
        | Operator::Gt
        | Operator::Ge
        | Operator::Lt
        | Operator::Le
        | Operator::Like
        | Operator::Other => Ok(None),
    }
}
