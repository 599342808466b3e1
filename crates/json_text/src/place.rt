//! Places in JSON texts.

use crate::frame::Read;
use crate::naming::Fields;
use crate::number::InNumber;
use crate::string::Spot;
use zbx_types::{Bytes, Text};

/// A place in a literal, `true`, `false` or `null`.
#[derive(Clone, Copy)]
pub(crate) enum InLiteral {
    /// Behind `t`.
    T,
    /// Behind `tr`.
    Tr,
    /// Behind `tru`.
    Tru,
    /// Behind `f`.
    F,
    /// Behind `fa`.
    Fa,
    /// Behind `fal`.
    Fal,
    /// Behind `fals`.
    Fals,
    /// Behind `n`.
    N,
    /// Behind `nu`.
    Nu,
    /// Behind `nul`.
    Nul,
}

/// What a string is: a value, or a name of an object with these members so far.
#[derive(Drop)]
pub(crate) enum Use {
    /// A value.
    ForValue,
    /// A name.
    ForName(Fields),
}

/// A place in a JSON text: what its bytes so far say of those that may follow.
#[derive(Drop)]
pub(crate) enum Mode {
    /// Before a value.
    Value,
    /// Behind the bracket that opens an array.
    FirstItem,
    /// Behind the bracket that opens an object.
    FirstName,
    /// Behind a comma in an object with these members.
    NextName(Fields),
    /// Behind a name of an object with these members.
    Named(Fields, Text),
    /// In a literal.
    Literal(InLiteral),
    /// In a number of these bytes.
    Number(InNumber, Bytes),
    /// In a string.
    String(Use, Spot),
    /// Behind a value.
    Done(Read),
}
