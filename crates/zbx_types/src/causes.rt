//! Why a configuration is refused.

/// Why a configuration document is refused (this project's own). `at` counts the bytes of the text at fault from 0.
#[derive(Clone, Copy, Debug, PartialEq, Eq)]
pub enum Cause {
    /// The document has too many bytes.
    TooLong,
    /// The document is no JSON.
    NotJson,
    /// A member is missing, of another kind or outside its values.
    BadMember,
    /// A name stands twice where each stands once.
    Duplicate,
    /// A list has too many elements.
    TooMany,
    /// A name is that of nothing in the document.
    UnknownName,
    /// Templates, master items or triggers follow one another in a circle.
    Cycle,
    /// An item's key isn't one.
    BadKey { at: u32 },
    /// A chain of master items is too long.
    TooDeep,
    /// A JSONPath isn't one.
    BadPath { at: u32 },
    /// A trigger's expression isn't one.
    BadExpression { at: u32 },
    /// A function doesn't take values of its item's type.
    WrongValueType,
}
